//! What no clause says about reading block lists: that a body can be read, and that the grammar means the reference. Each good
//! body is beside its nearest neighbour that is refused.

use body_forms::BodyFault::{Form, Id};
use body_forms::{BodyFault, read_block_list};
use stamp_types::Lookup;
use std::alloc::Global;
use std::test::Fail;

// How many entries are read.
fn count(alloc: Global, body: &[u8]) -> Result<usize, BodyFault> {
    match read_block_list(alloc, body) {
        Ok(wanted) => Ok(wanted.as_slice().len()),
        Err(fault) => Err(fault),
    }
}

// Bodies, and how many entries each has.
type Rows = &'static [(&'static str, Result<usize, BodyFault>)];

fn lists() -> Rows {
    &[
        (
            "<BlockList><Latest>AAAA</Latest><Latest>AAAA</Latest></BlockList>",
            Ok(2),
        ),
        (
            "<BlockList><Latest>AAAA</Latest><Latest>AAAA</Latest>",
            Err(Form),
        ),
        (
            "<BlockList><Latest>AAAA</Latest>\r\n<Committed>AAAA</Committed>\r\n</BlockList>",
            Ok(2),
        ),
        (
            "<BlockList><Latest>AAAA</Latest>,<Committed>AAAA</Committed></BlockList>",
            Err(Form),
        ),
        ("<BlockList/>", Ok(0)),
        ("<BlockList></BlockList>", Ok(0)),
        ("<BlockList>", Err(Form)),
        ("<blocklist/>", Err(Form)),
        ("<BlockList><latest>AAAA</latest></BlockList>", Err(Form)),
        (
            "<BlockList><x:Latest>AAAA</x:Latest></BlockList>",
            Err(Form),
        ),
        ("<BlockList><Latest>AAAA</Committed></BlockList>", Err(Form)),
        ("<BlockList><Other/></BlockList>", Err(Form)),
        (
            "<BlockList><Latest><Latest/></Latest></BlockList>",
            Err(Form),
        ),
        ("<BlockList/>AAAA", Err(Form)),
        ("<BlockList/>\r\n", Ok(0)),
        ("<BlockList/><BlockList/>", Err(Form)),
        ("<Latest>AAAA</Latest>", Err(Form)),
        ("", Err(Form)),
        (" \r\n", Err(Form)),
    ]
}

fn tags() -> Rows {
    &[
        (
            " <BlockList\ta = \"1\"\r\nb='2' >\r\n<Latest c='' > AAAA\n</Latest\t></BlockList >",
            Ok(1),
        ),
        ("<BlockList a='1' a='1' />", Ok(0)),
        ("<BlockList a='1'a='1'/>", Err(Form)),
        ("<BlockList a=1/>", Err(Form)),
        ("<BlockList a/>", Err(Form)),
        ("<BlockList 1='1'/>", Err(Form)),
        ("<BlockList a='\">&amp;'/>", Ok(0)),
        ("<BlockList a='<'/>", Err(Form)),
        ("<BlockList a='&'/>", Err(Form)),
        ("<BlockList a='''/>", Err(Form)),
        ("<BlockList></BlockList a=''>", Err(Form)),
        ("< BlockList/>", Err(Form)),
        ("<BlockList></ BlockList>", Err(Form)),
        ("<BlockList / >", Err(Form)),
        ("<BlockList><!-- --></BlockList>", Err(Form)),
        ("<BlockList><![CDATA[]]></BlockList>", Err(Form)),
        ("<!DOCTYPE BlockList><BlockList/>", Err(Form)),
    ]
}

fn fronts() -> Rows {
    &[
        ("\u{feff}<?xml version='1.0'?>\n<BlockList/>", Ok(0)),
        ("\u{feff}\u{feff}<BlockList/>", Err(Form)),
        ("<BlockList a='\u{feff}'/>", Ok(0)),
        ("<?xml?><BlockList/>", Ok(0)),
        ("<?xml\n<>&??> <BlockList/>", Ok(0)),
        ("<?xmlx?><BlockList/>", Err(Form)),
        ("<?xml ?><?xml ?><BlockList/>", Err(Form)),
        ("<?php ?><BlockList/>", Err(Form)),
        (" <?xml ?><BlockList/>", Err(Form)),
        ("<?xml ?>", Err(Form)),
        ("<?xml <BlockList/>", Err(Form)),
        ("<BlockList a='\u{85}'/>", Ok(0)),
        ("<BlockList a='\t\r\n'/>", Ok(0)),
        ("<BlockList a='\u{0}'/>", Err(Form)),
        ("<BlockList a='\u{1f}'/>", Err(Form)),
        ("<BlockList a='\u{7f}'/>", Err(Form)),
        ("<BlockList a='\u{fffd}'/>", Ok(0)),
        ("<BlockList a='\u{fffe}'/>", Err(Form)),
        ("<?xml \u{ffff}?><BlockList/>", Err(Form)),
    ]
}

fn ids() -> Rows {
    &[
        ("<BlockList><Latest>AA==</Latest></BlockList>", Ok(1)),
        ("<BlockList><Latest>AA</Latest></BlockList>", Err(Id)),
        ("<BlockList><Latest>\tAA==\n</Latest></BlockList>", Ok(1)),
        ("<BlockList><Latest>AA AA</Latest></BlockList>", Err(Id)),
        ("<BlockList><Latest></Latest></BlockList>", Err(Id)),
        ("<BlockList><Latest/></BlockList>", Err(Id)),
        ("<BlockList><Latest>AA&amp;A</Latest></BlockList>", Err(Id)),
        ("<BlockList><Latest>AA&am;A</Latest></BlockList>", Err(Form)),
        (
            "<BlockList><Latest>&#65;AAA</Latest></BlockList>",
            Err(Form),
        ),
        ("<BlockList><Latest>A]]></Latest></BlockList>", Err(Id)),
        (
            "<BlockList><Latest>*</Latest><Latest>AAAA</Latest></BlockList>",
            Err(Id),
        ),
        (
            "<BlockList><Latest>*</Latest><Latest>AAAA</BlockList>",
            Err(Form),
        ),
        // 64 bytes, and 65 bytes.
        (
            "<BlockList><Latest>AAAAAAAAAAAAAAAAAAAAAAAAAAAAAAAAAAAAAAAAAAAAAAAAAAAAAAAAAAAAAAAAAAAAAAAAAAAAAAAAAAAAAA==</Latest></BlockList>",
            Ok(1),
        ),
        (
            "<BlockList><Latest>AAAAAAAAAAAAAAAAAAAAAAAAAAAAAAAAAAAAAAAAAAAAAAAAAAAAAAAAAAAAAAAAAAAAAAAAAAAAAAAAAAAAAAA=</Latest></BlockList>",
            Err(Id),
        ),
    ]
}

#[test]
fn bodies_are_read_or_refused(rt: HostRuntime) -> Result<(), Fail> {
    for rows in [lists(), tags(), fronts(), ids()] {
        for (body, wanted) in rows {
            assert!(rt; count(rt.alloc(), body.as_bytes()) == *wanted, "of {body}");
        }
    }
    Ok(())
}

#[test]
fn an_entry_has_its_lookup_and_its_id(rt: HostRuntime) -> Result<(), Fail> {
    let body = b"<BlockList><Committed> AAEC </Committed></BlockList>";
    let read = read_block_list(rt.alloc(), body).ok();
    let same = match &read {
        Some(wanted) => match wanted.as_slice() {
            [block] => block.lookup == Lookup::Committed
                && block.id.as_slice() == [0, 1, 2].as_slice(),
            _ => false,
        },
        None => false,
    };
    assert!(rt; same);
    Ok(())
}

#[test]
fn a_body_is_utf8(rt: HostRuntime) -> Result<(), Fail> {
    assert!(rt; count(rt.alloc(), b"<BlockList a='\xc3\xa4'/>") == Ok(0));
    assert!(rt; count(rt.alloc(), b"<BlockList a='\xff'/>") == Err(Form));
    Ok(())
}
