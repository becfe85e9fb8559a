//! What the names of a path and the header lines say, by the rules F4 to F8 in their order.
ghost use Rattle.std.specs.Prelude.{MatchResult};
ghost use Rattle.request_form.specs.HeadReads.{AreFields, Denies, IsLine, Passes, field_rules};

use crate::denial::{HeadFault, denied};
use crate::parse::parsed_head::ParsedHead;
use crate::rules::f4_length::body_len;
use crate::rules::f5_names::{Names, read_names};
use crate::rules::f6_unserved::asks_the_unserved;
use crate::rules::f7_values::read_args;
use crate::rules::f8_body_limit::is_too_long;
use crate::rules::request_line::Line;
use crate::value_fault::ValueFault;
use stamp_types::{Args, Code, Rule};
use std::alloc::Global;

/// What the names of a path and the header lines say that no rule refuses.
#[derive(Drop)]
pub struct Fields {
    pub body_len: u64,
    pub names: Names,
    pub args: Args,
}

/// What the names and the header lines say. F4 reads the length and F5 the names. F6 refuses headers that are not served. F7 reads
/// the values, and F8 refuses a body that is too long.
///
/// `Denied` by the first of these rules that holds; `NoMemory` if memory runs out.
#[tactic(auto, unfolding(crate::specs::HeadRules::denial_among))]
pub(crate) fn read_fields(
    alloc: Global,
    head: &ParsedHead<'_>,
    line: &Line,
) -> Result<Fields, HeadFault>
    requires line { IsLine head.now line.now }
    ensures { MatchResult result
        (λ f. Passes head.now field_rules × AreFields head.now line.now.op f)
        (Denies head.now field_rules) }
{
    let verb = Some(line.verb);
    let body_len = match body_len(head, line.verb) {
        Ok(len) => len,
        Err(code) => return Err(HeadFault::Denied(denied(Rule::F4, code, verb))),
    };
    let Some(names) = read_names(alloc, line.op, line.target.path.as_slice())? else {
        let code = Code::InvalidResourceName;
        return Err(HeadFault::Denied(denied(Rule::F5, code, verb)));
    };
    if asks_the_unserved(head, line.verb, line.op) {
        drop(names);
        let code = Code::UnsupportedHeader;
        return Err(HeadFault::Denied(denied(Rule::F6, code, verb)));
    }
    let args = match read_args(alloc, head, line.op) {
        Ok(args) => args,
        Err(ValueFault::Refused(code)) => {
            drop(names);
            return Err(HeadFault::Denied(denied(Rule::F7, code, verb)));
        }
        Err(ValueFault::NoMemory) => {
            drop(names);
            return Err(HeadFault::NoMemory);
        }
    };
    if is_too_long(line.op, body_len) {
        drop(args);
        drop(names);
        let code = Code::RequestBodyTooLarge;
        return Err(HeadFault::Denied(denied(Rule::F8, code, verb)));
    }
    Ok(Fields {
        body_len,
        names,
        args,
    })
}
