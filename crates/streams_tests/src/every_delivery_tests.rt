//! Every list of six deliveries and three answers, against the plain model.
use crate::plain_stream::PlainStream;
use crate::sample_wires::script;
use crate::stream_samples::{append, block, read, settle};
use extent_node::Delivery;
use std::alloc::Global;
use std::process::Abort;
use stream_manager::Stream;

fn delivery(number: u32) -> Delivery {
    match number % 3 {
        0 => Delivery::Done,
        1 => Delivery::Refused,
        _ => Delivery::Lost,
    }
}

fn puts(case: u32) -> [Delivery; 6] {
    [
        delivery(case),
        delivery(case / 3),
        delivery(case / 9),
        delivery(case / 27),
        delivery(case / 81),
        delivery(case / 243),
    ]
}

fn asks(case: u32) -> [bool; 3] {
    [
        case / 729 % 2 == 1,
        case / 1458 % 2 == 1,
        case / 2916 % 2 == 1,
    ]
}

// Two appends, a settle and a read of each place that may have a block.
fn compare(rt: &impl Abort, alloc: Global, case: u32) {
    let mut plain = PlainStream::new(alloc, puts(case), asks(case));
    let mut stream = Stream::new(alloc, 268_435_456);
    let mut wire = script(rt, alloc, &puts(case), &asks(case));
    for byte in [1u8, 2] {
        let one = block(rt, alloc, byte, 1);
        let told = append(&mut stream, &one, &mut wire);
        assert_eq!(rt;
            told,
            plain.append(rt, byte),
            "append {byte} of case {case}"
        );
    }
    let told = settle(&mut stream, &mut wire);
    assert_eq!(rt; told, plain.settle(rt), "settle of case {case}");
    for place in 0..15u64 {
        let (extent, index) = (place / 3, place % 3);
        let told = read(&stream, extent, index, &mut wire);
        let wanted = plain.read(extent as usize, index as usize);
        assert_eq!(rt; told, wanted, "read at {extent}, {index} of case {case}");
    }
}

#[test]
fn every_delivery_does_what_the_plain_model_does(rt: HostRuntime) {
    for case in 0..5_832u32 {
        compare(&rt, rt.alloc(), case);
    }
}
