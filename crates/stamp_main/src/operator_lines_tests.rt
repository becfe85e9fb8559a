//! Lines of an operator, read from memory.
ghost use Rattle.std.specs.Prelude.{◌≡◌, ◌∷◌, []};
ghost use Rattle.served_history.specs.declared.entry.Entry.TheVariants.{Opened};

use crate::console::{Console, Input};
use crate::serving_tests::first_pairs;
use access_rules::Keys;
use served_history::{Account, NewHistory};
use served_slots::{Operator, Slots};
use stamp_types::Text;
use std::alloc::Global;
use std::marker::Brand;
use std::process::Abort;
use std::sync::Wait;
use std::sync::atomic::AtomicBool;
use std::test::Fail;

// Both keys are replaced, the first one once more by the same key. Then come lines that ask for nothing. The last line has no end.
const LINES: &[u8] =
    b"rotate first bmV3MQ==\nrotate second bmV3Mg==\nrotate first bmV3MQ==\nrotate third bmV3MQ==\nRotate first bmV3MQ==\n\nrotate first \nrotate first bmV3M\nrotate first bmV3MQ== \nrotate second bmV3Mg==";

const ANSWERS: &[u8] =
    b"epoch 1\nepoch 2\nepoch 3\nrefused: a line is rotate first KEY, rotate second KEY or split CONTAINER\nrefused: a line is rotate first KEY, rotate second KEY or split CONTAINER\nrefused: a line is rotate first KEY, rotate second KEY or split CONTAINER\nrefused: the key is empty or not padded Base64\nrefused: the key is empty or not padded Base64\nrefused: the key is empty or not padded Base64\n";

// A slot is split twice. Then come names of no container, and a container with which a slot begins.
const SPLITS: &[u8] =
    b"split pics\nsplit zoo\nsplit \nsplit Pics\nsplit pics \nSplit pics\nsplit zoo\nrotate first bmV3MQ==\n";

const SPLIT_ANSWERS: &[u8] =
    b"split\nsplit\nrefused: the name is not a container's\nrefused: the name is not a container's\nrefused: the name is not a container's\nrefused: a line is rotate first KEY, rotate second KEY or split CONTAINER\nrefused: a slot begins with this container\nepoch 5\n";

const LONG: &[u8] = b"refused: the line has more than 4096 bytes\nepoch 4\n";

// What the lines are answered by an operator.
fn answers_to<A: Account, R: Wait + Abort>(
    rt: &R,
    alloc: Global,
    operator: &mut Operator<'_, A, R>,
    lines: &[u8],
) -> Vec<u8> {
    let mut console = Console::new(lines, Vec::new(alloc), Input::Ready);
    assert!(rt; console.attend(rt, operator, alloc, &AtomicBool::new(false)));
    console.into_answers()
}

// A line of 4,097 bytes, and a rotation after it.
fn long_lines(rt: &impl Abort, alloc: Global) -> Vec<u8> {
    let mut lines = Vec::new(alloc);
    for _ in 0..4097 {
        lines.push(b'x').expect(rt, "memory");
    }
    lines
        .extend_from_slice(b"\nrotate first bmV3MQ==\n")
        .expect(rt, "memory");
    lines
}

fn obeys<A: Account, R: Wait + Abort>(
    rt: &R,
    alloc: Global,
    pairs: Vec<Keys>,
    account: Text,
    history: NewHistory,
)
    requires book { history.book ≡ A.history }
    requires fresh { history.next ≡ 0 }
    requires log { history.log ≡ Opened pairs.items ∷ [] }
{
    let (slots, first) = Slots::<A>::new(alloc, pairs, history).expect(rt, "memory");
    let mut operator = Operator::new(rt, &slots, account, first);
    let answers = answers_to(rt, alloc, &mut operator, LINES);
    assert!(rt; answers.as_slice() == ANSWERS);
    let lines = long_lines(rt, alloc);
    let answers = answers_to(rt, alloc, &mut operator, &lines);
    assert!(rt; answers.as_slice() == LONG);
    let answers = answers_to(rt, alloc, &mut operator, SPLITS);
    assert!(rt; answers.as_slice() == SPLIT_ANSWERS);
}

#[test]
fn lines_of_an_operator_are_obeyed(rt: HostRuntime) -> Result<(), Fail> {
    let (account, pairs) = first_pairs(rt.alloc())?;
    let history = NewHistory::new(&pairs);
    obeys::<Brand, _>(&rt, rt.alloc(), pairs, account, history);
    Ok(())
}
