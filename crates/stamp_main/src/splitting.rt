//! The line by which an operator splits a slot.
ghost use Rattle.std.specs.Prelude.{◌≡◌, IfOk, option_map, true};
ghost use Rattle.stamp_values.specs.Names as names;
ghost use Rattle.stamp_main.specs.OperatorLines as lines;
ghost use Rattle.stamp_main.specs.OperatorLines.{AnswersSplit, container_key};

use crate::operator_lines::Answer;
use served_history::Account;
use served_slots::{Operator, SplitFault};
use stamp_types::{Key, Text, container_ok};
use std::alloc::{AllocError, Global};
use std::str;
use std::sync::Wait;

/// What a line that asks for a split begins with.
const SPLIT: &[u8] = b"split ";

/// The name of the container at which a line asks to split a slot.
pub(crate) fn split_in(line: &[u8]) -> Option<&[u8]>
    ensures { option_map (λ name. name.now) result ≡ lines.split_in line.now }
{
    line.strip_prefix(SPLIT)
}

// The name of a container as a text.
#[tactic(auto, using(crate::proofs::OperatorLemmas::container_utf8, crate::proofs::OperatorLemmas::container_clean))]
fn text_of(alloc: Global, name: &[u8]) -> Result<Text, AllocError>
    requires { names.is_container name.now ≡ true }
    ensures { IfOk result (λ text. text ≡ name.now) }
{
    let Ok(name) = str::from_utf8(name) else {
        unreachable!("the name of a container is UTF-8");
    };
    match Text::new(String::from_str(alloc, name)?) {
        Some(text) => Ok(text),
        None => unreachable!("the name of a container is a text"),
    }
}

// The key of the operator's container with this name.
fn key_of<A: Account, R: Wait>(
    operator: &Operator<'_, A, R>,
    alloc: Global,
    name: &[u8],
) -> Result<Key, AllocError>
    requires { names.is_container name.now ≡ true }
    ensures { IfOk result (λ key. key ≡ container_key operator.now.account name.now) }
{
    let name = text_of(alloc, name)?;
    operator.container(name)
}

/// Splits the slot that has the container with this name. The upper half begins with this container.
pub(crate) fn split_at<A: Account, R: Wait>(
    operator: &Operator<'_, A, R>,
    alloc: Global,
    name: &[u8],
) -> Answer
    ensures { AnswersSplit operator.now.account name.now result }
{
    if !container_ok(name) {
        return Answer::Name;
    }
    let Ok(middle) = key_of(operator, alloc, name) else {
        return Answer::NoMemory;
    };
    match operator.split(alloc, &middle) {
        Ok(()) => Answer::Split,
        Err(SplitFault::FirstKey) => Answer::FirstKey,
        Err(SplitFault::Full) => Answer::Full,
        Err(SplitFault::NoMemory) => Answer::NoMemory,
    }
}
