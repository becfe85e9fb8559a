//! The lines by which an operator replaces a key of the account or splits a slot, and their answers.
ghost use Rattle.std.specs.Prelude.{◌≡◌, ◌≢◌, ◌⊎◌, ℕ, List, [], Err, IfErr, IfOk, None, option_map, string_bytes};
ghost use Rattle.hmac_sign.specs.Signature.{IsBytes, base64_of};
ghost use Rattle.stamp_main.specs.OperatorLines as lines;
ghost use Rattle.stamp_main.specs.OperatorLines.{Obeys, answer_text};
ghost use Rattle.stamp_main.specs.declared.operator_lines.Answer.TheVariants.{Epoch, Key, NoMemory};

use crate::splitting::{split_at, split_in};
use access_rules::{KeysFault, Which};
use hmac_sign::{SecretFault, SigningKey, read_key};
use served_history::Account;
use served_slots::Operator;
use std::alloc::{AllocError, Global};
use std::sync::Wait;

/// What a line that asks for another first key begins with.
const FIRST: &[u8] = b"rotate first ";

/// The same of the second key.
const SECOND: &[u8] = b"rotate second ";

/// The answer to a line.
#[derive(Clone, Copy, PartialEq, Eq)]
pub(crate) enum Answer {
    /// The key is replaced, and the new pair has this epoch.
    Epoch(u64),
    /// A slot is split at the container.
    Split,
    /// The line asks for neither a rotation nor a split.
    Form,
    /// The key is empty or not padded Base64.
    Key,
    /// The name is not one that a container may have.
    Name,
    /// A slot begins with the container.
    FirstKey,
    /// There are 256 slots.
    Full,
    /// The line is too long.
    Long,
    /// No epoch comes after the epoch of the pair in force.
    Last,
    /// Memory ran out.
    NoMemory,
}

// The key that a line asks to replace, and the text of the new key.
fn rotation_in(line: &[u8]) -> Option<(Which, &[u8])>
    ensures { option_map (λ asked. (asked.0, asked.1.now)) result ≡ lines.rotation_in line.now }
{
    if let Some(text) = line.strip_prefix(FIRST) {
        return Some((Which::First, text));
    }
    match line.strip_prefix(SECOND) {
        Some(text) => Some((Which::Second, text)),
        None => None,
    }
}

// The key that is given in Base64.
#[tactic(auto, using(crate::proofs::OperatorLemmas::key_of_text, crate::proofs::OperatorLemmas::text_of_key))]
fn key_in(alloc: Global, text: &[u8]) -> Result<SigningKey, Answer>
    ensures read { IfOk result (λ key. (text.now ≡ base64_of key) × IsBytes key × (key ≢ [])) }
    ensures refused { result ≡ Err Key → (key : List ℕ) → IsBytes key → key ≢ [] → text.now ≢ base64_of key }
    ensures failed { IfErr result (λ answer. (answer ≡ Key) ⊎ (answer ≡ NoMemory)) }
{
    if text.is_empty() {
        // It is the Base64 of the empty key, which everybody can guess.
        return Err(Answer::Key);
    }
    match read_key(alloc, text) {
        Ok(key) => Ok(SigningKey::new(key)),
        Err(SecretFault::NotBase64) => Err(Answer::Key),
        Err(SecretFault::NoMemory) => Err(Answer::NoMemory),
    }
}

// Does what a line asks for that does not ask for a rotation.
#[tactic(auto, using(crate::proofs::OperatorLemmas::obeyed))]
fn obey_other<A: Account, R: Wait>(
    operator: &Operator<'_, A, R>,
    alloc: Global,
    line: &[u8],
) -> Answer
    requires { lines.rotation_in line.now ≡ None }
    ensures { Obeys operator.now.known operator.now.account line.now result operator.now.known }
{
    match split_in(line) {
        Some(name) => split_at(operator, alloc, name),
        None => Answer::Form,
    }
}

/// Does what a line without its line feed asks for.
pub(crate) fn obey<A: Account, R: Wait>(
    operator: &mut Operator<'_, A, R>,
    alloc: Global,
    line: &[u8],
) -> Answer
    ensures obeyed { Obeys operator.old.known operator.old.account line.now result operator.new.known }
    ensures account { operator.new.account ≡ operator.old.account }
{
    let Some((which, text)) = rotation_in(line) else {
        return obey_other(operator, alloc, line);
    };
    let key = match key_in(alloc, text) {
        Ok(key) => key,
        Err(answer) => return answer,
    };
    match operator.rotate(alloc, which, &key) {
        Ok(epoch) => Answer::Epoch(epoch),
        Err(KeysFault::Last) => Answer::Last,
        Err(KeysFault::NoMemory) => Answer::NoMemory,
    }
}

// The answer that tells an epoch.
fn epoch_text(alloc: Global, epoch: u64) -> Result<String, AllocError>
    ensures { IfOk result (λ text. string_bytes text ≡ answer_text (Epoch epoch)) }
{
    let number = epoch.to_string(alloc)?;
    let mut text = String::from_str(alloc, "epoch ")?;
    text.push_str(&number)?;
    Ok(text)
}

impl Answer {
    /// The answer in words, which have no text of the line.
    pub(crate) fn text(self, alloc: Global) -> Result<String, AllocError>
        ensures { IfOk result (λ text. string_bytes text ≡ answer_text self) }
    {
        match self {
            Self::Epoch(epoch) => epoch_text(alloc, epoch),
            Self::Split => String::from_str(alloc, "split"),
            Self::Form => String::from_str(
                alloc,
                "refused: a line is rotate first KEY, rotate second KEY or split CONTAINER",
            ),
            Self::Key => String::from_str(alloc, "refused: the key is empty or not padded Base64"),
            Self::Name => String::from_str(alloc, "refused: the name is not a container's"),
            Self::FirstKey => String::from_str(alloc, "refused: a slot begins with this container"),
            Self::Full => String::from_str(alloc, "refused: there are 256 slots"),
            Self::Long => String::from_str(alloc, "refused: the line has more than 4096 bytes"),
            Self::Last => String::from_str(alloc, "refused: no epoch is left"),
            Self::NoMemory => String::from_str(alloc, "refused: out of memory"),
        }
    }
}
