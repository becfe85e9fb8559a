//! The words of lines, and the values that their texts give.

use crate::case::Made;
use crate::line_fault::LineFault;
use hmac_sign::{SecretFault, SigningKey, read_key};
use http_front::{End, FrontFault};
use moment_text::read_iso;
use stamp_types::{AccountName, Moment, Text};
use std::alloc::Global;

/// How a line gives bytes: as a text, by the name of a text, or as a count and the text that is repeated.
#[derive(Clone, Copy, PartialEq, Eq)]
pub(crate) enum Form {
    Text,
    Named,
    Repeated,
}

/// The word that a line begins with.
#[derive(Clone, Copy, PartialEq, Eq)]
pub(crate) enum Word {
    Account,
    Keys,
    Made,
    Text,
    Is,
    Case,
    Moment,
    Send(Form),
    Want(Form),
    Reads,
    Piece,
    End,
}

/// The word that is written in this way.
pub(crate) fn read_word(word: &str) -> Option<Word> {
    match word {
        "account" => Some(Word::Account),
        "keys" => Some(Word::Keys),
        "made" => Some(Word::Made),
        "text" => Some(Word::Text),
        "is" => Some(Word::Is),
        "case" => Some(Word::Case),
        "moment" => Some(Word::Moment),
        "send" => Some(Word::Send(Form::Text)),
        "send-text" => Some(Word::Send(Form::Named)),
        "send-repeat" => Some(Word::Send(Form::Repeated)),
        "want" => Some(Word::Want(Form::Text)),
        "want-text" => Some(Word::Want(Form::Named)),
        "want-repeat" => Some(Word::Want(Form::Repeated)),
        "reads" => Some(Word::Reads),
        "piece" => Some(Word::Piece),
        "end" => Some(Word::End),
        _ => None,
    }
}

/// The number that the text writes in decimal.
pub(crate) fn read_number(text: &str) -> Result<u64, LineFault> {
    text.parse::<u64>().map_err(|_| LineFault::Number)
}

/// The number that the text writes in decimal, as a count of bytes or of repetitions.
pub(crate) fn read_count(text: &str) -> Result<usize, LineFault> {
    text.parse::<usize>().map_err(|_| LineFault::Number)
}

/// The moment that the text writes in one of the accepted shapes.
pub(crate) fn read_moment(text: &str) -> Result<Moment, LineFault> {
    read_iso(text.as_bytes()).map_err(|_| LineFault::Moment)
}

/// When the container is made: at the first moment of each case, or at the moment that the text writes.
pub(crate) fn read_made(text: &str) -> Result<Made, LineFault> {
    if text == "first" {
        return Ok(Made::First);
    }
    Ok(Made::At(read_moment(text)?))
}

/// The account that has this name.
pub(crate) fn read_account(alloc: Global, text: &str) -> Result<AccountName, LineFault> {
    let name = Text::new(String::from_str(alloc, text)?).ok_or(LineFault::Account)?;
    AccountName::new(name).ok_or(LineFault::Account)
}

// The key that is given in Base64, or as `-` if it has no bytes.
fn read_secret(alloc: Global, text: &str) -> Result<SigningKey, LineFault> {
    if text.is_empty() {
        return Err(LineFault::Keys);
    }
    let text = if text == "-" { "" } else { text };
    match read_key(alloc, text.as_bytes()) {
        Ok(key) => Ok(SigningKey::new(key)),
        Err(SecretFault::NotBase64) => Err(LineFault::Keys),
        Err(SecretFault::NoMemory) => Err(LineFault::NoMemory),
    }
}

/// The two keys of an account.
pub(crate) fn read_keys(alloc: Global, text: &str) -> Result<(SigningKey, SigningKey), LineFault> {
    let (first, second) = text.split_once(' ').ok_or(LineFault::Keys)?;
    let first = read_secret(alloc, first)?;
    let second = read_secret(alloc, second)?;
    Ok((first, second))
}

/// The end of a connection that this word names.
pub(crate) fn read_end(text: &str) -> Result<Result<End, FrontFault>, LineFault> {
    match text {
        "clean" => Ok(Ok(End::Clean)),
        "closed" => Ok(Ok(End::Closed)),
        "read" => Ok(Err(FrontFault::Read)),
        "turns" => Ok(Err(FrontFault::Turns)),
        _ => Err(LineFault::End),
    }
}

fn is_name_byte(byte: u8) -> bool {
    matches!(byte, b'a'..=b'z' | b'0'..=b'9' | b'_')
}

/// The name of a case or of a text.
pub(crate) fn read_name(alloc: Global, text: &str) -> Result<String, LineFault> {
    if text.is_empty() || !text.as_bytes().iter().all(|byte| is_name_byte(*byte)) {
        return Err(LineFault::Name);
    }
    Ok(String::from_str(alloc, text)?)
}
