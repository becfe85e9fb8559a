//! Reads a file of cases line by line.
ghost use Rattle.std.specs.Prelude.{◌≡◌, IfOk};

use crate::case::{Case, Made};
use crate::line_fault::LineFault;
use crate::lines::{
    Form, Word, read_account, read_count, read_end, read_keys, read_made, read_moment, read_name,
    read_number, read_word,
};
use crate::texts::{add_text, add_times};
use access_rules::Keys;
use hmac_sign::SigningKey;
use stamp_types::AccountName;
use std::alloc::Global;

/// A text that lines add by the name of the text.
#[derive(Drop)]
struct NamedText {
    name: String,
    bytes: Vec<u8>,
}

/// What holds for the cases after the lines that said it, until a line says something else.
#[derive(Drop)]
struct Setting {
    account: Option<AccountName>,
    keys: Option<(SigningKey, SigningKey)>,
    made: Option<Made>,
}

impl Setting {
    // The account and its keys as its first pair, if lines gave both.
    fn keys(&self) -> Result<Keys, LineFault>
        ensures { IfOk result (λ keys. keys.epoch ≡ 0) }
    {
        match (&self.account, &self.keys) {
            (Some(account), Some((first, second))) => {
                let account = account.clone()?;
                let first = first.clone()?;
                let second = second.clone()?;
                Ok(Keys {
                    account,
                    first,
                    second,
                    epoch: 0,
                })
            }
            _ => Err(LineFault::NoKeys),
        }
    }
}

/// What the lines of a file have said so far.
#[derive(Drop)]
pub(crate) struct CasesFile {
    alloc: Global,
    setting: Setting,
    texts: Vec<NamedText>,
    names: Vec<String>,
    open: Option<Case>,
}

impl CasesFile {
    /// A file before its first line is read.
    pub(crate) fn new(alloc: Global) -> Self {
        Self {
            alloc,
            setting: Setting {
                account: None,
                keys: None,
                made: None,
            },
            texts: Vec::new(alloc),
            names: Vec::new(alloc),
            open: None,
        }
    }

    /// Takes the line of this number, without its end. If the line ends a case, the answer is that case.
    pub(crate) fn take_line(
        &mut self,
        line: &str,
        number: usize,
    ) -> Result<Option<Case>, LineFault> {
        if line.is_empty() || line.starts_with('#') {
            return Ok(None);
        }
        let (word, text) = line.split_once(' ').unwrap_or((line, ""));
        let word = read_word(word).ok_or(LineFault::Word)?;
        if word == Word::End {
            return self.end_case(text).map(Some);
        }
        match &mut self.open {
            Some(case) => add_to_case(self.alloc, case, &self.texts, word, text)?,
            None => self.take_between(word, text, number)?,
        }
        Ok(None)
    }

    /// The line of the case that was begun and has no end, if a case was begun and has no end.
    pub(crate) fn open_line(&self) -> Option<usize> {
        match &self.open {
            Some(case) => Some(case.line),
            None => None,
        }
    }

    // Takes a line that is written between two cases.
    fn take_between(&mut self, word: Word, text: &str, number: usize) -> Result<(), LineFault> {
        match word {
            Word::Account => self.setting.account = Some(read_account(self.alloc, text)?),
            Word::Keys => self.setting.keys = Some(read_keys(self.alloc, text)?),
            Word::Made => self.setting.made = Some(read_made(text)?),
            Word::Text => self.begin_text(text)?,
            Word::Is => {
                let begun = self.texts.last_mut().ok_or(LineFault::NoText)?;
                add_text(&mut begun.bytes, text)?;
            }
            Word::Case => self.begin_case(text, number)?,
            _ => return Err(LineFault::NoCase),
        }
        Ok(())
    }

    fn begin_text(&mut self, text: &str) -> Result<(), LineFault> {
        let name = read_name(self.alloc, text)?;
        if find_text(&self.texts, text).is_some() {
            return Err(LineFault::NameTwice);
        }
        let bytes = Vec::new(self.alloc);
        self.texts.push(NamedText { name, bytes })?;
        Ok(())
    }

    fn begin_case(&mut self, text: &str, number: usize) -> Result<(), LineFault> {
        if self.names.iter().any(|name| name.as_str() == text) {
            return Err(LineFault::NameTwice);
        }
        self.names.push(read_name(self.alloc, text)?)?;
        let name = read_name(self.alloc, text)?;
        let keys = self.setting.keys()?;
        self.open = Some(Case::new(self.alloc, name, number, keys, self.setting.made));
        Ok(())
    }

    fn end_case(&mut self, text: &str) -> Result<Case, LineFault> {
        let end = read_end(text)?;
        let mut case = self.open.take().ok_or(LineFault::NoCase)?;
        case.end = end;
        Ok(case)
    }
}

// The bytes of the text that has this name.
fn find_text<'a>(texts: &'a [NamedText], name: &str) -> Option<&'a [u8]> {
    let text = texts.iter().find(|text| text.name.as_str() == name)?;
    Some(&text.bytes)
}

// Adds the bytes of a text, as often as the number before it says.
fn add_repeated(alloc: Global, bytes: &mut Vec<u8>, text: &str) -> Result<(), LineFault> {
    let (count, text) = text.split_once(' ').ok_or(LineFault::Number)?;
    let count = read_count(count)?;
    let mut once = Vec::new(alloc);
    add_text(&mut once, text)?;
    add_times(bytes, count, &once)
}

// Adds the bytes that a line gives in this form.
fn add_bytes(
    alloc: Global,
    bytes: &mut Vec<u8>,
    texts: &[NamedText],
    form: Form,
    text: &str,
) -> Result<(), LineFault> {
    match form {
        Form::Text => add_text(bytes, text),
        Form::Named => {
            let named = find_text(texts, text).ok_or(LineFault::UnknownText)?;
            Ok(bytes.extend_from_slice(named)?)
        }
        Form::Repeated => add_repeated(alloc, bytes, text),
    }
}

// Takes a line inside a case that does not end the case.
fn add_to_case(
    alloc: Global,
    case: &mut Case,
    texts: &[NamedText],
    word: Word,
    text: &str,
) -> Result<(), LineFault> {
    match word {
        Word::Moment => case.moments.push(read_moment(text)?)?,
        Word::Send(form) => add_bytes(alloc, &mut case.sent, texts, form, text)?,
        Word::Want(form) => add_bytes(alloc, &mut case.wanted, texts, form, text)?,
        Word::Reads => case.reads = read_number(text)?,
        Word::Piece => case.piece = Some(read_count(text)?),
        _ => return Err(LineFault::NoEnd),
    }
    Ok(())
}
