//! The audit file of a server, which the environment names.
ghost use Rattle.std.specs.Prelude.{◌≡◌, ◌⊎◌, IfErr};
ghost use Rattle.stamp_main.specs.declared.ending.Ending.TheVariants.{ListenerFault, NoMemory};

use crate::ending::Ending;
use audit_lines::Books;
use std::alloc::Global;
use std::env;
use std::env::VarError;
use std::fs::{File, OpenOptions};
use std::io::Write;
use std::rt::{Env, Files};

/// How many entries a book has at most. So many wait in memory until their lines are made.
const MOST_ENTRIES: usize = 8_192;

/// The books of a server, and the writer that gets their lines.
#[derive(Drop)]
pub(crate) struct Audit<W: Write + Drop> {
    pub(crate) books: Books,
    pub(crate) writer: W,
}

// The name of the audit file, which the environment variable `STAMP_AUDIT` has. `None` if the variable is not set, or empty.
fn audit_path(rt: &impl Env, alloc: Global) -> Result<Option<String>, Ending>
    ensures { IfErr result (λ ending. (ending ≡ ListenerFault) ⊎ (ending ≡ NoMemory)) }
{
    match env::var(&(rt, alloc), "STAMP_AUDIT") {
        Ok(path) if path.is_empty() => Ok(None),
        Ok(path) => Ok(Some(path)),
        Err(VarError::NotPresent) => Ok(None),
        Err(VarError::OutOfMemory) => Err(Ending::NoMemory),
        Err(_) => Err(Ending::ListenerFault),
    }
}

/// Books, and the file that the environment variable `STAMP_AUDIT` names, opened so that lines are added at its end. `None` if the variable
/// is not set, or empty.
///
/// `ListenerFault` if the file cannot be opened, or if its name is not UTF-8, and `NoMemory` if memory runs out for the name or a book.
pub(crate) fn open_audit<R: Env + Files<File = File>>(
    rt: &R,
    alloc: Global,
) -> Result<Option<Audit<File>>, Ending>
    ensures { IfErr result (λ ending. (ending ≡ ListenerFault) ⊎ (ending ≡ NoMemory)) }
{
    let Some(path) = audit_path(rt, alloc)? else {
        return Ok(None);
    };
    let Ok(books) = Books::new(alloc, MOST_ENTRIES) else {
        return Err(Ending::NoMemory);
    };
    let mut how = OpenOptions::new();
    how.append(true);
    how.create(true);
    match how.open(rt, &path) {
        Ok(writer) => Ok(Some(Audit { books, writer })),
        Err(_) => Err(Ending::ListenerFault),
    }
}
