//! Runs files of cases against the service: what is sent, what must come back, and how the connection must end.
#![tactic(auto)]

use file_run::run_text;
use std::io::Write;
use std::process::ExitCode;
use std::rt::{Env, Files};
use std::{env, fs, io};
use tally::Tally;

mod case;
mod cases_file;
mod clock;
mod creation;
mod file_run;
mod line_fault;
mod lines;
mod report;
mod running;
mod service;
mod tally;
mod texts;

/// How the program ends, with its exit status.
#[derive(Clone, Copy, PartialEq, Eq)]
enum Ending {
    /// Each case holds.
    Holds = 0,
    /// A case differs.
    Differs = 1,
    /// A file was not read to its end, or what is printed could not be written.
    Stopped = 2,
}

fn main(rt: HostRuntime) -> ExitCode {
    let ending = match run_files(&rt) {
        Ok(ending) => ending,
        Err(error) => {
            let _ = eprintln!(rt; "{error}");
            Ending::Stopped
        }
    };
    ExitCode::from(ending as u8)
}

/// Runs the files that the arguments name, prints a line for each case that differs, and prints the count.
fn run_files<R: Env + Files + AllocGlobal + Print + Eprint>(rt: &R) -> io::Result<Ending> {
    let mut tally = Tally::NONE;
    for file in env::args(rt)?.skip(1) {
        match run_file(rt, file.as_str(), tally)? {
            Some(counted) => tally = counted,
            None => return Ok(Ending::Stopped),
        }
    }
    let line = tally.line(rt.alloc())?;
    io::writer(rt).write_all(line.as_bytes())?;
    Ok(if tally.all_hold() {
        Ending::Holds
    } else {
        Ending::Differs
    })
}

/// Runs the cases of a file. If the file is not read to its end, standard error gets a line that says why.
fn run_file<R: Files + AllocGlobal + Print + Eprint>(
    rt: &R,
    file: &str,
    tally: Tally,
) -> io::Result<Option<Tally>> {
    let text = match fs::read_to_string(rt, file) {
        Ok(text) => text,
        Err(error) => {
            eprintln!(rt; "{file}: {error}")?;
            return Ok(None);
        }
    };
    match run_text(rt.alloc(), &mut io::writer(rt), file, text.as_str(), tally) {
        Ok(tally) => Ok(Some(tally)),
        Err(fault) => {
            eprintln!(rt; "{file}:{fault}")?;
            Ok(None)
        }
    }
}
