//! Runs the cases of one file.

use crate::case::Case;
use crate::cases_file::CasesFile;
use crate::line_fault::LineFault;
use crate::report::write_difference;
use crate::running::find_difference;
use crate::service::ServiceFault;
use crate::tally::Tally;
use std::alloc::Global;
use std::io::Write;
use thiserror::Error;

/// Why the cases of a file were not run to the end of the file.
#[derive(Clone, Copy, Debug, PartialEq, Eq, Error)]
pub(crate) enum Why {
    /// The line is refused.
    #[error("{0}")]
    Line(LineFault),
    /// The service, or the container of the case, could not be made.
    #[error("{0}")]
    Service(ServiceFault),
    /// The line for a case that differs could not be written.
    #[error("a write failed")]
    Write,
    /// There are more cases than can be counted.
    #[error("too many cases")]
    TooMany,
}

/// Why the run of a file stopped, and the number of the line that the message names.
#[derive(Clone, Copy, Debug, PartialEq, Eq, Error)]
#[error("{line}: {why}")]
pub(crate) struct Fault {
    pub(crate) line: usize,
    pub(crate) why: Why,
}

// Runs a case, writes a line if it differs, and says whether it holds.
fn run_case<W: Write>(alloc: Global, writer: &mut W, file: &str, case: &Case) -> Result<bool, Why> {
    let first = case.moments.first();
    let first = *first.ok_or(Why::Line(LineFault::NoMoment))?;
    match find_difference(alloc, case, first).map_err(Why::Service)? {
        Some(difference) => {
            write_difference(writer, file, case, &difference).map_err(|_| Why::Write)?;
            Ok(false)
        }
        None => Ok(true),
    }
}

// Reads a line. If the line ends a case, runs that case.
fn run_line<W: Write>(
    alloc: Global,
    writer: &mut W,
    file: &str,
    cases: &mut CasesFile,
    line: &str,
    number: usize,
    tally: Tally,
) -> Result<Tally, Why> {
    match cases.take_line(line, number).map_err(Why::Line)? {
        Some(case) => {
            let holds = run_case(alloc, writer, file, &case)?;
            tally.with(holds).ok_or(Why::TooMany)
        }
        None => Ok(tally),
    }
}

/// Runs the cases of the text of a file, writes a line for each case that differs, and counts the cases.
pub(crate) fn run_text<W: Write>(
    alloc: Global,
    writer: &mut W,
    file: &str,
    text: &str,
    tally: Tally,
) -> Result<Tally, Fault> {
    let mut cases = CasesFile::new(alloc);
    let mut number = 0usize;
    let mut tally = tally;
    for line in text.split('\n') {
        number = number.saturating_add(1);
        match run_line(alloc, writer, file, &mut cases, line, number, tally) {
            Ok(counted) => tally = counted,
            Err(why) => {
                drop(cases);
                return Err(Fault { line: number, why });
            }
        }
    }
    match cases.open_line() {
        Some(line) => Err(Fault {
            line,
            why: Why::Line(LineFault::NoEnd),
        }),
        None => Ok(tally),
    }
}
