//! Runs a case against the service, with input and output in memory.
ghost use Rattle.std.specs.Prelude.{◌≡◌, ◌↔◌, IsTrue};

use crate::case::Case;
use crate::clock::Moments;
use crate::service::{ServiceFault, make_service};
use http_front::{Connection, End, FrontFault, run};
use stamp_types::Moment;
use std::alloc::Global;
use std::io;
use std::io::Read;

/// How many bytes a read gives at most, for an input of any length.
const LARGE_PIECE: usize = 8192;

/// How many bytes a read gives at most when an input of at most `SMALL_INPUT` bytes is read again.
const SMALL_PIECES: [usize; 2] = [7, 1];

const SMALL_INPUT: usize = 65_536;

/// Gives at most `most` bytes at each read.
#[derive(Drop)]
struct Pieces<'a> {
    rest: &'a [u8],
    most: usize,
}

impl Read for Pieces<'_> {
    fn read(&mut self, buf: &mut [u8]) -> io::Result<usize> {
        let n = self.most.min(buf.len());
        self.rest.read(&mut buf[..n])
    }
}

/// What a run wrote, and how it ended.
#[derive(Drop)]
pub(crate) struct Outcome {
    pub(crate) written: Vec<u8>,
    pub(crate) ended: Result<End, FrontFault>,
}

/// How many bytes a read gave at most in a run that was not as its case wants it, and that run.
#[derive(Drop)]
pub(crate) struct Difference {
    pub(crate) piece: usize,
    pub(crate) outcome: Outcome,
}

// Runs the case with reads of at most this many bytes.
fn run_once(
    alloc: Global,
    case: &Case,
    first: Moment,
    piece: usize,
) -> Result<Outcome, ServiceFault> {
    let mut service = make_service(alloc, case, first)?;
    let written = Vec::with_capacity(alloc, case.wanted.len())?;
    let reader = Pieces {
        rest: &case.sent,
        most: piece,
    };
    let mut connection = Connection::new(alloc, reader, written, case.reads);
    let mut clock = Moments {
        left: &case.moments,
        last: first,
    };
    let ended = run(alloc, &mut connection, &mut clock, &mut service);
    let (_, written) = connection.into_parts();
    Ok(Outcome { written, ended })
}

/// Whether the run is as the case wants it.
pub(crate) fn holds(case: &Case, outcome: &Outcome) -> bool
    ensures { IsTrue result ↔ ((outcome.now.ended ≡ case.now.end)
        × (outcome.now.written.items ≡ case.now.wanted.items)) }
{
    outcome.ended == case.end && outcome.written == case.wanted
}

// The run with reads of at most this many bytes, if the run is not as the case wants it.
fn difference_in(
    alloc: Global,
    case: &Case,
    first: Moment,
    piece: usize,
) -> Result<Option<Difference>, ServiceFault> {
    let outcome = run_once(alloc, case, first, piece)?;
    if holds(case, &outcome) {
        return Ok(None);
    }
    Ok(Some(Difference { piece, outcome }))
}

/// Runs the case in each way of reading, and gives the first run that is not as the case wants it.
pub(crate) fn find_difference(
    alloc: Global,
    case: &Case,
    first: Moment,
) -> Result<Option<Difference>, ServiceFault> {
    let large = case.piece.unwrap_or(LARGE_PIECE);
    let difference = difference_in(alloc, case, first, large)?;
    if difference.is_some() || case.piece.is_some() || case.sent.len() > SMALL_INPUT {
        return Ok(difference);
    }
    for piece in SMALL_PIECES {
        let difference = difference_in(alloc, case, first, piece)?;
        if difference.is_some() {
            return Ok(difference);
        }
    }
    Ok(None)
}
