//! Memory that is held in reserve, and given up when memory runs out.
ghost use Rattle.std.specs.Prelude.{◌≤◌, IfOk, vec_capacity};
ghost use Rattle.served_slots.specs.Reserves.{ArePieces};

use std::alloc::{AllocError, Global};
use std::sync::atomic::{AtomicBool, Ordering};
use std::sync::{Mutex, Wait};

/// How many bytes a piece of the reserve has.
const PIECE: usize = 65_536;

/// How many pieces the reserve has: 32 MiB in all.
const PIECES: usize = 512;

/// All pieces of the reserve. Nothing is in them.
#[derive(Drop)]
struct Pieces {
    // The reserve is in pieces, since the memory that is free after deletions is in many places.
    pieces: Vec<Vec<u8>>,
    ghost are: { ArePieces pieces.items },
}

// One piece.
fn piece(alloc: Global) -> Result<Vec<u8>, AllocError>
    ensures { IfOk result (λ piece. 65_536 ≤ vec_capacity piece) }
{
    Vec::with_capacity(alloc, PIECE)
}

impl Pieces {
    // All pieces.
    //
    // `AllocError` if memory runs out. Then the pieces that were made are given back.
    fn make(alloc: Global) -> Result<Self, AllocError> {
        let mut pieces = Vec::with_capacity(alloc, PIECES)?;
        for _made in 0..PIECES {
            pieces.push(piece(alloc)?)?;
        }
        Ok(Self { pieces })
    }
}

/// 32 MiB of memory that a server holds, and gives up when memory runs out. The requests that bring no content are served by it: they read what
/// exists, or free memory. While it is given up and cannot be had again, requests that bring content are not served.
///
/// Any number of threads share it. How large it is, and why, is the server's own choice (docs/decisions/server.md).
#[derive(Drop)]
pub struct Reserve {
    // Whether all pieces are held. It is changed only under the lock.
    is_held: AtomicBool,
    pieces: Mutex<Option<Pieces>>,
}

impl Reserve {
    /// A reserve, which is held unless memory runs out for it.
    pub fn new(alloc: Global) -> Self {
        let pieces = Pieces::make(alloc).ok();
        Self {
            is_held: AtomicBool::new(pieces.is_some()),
            pieces: Mutex::new(pieces),
        }
    }

    /// Whether the reserve is held. Takes no lock.
    pub fn is_held(&self) -> bool {
        self.is_held.load(Ordering::SeqCst)
    }

    /// Gives the reserve up. Returns whether it was held.
    ///
    /// A thread that tries to take it again meanwhile is waited for, since it holds pieces.
    pub fn give_up<R: Wait>(&self, rt: &R) -> bool {
        let mut pieces = self.pieces.lock(rt);
        self.is_held.store(false, Ordering::SeqCst);
        pieces.take().is_some()
    }

    /// Takes the reserve again, if memory suffices for all of it. Returns whether it is held now.
    pub fn take_again<R: Wait>(&self, rt: &R, alloc: Global) -> bool {
        let mut pieces = self.pieces.lock(rt);
        if pieces.is_none() {
            *pieces = Pieces::make(alloc).ok();
        }
        let is_held = pieces.is_some();
        self.is_held.store(is_held, Ordering::SeqCst);
        is_held
    }
}
