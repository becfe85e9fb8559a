//! A reader and a writer for tests, which fail at a chosen call.
use std::io;
use std::io::{ErrorKind, Read, Write};

/// Gives at most `most` bytes at a read, and fails after `reads` reads.
#[derive(Drop)]
pub(crate) struct Pieces<'a> {
    pub(crate) rest: &'a [u8],
    pub(crate) most: usize,
    pub(crate) reads: u64,
}

impl Read for Pieces<'_> {
    fn read(&mut self, buf: &mut [u8]) -> io::Result<usize> {
        if self.reads == 0 {
            return Err(io::Error::from(ErrorKind::BrokenPipe));
        }
        self.reads -= 1;
        let n = self.most.min(buf.len());
        self.rest.read(&mut buf[..n])
    }
}

/// Takes bytes or refuses them, and fails at each flush.
#[derive(Drop)]
pub(crate) struct Stuck {
    pub(crate) takes: bool,
}

impl Write for Stuck {
    fn write(&mut self, buf: &[u8]) -> io::Result<usize> {
        if self.takes {
            return Ok(buf.len());
        }
        Err(io::Error::from(ErrorKind::BrokenPipe))
    }

    fn flush(&mut self) -> io::Result<()> {
        Err(io::Error::from(ErrorKind::BrokenPipe))
    }
}
