//! Readers and writers that are slow, are interrupted, give or take nothing, or fail.

use std::io;
use std::io::{ErrorKind, Read, Write};

/// What a reader or a writer answers once, in place of giving or taking bytes.
#[derive(Clone, Copy, Debug)]
pub enum Pause {
    /// No byte. To a reader's caller this is the end.
    Nothing,
    /// An error of this kind.
    Error(ErrorKind),
}

/// A reader that gives some bytes, then pauses once, and then gives more.
#[derive(Drop)]
pub struct PauseReader<'a> {
    pub front: &'a [u8],
    pub pause: Pause,
    pub behind: &'a [u8],
    /// The most bytes that a call gives.
    pub at_once: usize,
}

impl<'a> PauseReader<'a> {
    /// A reader that gives all of these bytes.
    pub fn whole(bytes: &'a [u8], at_once: usize) -> PauseReader<'a> {
        PauseReader {
            front: bytes,
            pause: Pause::Nothing,
            behind: b"",
            at_once,
        }
    }
}

impl Read for PauseReader<'_> {
    fn read(&mut self, buf: &mut [u8]) -> io::Result<usize> {
        if self.front.is_empty() {
            self.front = self.behind;
            return match self.pause {
                Pause::Nothing => Ok(0),
                Pause::Error(kind) => Err(io::Error::from(kind)),
            };
        }
        let count = self.at_once.min(buf.len()).min(self.front.len());
        self.front.read(&mut buf[..count])
    }
}

/// A writer that takes some bytes, then pauses once, and then takes more; its flush fails where it
/// is to.
#[derive(Drop)]
pub struct Sink {
    pub room: usize,
    /// The most bytes that a call takes.
    pub at_once: usize,
    pub pause: Pause,
    pub flushes: bool,
    pub taken: Vec<u8>,
}

impl Write for Sink {
    fn write(&mut self, buf: &[u8]) -> io::Result<usize> {
        let count = self.room.min(buf.len()).min(self.at_once);
        if count == 0 {
            self.room = usize::MAX;
            return match self.pause {
                Pause::Nothing => Ok(0),
                Pause::Error(kind) => Err(io::Error::from(kind)),
            };
        }
        self.taken.extend_from_slice(&buf[..count])?;
        self.room -= count;
        Ok(count)
    }

    fn flush(&mut self) -> io::Result<()> {
        if self.flushes {
            Ok(())
        } else {
            Err(io::Error::from(ErrorKind::Other))
        }
    }
}
