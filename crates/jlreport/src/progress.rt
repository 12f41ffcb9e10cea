//! How far a file is read, shown on the terminal.

use std::alloc::{AllocError, Global};
use std::fmt::{Display, Formatter};
use std::fs::{File, OpenOptions};
use std::io::{Read, Write};
use std::time::Instant;
use std::{fmt, io};

/// The terminal of the program, wherever its streams go.
const TERMINAL: &str = "/dev/tty";

/// How many milliseconds the line stays as it is, at least.
const PAUSE: u64 = 250;

/// What takes the line away: the cursor goes to its front, and all behind is erased.
const ERASED: &[u8] = b"\r\x1b[K";

/// A reader, and the line that shows how far its bytes are read. The bytes are those of the reader.
#[derive(Drop)]
pub(crate) struct Watched<'a, R: Read + Drop> {
    source: R,
    line: Option<ProgressLine<'a>>,
}

impl<'a, R: Read + Drop> Watched<'a, R> {
    /// A reader over which a line may stand.
    pub(crate) fn new(source: R, line: Option<ProgressLine<'a>>) -> Watched<'a, R> {
        Watched { source, line }
    }
}

impl<R: Read + Drop> Read for Watched<'_, R> {
    ghost remaining = { λ s. R.remaining s.source };

    /// Reads what the reader does. The line goes at the end of the bytes, and where a read fails.
    fn read(&mut self, buffer: &mut [u8]) -> io::Result<usize> {
        let result = self.source.read(buffer);
        match (&result, &mut self.line) {
            (Ok(count), Some(line)) if *count > 0 => line.follow(*count),
            _ => self.line = None,
        }
        result
    }
}

/// A line on the terminal that tells how many bytes are read, of how many where that is known, how
/// many in a second, and the time that is left. It is written a few times a second, and gone once
/// the value is let go.
pub(crate) struct ProgressLine<'a> {
    rt: &'a HostRuntime,
    terminal: File,
    start: Instant,
    /// How many milliseconds after the start it is written next, at the earliest.
    next: u64,
    /// How many bytes are read.
    read: u64,
    /// How many bytes there are, where that is known.
    size: Option<u64>,
    is_shown: bool,
}

impl<'a> ProgressLine<'a> {
    /// The line of bytes that are to be read, of which nothing is shown yet; `None` where there is
    /// no terminal, or no clock.
    pub(crate) fn new(rt: &'a HostRuntime, size: Option<u64>) -> Option<ProgressLine<'a>> {
        let terminal = OpenOptions::new().write(true).open(rt, TERMINAL).ok()?;
        let start = Instant::now(rt).ok()?;
        Some(ProgressLine {
            rt,
            terminal,
            start,
            next: PAUSE,
            read: 0,
            size,
            is_shown: false,
        })
    }

    /// Takes note of so many bytes more, and writes the line anew where it is time for that.
    fn follow(&mut self, count: usize) {
        self.read = self.read.saturating_add(count as u64);
        let Ok(time) = self.start.elapsed(self.rt) else {
            return;
        };
        let time = u64::try_from(time.as_millis()).unwrap_or(u64::MAX);
        if time >= self.next {
            self.next = time.saturating_add(PAUSE);
            self.show(time);
        }
    }

    /// Writes the line as it is at a time after the start. What the terminal does not take is not
    /// shown.
    fn show(&mut self, time: u64) {
        if let Ok(text) = progress_text(self.rt.alloc(), self.read, self.size, time) {
            self.is_shown = true;
            let _ = self.terminal.write_all(text.as_bytes());
        }
    }
}

impl Drop for ProgressLine<'_> {
    fn drop(self) {
        let ProgressLine {
            rt: _,
            mut terminal,
            start: _,
            next: _,
            read: _,
            size: _,
            is_shown,
        } = self;
        if is_shown {
            let _ = terminal.write_all(ERASED);
        }
    }
}

/// The text of the line after so many milliseconds, in place of the one that is there.
fn progress_text(
    alloc: Global,
    read: u64,
    size: Option<u64>,
    time: u64,
) -> Result<String, AllocError> {
    let (done, speed) = (Megabytes(read), Megabytes(in_a_second(read, time)));
    match size {
        Some(size) => {
            let left = seconds_left(size.saturating_sub(read), read, time);
            let all = Megabytes(size);
            format!(in alloc; "\r{done} of {all} MB, {speed} MB a second, {left} s left\x1b[K")
        }
        None => format!(in alloc; "\r{done} MB, {speed} MB a second\x1b[K"),
    }
}

/// How many bytes are read in a second, where so many are in so many milliseconds; 0 where these
/// are none.
fn in_a_second(read: u64, time: u64) -> u64 {
    let bytes = (u128::from(read) * 1000).checked_div(u128::from(time));
    bytes.and_then(|it| u64::try_from(it).ok()).unwrap_or(0)
}

/// How many seconds are left, where so many bytes are, and so many others are read in so many
/// milliseconds; 0 where these are none.
fn seconds_left(left: u64, read: u64, time: u64) -> u64 {
    let milliseconds = (u128::from(left) * u128::from(time)).checked_div(u128::from(read));
    milliseconds
        .and_then(|it| u64::try_from(it / 1000).ok())
        .unwrap_or(0)
}

/// A number of bytes, shown in megabytes with one digit after the point.
#[derive(Clone, Copy)]
struct Megabytes(u64);

impl Display for Megabytes {
    fn fmt<W: fmt::Write>(&self, f: &mut Formatter<W>) -> fmt::Result {
        let tenths = self.0 / 100_000;
        write!(f, "{}.{}", tenths / 10, tenths % 10)
    }
}
