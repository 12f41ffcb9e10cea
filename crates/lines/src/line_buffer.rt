//! The buffer of an input that is read: whole lines in front, and the bytes behind them.

ghost use Rattle.std.specs.Prelude.{◌≡◌, ◌+◌, ◌-◌, ◌<◌, ◌≤◌, max, true, false, IsTrue, IsFalse, IfOk, length, take, vec_capacity, vec_len};
ghost use Rattle.lines.specs.Pieces.{NoFeedBetween};
ghost use Rattle.lines.specs.Clip.{clipped_len};
ghost use Rattle.lines.specs.declared.line_buffer.TheConstants.{READ_SLACK};

use memchr::{memchr, memrchr};
use std::alloc::{AllocError, Global};
use std::mem;

/// The length to which a line is clipped: with so many bytes it is too long already.
pub(crate) const CLIPPED_LEN: usize = 1_048_577;

/// The slack of a buffer: the bytes that may be read beyond a round, so that no read has to be
/// small.
pub(crate) const READ_SLACK: usize = 65_536;

/// The bytes by which a buffer grows at a time, until it has its length.
pub(crate) const GROWTH_STEP: usize = 1_048_576;

/// The first `cut` bytes of the buffer are whole lines, and up to `filled` follow the bytes behind
/// them.
#[derive(Drop)]
pub(crate) struct LineBuffer {
    pub(crate) buffer: Vec<u8>,
    pub(crate) cut: usize,
    pub(crate) filled: usize,
    /// The first bytes behind the whole lines are known to be the beginning of a line that is too
    /// long.
    pub(crate) full: bool,
    /// The greatest length of the whole lines; there is memory for 65,536 bytes more.
    pub(crate) size: usize,
    ghost ordered: { cut ≤ filled },
    ghost inside: { filled ≤ vec_len buffer },
    ghost len: { vec_len buffer ≤ size + READ_SLACK },
    ghost room: { size + READ_SLACK ≤ vec_capacity buffer },
}

/// A buffer for rounds of at most `size` bytes.
pub(crate) fn buffer_of(alloc: Global, size: usize) -> Result<Vec<u8>, AllocError>
    ensures empty { IfOk result (λ v. vec_len v ≡ 0) }
    ensures room { IfOk result (λ v. size + READ_SLACK ≤ vec_capacity v) }
{
    match size.checked_add(READ_SLACK) {
        Some(capacity) => Vec::with_capacity(alloc, capacity),
        None => Err(AllocError),
    }
}

/// Makes a buffer `len` bytes long where it is shorter, for which it has the memory already.
fn make_long(buffer: &mut Vec<u8>, len: usize)
    requires { len ≤ vec_capacity buffer.old }
    ensures len { vec_len buffer.new ≡ max len (vec_len buffer.old) }
    ensures capacity { vec_capacity buffer.old ≤ vec_capacity buffer.new }
    ensures front { take (vec_len buffer.old) buffer.new.items ≡ buffer.old.items }
{
    if len <= buffer.len() {
        return;
    }
    match buffer.resize(len, 0) {
        Ok(()) => {}
        Err(_) => unreachable!(),
    }
}

/// Copies bytes to the front of a buffer.
fn copy_front(to: &mut [u8], from: &[u8])
    requires { length from.now ≤ length to.old }
    ensures length { length to.new ≡ length to.old }
    ensures front { take (length from.now) to.new ≡ from.now }
{
    to[..from.len()].copy_from_slice(from);
}

impl LineBuffer {
    ghost use Rattle.lines.specs.Inside.Holding.{GrowsWithin, IsWindow, KeepsFront, KeepsLeft, LetsGoLines};
    ghost use Rattle.lines.specs.Holding.{IsHeld, whole_lines};

    /// A buffer without a byte, for rounds of at most `size` bytes.
    pub(crate) fn new(alloc: Global, size: usize) -> Result<LineBuffer, AllocError>
        ensures empty { IfOk result (λ held. held.filled ≡ 0) }
        ensures full { IfOk result (λ held. held.full ≡ false) }
        ensures size { IfOk result (λ held. held.size ≡ size) }
    {
        Ok(LineBuffer {
            buffer: buffer_of(alloc, size)?,
            cut: 0,
            filled: 0,
            full: false,
            size,
        })
    }

    /// The whole lines in front.
    pub(crate) fn lines(&self) -> &[u8]
        ensures { result.now ≡ whole_lines self.now }
    {
        &self.buffer[..self.cut]
    }

    /// Skips the lines that end among the next `window` bytes, and answers whether there is one.
    pub(crate) fn skip_lines(&mut self, window: usize) -> bool
        requires held { IsHeld self.old }
        requires window { IsWindow self.old window }
        ensures left { KeepsLeft self.old self.new }
        ensures grows { GrowsWithin self.old window self.new }
        ensures found { IsTrue result → self.old.cut < self.new.cut }
        ensures missed { IsFalse result → self.new.cut ≡ self.old.cut }
        ensures none { IsFalse result
            → NoFeedBetween self.old.buffer.items self.old.cut (self.old.cut + window) }
    {
        match memrchr(b'\n', &self.buffer[self.cut..self.cut + window]) {
            Some(place) => {
                self.cut += place + 1;
                true
            }
            None => false,
        }
    }

    /// Discards what an open line has beyond its clipped length, and skips the line where it ends.
    fn discard_excess(&mut self)
        requires held { IsHeld self.old }
        requires full { self.old.full ≡ true }
        requires long { self.old.cut + clipped_len < self.old.filled }
        ensures left { KeepsLeft self.old self.new }
        ensures within { self.new.cut ≤ self.old.cut + clipped_len + 1 }
        ensures less { self.new.filled - self.new.cut < self.old.filled - self.old.cut }
    {
        let end = self.cut + CLIPPED_LEN;
        match memchr(b'\n', &self.buffer[end..self.filled]) {
            Some(place) => {
                self.buffer.copy_within(end + place..self.filled, end);
                self.filled -= place;
                self.cut = end + 1;
                self.full = false;
            }
            None => self.filled = end,
        }
    }

    /// Scans for the ends of lines, and clips the lines, until few bytes are open or the whole
    /// lines come near to `aim` bytes.
    pub(crate) fn scan_lines(&mut self, aim: usize)
        requires held { IsHeld self.old }
        requires within { self.old.cut ≤ aim }
        ensures left { KeepsLeft self.old self.new }
        ensures within { self.new.cut ≤ aim }
        ensures short { self.new.cut + clipped_len < aim
            → self.new.filled ≤ self.new.cut + clipped_len }
    {
        while self.cut + CLIPPED_LEN < aim && self.filled - self.cut > CLIPPED_LEN {
            if self.full {
                self.discard_excess();
            } else if !self.skip_lines(CLIPPED_LEN) {
                self.full = true;
            }
        }
    }

    /// Makes room behind the bytes that are held, where there is none: the buffer gets longer, for
    /// which it has the memory already. So memory that no byte comes to is never touched.
    pub(crate) fn make_room(&mut self)
        requires { self.old.filled < self.old.size + READ_SLACK }
        ensures front { KeepsFront self.old self.new }
        ensures filled { self.new.filled ≡ self.old.filled }
        ensures room { self.new.filled < vec_len self.new.buffer }
    {
        if self.filled < self.buffer.len() {
            return;
        }
        let most = self.size + READ_SLACK;
        make_long(
            &mut self.buffer,
            most.min(self.filled.saturating_add(GROWTH_STEP)),
        );
    }

    /// Lets go the whole lines in front.
    pub(crate) fn release(&mut self)
        requires held { IsHeld self.old }
        ensures held { IsHeld self.new }
        ensures lines { LetsGoLines self.old self.new }
        ensures len { vec_len self.new.buffer ≡ vec_len self.old.buffer }
        ensures room { vec_capacity self.new.buffer ≡ vec_capacity self.old.buffer }
    {
        self.buffer.copy_within(self.cut..self.filled, 0);
        self.filled -= self.cut;
        self.cut = 0;
    }

    /// Lets go all that is held.
    pub(crate) fn let_go(&mut self)
        ensures cut { self.new.cut ≡ 0 }
        ensures filled { self.new.filled ≡ 0 }
        ensures size { self.new.size ≡ self.old.size }
        ensures buffer { self.new.buffer ≡ self.old.buffer }
    {
        self.cut = 0;
        self.filled = 0;
    }

    /// Swaps the buffer for another one, into which what follows the whole lines is copied.
    pub(crate) fn swap_buffer(&mut self, spare: Vec<u8>) -> Vec<u8>
        requires len { vec_len spare ≤ self.old.size + READ_SLACK }
        requires capacity { self.old.size + READ_SLACK ≤ vec_capacity spare }
        ensures buffer { result ≡ self.old.buffer }
        ensures lines { LetsGoLines self.old self.new }
        ensures full { self.new.full ≡ false }
    {
        let mut next = spare;
        let len = self.filled - self.cut;
        make_long(&mut next, len);
        copy_front(next.as_mut_slice(), &self.buffer[self.cut..self.filled]);
        self.cut = 0;
        self.filled = len;
        self.full = false;
        mem::replace(&mut self.buffer, next)
    }
}
