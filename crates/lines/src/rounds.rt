//! Reading an input in rounds of whole lines.

ghost use Rattle.std.specs.Prelude.{◌≡◌, ◌<◌, [], IfOk};
ghost use Rattle.lines.specs.Rounds.{HasMoved, rounds_at_start};
ghost use Rattle.lines.specs.Clip.{clipped_len};
ghost use Rattle.lines.specs.declared.line_buffer.TheConstants.{READ_SLACK};

use crate::demand::{Demand, NoDemand};
use crate::fault::ReadFault;
use crate::input::{EARLY_BLOCK_LEN, Input};
use crate::line_buffer::{LineBuffer, buffer_of};
use crate::source::ReaderAccount;
use std::alloc::{AllocError, Global};
use std::io::Read;
use std::marker::Model;

/// A round that was handed out, or a spare buffer for one.
///
/// Example: one thread works on a round that [`Rounds::hand_out`] gave it, while another reads on
/// in the buffer of a second one.
#[derive(Drop)]
pub struct Round {
    buffer: Vec<u8>,
    len: usize,
    size: usize,
}

impl Model for Round {
    ghost use Rattle.std.specs.Prelude.{◌≡◌, ◌+◌, ◌≤◌, take, vec_capacity, vec_len};
    ghost use Rattle.lines.specs.Rounds.{RoundState};
    ghost use Rattle.lines.specs.declared.line_buffer.TheConstants.{READ_SLACK};

    ghost Value = { RoundState };

    ghost view = { λ inside.
        record { bytes = take inside.len inside.buffer.items; size = inside.size } };

    ghost invariant = { λ inside. (inside.len ≤ vec_len inside.buffer)
        × (vec_len inside.buffer ≤ inside.size + READ_SLACK)
        × (inside.size + READ_SLACK ≤ vec_capacity inside.buffer) };
}

impl Round {
    /// A spare buffer for rounds of at most `size` bytes. It takes memory for 65,536 bytes more
    /// than that.
    ///
    /// Example: `Round::new(alloc, 8_388_608)` answers a round without a byte.
    ///
    /// # Errors
    ///
    /// `AllocError` where there is no memory for it.
    pub fn new(alloc: Global, size: usize) -> Result<Self, AllocError>
        ensures { IfOk result (λ round. round ≡ record { bytes = []; size = size }) }
    {
        Ok(Round {
            buffer: buffer_of(alloc, size)?,
            len: 0,
            size,
        })
    }

    /// Its bytes: those of the round that was handed out, and none of a spare buffer.
    pub fn bytes(&self) -> &[u8]
        ensures { result.now ≡ self.now.bytes }
    {
        &self.buffer[..self.len]
    }
}

/// An input that is read in rounds of whole lines, of which no round is longer than is asked. Of
/// each line at most 1,048,577 bytes are given, which is enough to tell that it is too long.
///
/// The rounds, joined, are the input with each line cut so; its line feeds stay. No round is empty,
/// and each ends in a line feed but perhaps the last.
///
/// Example: of a line of 3,000,000 bytes and the line `ab` behind it, the rounds joined are the
/// first 1,048,577 bytes of the long line, its line feed, and `ab` with its line feed, where it has
/// one.
pub struct Rounds<R: Read + Drop> {
    input: Input<R>,
    /// How many bytes the next round has, about.
    aim: usize,
    given: usize,
    over: bool,
    failed: bool,
}

// A function of its own: a derived one is written out, and proved, wherever an input is given up.
impl<R: Read + Drop> Drop for Rounds<R> {
    fn drop(self) {
        let Rounds {
            input,
            aim: _,
            given: _,
            over: _,
            failed: _,
        } = self;
        drop(input);
    }
}

impl<R: Read + Drop> Model for Rounds<R> {
    ghost use Rattle.lines.specs.Holding.{left_behind, whole_lines};
    ghost use Rattle.lines.specs.Input.{IsBetween};
    ghost use Rattle.lines.specs.Rounds.{RoundsState};

    ghost Value = { RoundsState R };

    ghost view = { λ inside. record {
      reader = inside.input.source.reader;
      left = left_behind inside.input.held (R.remaining inside.input.source.reader);
      round = whole_lines inside.input.held;
      size = inside.input.held.size;
      given = inside.given;
      over = inside.over;
      failed = inside.failed;
      unread = R.remaining inside.input.source.reader;
      taken = inside.input.source.taken;
      erred = inside.input.source.erred;
    } };

    ghost invariant = { λ inside.
        IsBetween R.remaining inside.input inside.aim inside.given inside.over inside.failed };
}

impl<R: Read + Drop> Rounds<R> {
    /// An input whose rounds have at most `size` bytes. It takes the buffer, of 65,536 bytes more
    /// than that, and reads nothing. It asks that `size` is 1,048,578 bytes or more.
    ///
    /// Example: of `Rounds::new(alloc, reader, 8_388_608)` no round has more than 8,388,608 bytes.
    ///
    /// # Errors
    ///
    /// `AllocError` where there is no memory for the buffer.
    pub fn new(alloc: Global, reader: R, size: usize) -> Result<Self, AllocError>
        requires { clipped_len < size }
        ensures { IfOk result (λ rounds.
            rounds ≡ rounds_at_start reader (R.remaining reader) size) }
    {
        let held = LineBuffer::new(alloc, size)?;
        let source = ReaderAccount::new(reader);
        Ok(Rounds {
            input: Input { source, held },
            aim: size.min(EARLY_BLOCK_LEN),
            given: 0,
            over: false,
            failed: false,
        })
    }

    /// Goes on to the next round. It answers whether there is one. It takes no memory.
    ///
    /// Example: over an input without a byte the first call answers `Ok(false)`.
    ///
    /// # Errors
    ///
    /// `ReadFault` where a read failed or the input has 2^63 bytes or more, and from then on.
    pub fn advance(&mut self) -> Result<bool, ReadFault>
        ensures { HasMoved self.old result self.new }
    {
        self.advance_for(&NoDemand)
    }

    /// The same under a demand: where a worker waits for the round, it ends as soon as it has about
    /// 8,388,608 bytes.
    ///
    /// Example: with rounds of 67,108,864 bytes, over an input of 1,000,000,000 line feeds, the
    /// second round has 67,108,864 bytes less at most 1,048,577, and where `demand.is_waiting()`
    /// answers `true`, 8,388,608 less at most 1,048,577.
    ///
    /// # Errors
    ///
    /// As for [`Rounds::advance`].
    pub fn advance_for<D: Demand>(&mut self, demand: &D) -> Result<bool, ReadFault>
        ensures { HasMoved self.old result self.new }
    {
        if self.failed {
            return Err(ReadFault);
        }
        if self.over {
            self.input.held.let_go();
            return Ok(false);
        }
        match self.input.read_block(self.aim, demand) {
            Ok(ended) => {
                self.aim = self.input.held.size;
                if self.input.held.cut == 0 {
                    return Ok(false);
                }
                self.over = ended;
                self.given += self.input.held.cut;
                Ok(true)
            }
            Err(fault) => {
                self.input.held.let_go();
                self.failed = true;
                Err(fault)
            }
        }
    }

    /// The round that the last call of [`Rounds::advance`] gave. It is empty before the first call,
    /// where the last one gave none, and once the round was handed out.
    pub fn round(&self) -> &[u8]
        ensures { result.now ≡ self.now.round }
    {
        self.input.held.lines()
    }

    /// Whether it is known that the round that was given last is the last one. Then going on reads
    /// nothing.
    ///
    /// Example: before the first round it answers `false`; once it answers `true`, `advance()`
    /// answers `Ok(false)`.
    pub fn is_over(&self) -> bool
        ensures { result ≡ self.now.over }
    {
        self.over
    }

    /// Hands out the round that was given last, and goes on with the buffer of another one, whose
    /// bytes are lost. It asks that the spare round was made for rounds of the same size. It takes
    /// no memory.
    ///
    /// Example: after `let round = rounds.hand_out(spare)`, `round.bytes()` is what
    /// `rounds.round()` was, and `rounds.round()` is empty.
    pub fn hand_out(&mut self, spare: Round) -> Round
        requires { spare.size ≡ self.old.size }
        ensures round { result.bytes ≡ self.old.round }
        ensures size { result.size ≡ self.old.size }
        ensures rest { self.new ≡ record self.old { round = [] } }
    {
        let len = self.input.held.cut;
        let Round {
            buffer,
            len: _,
            size,
        } = spare;
        let buffer = self.input.held.swap_buffer(buffer);
        Round { buffer, len, size }
    }
}

impl<R: Read + Drop> Rounds<R> {
    ghost use Rattle.std.specs.Borrow.{sem};
    ghost use Rattle.lines.specs.Moving.{EndsAs};

    /// The next round: whole lines, but perhaps the last line. `None` where there is none. It takes
    /// no memory.
    ///
    /// Example: over the bytes `ab\ncd` the rounds that it answers, joined, are these bytes, and
    /// then it answers `Ok(None)`.
    ///
    /// # Errors
    ///
    /// `ReadFault` where a read failed or the input has 2^63 bytes or more, and from then on.
    pub fn next(&mut self) -> Result<Option<&[u8]>, ReadFault>
        ensures* moves { sem 𝓛 (EndsAs R.row R.Read self.entry result) }
    {
        if self.advance()? {
            Ok(Some(self.round()))
        } else {
            Ok(None)
        }
    }
}
