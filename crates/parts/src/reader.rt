//! The values of parts, read line by line.

ghost use Rattle.std.specs.Io.KnownBytes.{IsAtEnd, Keeps};
ghost use Rattle.std.specs.Prelude.{◌≡◌, ◌<◌, ◌≤◌, ◌+◌, ◌↔◌, [], ℕ, true, false, IfOk, OnOk, Ok, length, drop, slice_range, slice_index};
ghost use Rattle.lines.specs.Clip.{clip_lines};
ghost use Rattle.part_lines.specs.Faults.{fault_at_line};
ghost use Rattle.part_lines.specs.Reading.{reading_of};
ghost use Rattle.part_lines.specs.LineValues.{Tells};
ghost use Rattle.parts.specs.Inside.Reader.{HasLine, HasTaken, IsAtLine, IsLineAt, left_at, refused_at};
ghost use Rattle.semantics.specs.Limits.{input_limit};

use lines::{ReadFault, Rounds};
use memchr::memchr;
use part_lines::{PartFault, PartRefusal, Scratch, ValueReader, read_value};
use semantics::PartsFaultKind;
use std::alloc::{AllocError, Global};
use std::io::Read;
use std::marker::Model;
use values::Value;

/// The most bytes of a round: so few that they stay near the processor.
const ROUND: usize = 2_097_152;

/// The most bytes of a line.
const MAX_LINE_LEN: usize = 1_048_576;

/// What gives the values of parts, each of a line of what a reader gives.
pub(crate) struct PartReader<R: Read + Drop> {
    alloc: Global,
    scratch: Scratch,
    rounds: Rounds<R>,
    /// The place in the round behind the line that was read last.
    place: usize,
    /// How many lines were read.
    line: u64,
}

impl<R: Read + Drop> Drop for PartReader<R> {
    fn drop(self) {
        let PartReader {
            alloc: _,
            scratch,
            rounds,
            place: _,
            line: _,
        } = self;
        drop(scratch);
        drop(rounds);
    }
}

impl<R: Read + Drop> Model for PartReader<R> {
    ghost use Rattle.parts.specs.Inside.Reader.{IsAtLine, ReaderState, left_at};

    ghost Value = { ReaderState };

    ghost view = { λ inside. record {
      left = left_at inside.rounds inside.place;
      line = inside.line;
    } };

    ghost invariant = { λ inside. IsAtLine inside.rounds inside.place inside.line };
}

impl<R: Read + Drop> PartReader<R> {
    ghost use Rattle.std.specs.Prelude.{option_map};
    ghost use Rattle.parts.specs.Inside.Reader.{IsKnown, stream_of};

    /// Before the first line of what a reader gives, of which nothing is read yet.
    ///
    /// # Errors
    ///
    /// `AllocError` where there is no memory for a round.
    pub(crate) fn new(alloc: Global, reader: R) -> Result<PartReader<R>, AllocError>
        ensures left { IfOk result (λ parts.
            parts.left ≡ option_map clip_lines (R.remaining reader)) }
        ensures line { IfOk result (λ parts. parts.line ≡ 0) }
    {
        let rounds = Rounds::new(alloc, reader, ROUND)?;
        Ok(PartReader {
            alloc,
            scratch: Scratch::new(alloc),
            rounds,
            place: 0,
            line: 0,
        })
    }

    /// Whether there is a line to come.
    ///
    /// # Errors
    ///
    /// `ReadFault` where a read failed or the input has 2^63 bytes or more.
    pub(crate) fn has_line(&mut self) -> Result<bool, ReadFault>
        ensures known { IsKnown self.old → OnOk result (IsKnown self.new) }
        ensures same { IsKnown self.old → OnOk result (stream_of self.new ≡ stream_of self.old) }
        ensures none { IsKnown self.old
            → IfOk result (λ found. found ≡ false ↔ ((stream_of self.old).left ≡ [])) }
        ensures line { self.new.line ≡ self.old.line }
        ensures few { self.new.line < input_limit }
    {
        find_line(&mut self.rounds, &mut self.place)
    }
}

/// Goes on to the next round where a place is at the end of this one. Answers whether there is a
/// byte behind the place.
fn find_line<R: Read + Drop>(rounds: &mut Rounds<R>, place: &mut usize) -> Result<bool, ReadFault>
    requires at_line { (line : ℕ) × IsAtLine rounds.old place.old line }
    ensures at_line { (line : ℕ) → IsAtLine rounds.old place.old line
        → IsAtLine rounds.new place.new line }
    ensures keeps { OnOk result
        (Keeps (left_at rounds.old place.old) (left_at rounds.new place.new)) }
    ensures some { result ≡ Ok true → HasLine rounds.new place.new }
    ensures none { result ≡ Ok false → IsAtEnd (left_at rounds.old place.old) }
{
    if *place < rounds.round().len() {
        return Ok(true);
    }
    *place = 0;
    rounds.advance()
}

/// Where the line ends that stands at a place of a round.
fn end_of_line(round: &[u8], place: usize) -> usize
    requires { place < length round.now }
    ensures { IsLineAt round.now place result (slice_range round.now place result) }
{
    match memchr(b'\n', &round[place..]) {
        Some(len) => place + len,
        None => round.len(),
    }
}

/// The value of a line; `None` where it has none, or more bytes than a line may have.
fn value_of(alloc: Global, scratch: &mut Scratch, line: &[u8]) -> Result<Option<Value>, AllocError>
    ensures { Tells result (reading_of line.now) }
{
    if line.len() > MAX_LINE_LEN {
        return Ok(None);
    }
    read_value(alloc, scratch, line)
}

/// Reads the line that stands at a place of the round, and goes on to the place behind it.
fn take_line<R: Read + Drop>(
    alloc: Global,
    scratch: &mut Scratch,
    rounds: &Rounds<R>,
    place: &mut usize,
) -> Result<Option<Value>, AllocError>
    requires line { HasLine rounds.now place.old }
    ensures at_line { (line : ℕ) → IsAtLine rounds.now place.old line
        → IsAtLine rounds.now place.new (line + 1) }
    ensures read { (line : ℕ) → IsAtLine rounds.now place.old line
        → HasTaken rounds.now place.old result place.new }
{
    let round = rounds.round();
    let begin = *place;
    let end = end_of_line(round, begin);
    *place = round.len().min(end + 1);
    value_of(alloc, scratch, &round[begin..end])
}

impl<R: Read + Drop> ValueReader for PartReader<R> {
    ghost use Rattle.parts.specs.Inside.Reader.{IsKnown, stream_of};

    ghost known = { λ reader. IsKnown reader };

    ghost stream = { λ reader. stream_of reader };

    fn next(&mut self) -> Result<Value, PartRefusal> {
        match find_line(&mut self.rounds, &mut self.place) {
            Ok(true) => {}
            Ok(false) => return Err(ends_at(self.line + 1)),
            Err(_) => return Err(PartRefusal::Reading),
        }
        let value = take_line(self.alloc, &mut self.scratch, &self.rounds, &mut self.place);
        self.line += 1;
        at_line(self.line, value)
    }

    fn line(&self) -> u64 {
        self.line
    }
}

/// The lines end where one of this number should be.
fn ends_at(line: u64) -> PartRefusal
    ensures { result ≡ fault_at_line line PartsFaultKind.EndsTooEarly }
{
    PartRefusal::Fault(PartFault {
        line,
        kind: PartsFaultKind::EndsTooEarly,
    })
}

/// The value of the line of this number, or the fault that it has none.
fn at_line(line: u64, value: Result<Option<Value>, AllocError>) -> Result<Value, PartRefusal>
    ensures { result ≡ refused_at line value }
{
    match value? {
        Some(value) => Ok(value),
        None => Err(PartRefusal::Fault(PartFault {
            line,
            kind: PartsFaultKind::NotAValue,
        })),
    }
}
