//! Lines as a source of values.

ghost use Rattle.std.specs.Prelude.{◌≡◌, ◌≤◌, drop, length, map};
ghost use Rattle.part_lines.specs.Faults.{fault_at_line};
ghost use Rattle.part_lines.specs.Reading.{reading_of};
ghost use Rattle.part_lines.specs.LineValues.{Tells};

use part_lines::{PartFault, PartRefusal, Scratch, ValueReader, read_value};
use semantics::PartsFaultKind;
use std::alloc::{AllocError, Global};
use values::Value;

/// The most bytes of a line.
const MAX_LINE_LEN: usize = 1_048_576;

/// Lines, read one after the other.
#[derive(Drop)]
pub struct LineList {
    alloc: Global,
    scratch: Scratch,
    lines: &'static [&'static [u8]],
    place: usize,
    ghost within: { place ≤ length lines.now },
}

impl LineList {
    /// Before the first line.
    pub fn new(alloc: Global, lines: &'static [&'static [u8]]) -> LineList {
        LineList {
            alloc,
            scratch: Scratch::new(alloc),
            lines,
            place: 0,
        }
    }
}

impl ValueReader for LineList {
    ghost known = { λ _. Unit {0} };

    ghost stream = { λ inside. record {
      left = drop inside.place (map (λ line. line.now) inside.lines.now);
      place = inside.place;
    } };

    fn next(&mut self) -> Result<Value, PartRefusal> {
        let Some(line) = self.lines.get(self.place) else {
            return Err(fault(self.place as u64 + 1, PartsFaultKind::EndsTooEarly));
        };
        self.place += 1;
        match value_of(self.alloc, &mut self.scratch, line)? {
            Some(value) => Ok(value),
            None => Err(fault(self.place as u64, PartsFaultKind::NotAValue)),
        }
    }

    fn line(&self) -> u64 {
        self.place as u64
    }
}

/// The value of a line, if it has one.
fn value_of(alloc: Global, scratch: &mut Scratch, line: &[u8]) -> Result<Option<Value>, AllocError>
    ensures { Tells result (reading_of line.now) }
{
    if line.len() > MAX_LINE_LEN {
        return Ok(None);
    }
    read_value(alloc, scratch, line)
}

/// A fault of this kind at the line of this number.
pub fn fault(line: u64, kind: PartsFaultKind) -> PartRefusal
    ensures { result ≡ fault_at_line line kind }
{
    PartRefusal::Fault(PartFault { line, kind })
}
