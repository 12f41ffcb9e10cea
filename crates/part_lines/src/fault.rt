//! Why a part is not read.

ghost use Rattle.std.specs.Prelude.{◌≡◌};
ghost use Rattle.part_lines.specs.declared.fault.PartRefusal.TheVariants.{OutOfMemory};

use semantics::PartsFaultKind;
use std::alloc::{AllocError, AllocFailed};

/// The first fault of a part, from the front.
///
/// Example: of the lines `"Harbour"`, `-2` and `7`, read as a key of one text and two counts, it is
/// `UnexpectedValue` at the line 2.
#[derive(Debug, PartialEq, Eq, Drop)]
pub struct PartFault {
    /// The number of the line, from 1. Where the lines end too early it is the number that the next
    /// one would have.
    pub line: u64,
    /// What is wrong there.
    pub kind: PartsFaultKind,
}

/// Why a part is not read.
#[derive(Drop)]
pub enum PartRefusal {
    /// The part has this fault.
    Fault(PartFault),
    /// A read failed. This says nothing of the part.
    Reading,
    /// Memory was refused. This says nothing of the part.
    OutOfMemory,
}

impl From<AllocError> for PartRefusal {
    ghost from_gives = { λ _ refusal. refusal ≡ OutOfMemory };

    fn from(_error: AllocError) -> PartRefusal {
        PartRefusal::OutOfMemory
    }
}

impl<T: Drop> From<AllocFailed<T>> for PartRefusal {
    ghost from_gives = { λ _ refusal. refusal ≡ OutOfMemory };

    fn from(_error: AllocFailed<T>) -> PartRefusal {
        PartRefusal::OutOfMemory
    }
}
