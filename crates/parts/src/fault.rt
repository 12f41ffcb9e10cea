//! Why parts are not read.

ghost use Rattle.std.specs.Prelude.{◌≡◌};
ghost use Rattle.parts.specs.declared.fault.PartsRefusal.TheVariants.{OutOfMemory, Reading};

use lines::ReadFault;
use semantics::PartsFault;
use std::alloc::AllocError;
use thiserror::Error;

/// Why parts are not read.
#[derive(Debug, Drop, Error)]
pub enum PartsRefusal {
    /// They have this fault, which is the first one.
    #[error("{0}")]
    Fault(PartsFault),
    /// A read failed, or the input has 2^63 bytes or more.
    #[error("reading failed")]
    Reading,
    /// Memory ran out.
    #[error("out of memory")]
    OutOfMemory,
}

impl From<AllocError> for PartsRefusal {
    ghost from_gives = { λ _ refusal. refusal ≡ OutOfMemory };

    fn from(_error: AllocError) -> PartsRefusal {
        PartsRefusal::OutOfMemory
    }
}

impl From<ReadFault> for PartsRefusal {
    ghost from_gives = { λ _ refusal. refusal ≡ Reading };

    fn from(_fault: ReadFault) -> PartsRefusal {
        PartsRefusal::Reading
    }
}
