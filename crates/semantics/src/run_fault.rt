//! How a run fails.

ghost use Rattle.std.specs.Prelude.{◌≡◌};
ghost use Rattle.semantics.specs.declared.run_fault.RunFault.TheVariants.{OutOfMemory};

use std::alloc::AllocError;
use thiserror::Error;

/// Why a run is not done, and what was written before. Its text is what the program says of it.
///
/// Example: the text of `RunFault::TooManyRefused(3)` is `more than 3 refused lines`.
#[derive(Clone, Copy, Debug, PartialEq, Eq, Error)]
pub enum RunFault {
    /// A read failed, or the input has 2^63 bytes or more. Nothing was written.
    #[error("reading failed")]
    Reading,
    /// Memory ran out. Nothing was written.
    #[error("out of memory")]
    OutOfMemory,
    /// A thread could not be started. Nothing was written.
    #[error("a thread could not be started")]
    ThreadNotStarted,
    /// More lines are refused than may be; the number is how many may be. Nothing was written.
    #[error("more than {0} refused lines")]
    TooManyRefused(u64),
    /// A write or the flush of the report failed. A beginning of the report was written, which may
    /// be none or all of it, and nothing of the list of refused lines.
    #[error("writing the report failed")]
    WritingReport,
    /// A write or the flush of the list of refused lines failed. The report was written, and a
    /// beginning of the list, which may be none or all of it.
    #[error("writing the refused lines failed")]
    WritingRefused,
    /// A write or the flush of the part failed, where a part is written in place of the report. A
    /// beginning of it was written, which may be none or all of it.
    #[error("writing the part failed")]
    WritingPart,
}

impl From<AllocError> for RunFault {
    ghost from_gives = { λ _ fault. fault ≡ OutOfMemory };

    fn from(_error: AllocError) -> RunFault {
        RunFault::OutOfMemory
    }
}
