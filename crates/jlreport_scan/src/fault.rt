//! How the gathering of a result fails.

ghost use Rattle.std.specs.Prelude.{◌≡◌};
ghost use Rattle.jlreport_scan.specs.declared.fault.GatherFault.TheVariants.{OutOfMemory, Reading};
ghost use Rattle.jlreport_scan.specs.Faults.{fault_of_pool};
ghost use Rattle.jlreport_scan.specs.RunFaults.{fault_of_gathering};

use lines::ReadFault;
use pool::PoolFault;
use semantics::RunFault;
use std::alloc::AllocError;
use thiserror::Error;

/// Why there is no result over an input.
///
/// Example: the text of `GatherFault::TooManyRefused(3)` is `more than 3 refused lines`.
#[derive(Clone, Copy, Debug, PartialEq, Eq, Error)]
pub enum GatherFault {
    /// A read failed, or the input has 2^63 bytes or more.
    #[error("reading failed")]
    Reading,
    /// Memory ran out.
    #[error("out of memory")]
    OutOfMemory,
    /// A thread could not be started.
    #[error("a thread could not be started")]
    ThreadNotStarted,
    /// More lines are refused than may be; the number is how many may be.
    #[error("more than {0} refused lines")]
    TooManyRefused(u64),
}

impl From<AllocError> for GatherFault {
    ghost from_gives = { λ _ fault. fault ≡ OutOfMemory };

    fn from(_error: AllocError) -> GatherFault {
        GatherFault::OutOfMemory
    }
}

impl From<ReadFault> for GatherFault {
    ghost from_gives = { λ _ fault. fault ≡ Reading };

    fn from(_error: ReadFault) -> GatherFault {
        GatherFault::Reading
    }
}

impl From<PoolFault> for GatherFault {
    ghost from_gives = { λ given fault. fault ≡ fault_of_pool given };

    fn from(fault: PoolFault) -> GatherFault {
        match fault {
            PoolFault::OutOfMemory => GatherFault::OutOfMemory,
            PoolFault::ThreadNotStarted => GatherFault::ThreadNotStarted,
        }
    }
}

impl From<GatherFault> for RunFault {
    ghost from_gives = { λ given fault. fault ≡ fault_of_gathering given };

    fn from(fault: GatherFault) -> RunFault {
        match fault {
            GatherFault::Reading => RunFault::Reading,
            GatherFault::OutOfMemory => RunFault::OutOfMemory,
            GatherFault::ThreadNotStarted => RunFault::ThreadNotStarted,
            GatherFault::TooManyRefused(most) => RunFault::TooManyRefused(most),
        }
    }
}
