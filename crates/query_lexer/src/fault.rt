//! Why a text spells no tokens.

ghost use Rattle.std.specs.Prelude.{◌≡◌};
ghost use Rattle.query_lexer.specs.declared.fault.TokenFault.TheVariants.{OutOfMemory};

use std::alloc::{AllocError, AllocFailed};

/// Why a text spells no tokens.
///
/// Example: of `SELECT ;` it is `NoToken(7)`.
#[derive(Drop)]
pub enum TokenFault {
    /// At this byte, from 0, no token begins: as at `;`, at a text without its last quote, or at a
    /// number that 64 bits do not hold.
    NoToken(usize),
    /// Memory was refused. This says nothing of the text.
    OutOfMemory,
}

impl From<AllocError> for TokenFault {
    ghost from_gives = { λ _ fault. fault ≡ OutOfMemory };

    fn from(_error: AllocError) -> TokenFault {
        TokenFault::OutOfMemory
    }
}

impl<T: Drop> From<AllocFailed<T>> for TokenFault {
    ghost from_gives = { λ _ fault. fault ≡ OutOfMemory };

    fn from(_error: AllocFailed<T>) -> TokenFault {
        TokenFault::OutOfMemory
    }
}
