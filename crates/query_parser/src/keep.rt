//! What was read, kept beside what is read next.

ghost use Rattle.std.specs.Prelude.{◌≡◌, Err, MatchResult, Ok};

use crate::fault::GrammarFault;

/// Keeps what was read beside what was found behind it; where nothing was found, what was read is
/// dropped.
///
/// Example: `keep(first, Ok(low))` answers `Ok((first, low))`; `keep(first, Err(fault))` drops
/// `first` and answers `Err(fault)`.
///
/// # Errors
///
/// The fault of `found`.
pub(crate) fn keep<T: Drop, X>(
    read: T,
    found: Result<X, GrammarFault>,
) -> Result<(T, X), GrammarFault>
    ensures { MatchResult result (λ both. (both.0 ≡ read) × (found ≡ Ok both.1)) (λ fault.
        found ≡ Err fault) }
{
    match found {
        Ok(found) => Ok((read, found)),
        Err(fault) => {
            drop(read);
            Err(fault)
        }
    }
}
