//! The seed of a run.

ghost use Rattle.std.specs.Prelude.{◌≡◌, IfErr};

use semantics::RunFault;
use std::random::RandomSource;
use tables::HashSeed;

/// A seed by chance, by which a run hashes its groups, so that whoever writes the lines cannot know
/// which of them meet.
///
/// # Errors
///
/// `Reading` where the system gives no random bytes.
pub(crate) fn random_seed<H: RandomSource>(rt: &H) -> Result<HashSeed, RunFault>
    ensures { IfErr result (λ fault. fault ≡ RunFault.Reading) }
{
    match HashSeed::draw(rt) {
        Ok(seed) => Ok(seed),
        Err(_) => Err(RunFault::Reading),
    }
}
