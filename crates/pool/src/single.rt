//! All pieces on the calling thread.

ghost use Rattle.std.specs.Prelude.{◌≡◌, ℕ, ◌+◌, ◌<◌, ◌≤◌, MatchResult, IfOk};
ghost use Rattle.pool.specs.Reduction.{load_below};
ghost use Rattle.pool.specs.Outcomes.{DecidesBelow};
ghost use Rattle.pool.specs.Limits.{load_limit};

use crate::laws::{Outcome, PoolFault, Work};

/// Does the pieces below a number on the calling thread, with no lock and no deque: their
/// combination, or `Over` where their weights add up to more than `limit`. It asks that the loads
/// of the pieces add up to less than 2^63.
///
/// Example: where piece i is the number i, which is its weight too, and parts are added,
/// `alone(&work, 4, 6)` answers `Whole(6)`, and `alone(&work, 4, 5)` answers `Over`.
///
/// # Errors
///
/// `OutOfMemory`, and no other.
pub fn alone<W: Work>(work: &W, pieces: u32, limit: u64) -> Result<Outcome<W::Part>, PoolFault>
    requires loads { load_below (W.reduction work.now) pieces < load_limit }
    ensures { MatchResult result (DecidesBelow (W.reduction work.now) W.meaning pieces limit)
        (λ e. e ≡ PoolFault.OutOfMemory) }
{
    let mut part = work.unit()?;
    for i in 0..pieces {
        part = work.add(part, i)?;
    }
    if work.weight(&part) > limit {
        return Ok(Outcome::Over);
    }
    Ok(Outcome::Whole(part))
}
