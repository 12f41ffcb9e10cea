//! How many groups are worked on at a time, where several threads work on them.

ghost use Rattle.std.specs.Prelude.{◌≡◌, ◌+◌, ◌/◌, ◌%◌, ◌<◌, max, min};
ghost use Rattle.report_rows.specs.declared.parts.TheConstants.{MIN_PART_GROUPS};

/// The least number of groups of a part, where there are several: work on fewer is done sooner than
/// a thread starts.
const MIN_PART_GROUPS: usize = 4_096;

/// How many groups each part has, but perhaps the last, where so many groups are worked on by so
/// many hands. There is a hand.
///
/// Example: `part_len(40_000, 4)` is 10,000, and `part_len(5_000, 4)` is 4,096.
pub fn part_len(groups: usize, hands: usize) -> usize
    requires { 0 < hands }
    ensures len { result ≡ max MIN_PART_GROUPS (groups / hands + min 1 (groups % hands)) }
    ensures some { 0 < result }
{
    MIN_PART_GROUPS.max(groups.div_ceil(hands))
}
