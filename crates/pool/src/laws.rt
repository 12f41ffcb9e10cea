//! What a pool works on, and what it answers.

ghost use Rattle.std.specs.Prelude.{◌≡◌, ℕ, ◌+◌, ◌<◌, IfOk};
ghost use Rattle.pool.specs.Lawful.{Lawful};
ghost use Rattle.pool.specs.Reduction.{Reduction};
ghost use Rattle.pool.specs.declared.laws.PoolFault.TheVariants.{OutOfMemory};
ghost use Rattle.pool.specs.Limits.{load_limit};

use std::alloc::AllocError;

/// What all pieces of a work come to, under a limit of their weights.
///
/// Example: four pieces of the weight 1 come to `Whole` under the limit 4, and to `Over` under the
/// limit 3.
#[derive(Drop)]
pub enum Outcome<P> {
    /// All pieces combined. Their weights add up to at most the limit.
    Whole(P),
    /// The weights add up to more than the limit.
    Over,
}

/// Why pieces were not done.
///
/// Example: with one hand, or no piece, it is never `ThreadNotStarted`.
#[derive(Debug, Clone, Copy, PartialEq, Eq)]
pub enum PoolFault {
    /// Memory ran out, and no thread was refused.
    OutOfMemory,
    /// A thread could not be started.
    ThreadNotStarted,
}

impl From<AllocError> for PoolFault {
    ghost from_gives = { λ _ fault. fault ≡ OutOfMemory };

    fn from(_error: AllocError) -> PoolFault {
        PoolFault::OutOfMemory
    }
}

/// Numbered pieces, each of which gives a part. Parts combine, in whatever order and grouping.
///
/// Each part means something, and what holds of parts is said of their meanings. A part has a
/// weight, which a limit counts, and a load, which bounds its weight. Both add up when parts
/// combine, and no sum of loads is to reach 2^63. An implementation says what its meanings are, and
/// proves that they keep the laws of `Lawful`.
///
/// Example: a work whose piece i is the number i, and whose parts are numbers that are added. Its
/// pieces below 4 come to 6.
pub trait Work {
    /// What a piece gives, and what parts combine to.
    type Part: Send + Drop;

    /// What a part means.
    ghost Meaning: { Type 0 };

    ghost meaning: { Self.Part → Self.Meaning };

    /// What a fold over the pieces of this work combines: which meanings parts have, what nothing
    /// at all and what each piece comes to, what two parts come to together, and what a part counts
    /// against a limit. The load of a part is never less than its weight.
    ghost reduction: { Self → Reduction Self.Meaning };

    /// The part of no piece, which has no weight and no load.
    ///
    /// Example: where parts are numbers that are added, `work.unit()` answers 0.
    ///
    /// # Errors
    ///
    /// `AllocError` where memory was refused.
    fn unit(&self) -> Result<Self::Part, AllocError>
        ensures { IfOk result (λ p. Self.meaning p ≡ (Self.reduction self.now).unit) };

    /// The part of one piece, by the piece's number, from 0.
    ///
    /// Example: where piece i is the number i, `work.piece(3)` answers 3.
    ///
    /// # Errors
    ///
    /// `AllocError` where memory was refused.
    fn piece(&self, i: u32) -> Result<Self::Part, AllocError>
        ensures { IfOk result (λ p. Self.meaning p ≡ (Self.reduction self.now).piece i) };

    /// Two parts as one. It asks that both are parts of this work, and that their loads add up to
    /// less than 2^63.
    ///
    /// Example: where parts are numbers that are added, `work.combine(2, 3)` answers 5.
    ///
    /// # Errors
    ///
    /// `AllocError` where memory was refused. Both parts are then given up.
    fn combine(&self, a: Self::Part, b: Self::Part) -> Result<Self::Part, AllocError>
        requires parts { (Self.reduction self.now).fits (Self.meaning a)
            × (Self.reduction self.now).fits (Self.meaning b) }
        requires room { (Self.reduction self.now).load (Self.meaning a)
            + (Self.reduction self.now).load (Self.meaning b) < load_limit }
        ensures { IfOk result (λ p. Self.meaning p
            ≡ (Self.reduction self.now).combine (Self.meaning a) (Self.meaning b)) };

    /// A part with one piece more. It may be written anew where a piece can go onto a part without
    /// a part of its own. It asks that the part is one of this work, and that its load and the
    /// piece's add up to less than 2^63.
    ///
    /// Example: where piece i is the number i, and parts are added, `work.add(2, 3)` answers 5.
    ///
    /// # Errors
    ///
    /// `AllocError` where memory was refused. The part is then given up.
    fn add(&self, part: Self::Part, i: u32) -> Result<Self::Part, AllocError>
        requires part { (Self.reduction self.now).fits (Self.meaning part) }
        requires more { (Self.reduction self.now).load (Self.meaning part)
            + (Self.reduction self.now).load ((Self.reduction self.now).piece i) < load_limit }
        ensures { IfOk result (λ p. Self.meaning p
            ≡ (Self.reduction self.now).combine (Self.meaning part)
            ((Self.reduction self.now).piece i)) }
    {
        let piece = self.piece(i)?;
        self.combine(part, piece)
    }

    /// What the part counts against a limit. It asks that the part is one of this work, of a load
    /// below 2^63.
    ///
    /// Example: where a part stands for lines of a file, the number of those that are refused.
    fn weight(&self, p: &Self::Part) -> u64
        requires { (Self.reduction self.now).fits (Self.meaning p.now)
            × ((Self.reduction self.now).load (Self.meaning p.now) < load_limit) }
        ensures { result ≡ (Self.reduction self.now).weight (Self.meaning p.now) };

    /// The part's load. No weight is above it. It asks that the part is one of this work, of a load
    /// below 2^63.
    ///
    /// Example: where a part stands for lines of a file, the number of all of them.
    fn load(&self, p: &Self::Part) -> u64
        requires { (Self.reduction self.now).fits (Self.meaning p.now)
            × ((Self.reduction self.now).load (Self.meaning p.now) < load_limit) }
        ensures { result ≡ (Self.reduction self.now).load (Self.meaning p.now) };

    /// The meanings of a work keep the laws.
    ghost lawful: { (w : Self) → Lawful (Self.reduction w) };
}
