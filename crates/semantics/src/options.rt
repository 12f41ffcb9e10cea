//! The numbers by which a run is done.

ghost use Rattle.std.specs.Prelude.{◌≡◌, ◌≤◌, IsSome, IfSome};
ghost use Rattle.semantics.specs.CommandLine.{AreInRange};
ghost use Rattle.semantics.specs.Limits.{most_workers, max_piece_len};
ghost use Rattle.semantics.specs.declared.options.TheConstants.{SHORTEST_ROUND, LONGEST_ROUND};

/// The least bytes that a round may have: as many as hold a line that is too long and its line
/// feed.
pub const SHORTEST_ROUND: usize = 1_048_578;

/// The most bytes that a round may have.
pub const LONGEST_ROUND: usize = 67_108_864;

/// How a run is done: its numbers, each in its range. None of them changes what a run writes, but
/// that the limit of refused lines may end it without a report.
///
/// Example: `Options::new(4, 1_048_576, None)` has what the program takes where no number is given.
#[derive(Clone, Copy, Debug, PartialEq, Eq)]
pub struct Options {
    workers: usize,
    piece: usize,
    max_refused: Option<u64>,
    round: usize,
    ghost some_worker: { 1 ≤ workers },
    ghost few_workers: { workers ≤ most_workers },
    ghost some_byte: { 1 ≤ piece },
    ghost short_piece: { piece ≤ max_piece_len },
    ghost long_round: { SHORTEST_ROUND ≤ round },
    ghost short_round: { round ≤ LONGEST_ROUND },
}

impl Options {
    /// The options of these numbers: how many workers there are, 1 to 64; how many bytes of the
    /// input are worked on at once, 1 to 67,108,864; and how many lines may be refused, where that
    /// is limited. The input is read in rounds of at most 67,108,864 bytes. `None` where a number
    /// is out of its range.
    ///
    /// Example: `Options::new(1, 1, Some(0))` answers options under which one refused line is too
    /// many; `Options::new(65, 1, None)` answers `None`.
    pub fn new(workers: usize, piece: usize, max_refused: Option<u64>) -> Option<Options>
        ensures inside { AreInRange workers piece → IsSome result }
        ensures outside { IsSome result → AreInRange workers piece }
        ensures workers { IfSome result (λ options. options.workers ≡ workers) }
        ensures piece { IfSome result (λ options. options.piece ≡ piece) }
        ensures max_refused { IfSome result (λ options. options.max_refused ≡ max_refused) }
        ensures round { IfSome result (λ options. options.round ≡ LONGEST_ROUND) }
    {
        if (1..=64).contains(&workers) && (1..=67_108_864).contains(&piece) {
            Some(Options {
                workers,
                piece,
                max_refused,
                round: LONGEST_ROUND,
            })
        } else {
            None
        }
    }

    /// The same options, but that the input is read in rounds of at most so many bytes, 1,048,578
    /// to 67,108,864. `None` where the number is out of its range. The least round has room for a
    /// line that is one byte too long, and its line feed.
    ///
    /// Example: `options.with_round(1_048_578)` answers options whose `round()` is that number;
    /// `options.with_round(1_048_577)` answers `None`.
    pub fn with_round(self, bytes: usize) -> Option<Options>
        ensures inside { (SHORTEST_ROUND ≤ bytes) × (bytes ≤ LONGEST_ROUND) → IsSome result }
        ensures outside { IsSome result → (SHORTEST_ROUND ≤ bytes) × (bytes ≤ LONGEST_ROUND) }
        ensures round { IfSome result (λ options. options.round ≡ bytes) }
        ensures workers { IfSome result (λ options. options.workers ≡ self.workers) }
        ensures piece { IfSome result (λ options. options.piece ≡ self.piece) }
        ensures max_refused { IfSome result (λ options. options.max_refused ≡ self.max_refused) }
    {
        if !(SHORTEST_ROUND..=LONGEST_ROUND).contains(&bytes) {
            return None;
        }
        Some(Options {
            workers: self.workers,
            piece: self.piece,
            max_refused: self.max_refused,
            round: bytes,
        })
    }

    /// How many workers there are, 1 to 64.
    pub fn workers(&self) -> usize
        ensures value { result ≡ self.now.workers }
        ensures some_worker { 1 ≤ result }
        ensures few_workers { result ≤ most_workers }
    {
        self.workers
    }

    /// How many bytes of the input are worked on at once, 1 to 67,108,864. A piece ends with a
    /// line, and so it may be longer.
    pub fn piece(&self) -> usize
        ensures value { result ≡ self.now.piece }
        ensures some_byte { 1 ≤ result }
    {
        self.piece
    }

    /// How many lines may be refused at most; `None` where that is not limited.
    pub fn max_refused(&self) -> Option<u64>
        ensures { result ≡ self.now.max_refused }
    {
        self.max_refused
    }

    /// How many bytes of the input are read and then worked on together, at most: 1,048,578 to
    /// 67,108,864. Where there are several workers, up to as many more are read meanwhile.
    pub fn round(&self) -> usize
        ensures value { result ≡ self.now.round }
        ensures long_round { SHORTEST_ROUND ≤ result }
    {
        self.round
    }
}
