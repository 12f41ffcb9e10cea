//! The result of a query over an input that is read in rounds.

ghost use Rattle.std.specs.Prelude.{◌≡◌, ◌≢◌, ◌+◌, ◌<◌, ◌≤◌, ◌⊎◌, true, ℕ, All, IfErr, IfOk, List, Option, length, vec_len};
ghost use Rattle.lines.specs.Rounds.{HasMoved};
ghost use Rattle.semantics.specs.Records.{refused_lines};
ghost use Rattle.lines.specs.Pieces.{AreWholeLines};
ghost use Rattle.tables.specs.Partials.{StandsForInput};
ghost use Rattle.jlreport_scan.specs.Gathered.{IsGather, limit_number};
ghost use Rattle.jlreport_scan.specs.Inside.Faults.{IsWant, Refuses};
ghost use Rattle.jlreport_scan.specs.Faults.{Stops};
ghost use Rattle.jlreport_scan.specs.Inside.Pieces.{IsAheadUnder, IsTaken, StandsBehind, most_turns};
ghost use Rattle.semantics.specs.Limits.{input_limit};
ghost use Rattle.pool.specs.Limits.{most_hands};

use crate::fault::GatherFault;
use crate::round::{RoundOutcome, Scan, check_limit, work_on_round};
use lines::{Demand, ReadFault, Round, Rounds};
use pool::{Book, Share};
use query_plan::Plan;
use semantics::Options;
use std::alloc::Global;
use std::io::Read;
use std::marker::{Brand, Send, Sync};
use std::sync::Wait;
use std::sync::atomic::{AtomicBool, Ordering};
use std::sync::ledger::{Blank, Ledger};
use std::thread::{Threads, join};
use tables::{Executor, HashSeed, Parallel, Partial, Serial};

/// The most bytes of a round that is worked on by the calling thread alone: so few that they stay
/// near the processor from the read to the last look at them, and no memory has to be touched for
/// the first time beyond them.
const LONGEST_ALONE: usize = 2_097_152;

/// The result of a query over what a reader gives, worked on round by round on the calling thread.
/// The records of all rounds go into one table. Neither the number of workers nor the length of a
/// piece is looked at.
///
/// Example: with the plan of `SELECT COUNT(*) AS n FROM lines`, and an input of one empty line,
/// `gather_alone(alloc, &plan, options, input)`, where there is memory for it, answers a result of
/// which `lines()` and `refused()` are 1.
///
/// # Errors
///
/// Those of `gather`, but never `ThreadNotStarted`.
pub fn gather_alone<R: Read + Drop>(
    alloc: Global,
    plan: &Plan,
    options: Options,
    reader: R,
) -> Result<Partial, GatherFault>
    ensures gather { IsGather result options.max_refused plan.now
        (R.remaining reader) }
    ensures started { IfErr result (λ fault. fault ≢ GatherFault.ThreadNotStarted) }
{
    gather_by(&Serial, alloc, plan, options, reader)
}

/// The same, in a table of an executor.
fn gather_by<X: Executor, R: Read + Drop>(
    executor: &X,
    alloc: Global,
    plan: &Plan,
    options: Options,
    reader: R,
) -> Result<Partial, GatherFault>
    ensures gather { IsGather result options.max_refused plan.now
        (R.remaining reader) }
    ensures started { IfErr result (λ fault. fault ≢ GatherFault.ThreadNotStarted) }
{
    let mut rounds = Rounds::new(alloc, reader, options.round().min(LONGEST_ALONE))?;
    let mut whole = Partial::empty_by(alloc, plan, executor)?;
    while rounds.advance()? {
        whole = whole.fold_behind(plan, rounds.round())?;
        check_limit(options, whole.refused())?;
    }
    Ok(whole)
}

/// The result of a query over what a reader gives, worked on round by round by as many threads as
/// there are workers, the calling one among them. Where there are several, one thread more reads
/// the next round meanwhile, if there may be one. With one worker it does what `gather_alone` does,
/// and no thread is started. The seed is that by which the groups are hashed; the result does not
/// depend on it.
///
/// Example: with the plan of `SELECT SUM(q) AS s FROM lines` under `q:int`, and the one line
/// `{"q":5}` as the input, `gather(&rt, alloc, &plan, options, seed, input)`, where nothing is
/// refused to it, answers a result of which `lines()` is 1 and `refused()` is 0.
///
/// # Errors
///
/// `Reading` where a read fails or the input has 2^63 bytes or more, `OutOfMemory` where memory
/// runs out, `ThreadNotStarted` where a thread cannot be started, which one worker never answers,
/// `TooManyRefused` where more lines are refused than the options allow.
pub fn gather<R: Read + Drop + Send, H: Threads + Wait + Sync>(
    rt: &H,
    alloc: Global,
    plan: &Plan,
    options: Options,
    seed: HashSeed,
    reader: R,
) -> Result<Partial, GatherFault>
    ensures gather { IsGather result options.max_refused plan.now
        (R.remaining reader) }
    ensures started { options.workers ≡ 1
        → IfErr result (λ fault. fault ≢ GatherFault.ThreadNotStarted) }
{
    let workers = options.workers();
    if workers == 1 {
        let executor = Parallel { rt, workers, seed };
        return gather_by(&executor, alloc, plan, options, reader);
    }
    let blank = Blank::new(workers as u64);
    gather_reading_ahead::<Brand, R, H>(rt, alloc, plan, options, seed, reader, blank)
}

/// The same with one book of refused lines over all rounds, whose ledger is L, and with two
/// buffers: while a round is worked on, the next one is read into the other.
fn gather_reading_ahead<L: Ledger + Send + Sync, R: Read + Drop + Send, H: Threads + Wait + Sync>(
    rt: &H,
    alloc: Global,
    plan: &Plan,
    options: Options,
    seed: HashSeed,
    reader: R,
    blank: Blank,
) -> Result<Partial, GatherFault>
    requires name { blank.name ≡ L.name }
    requires parts { (blank.parts ≡ L.parts) × (L.parts ≡ options.workers) }
    ensures { IsGather result options.max_refused plan.now
        (R.remaining reader) }
{
    let (book, shares) = Book::<L>::new(alloc, blank, options.workers())?;
    let scan = Scan {
        rt,
        alloc,
        plan,
        options,
        seed,
        book: &book,
    };
    let mut ahead = first_ahead(&scan, reader, shares)?;
    while ahead.found {
        ahead = work_ahead(&scan, ahead)?;
    }
    let Ahead { whole, shares, .. } = ahead;
    book.close(shares);
    Ok(whole)
}

/// How far an input has come of which a round is read while the one before is worked on.
#[derive(Drop)]
struct Ahead<L: Ledger, R: Read + Drop> {
    /// The result of the rounds that were worked on.
    whole: Partial,
    /// The input, and the round that was read, which is still to be worked on.
    rounds: Rounds<R>,
    /// Whether there was such a round: else all of the input was worked on.
    found: bool,
    /// A buffer for the round after it.
    spare: Round,
    shares: Vec<Share<L>>,
}

/// Reads the first round.
fn first_ahead<L: Ledger, R: Read + Drop, H: Threads + Sync>(
    scan: &Scan<'_, L, H>,
    reader: R,
    shares: Vec<Share<L>>,
) -> Result<Ahead<L, R>, GatherFault>
    requires hands { vec_len shares ≡ scan.now.options.workers }
    requires none { All (λ share. share.sum ≤ 0) shares.items }
    ensures ahead { IfOk result
        (IsAheadUnder scan.now.plan.now scan.now.options (R.remaining reader)) }
    ensures fault { IfErr result (λ fault. Stops fault scan.now.options.max_refused
        scan.now.plan.now.fields (R.remaining reader)) }
{
    let options = scan.options;
    let mut rounds = Rounds::new(scan.alloc, reader, options.round())?;
    let spare = Round::new(scan.alloc, options.round())?;
    let parallel = Parallel {
        rt: scan.rt,
        workers: options.workers(),
        seed: scan.seed,
    };
    let whole = Partial::empty_by(scan.alloc, scan.plan, &parallel)?;
    let found = rounds.advance()?;
    Ok(Ahead {
        whole,
        rounds,
        found,
        spare,
        shares,
    })
}

/// Works on the round that was read, and reads the next one meanwhile. What the work answers is
/// looked at first, so that a read that fails tells nothing before the limit of refused lines does.
fn work_ahead<L: Ledger + Send + Sync, R: Read + Drop + Send, H: Threads + Wait + Sync>(
    scan: &Scan<'_, L, H>,
    ahead: Ahead<L, R>,
) -> Result<Ahead<L, R>, GatherFault>
    requires found { ahead.found ≡ true }
    requires ahead { (known : Option (List ℕ))
        × IsAheadUnder scan.now.plan.now scan.now.options known ahead }
    ensures ahead { (known : Option (List ℕ))
        → IsAheadUnder scan.now.plan.now scan.now.options known ahead
        → IfOk result (IsAheadUnder scan.now.plan.now scan.now.options known) }
    ensures fault { (known : Option (List ℕ))
        → IsAheadUnder scan.now.plan.now scan.now.options known ahead
        → IfErr result (λ fault.
        Stops fault scan.now.options.max_refused scan.now.plan.now.fields known) }
    ensures fewer { IfOk result (λ next.
        most_turns next.rounds next.found < most_turns ahead.rounds ahead.found) }
{
    let Ahead {
        whole,
        mut rounds,
        spare,
        shares,
        ..
    } = ahead;
    let round = rounds.hand_out(spare);
    let RoundAndRead {
        outcome,
        found,
        rounds,
    } = work_and_read_on(scan, whole, rounds, &round, shares);
    let RoundOutcome { whole, shares, .. } = outcome?;
    let found = found?;
    Ok(Ahead {
        whole,
        rounds,
        found,
        spare: round,
        shares,
    })
}

/// Reads on to the next round, which ends early where there is a demand for it, and hands the input
/// back.
fn read_on<R: Read + Drop, D: Demand>(
    rounds: Rounds<R>,
    demand: &D,
) -> (Result<bool, ReadFault>, Rounds<R>)
    ensures { HasMoved rounds result.0 result.1 }
{
    let mut rounds = rounds;
    let found = rounds.advance_for(demand);
    (found, rounds)
}

/// What comes of a round, and of reading on meanwhile.
struct RoundAndRead<L: Ledger, R: Read + Drop> {
    /// What comes of the round.
    outcome: Result<RoundOutcome<L>, GatherFault>,
    /// Whether there is a next round.
    found: Result<bool, ReadFault>,
    /// The input, read on.
    rounds: Rounds<R>,
}

/// Works on a round behind the rounds before it, as `work_on_round` does, and meanwhile reads the
/// next one on a thread of its own, where the round may not be the last one. When the work is done,
/// the next round ends early.
fn work_and_read_on<L: Ledger + Send + Sync, R: Read + Drop + Send, H: Threads + Wait + Sync>(
    scan: &Scan<'_, L, H>,
    before: Partial,
    rounds: Rounds<R>,
    round: &Round,
    shares: Vec<Share<L>>,
) -> RoundAndRead<L, R>
    requires front { (front : List ℕ)
        × StandsForInput scan.now.plan.now before front
        × AreWholeLines front }
    requires short { before.lines + length round.now.bytes < input_limit }
    requires hands { (1 ≤ vec_len shares) × (vec_len shares ≤ most_hands) }
    requires reported { All (λ share. share.sum ≤ before.refused) shares.items }
    ensures read { HasMoved rounds result.found result.rounds }
    ensures whole { IfOk result.outcome (λ r. StandsBehind scan.now.plan.now before round.now.bytes r.whole) }
    ensures limit { IfOk result.outcome (λ r.
        r.whole.refused ≤ limit_number scan.now.options.max_refused) }
    ensures taken { IfOk result.outcome (λ r.
        IsTaken (vec_len shares) round.now.bytes r.pieces.items r.hands.items) }
    ensures hands { IfOk result.outcome (λ r. vec_len r.shares ≡ vec_len shares) }
    ensures reported { IfOk result.outcome (λ r.
        All (λ share. share.sum ≤ r.whole.refused) r.shares.items) }
    ensures fault { IfErr result.outcome (λ fault. IsWant fault
        ⊎ Refuses fault scan.now.options.max_refused
        (before.refused + length (refused_lines scan.now.plan.now.fields round.now.bytes))) }
{
    let done = AtomicBool::new(false);
    let demand = &done;
    if rounds.is_over() {
        let outcome = work_on_round(scan, before, round.bytes(), shares);
        let (found, rounds) = read_on(rounds, demand);
        return RoundAndRead {
            outcome,
            found,
            rounds,
        };
    }
    let ((found, rounds), outcome) = join(
        scan.rt,
        move || read_on(rounds, demand),
        move || -> Result<RoundOutcome<L>, GatherFault>
            requires front { (front : List ℕ)
                × StandsForInput scan.now.plan.now before front
                × AreWholeLines front }
            requires short { before.lines + length round.now.bytes < input_limit }
            requires hands { (1 ≤ vec_len shares) × (vec_len shares ≤ most_hands) }
            requires reported { All (λ share. share.sum ≤ before.refused) shares.items }
        {
            let outcome = work_on_round(scan, before, round.bytes(), shares);
            demand.store(true, Ordering::Relaxed);
            outcome
        },
    );
    RoundAndRead {
        outcome,
        found,
        rounds,
    }
}
