//! The result of a query over one round of an input behind the rounds before it, by its pieces.

ghost use Rattle.std.specs.Prelude.{◌≡◌, ◌+◌, ◌<◌, ◌≤◌, ◌⊎◌, ℕ, All, IfErr, IfOk, List, OnOk, length, vec_len};
ghost use Rattle.semantics.specs.Records.{refused_lines};
ghost use Rattle.lines.specs.Pieces.{AreWholeLines};
ghost use Rattle.pool.specs.declared.laws.Outcome.TheVariants as Outcome;
ghost use Rattle.tables.specs.Partials.{StandsForInput};
ghost use Rattle.jlreport_scan.specs.Inside.Pieces.{IsTaken, IsUnder, StandsBehind};
ghost use Rattle.jlreport_scan.specs.Gathered.{limit_number};
ghost use Rattle.jlreport_scan.specs.Inside.Faults.{IsWant, Refuses};
ghost use Rattle.semantics.specs.Limits.{input_limit};
ghost use Rattle.pool.specs.Limits.{most_hands};

use crate::fault::GatherFault;
use crate::pieces::pieces_of;
use lines::Piece;
use pool::{Book, Hand, Outcome, Share, fan_deal_onto};
use query_plan::Plan;
use semantics::Options;
use std::alloc::Global;
use std::marker::{Send, Sync};
use std::sync::Wait;
use std::sync::ledger::Ledger;
use std::thread::Threads;
use tables::{HashSeed, Job, JobBy, Parallel, Partial, job_law};

/// Nothing, where so many refused lines are not more than may be; else the fault that says so.
pub(crate) fn check_limit(options: Options, count: u64) -> Result<(), GatherFault>
    ensures within { OnOk result (count ≤ limit_number options.max_refused) }
    ensures over { IfErr result (λ fault. Refuses fault options.max_refused count) }
{
    match options.max_refused() {
        Some(most) if count > most => Err(GatherFault::TooManyRefused(most)),
        Some(_) | None => Ok(()),
    }
}

/// What stays the same for all rounds of an input.
#[derive(Drop)]
pub(crate) struct Scan<'a, L: Ledger, H> {
    /// What starts the threads.
    pub(crate) rt: &'a H,
    pub(crate) alloc: Global,
    pub(crate) plan: &'a Plan,
    pub(crate) options: Options,
    /// The seed by which the tables hash.
    pub(crate) seed: HashSeed,
    /// The book of refused lines.
    pub(crate) book: &'a Book<L>,
}

/// What comes of a round.
#[derive(Drop)]
pub(crate) struct RoundOutcome<L: Ledger> {
    /// The result over the rounds before and this one.
    pub(crate) whole: Partial,
    /// The pieces that the round was cut into.
    pub(crate) pieces: Vec<Piece>,
    /// The hands that these were dealt to.
    pub(crate) hands: Vec<Hand>,
    pub(crate) shares: Vec<Share<L>>,
}

/// The result of a query over the rounds before and a round behind them, worked on in pieces by as
/// many threads as there are shares, the calling one among them, which goes on with the result over
/// the rounds before; and the shares. Those rounds are whole lines, and no share has reported more
/// lines than were refused in them. The pieces come back, and the hands, in whose lists each piece
/// is once.
pub(crate) fn work_on_round<L: Ledger + Send + Sync, H: Threads + Wait + Sync>(
    scan: &Scan<'_, L, H>,
    before: Partial,
    round: &[u8],
    shares: Vec<Share<L>>,
) -> Result<RoundOutcome<L>, GatherFault>
    requires front { (front : List ℕ)
        × StandsForInput scan.now.plan.now before front
        × AreWholeLines front }
    requires short { before.lines + length round.now < input_limit }
    requires hands { (1 ≤ vec_len shares) × (vec_len shares ≤ most_hands) }
    requires reported { All (λ share. share.sum ≤ before.refused) shares.items }
    ensures whole { IfOk result (λ r. StandsBehind scan.now.plan.now before round.now r.whole) }
    ensures limit { IfOk result (λ r.
        r.whole.refused ≤ limit_number scan.now.options.max_refused) }
    ensures taken { IfOk result (λ r.
        IsTaken (vec_len shares) round.now r.pieces.items r.hands.items) }
    ensures hands { IfOk result (λ r. vec_len r.shares ≡ vec_len shares) }
    ensures reported { IfOk result (λ r.
        All (λ share. share.sum ≤ r.whole.refused) r.shares.items) }
    ensures fault { IfErr result (λ fault. IsWant fault
        ⊎ Refuses fault scan.now.options.max_refused
        (before.refused + length (refused_lines scan.now.plan.now.fields round.now))) }
{
    let pieces = pieces_of(scan.alloc, round, scan.options.piece())?;
    let front = before.in_one_piece()?;
    job_law();
    let executor = Parallel {
        rt: scan.rt,
        workers: shares.len(),
        seed: scan.seed,
    };
    // The front is the piece of index 0.
    let job = JobBy::new(
        Job::new(scan.alloc, scan.plan, round, pieces.as_slice()),
        &executor,
        1,
    );
    let limit = limit_of(scan.options);
    let (outcome, hands, shares) = fan_deal_onto(
        scan.rt,
        scan.alloc,
        &job,
        front,
        pieces.len() as u32,
        limit,
        scan.book,
        shares,
    )?;
    let whole = whole_of(scan.options, outcome)?;
    Ok(RoundOutcome {
        whole,
        pieces,
        hands,
        shares,
    })
}

/// The limit of refused lines as a number: the greatest one where there is no limit.
fn limit_of(options: Options) -> u64
    ensures { result ≡ limit_number options.max_refused }
{
    options.max_refused().unwrap_or(u64::MAX)
}

/// The result that a pool answers; Over is the fault that too many lines are refused.
fn whole_of(options: Options, outcome: Outcome<Partial>) -> Result<Partial, GatherFault>
    requires { (count : ℕ) × (count < input_limit)
        × IsUnder count (limit_number options.max_refused) outcome }
    ensures whole { IfOk result (λ partial. outcome ≡ Outcome.Whole partial) }
    ensures fault { (count : ℕ) → IsUnder count (limit_number options.max_refused) outcome
        → IfErr result (λ fault. Refuses fault options.max_refused count) }
{
    match (outcome, options.max_refused()) {
        (Outcome::Whole(partial), _) => Ok(partial),
        (Outcome::Over, Some(most)) => Err(GatherFault::TooManyRefused(most)),
        (Outcome::Over, None) => unreachable!(),
    }
}
