//! The hands of a deal, each on a thread of its own.

ghost use Rattle.std.specs.Prelude.{◌≡◌, ℕ, ◌+◌, ◌-◌, ◌^◌, ◌<◌, ◌≤◌, ◌⊎◌, ◌++◌, ◌∷◌, [], All, IfOk, IfErr, IsOkAnd, MatchResult, vec_len, map, min};
ghost use Rattle.pool.specs.Totals.{once_below};
ghost use Rattle.pool.specs.Reduction.{load_below, load_onto, piece_weight, weight_with};
ghost use Rattle.pool.specs.Inside.Combination.{combination_of};
ghost use Rattle.pool.specs.Outcomes.{DecidesBelow, DecidesOnto};
ghost use Rattle.pool.specs.Inside.Outcomes.{DecidesOf};
ghost use Rattle.pool.specs.Dealing.{times};
ghost use Rattle.pool.specs.Inside.Steps.{UpTo};
ghost use Rattle.pool.specs.Settled.{AreAll, AllSpent, AreRun, HaveNoneTwice, numbers_of_all, pieces_of};
ghost use Rattle.pool.specs.Inside.Done.{hands_of, parts_of, sums_of};
ghost use Rattle.pool.specs.Inside.Fanned.{AreReady, HaveBegunAndResumed, HaveResumed, MayResumeAll, NeedNoThread};
ghost use Rattle.pool.specs.Fanned.{CameBack, Settles, Outweighs, IsAbove, Reported};
ghost use Rattle.pool.specs.Assembly.{IsNewDeal};
ghost use mathlib.Core.Option.{some};
ghost use lib.ListN.{get_elem?};
ghost use Rattle.pool.specs.Limits.{load_limit, most_pieces, most_hands};

use crate::book::{Book, Share};
use crate::deal::{Hand, compare_all};
use crate::grow::put_last;
use crate::laws::{Outcome, PoolFault, Work};
use crate::seats::Deal;
use crate::worker::{Crew, Progress, go_on, start};
use std::alloc::{AllocError, Global};
use std::marker::{Brand, Send, Sync};
use std::sync::Wait;
use std::sync::ledger::{Blank, Ledger};
use std::thread;
use std::thread::{Scope, Threads};

/// What the others gave back, and behind it what one more worker did, unless one of them met a
/// fault: that of the others comes first.
fn add_done<P: Drop, L: Ledger>(
    others: Result<Vec<Progress<P, L>>, PoolFault>,
    done: Result<Progress<P, L>, AllocError>,
) -> Result<Vec<Progress<P, L>>, PoolFault>
    ensures more { IfOk result (λ all. IsOkAnd others (λ os. IsOkAnd done (λ d.
        all.items ≡ os.items ++ d ∷ []))) }
    ensures fault { IfErr result (λ e.
        MatchResult others (λ _. e ≡ PoolFault.OutOfMemory) (λ f. e ≡ f)) }
{
    let mut all = others?;
    put_last(&mut all, done?)?;
    Ok(all)
}

/// Each worker goes on until its hand is spent or the book is above the crew's `stop`: the first on
/// the calling thread, each other on its own, and where there is no piece all on the calling one.
fn spread<'s, E, W: Work + Sync, L: Ledger + Send + Sync, R: Threads + Wait + Sync>(
    scope: &Scope<'s, E>,
    crew: &'s Crew<'s, W, L, R>,
    ready: Vec<Progress<W::Part, L>>,
) -> Result<Vec<Progress<W::Part, L>>, PoolFault>
    requires under_way { MayResumeAll (W.reduction crew.now.work.now) W.meaning ready.items }
    ensures did { IfOk result (λ all.
        HaveResumed (W.reduction crew.now.work.now) W.meaning ready.items all.items) }
    ensures alone { NeedNoThread (hands_of ready.items)
        → IfErr result (λ e. e ≡ PoolFault.OutOfMemory) }
{
    let mut ready = ready;
    let Some(done) = ready.pop() else {
        return Ok(ready);
    };
    if ready.is_empty() || done.pieces() == 0 {
        let others = spread(scope, crew, ready);
        return add_done(others, go_on(crew, done));
    }
    let Some(handle) = start(scope, crew, done) else {
        return Err(PoolFault::ThreadNotStarted);
    };
    let others = spread(scope, crew, ready);
    add_done(others, handle.join(crew.rt))
}

/// As `spread`, with a scope of its own.
fn spread_in_scope<W: Work + Sync, L: Ledger + Send + Sync, R: Threads + Wait + Sync>(
    crew: &Crew<'_, W, L, R>,
    ready: Vec<Progress<W::Part, L>>,
) -> Result<Vec<Progress<W::Part, L>>, PoolFault>
    requires under_way { MayResumeAll (W.reduction crew.now.work.now) W.meaning ready.items }
    ensures did { IfOk result (λ all.
        HaveResumed (W.reduction crew.now.work.now) W.meaning ready.items all.items) }
    ensures alone { NeedNoThread (hands_of ready.items)
        → IfErr result (λ e. e ≡ PoolFault.OutOfMemory) }
{
    thread::scope(
        thread::scope_env(),
        crew.rt,
        move |scope| -> Result<Vec<Progress<W::Part, L>>, PoolFault>
            requires under_way { MayResumeAll (W.reduction crew.now.work.now) W.meaning
                ready.items }
            ensures did { IfOk result (λ all.
                HaveResumed (W.reduction crew.entry.now.work.now) W.meaning ready.items all.items) }
            ensures alone { NeedNoThread (hands_of ready.items)
                → IfErr result (λ e. e ≡ PoolFault.OutOfMemory) }
        { spread(scope, crew, ready) },
    )
}

/// Each worker goes on until its hand is spent, on the calling thread. No number of the book stops
/// it.
fn finish_all<W: Work, L: Ledger, R: Wait>(
    crew: &Crew<'_, W, L, R>,
    gathered: Vec<Progress<W::Part, L>>,
) -> Result<Vec<Progress<W::Part, L>>, PoolFault>
    requires never { crew.now.stop ≡ 2 ^ 128 - 1 }
    requires under_way { MayResumeAll (W.reduction crew.now.work.now) W.meaning gathered.items }
    ensures did { IfOk result (λ all.
        HaveResumed (W.reduction crew.now.work.now) W.meaning gathered.items all.items) }
    ensures spent { IfOk result (λ all. AllSpent (hands_of all.items)) }
    ensures fault { IfErr result (λ e. e ≡ PoolFault.OutOfMemory) }
{
    let mut gathered = gathered;
    let Some(done) = gathered.pop() else {
        return Ok(gathered);
    };
    match finish_all(crew, gathered) {
        Ok(others) => add_done(Ok(others), go_on(crew, done)),
        Err(fault) => Err(fault),
    }
}

/// What the parts of all workers weigh together, held at the greatest number.
fn weigh<W: Work, L: Ledger>(work: &W, workers: &Vec<Progress<W::Part, L>>) -> u64
    requires { All (λ p. (W.reduction work.now).fits (W.meaning p)
        × ((W.reduction work.now).load (W.meaning p) < load_limit)) (parts_of workers.now.items) }
    ensures { result ≡ min ((W.reduction work.now).weight (combination_of (W.reduction work.now)
        (map W.meaning (parts_of workers.now.items)))) (2 ^ 64 - 1) }
{
    let mut sum: u64 = 0;
    for worker in workers {
        sum = sum.saturating_add(work.weight(&worker.part));
    }
    sum
}

/// All parts as one.
fn combine_all<W: Work>(work: &W, parts: Vec<W::Part>) -> Result<W::Part, AllocError>
    requires parts { All (λ p. (W.reduction work.now).fits (W.meaning p)) parts.items }
    requires room { (W.reduction work.now).load
        (combination_of (W.reduction work.now) (map W.meaning parts.items)) < load_limit }
    ensures { IfOk result (λ p. W.meaning p
        ≡ combination_of (W.reduction work.now) (map W.meaning parts.items)) }
{
    let mut all = work.unit()?;
    for part in parts {
        all = work.combine(all, part)?;
    }
    Ok(all)
}

/// As many parts as hands: a part that was made before, and behind it such of no piece.
fn parts_from<W: Work>(
    alloc: Global,
    work: &W,
    first: W::Part,
    hands: usize,
) -> Result<Vec<W::Part>, AllocError>
    requires first { (W.reduction work.now).fits (W.meaning first) }
    requires hands { 1 ≤ hands }
    ensures count { IfOk result (λ parts. vec_len parts ≡ hands) }
    ensures parts { IfOk result (λ parts.
        All (λ p. (W.reduction work.now).fits (W.meaning p)) parts.items) }
    ensures together { IfOk result (λ parts.
        combination_of (W.reduction work.now) (map W.meaning parts.items) ≡ W.meaning first) }
{
    let mut parts = Vec::new(alloc);
    put_last(&mut parts, first)?;
    for _i in 1..hands {
        let unit = work.unit()?;
        put_last(&mut parts, unit)?;
    }
    Ok(parts)
}

/// The hands of a new deal of the pieces below a number.
fn new_hands(alloc: Global, pieces: u32, hands: usize) -> Result<Vec<Hand>, AllocError>
    requires pieces { pieces ≤ most_pieces }
    requires hands { (1 ≤ hands) × (hands ≤ most_hands) }
    ensures deal { IfOk result (λ hs. IsNewDeal (pieces_of hs.items) (vec_len hs) hs.items) }
    ensures count { IfOk result (λ hs. vec_len hs ≡ hands) }
    ensures pieces { IfOk result (λ hs. pieces_of hs.items ≡ pieces) }
{
    let deal = Deal::new(alloc, pieces, hands)?;
    Ok(deal.into_hands())
}

/// Workers with these hands, shares and parts, in their order.
fn workers_from<P: Drop, L: Ledger>(
    alloc: Global,
    hands: Vec<Hand>,
    shares: Vec<Share<L>>,
    parts: Vec<P>,
) -> Result<Vec<Progress<P, L>>, AllocError>
    requires shares { vec_len shares ≡ vec_len hands }
    requires parts { vec_len parts ≡ vec_len hands }
    ensures hands { IfOk result (λ ws. hands_of ws.items ≡ hands.items) }
    ensures sums { IfOk result (λ ws. sums_of ws.items ≡ map (λ s. s.sum) shares.items) }
    ensures parts { IfOk result (λ ws. parts_of ws.items ≡ parts.items) }
{
    let mut rest_shares = shares.into_iter();
    let mut rest_parts = parts.into_iter();
    let mut workers = Vec::new(alloc);
    for hand in hands {
        let Some(share) = rest_shares.next() else {
            unreachable!();
        };
        let Some(part) = rest_parts.next() else {
            unreachable!();
        };
        put_last(&mut workers, Progress { hand, share, part })?;
    }
    Ok(workers)
}

/// The hands, the shares and the parts of these workers, each in their order.
fn into_lists<P: Drop, L: Ledger>(
    alloc: Global,
    workers: Vec<Progress<P, L>>,
) -> Result<(Vec<Hand>, Vec<Share<L>>, Vec<P>), AllocError>
    ensures hands { IfOk result (λ r. r.0.items ≡ hands_of workers.items) }
    ensures sums { IfOk result (λ r. map (λ s. s.sum) r.1.items ≡ sums_of workers.items) }
    ensures parts { IfOk result (λ r. r.2.items ≡ parts_of workers.items) }
{
    let mut hands = Vec::new(alloc);
    let mut shares = Vec::new(alloc);
    let mut parts = Vec::new(alloc);
    for worker in workers {
        let Progress { hand, share, part } = worker;
        put_last(&mut hands, hand)?;
        put_last(&mut shares, share)?;
        put_last(&mut parts, part)?;
    }
    Ok((hands, shares, parts))
}

/// The hands of a deal have no piece twice, and where all are spent, they have each piece.
fn keep_apart(hands: &mut Vec<Hand>)
    requires { AreAll hands.old.items }
    ensures same { hands.new.items ≡ hands.old.items }
    ensures run { AreRun hands.new.items }
    ensures apart { (x : ℕ)
        → UpTo (AllSpent hands.new.items) (times x (numbers_of_all hands.new.items))
        (once_below x (pieces_of hands.new.items)) }
{
    compare_all(hands.as_mut_slice());
}

/// The hands of a new deal work, each on a thread of its own, as `spread` says. Where the parts do
/// not weigh more than `limit` then, each goes on until it is spent, on the calling thread.
fn work_through<W: Work + Sync, L: Ledger + Send + Sync, R: Threads + Wait + Sync>(
    crew: Crew<'_, W, L, R>,
    limit: u64,
    ready: Vec<Progress<W::Part, L>>,
) -> Result<Vec<Progress<W::Part, L>>, PoolFault>
    requires ready { AreReady (W.reduction crew.work.now) W.meaning ready.items }
    ensures did { IfOk result (λ all.
        HaveBegunAndResumed (W.reduction crew.entry.work.now) W.meaning ready.items all.items) }
    ensures spent { IfOk result (λ all. AllSpent (hands_of all.items)
        ⊎ (limit < (W.reduction crew.entry.work.now).weight (combination_of
        (W.reduction crew.entry.work.now) (map W.meaning (parts_of all.items))))) }
    ensures alone { NeedNoThread (hands_of ready.items)
        → IfErr result (λ e. e ≡ PoolFault.OutOfMemory) }
{
    let mut crew = crew;
    let gathered = spread_in_scope(&crew, ready)?;
    if weigh(crew.work, &gathered) > limit {
        return Ok(gathered);
    }
    crew.stop = u128::MAX;
    finish_all(&crew, gathered)
}

/// What comes of parts that weigh so much together: all of them as one, or `Over` where that is
/// more than `limit`.
fn conclude<W: Work>(
    work: &W,
    weight: u64,
    limit: u64,
    parts: Vec<W::Part>,
) -> Result<Outcome<W::Part>, AllocError>
    requires weight { weight ≡ (W.reduction work.now).weight
        (combination_of (W.reduction work.now) (map W.meaning parts.items)) }
    requires parts { All (λ p. (W.reduction work.now).fits (W.meaning p)) parts.items }
    requires room { (W.reduction work.now).load
        (combination_of (W.reduction work.now) (map W.meaning parts.items)) < load_limit }
    ensures { IfOk result (DecidesOf (W.reduction work.now) W.meaning
        (combination_of (W.reduction work.now) (map W.meaning parts.items)) limit) }
{
    if weight > limit {
        return Ok(Outcome::Over);
    }
    let part = combine_all(work, parts)?;
    Ok(Outcome::Whole(part))
}

/// The hands of a new deal work, as `work_through` says, and what comes of it is decided: the parts
/// that they begin with and all pieces, combined, or `Over`. The hands and shares come back in
/// their order.
fn fan_ready<W: Work + Sync, L: Ledger + Send + Sync, R: Threads + Wait + Sync>(
    crew: Crew<'_, W, L, R>,
    limit: u64,
    ready: Vec<Progress<W::Part, L>>,
) -> Result<(Outcome<W::Part>, Vec<Hand>, Vec<Share<L>>), PoolFault>
    requires ready { AreReady (W.reduction crew.work.now) W.meaning ready.items }
    ensures decided { IfOk result (λ r. DecidesOnto (W.reduction crew.entry.work.now) W.meaning
        (combination_of (W.reduction crew.entry.work.now) (map W.meaning (parts_of ready.items)))
        (pieces_of (hands_of ready.items)) limit r.0) }
    ensures deal { IfOk result (λ r. AreAll r.1.items
        × (pieces_of r.1.items ≡ pieces_of (hands_of ready.items))) }
    ensures back { IfOk result (λ r.
        CameBack (piece_weight (W.reduction crew.entry.work.now)) (λ n. n)
        (hands_of ready.items) (sums_of ready.items) r.1.items (map (λ s. s.sum) r.2.items)) }
    ensures run { IfOk result (λ r. AreRun r.1.items) }
    ensures once { IfOk result (λ r. HaveNoneTwice r.1.items) }
    ensures settled { IfOk result (λ r. Settles r.0 r.1.items) }
    ensures over { IfOk result (λ r. IsAbove (weight_with (W.reduction crew.entry.work.now)
        (combination_of (W.reduction crew.entry.work.now) (map W.meaning (parts_of ready.items)))
        (numbers_of_all r.1.items)) limit r.0) }
    ensures alone { (vec_len ready ≡ 1) ⊎ (pieces_of (hands_of ready.items) ≡ 0)
        → IfErr result (λ e. e ≡ PoolFault.OutOfMemory) }
{
    let work = crew.work;
    let alloc = crew.alloc;
    let finished = work_through(crew, limit, ready)?;
    let weight = weigh(work, &finished);
    let (mut hands, shares, parts) = into_lists(alloc, finished)?;
    keep_apart(&mut hands);
    let outcome = conclude(work, weight, limit, parts)?;
    Ok((outcome, hands, shares))
}

/// Does all pieces of a new deal onto a part that was made before: hand 0 on the calling thread,
/// which goes on with that part, each other hand on a thread of its own.
fn fan_onto<W: Work + Sync, L: Ledger + Send + Sync, R: Threads + Wait + Sync>(
    crew: Crew<'_, W, L, R>,
    part: W::Part,
    hands: Vec<Hand>,
    limit: u64,
    shares: Vec<Share<L>>,
) -> Result<(Outcome<W::Part>, Vec<Hand>, Vec<Share<L>>), PoolFault>
    requires part { (W.reduction crew.work.now).fits (W.meaning part) }
    requires deal { IsNewDeal (pieces_of hands.items) (vec_len hands) hands.items }
    requires count { vec_len shares ≡ vec_len hands }
    requires loads { load_onto (W.reduction crew.work.now) (W.meaning part) (pieces_of hands.items)
        < load_limit }
    requires room { (i : ℕ) (s : _) → get_elem? shares.items i ≡ some s
        → load_below (W.reduction crew.work.now) (pieces_of hands.items) + s.sum < load_limit }
    ensures decided { IfOk result (λ r. DecidesOnto (W.reduction crew.entry.work.now) W.meaning
        (W.meaning part) (pieces_of hands.items) limit r.0) }
    ensures deal { IfOk result (λ r. AreAll r.1.items
        × (pieces_of r.1.items ≡ pieces_of hands.items)) }
    ensures back { IfOk result (λ r.
        CameBack (piece_weight (W.reduction crew.entry.work.now)) (λ s. s.sum)
        hands.items shares.items r.1.items r.2.items) }
    ensures run { IfOk result (λ r. AreRun r.1.items) }
    ensures once { IfOk result (λ r. HaveNoneTwice r.1.items) }
    ensures settled { IfOk result (λ r. Settles r.0 r.1.items) }
    ensures over { IfOk result (λ r.
        IsAbove (weight_with (W.reduction crew.entry.work.now) (W.meaning part)
        (numbers_of_all r.1.items)) limit r.0) }
    ensures alone { (vec_len hands ≡ 1) ⊎ (pieces_of hands.items ≡ 0)
        → IfErr result (λ e. e ≡ PoolFault.OutOfMemory) }
{
    let parts = parts_from(crew.alloc, crew.work, part, hands.len())?;
    let ready = workers_from(crew.alloc, hands, shares, parts)?;
    fan_ready(crew, limit, ready)
}

/// Does all pieces of a new deal: hand 0 on the calling thread, each other hand on a thread of its
/// own. With one hand, or no piece, no thread is started.
///
/// Each worker reports its weights to its share of the book, and may stop once the book's number is
/// above `stop`. Where what they did weighs more than `limit`, the answer is `Over`. Else the
/// calling thread does what is left. The hands and shares come back in their order.
///
/// It asks for all hands of a new deal, from hand 0 on, for as many shares, and that the loads of
/// all pieces, with the sum of any share, add up to less than 2^63. All threads have ended when it
/// answers.
///
/// Example: where the hands are those of a new deal of 100 pieces, each of the weight 1,
/// `fan_on(rt, alloc, &work, hands, 100, &book, 100, shares)` answers `Whole`, the hands, which are
/// settled, and the shares, whose sums add up to 100 more than before.
///
/// # Errors
///
/// `ThreadNotStarted` where a thread could not be started, and else `OutOfMemory`. Hands and shares
/// are then given up.
pub fn fan_on<W: Work + Sync, L: Ledger + Send + Sync, R: Threads + Wait + Sync>(
    rt: &R,
    alloc: Global,
    work: &W,
    hands: Vec<Hand>,
    limit: u64,
    book: &Book<L>,
    stop: u128,
    shares: Vec<Share<L>>,
) -> Result<(Outcome<W::Part>, Vec<Hand>, Vec<Share<L>>), PoolFault>
    requires deal { IsNewDeal (pieces_of hands.items) (vec_len hands) hands.items }
    requires count { vec_len shares ≡ vec_len hands }
    requires loads { load_below (W.reduction work.now) (pieces_of hands.items) < load_limit }
    requires room { (i : ℕ) (s : _) → get_elem? shares.items i ≡ some s
        → load_below (W.reduction work.now) (pieces_of hands.items) + s.sum < load_limit }
    ensures decided { IfOk result (λ r. DecidesBelow (W.reduction work.now) W.meaning
        (pieces_of hands.items) limit r.0) }
    ensures deal { IfOk result (λ r. AreAll r.1.items
        × (pieces_of r.1.items ≡ pieces_of hands.items)) }
    ensures back { IfOk result (λ r.
        CameBack (piece_weight (W.reduction work.now)) (λ s. s.sum)
        hands.items shares.items r.1.items r.2.items) }
    ensures run { IfOk result (λ r. AreRun r.1.items) }
    ensures once { IfOk result (λ r. HaveNoneTwice r.1.items) }
    ensures settled { IfOk result (λ r. Settles r.0 r.1.items) }
    ensures over { IfOk result (λ r.
        Outweighs (piece_weight (W.reduction work.now)) limit r.0 r.1.items) }
    ensures alone { (vec_len hands ≡ 1) ⊎ (pieces_of hands.items ≡ 0)
        → IfErr result (λ e. e ≡ PoolFault.OutOfMemory) }
{
    let unit = work.unit()?;
    let crew = Crew {
        rt,
        alloc,
        work,
        book,
        stop,
    };
    fan_onto(crew, unit, hands, limit, shares)
}

/// Does the pieces below a number, at most 1,048,576, onto a part that was made before, by the
/// hands of a new deal, as many as there are shares, over a book that may have been reported to
/// before: hand 0 works on the calling thread and goes on with that part, each other hand on a
/// thread of its own. So one book serves several deals, one after the other. With one hand, or no
/// piece, no thread is started.
///
/// A worker may stop once the book's number is above `limit`. The answer is the part and all
/// pieces, combined, or `Over` where the weight of the part and those of the pieces add up to more
/// than `limit`; the hands of the deal; and the shares. Hands and shares come in their order, and
/// each share has grown by the weights of the pieces in its hand's list. No piece is in two lists,
/// and after `Whole` each is in one. What the part weighs is not reported to the book.
///
/// It asks for a part of this work whose load and the loads of all pieces add up to less than 2^63,
/// for 1 to 64 shares, and that the loads of all pieces, with the sum of any share, add up to less
/// than 2^63. All threads have ended when it answers.
///
/// Example: where a part is a number, which is its weight too, parts are added, and each of 100
/// pieces is 1, `fan_deal_onto(rt, alloc, &work, 5, 100, 105, &book, shares)` answers `Whole(105)`,
/// the hands, which are settled, and the shares;
/// `fan_deal_onto(rt, alloc, &work, 5, 100, 104, &book, shares)` answers `Over`, hands and shares.
///
/// # Errors
///
/// `ThreadNotStarted` where a thread could not be started, and else `OutOfMemory`. The part and the
/// shares are then given up.
pub fn fan_deal_onto<W: Work + Sync, L: Ledger + Send + Sync, R: Threads + Wait + Sync>(
    rt: &R,
    alloc: Global,
    work: &W,
    part: W::Part,
    pieces: u32,
    limit: u64,
    book: &Book<L>,
    shares: Vec<Share<L>>,
) -> Result<(Outcome<W::Part>, Vec<Hand>, Vec<Share<L>>), PoolFault>
    requires part { (W.reduction work.now).fits (W.meaning part) }
    requires pieces { pieces ≤ most_pieces }
    requires hands { (1 ≤ vec_len shares) × (vec_len shares ≤ most_hands) }
    requires loads { load_onto (W.reduction work.now) (W.meaning part) pieces < load_limit }
    requires room { All (λ s. load_below (W.reduction work.now) pieces + s.sum < load_limit)
        shares.items }
    ensures decided { IfOk result (λ r. DecidesOnto (W.reduction work.now) W.meaning
        (W.meaning part) pieces limit r.0) }
    ensures deal { IfOk result (λ r. AreAll r.1.items × (pieces_of r.1.items ≡ pieces)) }
    ensures reported { IfOk result (λ r. Reported (piece_weight (W.reduction work.now))
        (λ s. s.sum) shares.items r.1.items r.2.items) }
    ensures run { IfOk result (λ r. AreRun r.1.items) }
    ensures once { IfOk result (λ r. HaveNoneTwice r.1.items) }
    ensures settled { IfOk result (λ r. Settles r.0 r.1.items) }
    ensures over { IfOk result (λ r.
        IsAbove (weight_with (W.reduction work.now) (W.meaning part)
        (numbers_of_all r.1.items)) limit r.0) }
    ensures alone { (vec_len shares ≡ 1) ⊎ (pieces ≡ 0)
        → IfErr result (λ e. e ≡ PoolFault.OutOfMemory) }
{
    let hands = new_hands(alloc, pieces, shares.len())?;
    let crew = Crew {
        rt,
        alloc,
        work,
        book,
        stop: limit as u128,
    };
    fan_onto(crew, part, hands, limit, shares)
}

/// `fan_out` with a book of the ledger L.
fn with_book<L: Ledger + Send + Sync, W: Work + Sync, R: Threads + Wait + Sync>(
    rt: &R,
    alloc: Global,
    work: &W,
    pieces: u32,
    hands: usize,
    limit: u64,
    blank: Blank,
) -> Result<Outcome<W::Part>, PoolFault>
    requires pieces { pieces ≤ most_pieces }
    requires hands { (1 ≤ hands) × (hands ≤ most_hands) }
    requires loads { load_below (W.reduction work.now) pieces < load_limit }
    requires name { blank.name ≡ L.name }
    requires parts { (blank.parts ≡ L.parts) × (L.parts ≡ hands) }
    ensures decided { IfOk result (DecidesBelow (W.reduction work.now) W.meaning pieces limit) }
    ensures alone { (hands ≡ 1) ⊎ (pieces ≡ 0) → IfErr result (λ e. e ≡ PoolFault.OutOfMemory) }
{
    let unit = work.unit()?;
    let (book, shares) = Book::<L>::new(alloc, blank, hands)?;
    let (outcome, _, shares) = fan_deal_onto(rt, alloc, work, unit, pieces, limit, &book, shares)?;
    book.close(shares);
    Ok(outcome)
}

/// Does the pieces below a number, at most 1,048,576, on 1 to 64 threads, the calling one among
/// them. With one hand, or no piece, no thread is started. It answers the combination of all parts,
/// or `Over` where they weigh more than `limit`.
///
/// It asks that the loads of all pieces add up to less than 2^63. All threads have ended when it
/// answers.
///
/// Example: where piece i is the number i, which is its weight too, and parts are added,
/// `fan_out(rt, alloc, &work, 4, 2, 6)` answers `Whole(6)`, and
/// `fan_out(rt, alloc, &work, 4, 2, 5)` answers `Over`.
///
/// # Errors
///
/// `ThreadNotStarted` where a thread could not be started, and else `OutOfMemory`.
pub fn fan_out<W: Work + Sync, R: Threads + Wait + Sync>(
    rt: &R,
    alloc: Global,
    work: &W,
    pieces: u32,
    hands: usize,
    limit: u64,
) -> Result<Outcome<W::Part>, PoolFault>
    requires pieces { pieces ≤ most_pieces }
    requires hands { (1 ≤ hands) × (hands ≤ most_hands) }
    requires loads { load_below (W.reduction work.now) pieces < load_limit }
    ensures decided { IfOk result (DecidesBelow (W.reduction work.now) W.meaning pieces limit) }
    ensures alone { (hands ≡ 1) ⊎ (pieces ≡ 0) → IfErr result (λ e. e ≡ PoolFault.OutOfMemory) }
{
    with_book::<Brand, W, R>(
        rt,
        alloc,
        work,
        pieces,
        hands,
        limit,
        Blank::new(hands as u64),
    )
}
