//! One worker: it takes pieces until its hand is spent or the book is above a number, and reports
//! their weights.

ghost use Rattle.std.specs.Prelude.{◌≡◌, ℕ, ◌+◌, ◌^◌, ◌<◌, ◌-◌, true, IfOk, IfSome};
ghost use Rattle.pool.specs.Done.{HasResumed, MayResume};
ghost use Rattle.pool.specs.Inside.Reduction.{piece_load};
ghost use Rattle.pool.specs.Reduction.{piece_weight};
ghost use Rattle.pool.specs.Limits.{load_limit};

use crate::book::{Book, Share};
use crate::deal::{Hand, Next};
use crate::laws::Work;
use std::alloc::{AllocError, Global};
use std::marker::{Model, Send, Sync};
use std::snapshot::Snapshot;
use std::sync::Wait;
use std::sync::ledger::Ledger;
use std::thread::{Promise, PromisedHandle, Scope};

/// What all workers of a deal share.
#[derive(Drop)]
pub struct Crew<'a, W, L: Ledger, R> {
    /// What starts the threads.
    pub rt: &'a R,
    /// Where memory comes from.
    pub alloc: Global,
    /// The work.
    pub work: &'a W,
    /// The book to which each worker reports its weights.
    pub book: &'a Book<L>,
    /// A worker may stop once the book's number is above this.
    pub stop: u128,
}

/// What a worker has: its hand, its share, and a part: what it began with and the pieces in the
/// hand's list, combined. Contracts see the share as its sum.
#[derive(Drop)]
pub struct Progress<P, L: Ledger> {
    pub hand: Hand,
    pub share: Share<L>,
    pub part: P,
}

impl<P, L: Ledger> Model for Progress<P, L> {
    ghost use Rattle.pool.specs.Done.{Worker};

    ghost Value = { Worker P };

    ghost view = { λ d. record { hand = d.hand; sum = d.share.sum; part = d.part } };
}

impl<P, L: Ledger> Progress<P, L> {
    /// How many pieces the deal of its hand has.
    pub fn pieces(&self) -> u32
        ensures { result ≡ self.now.hand.pieces }
    {
        self.hand.pieces()
    }
}

/// Where a worker could go on with what it was handed, it gives back what it did, as `go_on` says.
pub struct Promised<'a, W, P, L: Ledger> {
    pub work: &'a W,
    pub before: Snapshot<Progress<P, L>>,
}

impl<'a, W, P, L: Ledger> Drop for Promised<'a, W, P, L> {
    fn drop(self) {
        let Promised { work: _, before } = self;
        drop(before);
    }
}

impl<'a, W: Work, L: Ledger> Promise<Result<Progress<W::Part, L>, AllocError>>
    for Promised<'a, W, W::Part, L> {
    ghost kept_by = { λ p r. IfOk r (λ d. HasResumed (W.reduction p.work.now)
        p.before.value.hand p.before.value.sum (W.meaning p.before.value.part)
        d.hand d.sum (W.meaning d.part)) };
}

/// Does one piece: the part has one more, and the share's sum its weight more. Also answers the
/// book's number after it.
fn add_piece<W: Work, L: Ledger, R: Wait>(
    crew: &Crew<'_, W, L, R>,
    share: &mut Share<L>,
    part: W::Part,
    i: u32,
) -> Result<(W::Part, u128), AllocError>
    requires fits { (W.reduction crew.now.work.now).fits (W.meaning part) }
    requires room { (W.reduction crew.now.work.now).load (W.meaning part)
        + piece_load (W.reduction crew.now.work.now) i < load_limit }
    requires sum { share.old.sum + piece_load (W.reduction crew.now.work.now) i < load_limit }
    ensures part { IfOk result (λ r. W.meaning r.0
        ≡ (W.reduction crew.now.work.now).combine (W.meaning part)
        ((W.reduction crew.now.work.now).piece i)) }
    ensures sum { IfOk result (λ p. share.new.sum
        ≡ share.old.sum + piece_weight (W.reduction crew.now.work.now) i) }
{
    let before = crew.work.weight(&part);
    let part = crew.work.add(part, i)?;
    let after = crew.work.weight(&part);
    let number = crew.book.report(crew.rt, share, after - before);
    Ok((part, number))
}

/// Takes pieces until the hand is spent, or the book answers a number above `stop`. No number is
/// above the greatest. What the worker began with, the unit or a part that was made before, stays
/// in the part.
fn take_pieces<W: Work, L: Ledger, R: Wait>(
    crew: &Crew<'_, W, L, R>,
    hand: &mut Hand,
    share: &mut Share<L>,
    part: W::Part,
) -> Result<W::Part, AllocError>
    requires { MayResume (W.reduction crew.now.work.now) hand.old share.old.sum (W.meaning part) }
    ensures did { IfOk result (λ p. HasResumed (W.reduction crew.now.work.now)
        hand.old share.old.sum (W.meaning part) hand.new share.new.sum (W.meaning p)) }
    ensures spent { crew.now.stop ≡ 2 ^ 128 - 1 → IfOk result (λ p. hand.new.spent ≡ true) }
{
    let mut part = part;
    for _ in crew.rt.forever() {
        match hand.next() {
            Next::Piece(i) => {
                let (more, number) = add_piece(crew, share, part, i)?;
                if number > crew.stop {
                    return Ok(more);
                }
                part = more;
            }
            Next::Spent => return Ok(part),
            Next::Memory => return Err(AllocError),
        }
    }
    unreachable!()
}

/// Goes on as `take_pieces`, with the part that was made so far.
pub fn go_on<W: Work, L: Ledger, R: Wait>(
    crew: &Crew<'_, W, L, R>,
    done: Progress<W::Part, L>,
) -> Result<Progress<W::Part, L>, AllocError>
    requires { MayResume (W.reduction crew.now.work.now) done.hand done.sum
        (W.meaning done.part) }
    ensures did { IfOk result (λ d. HasResumed (W.reduction crew.now.work.now)
        done.hand done.sum (W.meaning done.part) d.hand d.sum (W.meaning d.part)) }
    ensures spent { crew.now.stop ≡ 2 ^ 128 - 1 → IfOk result (λ d. d.hand.spent ≡ true) }
{
    let Progress {
        mut hand,
        mut share,
        part,
    } = done;
    let part = take_pieces(crew, &mut hand, &mut share, part)?;
    Ok(Progress { hand, share, part })
}

/// A worker on a thread of its own.
pub type Running<'s, W, P, L> = PromisedHandle<
    Result<Progress<P, L>, AllocError>,
    Promised<'s, W, P, L>,
>;

/// Starts one worker, which goes on with what it is handed, on a thread of its own.
pub fn start<'s, E, W: Work + Sync, L: Ledger + Send + Sync, R: Wait + Sync>(
    scope: &Scope<'s, E>,
    crew: &'s Crew<'s, W, L, R>,
    done: Progress<W::Part, L>,
) -> Option<Running<'s, W, W::Part, L>>
    requires { MayResume (W.reduction crew.now.work.now) done.hand done.sum
        (W.meaning done.part) }
    ensures work { IfSome result (λ h. h.promise.work.now ≡ crew.now.work.now) }
    ensures before { IfSome result (λ h. h.promise.before.value ≡ done) }
{
    let promise = Promised {
        work: crew.work,
        before: Snapshot::of(&done),
    };
    let run = move || -> Result<Progress<W::Part, L>, AllocError>
        requires { MayResume (W.reduction crew.now.work.now) done.hand done.sum
            (W.meaning done.part) }
        ensures { IfOk result (λ d. HasResumed (W.reduction crew.entry.now.work.now)
            done.hand done.sum (W.meaning done.part) d.hand d.sum (W.meaning d.part)) }
    { go_on(crew, done) };
    scope.spawn_with(promise, run).ok()
}
