//! A deque that is filled, and then gives out its seats.

ghost use Rattle.std.specs.Prelude.{◌≡◌, ℕ, ◌+◌, ◌-◌, ◌<◌, ◌≤◌, ◌^◌, true, false, [], ◌∷◌, ◌++◌, IfOk, OnOk};
ghost use Rattle.pool.specs.Dealing.{residue_class};
ghost use Rattle.pool.specs.Seen.{Seen, Owned};
ghost use Rattle.pool.specs.Views.{Offer, next_seat, offer_with, owned_first};
ghost use Rattle.pool.specs.Limits.{most_hands};

use crate::deal::{Deque, LocalQueue, StealHandle};
use crate::protocol::{Fill, Mark, Seal, Seat};
use crate::view::Packed;
use std::alloc::{AllocError, Global};
use std::marker::Model;

/// How many words of padding there are: as many as a line of the processor's cache has.
const LINE: usize = 8;

/// Padding for the cache: room that nobody uses, taken before a deque is made. It keeps what the
/// owner of one deque reads at each take off the line of the cache that the owner of the next one
/// writes at each take.
pub type CachePad = Vec<u64>;

/// A deque that is being filled. Contracts see it as its numbers.
#[derive(Drop)]
pub struct Filling {
    pad: CachePad,
    worker: Deque,
}

impl Model for Filling {
    ghost use Rattle.std.specs.Prelude.{◌≡◌, ℕ, List, true, false, [], ◌∷◌};
    ghost use Rattle.pool.specs.Rule.{view_of};
    ghost use Rattle.crossbeam_deque.specs.Handles.{worker_deque, worker_view, worker_flavor};

    ghost Value = { List ℕ };

    ghost view = { λ s. (worker_view s.worker).numbers };

    ghost invariant = { λ s. (worker_flavor s.worker ≡ 0)
        × (worker_view s.worker
        ≡ view_of true true 0 1 (worker_view s.worker).numbers ((0, []) ∷ [])) };
}

#[derive(Drop)]
pub struct SeatDeque {
    pad: CachePad,
    worker: Deque,
    hands: usize,
}

impl Model for SeatDeque {
    ghost use Rattle.std.specs.Prelude.{◌≡◌, ◌-◌, ◌+◌, ◌<◌, ◌≤◌, true, false, [], ◌∷◌};
    ghost use Rattle.pool.specs.Rule.{view_of};
    ghost use Rattle.pool.specs.Views.{Offer, offer_of};
    ghost use Rattle.crossbeam_deque.specs.Handles.{worker_deque, worker_view, worker_flavor};

    ghost Value = { Offer };

    ghost view = { λ s. offer_of (worker_deque s.worker) (worker_view s.worker) s.hands };

    ghost invariant = { λ s. (worker_flavor s.worker ≡ 0)
        × (worker_view s.worker ≡ view_of false true (s.hands + 1 - (worker_view s.worker).made)
        (worker_view s.worker).made (worker_view s.worker).numbers ((0, []) ∷ []))
        × ((worker_view s.worker).made ≤ s.hands) };
}

impl Filling {
    /// A deque with no number and room for this many tasks.
    pub fn new(alloc: Global, room: usize) -> Result<Filling, AllocError>
        ensures { IfOk result (λ f. f ≡ []) }
    {
        let pad = CachePad::with_capacity(alloc, LINE)?;
        let Ok(worker) = Deque::fifo_as(alloc, room) else {
            return Err(AllocError);
        };
        Ok(Filling { pad, worker })
    }

    /// The number, which is not the greatest one, goes behind all others.
    pub fn fill(&mut self, number: u32) -> Result<(), AllocError>
        requires { number + 1 < 2 ^ 32 }
        ensures { OnOk result (self.new ≡ self.old ++ number ∷ []) }
    {
        if self.worker.push_as::<Fill>(Packed::number(number)).is_err() {
            return Err(AllocError);
        }
        Ok(())
    }

    /// No number joins from now on. Behind the numbers lies an end mark for each hand.
    pub fn seal(self, hands: usize) -> Result<SeatDeque, AllocError>
        requires { (0 < hands) × (hands ≤ most_hands) }
        ensures { IfOk result (λ s. (s.numbers ≡ self) × (s.made ≡ 1) × (s.hands ≡ hands)) }
    {
        let Filling { pad, mut worker } = self;
        for _mark in 0..hands {
            if worker.push_as::<Mark>(Packed::end()).is_err() {
                return Err(AllocError);
            }
        }
        drop(worker.another::<Seal>());
        Ok(SeatDeque { pad, worker, hands })
    }
}

impl SeatDeque {
    /// A seat for the next hand in the round.
    pub fn seat(&mut self) -> Result<StealHandle, AllocError>
        requires { self.old.made < self.old.hands }
        ensures left { IfOk result (λ r. self.new ≡ offer_with self.old (self.old.made + 1)) }
        ensures seat { IfOk result (λ r. r ≡ next_seat self.old) }
    {
        let Ok(thief) = self.worker.stealer() else {
            return Err(AllocError);
        };
        let pass = self.worker.another::<Seat>();
        Ok(StealHandle {
            thief,
            pass,
            closed: false,
        })
    }

    /// The owner's own end, once each other hand has its seat.
    pub fn into_local(self) -> LocalQueue
        requires { self.made ≡ self.hands }
        ensures { result ≡ owned_first self }
    {
        let SeatDeque {
            pad,
            worker,
            hands: _,
        } = self;
        LocalQueue {
            pad,
            worker,
            closed: false,
        }
    }
}
