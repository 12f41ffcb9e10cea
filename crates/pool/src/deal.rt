//! Hands, which take numbers from their own deque, and then from those of the others.

ghost use Rattle.std.specs.Prelude.{◌≢◌, length, ◌%◌, ◌↔◌, All, IsTrue, ◌≡◌, ℕ, List, ◌+◌, ◌-◌, ◌<◌, ◌≤◌, true, false, [], ◌∷◌, ◌++◌, MatchOption, IfOk, IfSome, IfNone};
ghost use Rattle.pool.specs.Seen.{Seen, Took, FoundEmpty, with_seen};
ghost use Rattle.pool.specs.Inside.Views.{Looked};
ghost use Rattle.pool.specs.Views.{IsThief};
ghost use Rattle.pool.specs.Inside.Hands.{Steals};
ghost use Rattle.pool.specs.Hands.{new_holding};
ghost use Rattle.pool.specs.Holding.{IsHolding, InOrder};
ghost use Rattle.pool.specs.Answered.{Answers};
ghost use Rattle.pool.specs.Inside.Looks.{AllReach, HaveOneRun, KnowsAbove, OneRun, Reaches, seats_from};
ghost use Rattle.pool.specs.Settled.{AreAll, AllSpent, AreRun, HaveEachOnce, HaveNonePassedOver, HaveNoneTwice, IsRunAt};
ghost use Rattle.pool.specs.Rule.{AllBelow};
ghost use Rattle.pool.specs.Inside.Steps.{Apart};
ghost use Rattle.pool.specs.Steps.{giving_view, given_view};
ghost use Rattle.crossbeam_deque.specs.Handles.{worker_deque, worker_flavor, worker_view, view as pass_view, IsPassOf};
ghost use Rattle.pool.specs.Limits.{most_hands};

use crate::protocol::{Dealing, GiveOpen, GiveShut, Lend, Seal, Stolen, Taken, Together};
use crate::source::CachePad;
use crate::view::{Packed, Task, View};
use crossbeam_deque::{Pass, Steal, Stealer, Worker};
use std::alloc::Global;
use std::marker::Model;
use std::mem;

/// A deque of one deal, under the rule of `protocol`.
pub type Deque = Worker<Packed, Global, View, Dealing>;

/// A hand's local queue: the end of its own deque, from which it takes.
#[derive(Drop)]
pub struct LocalQueue {
    pub pad: CachePad,
    pub worker: Deque,
    pub closed: bool,
}

impl Model for LocalQueue {
    ghost use Rattle.std.specs.Prelude.{◌≡◌};
    ghost use Rattle.pool.specs.Seen.{Owned};
    ghost use Rattle.pool.specs.Views.{owned_of, IsOwner};
    ghost use Rattle.crossbeam_deque.specs.Handles.{worker_deque, worker_view, worker_flavor};

    ghost Value = { Owned };

    ghost view = { λ o. owned_of (worker_deque o.worker) (worker_view o.worker) };

    ghost invariant = { λ o. (worker_flavor o.worker ≡ 0)
        × IsOwner (worker_view o.worker) o.closed };
}

/// A handle to steal by: the end of another hand's deque.
#[derive(Drop)]
pub struct StealHandle {
    pub thief: Stealer<Packed, Global, View, Dealing>,
    pub pass: Pass<Packed, View, Global>,
    pub closed: bool,
}

impl Model for StealHandle {
    ghost use Rattle.std.specs.Prelude.{◌≡◌};
    ghost use Rattle.pool.specs.Seen.{Seen};
    ghost use Rattle.pool.specs.Views.{seen_of, IsThief};
    ghost use Rattle.crossbeam_deque.specs.Handles.{view as pass_view, IsPassOf, stealer_deque, stealer_flavor};

    ghost Value = { Seen };

    ghost view = { λ r. seen_of (stealer_deque r.thief) (pass_view r.pass) };

    ghost invariant = { λ r. IsPassOf (stealer_deque r.thief) r.pass × (stealer_flavor r.thief ≡ 0)
        × IsThief (pass_view r.pass) r.closed };
}

impl LocalQueue {
    /// The first number of the deque. None where no number is left, and then none is left for good.
    fn take(&mut self) -> Option<u32>
        ensures { MatchOption result
            ((e : Seen) × FoundEmpty self.old.seen e × (self.new ≡ with_seen self.old e))
            (λ x. (s : Seen) × Took self.old.seen x s × (self.new ≡ with_seen self.old s)) }
    {
        if self.closed {
            return None;
        }
        let Some(packed) = self.worker.pop_as::<Taken>() else {
            unreachable!();
        };
        match packed.task() {
            Task::Number(x) => Some(x),
            Task::End => {
                self.closed = true;
                None
            }
        }
    }
}

impl StealHandle {
    /// The first number of the deque, if this one try got it.
    fn take(&mut self) -> Option<u32>
        ensures { MatchOption result (self.new ≡ self.old) (λ x. Took self.old x self.new) }
    {
        if self.closed {
            return None;
        }
        match self.thief.steal_as::<Stolen>(&mut self.pass) {
            Steal::Success(packed) => match packed.task() {
                Task::Number(x) => Some(x),
                Task::End => {
                    self.closed = true;
                    None
                }
            },
            Steal::Empty | Steal::Retry => None,
        }
    }
}

/// What a hand answers when it is asked for a piece.
///
/// Example: a hand of a deal without a piece answers `Spent`.
#[derive(Clone, Copy, Debug, PartialEq, Eq)]
pub enum Next {
    /// The piece with this number is the hand's, and no other hand gets it.
    Piece(u32),
    /// The hand's own deque is empty for good, and one try at each other deque gave nothing.
    Spent,
    /// The hand's own deque was refused memory, and the hand has what it had. `next` never answers
    /// this: a deal has all of its memory before the first hand takes a piece.
    Memory,
}

/// One worker's end of a deal: its own deque, and its way into the deques of the other hands.
/// Contracts see what the hand knows of each, and what it was given from it, in order.
///
/// Example: where 4 pieces were dealt to 2 hands and hand 0 alone is asked, it answers the pieces 0
/// and 2, which are its own, and then 1, which it steals.
pub struct Hand {
    number: usize,
    hands: usize,
    pieces: u32,
    local: LocalQueue,
    others: Vec<StealHandle>,
    spent: bool,
}

// A function of its own: a derived one is written out, and proved, wherever a hand is given up.
impl Drop for Hand {
    fn drop(self) {
        let Hand {
            number: _,
            hands: _,
            pieces: _,
            local,
            others,
            spent: _,
        } = self;
        drop(local);
        drop(others);
    }
}

impl Model for Hand {
    ghost use Rattle.pool.specs.Holding.{Holding, IsHolding};

    ghost Value = { Holding };

    ghost view = { λ h. record {
      number = h.number;
      hands = h.hands;
      pieces = h.pieces;
      own = h.local;
      others = h.others.items;
      spent = h.spent;
    } };

    ghost invariant = { λ h. IsHolding record {
      number = h.number;
      hands = h.hands;
      pieces = h.pieces;
      own = h.local;
      others = h.others.items;
      spent = h.spent;
    } };
}

/// One try at each, in turn, until one gives a number.
fn steal(others: &mut Vec<StealHandle>) -> Option<u32>
    ensures { Steals others.old.items result others.new.items }
{
    for r in 0..others.len() {
        let other = &mut others[r];
        if let Some(x) = other.take() {
            return Some(x);
        }
    }
    None
}

impl Hand {
    /// A piece: the first of the hand's own deque, or, once that is empty, the first of another's.
    /// It tries each other deque once, from the next hand's on and round. It takes no lock, waits
    /// for nobody, and returns.
    ///
    /// Example: where 8 pieces were dealt to 4 hands and hand 1 is the first that is asked, it
    /// answers `Piece(1)`.
    pub fn next(&mut self) -> Next
        ensures answer { Answers self.old self.new result }
        ensures holding { IsHolding self.new }
        ensures order { InOrder self.new }
        ensures memory { result ≢ Next.Memory }
    {
        if let Some(x) = self.local.take() {
            return Next::Piece(x);
        }
        if let Some(x) = steal(&mut self.others) {
            return Next::Piece(x);
        }
        self.spent = true;
        Next::Spent
    }
}

impl LocalQueue {
    /// The owner of the deque looks at what all other hands know of it: those before the owner in
    /// the deal, and those after it. One schedule goes on from that, and from what the owner knows.
    fn compare_with(&mut self, before: &mut [Hand], after: &mut [Hand])
        requires few { length before.old + length after.old < most_hands }
        requires count { self.old.made ≡ length before.old + length after.old + 1 }
        requires after { AllReach self.old.seen.deque self.old.seen.numbers
            (length before.old + length after.old) after.old }
        requires before { AllReach self.old.seen.deque self.old.seen.numbers
            (length before.old) before.old }
        ensures same { (self.new ≡ self.old) × (before.new ≡ before.old) × (after.new ≡ after.old) }
        ensures run { HaveOneRun self.old before.old after.old }
    {
        let place = before.len() + after.len();
        compare(&mut self.worker, after, before, place);
    }
}

impl Hand {
    /// Whether it has answered Spent.
    fn is_spent(&self) -> bool
        ensures { result ≡ self.now.spent }
    {
        self.spent
    }

    /// How many pieces its deal has, whether they were given already or not.
    pub fn pieces(&self) -> u32
        ensures { result ≡ self.now.pieces }
    {
        self.pieces
    }

    /// As `LocalQueue::compare_with`, at this hand's deque.
    fn compare_with(&mut self, before: &mut [Hand], after: &mut [Hand])
        requires few { length before.old + length after.old < most_hands }
        requires count { self.old.own.made ≡ length before.old + length after.old + 1 }
        requires after { AllReach self.old.own.seen.deque self.old.own.seen.numbers
            (length before.old + length after.old) after.old }
        requires before { AllReach self.old.own.seen.deque self.old.own.seen.numbers
            (length before.old) before.old }
        ensures same { (self.new ≡ self.old) × (before.new ≡ before.old) × (after.new ≡ after.old) }
        ensures run { HaveOneRun self.old.own before.old after.old }
    {
        self.local.compare_with(before, after);
    }
}

/// One schedule goes on from what each hand knows of the deque of the hand d, and gives each what
/// it has of it.
fn compare_at(hands: &mut [Hand], d: usize)
    requires deal { AreAll hands.old }
    requires low { d < length hands.old }
    ensures same { hands.new ≡ hands.old }
    ensures run { (schedule : List ℕ) × AllBelow (length hands.old) schedule
        × IsRunAt d schedule hands.old }
{
    let (before, rest) = hands.split_at_mut(d);
    let Some((mine, after)) = rest.split_first_mut() else {
        unreachable!();
    };
    mine.compare_with(before, after);
}

/// One schedule of the deal goes on from what each hand knows, and gives each hand what it has. It
/// takes no memory.
pub fn compare_all(hands: &mut [Hand])
    requires deal { AreAll hands.old }
    ensures same { hands.new ≡ hands.old }
    ensures run { AreRun hands.old }
{
    for d in 0..hands.len() {
        compare_at(hands, d);
    }
}

/// Whether each of these has answered Spent.
fn are_all_spent(hands: &[Hand]) -> bool
    ensures { IsTrue result ↔ AllSpent hands.now }
{
    for i in 0..hands.len() {
        if !hands[i].is_spent() {
            return false;
        }
    }
    true
}

/// Whether each hand of the deal has answered Spent. Then what they were given, joined, is each
/// piece exactly once; and whatever it answers, one schedule gave the hands what they have. It
/// takes no memory, and leaves the hands as they were. It asks for all hands of one deal, from hand
/// 0 on.
///
/// Example: of a new deal it answers `false`; of one without a piece it answers `true` once each
/// hand was asked.
pub fn settled(hands: &mut [Hand]) -> bool
    requires deal { AreAll hands.old }
    ensures same { hands.new ≡ hands.old }
    ensures answer { IsTrue result ↔ AllSpent hands.old }
    ensures whole { IsTrue result → HaveEachOnce hands.old }
    ensures run { AreRun hands.old }
    ensures once { HaveNoneTwice hands.old }
{
    compare_all(hands);
    are_all_spent(hands)
}

/// What the hands of a deal have, where one schedule gives it to them: no piece is in two lists,
/// none is passed over, and where each hand has answered Spent, each piece is in one list, once.
///
/// Example: of a deal of 8 pieces to 2 hands, where 4 is in some list, so are 0 and 2.
pub fn run_law()
    ensures once { (hands : _) → AreAll hands → AreRun hands → HaveNoneTwice hands }
    ensures front { (hands : _) → AreAll hands → AreRun hands → HaveNonePassedOver hands }
    ensures whole { (hands : _) → AreAll hands → AreRun hands → AllSpent hands
        → HaveEachOnce hands }
{}

/// A hand that has taken nothing.
pub fn first_hand(
    number: usize,
    hands: usize,
    pieces: u32,
    local: LocalQueue,
    others: Vec<StealHandle>,
) -> Hand
    requires { IsHolding (new_holding number hands pieces local others.items) }
    ensures is { result ≡ new_holding number hands pieces local others.items }
    ensures holding { IsHolding result }
{
    Hand {
        number,
        hands,
        pieces,
        local,
        others,
        spent: false,
    }
}

/// The second hand that the owner knows has its seat again.
fn give_back(worker: &mut Deque, closed: bool) -> Pass<Packed, View, Global>
    requires second { (p : ℕ × List ℕ) × (q : ℕ × List ℕ) × (more : List (ℕ × List ℕ))
        × ((worker_view worker.old).known ≡ p ∷ q ∷ more) × (p.0 ≡ q.0 → ⊥) × Apart q.0 more }
    requires owner { ((worker_view worker.old).filling ≡ false)
        × (closed ≡ false → 0 < (worker_view worker.old).ends) }
    ensures deque { (worker_deque worker.new ≡ worker_deque worker.old)
        × (worker_flavor worker.new ≡ worker_flavor worker.old) }
    ensures pass { IsPassOf (worker_deque worker.old) result }
    ensures given { (n : ℕ) × (worker_view worker.new ≡ giving_view n (worker_view worker.old))
        × (pass_view result ≡ given_view n (worker_view worker.old)) × (closed ≡ false → n ≡ 1)
        × (closed ≡ true → n ≡ 0) }
{
    if closed {
        return worker.another::<GiveShut>();
    }
    worker.another::<GiveOpen>()
}

impl StealHandle {
    /// The owner of the deque takes in this hand's seat.
    #[cycle(compare)]
    fn lend(&mut self, worker: &mut Deque, others: &mut [Hand], more: &mut [Hand], place: usize)
        requires place { (self.old.place ≡ place) × (0 < place)
            × (place ≡ length others.old + length more.old + 1) × (place < most_hands) }
        requires deque { self.old.deque ≡ worker_deque worker.old }
        requires numbers { self.old.numbers ≡ (worker_view worker.old).numbers }
        requires owner { KnowsAbove place (worker_view worker.old) }
        requires others { AllReach (worker_deque worker.old) (worker_view worker.old).numbers
            (place - 1) others.old }
        requires more { AllReach (worker_deque worker.old) (worker_view worker.old).numbers
            (length more.old) more.old }
        ensures same { (self.new ≡ self.old) × (others.new ≡ others.old) × (more.new ≡ more.old) }
        ensures deque { (worker_deque worker.new ≡ worker_deque worker.old)
            × (worker_flavor worker.new ≡ worker_flavor worker.old) }
        ensures looked { Looked (worker_view worker.old) (worker_view worker.new) }
        ensures run { OneRun (worker_view worker.old)
            ((place, self.old.history) ∷ seats_from (place - 1) others.old)
            (seats_from (length more.old) more.old) }
    {
        let closed = self.closed;
        let blank = worker.another::<Seal>();
        let pass = mem::replace(&mut self.pass, blank);
        worker.absorb::<Lend>(pass);
        compare(worker, others, more, place - 1);
        let back = give_back(worker, closed);
        drop(mem::replace(&mut self.pass, back));
    }
}

/// The owner of the deque takes in the seats of these hands and of `more`, learns that one schedule
/// goes on from what all know, and gives the seats back. The first of these hands has its seat at
/// this place of its round, each further one a place lower, and those of `more` lower still.
#[cycle(compare)]
fn compare(worker: &mut Deque, hands: &mut [Hand], more: &mut [Hand], place: usize)
    requires place { (place ≡ length hands.old + length more.old) × (place < most_hands) }
    requires owner { KnowsAbove place (worker_view worker.old) }
    requires hands { AllReach (worker_deque worker.old) (worker_view worker.old).numbers
        place hands.old }
    requires more { AllReach (worker_deque worker.old) (worker_view worker.old).numbers
        (length more.old) more.old }
    ensures same { (hands.new ≡ hands.old) × (more.new ≡ more.old) }
    ensures deque { (worker_deque worker.new ≡ worker_deque worker.old)
        × (worker_flavor worker.new ≡ worker_flavor worker.old) }
    ensures looked { Looked (worker_view worker.old) (worker_view worker.new) }
    ensures run { OneRun (worker_view worker.old) (seats_from place hands.old)
        (seats_from (length more.old) more.old) }
{
    if let Some((hand, rest)) = hands.split_first_mut() {
        let handle = &mut hand.others[place - 1];
        handle.lend(worker, rest, more, place);
        return;
    }
    if more.len() > 0 {
        compare(worker, more, &mut [], place);
        return;
    }
    worker.len_as::<Together>();
}
