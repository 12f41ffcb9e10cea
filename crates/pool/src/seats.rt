//! A deal: its deques are filled in one pass over the pieces, and then each hand gets its seat at
//! each of them.

ghost use Rattle.std.specs.Prelude.{◌≡◌, ℕ, ◌+◌, ◌<◌, ◌≤◌, List, All, IfOk, OnOk, length, vec_len, [], ◌∷◌, ◌++◌};
ghost use Rattle.pool.specs.Dealing.{AreStepsOf, IsEachInOnePlace, deal_after, deal_begin};
ghost use Rattle.pool.specs.Seen.{Seen};
ghost use Rattle.pool.specs.Holding.{IsHolding};
ghost use Rattle.pool.specs.Settled.{AreAll};
ghost use Rattle.pool.specs.Inside.Assembly.{AreFilled, AreOffers, Seating, IsAt};
ghost use Rattle.pool.specs.Assembly.{IsNewDeal};
ghost use Rattle.std.specs.declared.alloc.Global.{Global};
ghost use mathlib.Core.Option.{some};
ghost use lib.ListN.{get_elem?};
ghost use Rattle.pool.specs.Limits.{most_pieces, most_hands};

use crate::deal::{Hand, StealHandle, first_hand};
use crate::grow::put_last;
use crate::source::{Filling, SeatDeque};
use std::alloc::{AllocError, Global};
use std::marker::Model;

/// The seats that one hand has at the deques of the others.
#[derive(Drop)]
struct Seats {
    seats: Vec<StealHandle>,
}

impl Model for Seats {
    ghost use Rattle.std.specs.Prelude.{List};
    ghost use Rattle.pool.specs.Seen.{Seen};

    ghost Value = { List Seen };

    ghost view = { λ r. r.seats.items };
}

impl Seats {
    fn new(alloc: Global) -> Seats
        ensures { result ≡ [] }
    {
        Seats {
            seats: Vec::new(alloc),
        }
    }

    fn push(&mut self, seat: StealHandle) -> Result<(), AllocError>
        ensures { OnOk result (self.new ≡ self.old ++ seat ∷ []) }
    {
        put_last(&mut self.seats, seat)
    }

    fn into_seats(self) -> Vec<StealHandle>
        ensures { result.items ≡ self }
    {
        let Seats { seats } = self;
        seats
    }
}

/// Deques with no number.
fn empty_deques(alloc: Global, pieces: u32, hands: usize) -> Result<Vec<Filling>, AllocError>
    requires { (0 < hands) × (hands ≤ most_hands) }
    ensures count { IfOk result (λ v. vec_len v ≡ hands) }
    ensures empty { IfOk result (λ v. AreFilled hands 0 v.items) }
{
    let room = pieces as usize / hands + hands + 1;
    let mut deques = Vec::new(alloc);
    for _d in 0..hands {
        let deque = Filling::new(alloc, room)?;
        put_last(&mut deques, deque)?;
    }
    Ok(deques)
}

/// Each number goes to the deque that it is congruent to, in one pass.
fn fill_all(deques: &mut Vec<Filling>, pieces: u32) -> Result<(), AllocError>
    requires some { 0 < vec_len deques.old }
    requires empty { AreFilled (vec_len deques.old) 0 deques.old.items }
    ensures count { OnOk result (vec_len deques.new ≡ vec_len deques.old) }
    ensures filled { OnOk result (AreFilled (vec_len deques.old) pieces deques.new.items) }
{
    let hands = deques.len();
    for i in 0..pieces {
        let deque = &mut deques[i as usize % hands];
        deque.fill(i)?;
    }
    Ok(())
}

/// Deques to which no number joins from now on, in the same order.
fn seal_all(alloc: Global, deques: Vec<Filling>, hands: usize) -> Result<Vec<SeatDeque>, AllocError>
    requires { (0 < hands) × (hands ≤ most_hands) }
    ensures count { IfOk result (λ v. vec_len v ≡ vec_len deques) }
    ensures offers { IfOk result (λ v. (n : ℕ) → AreFilled hands n deques.items
        → AreOffers hands n 1 v.items) }
{
    let mut sources = Vec::new(alloc);
    for deque in deques {
        let source = deque.seal(hands)?;
        put_last(&mut sources, source)?;
    }
    Ok(sources)
}

/// Rounds with no seat.
fn empty_rounds(alloc: Global, hands: usize) -> Result<Vec<Seats>, AllocError>
    ensures count { IfOk result (λ v. vec_len v ≡ hands) }
    ensures empty { IfOk result (λ v. (k : ℕ) (ss : _) → get_elem? v.items k ≡ some ss → ss ≡ []) }
{
    let mut rounds = Vec::new(alloc);
    for _k in 0..hands {
        put_last(&mut rounds, Seats::new(alloc))?;
    }
    Ok(rounds)
}

/// Each deque gives its seat at the place r, to the hand that stands so many places before it.
fn seat_all(
    sources: &mut Vec<SeatDeque>,
    rounds: &mut Vec<Seats>,
    r: usize,
) -> Result<(), AllocError>
    requires place { (0 < r) × (r < vec_len sources.old) × (vec_len sources.old ≤ most_hands) }
    requires at { (pieces : ℕ)
        × IsAt (vec_len sources.old) pieces r sources.old.items rounds.old.items }
    ensures count { OnOk result (vec_len sources.new ≡ vec_len sources.old) }
    ensures at { OnOk result ((pieces : ℕ)
        → IsAt (vec_len sources.old) pieces r sources.old.items rounds.old.items
        → IsAt (vec_len sources.old) pieces (r + 1) sources.new.items rounds.new.items) }
{
    let hands = sources.len();
    for e in 0..hands {
        let source = &mut sources[e];
        let seat = source.seat()?;
        let round = &mut rounds[(e + hands - r) % hands];
        round.push(seat)?;
    }
    Ok(())
}

/// Each hand gets its seat at each deque.
fn seat_everyone(sources: &mut Vec<SeatDeque>, rounds: &mut Vec<Seats>) -> Result<(), AllocError>
    requires count { (0 < vec_len sources.old) × (vec_len sources.old ≤ most_hands) }
    requires at { (pieces : ℕ)
        × IsAt (vec_len sources.old) pieces 1 sources.old.items rounds.old.items }
    ensures count { OnOk result (vec_len sources.new ≡ vec_len sources.old) }
    ensures at { OnOk result ((pieces : ℕ)
        → IsAt (vec_len sources.old) pieces 1 sources.old.items rounds.old.items
        → IsAt (vec_len sources.old) pieces (vec_len sources.old) sources.new.items
        rounds.new.items) }
{
    for r in 1..sources.len() {
        seat_all(sources, rounds, r)?;
    }
    Ok(())
}

/// The hands, once each has its seat at each deque.
fn make_hands(
    alloc: Global,
    pieces: u32,
    sources: Vec<SeatDeque>,
    rounds: Vec<Seats>,
) -> Result<Vec<Hand>, AllocError>
    requires count { (0 < vec_len sources) × (vec_len sources ≤ most_hands) }
    requires at { IsAt (vec_len sources) pieces (vec_len sources) sources.items rounds.items }
    ensures { IfOk result (λ v. IsNewDeal pieces (vec_len sources) v.items) }
{
    let hands = sources.len();
    let mut rest = rounds.into_iter();
    let mut made = Vec::new(alloc);
    for source in sources {
        let Some(round) = rest.next() else {
            unreachable!();
        };
        let hand = first_hand(
            made.len(),
            hands,
            pieces,
            source.into_local(),
            round.into_seats(),
        );
        put_last(&mut made, hand)?;
    }
    Ok(made)
}

/// Numbered pieces, dealt to hands.
///
/// Example: of 5 pieces that are dealt to 2 hands, hand 0 owns the pieces 0, 2 and 4, and hand 1
/// owns 1 and 3.
#[derive(Drop)]
pub struct Deal {
    hands: Vec<Hand>,
}

impl Model for Deal {
    ghost use Rattle.std.specs.Prelude.{List};
    ghost use Rattle.pool.specs.Holding.{Holding};

    ghost Value = { List Holding };

    ghost view = { λ d. d.hands.items };
}

impl Deal {
    /// Deals the pieces below this number to as many deques as there are hands. Hand h owns the
    /// deque of the pieces that are congruent to h modulo the number of hands, in ascending order.
    /// No piece is added later. It asks for at most 1,048,576 pieces, which may be none, and 1 to
    /// 64 hands.
    ///
    /// Example: `Deal::new(alloc, 4, 2)` deals the pieces 0 and 2 to hand 0, and 1 and 3 to hand 1.
    ///
    /// # Errors
    ///
    /// `AllocError` where there is no memory for the deques and the hands.
    pub fn new(alloc: Global, pieces: u32, hands: usize) -> Result<Deal, AllocError>
        requires pieces { pieces ≤ most_pieces }
        requires hands { (1 ≤ hands) × (hands ≤ most_hands) }
        ensures { IfOk result (IsNewDeal pieces hands) }
    {
        let mut deques = empty_deques(alloc, pieces, hands)?;
        fill_all(&mut deques, pieces)?;
        let mut sources = seal_all(alloc, deques, hands)?;
        let mut rounds = empty_rounds(alloc, hands)?;
        seat_everyone(&mut sources, &mut rounds)?;
        let hands = make_hands(alloc, pieces, sources, rounds)?;
        Ok(Deal { hands })
    }

    /// The hands, from hand 0 on. It takes no memory.
    ///
    /// Example: `Deal::new(alloc, 4, 2)?.into_hands()` has two hands.
    pub fn into_hands(self) -> Vec<Hand>
        ensures { result.items ≡ self }
    {
        let Deal { hands } = self;
        hands
    }
}

/// Between any two steps of any schedule each piece of a deal is in just one deque or just one
/// hand's list, once. A step, which is said by a deque and a hand, moves the deque's first piece to
/// the end of what the hand has of it.
///
/// Example: of a deal of 4 pieces to 2 hands, after hand 1 took from deque 0 and hand 0 from deque
/// 1, the deques have the pieces 2 and 3, and the hands 1 and 0.
pub fn dealing_law()
    ensures { (hands pieces : ℕ) (schedule : List (ℕ × ℕ)) → 0 < hands → AreStepsOf hands schedule
        → IsEachInOnePlace hands pieces (deal_after schedule (deal_begin hands pieces)) }
{}
