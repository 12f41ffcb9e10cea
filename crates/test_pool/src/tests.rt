//! What no clause says: that the calls give their answers where memory and threads are ample, that
//! threads run side by side, and who gets which piece.

ghost use Rattle.std.specs.Prelude.{◌≡◌, ℕ, ◌<◌, ◌≤◌, ◌^◌, vec_len, IfOk};
ghost use Rattle.pool.specs.Reduction.{load_below};
ghost use Rattle.pool.specs.Settled.{AreAll};

use pool::{
    Book, Deal, Hand, Next, Outcome, PoolFault, Share, Work, alone, fan_deal_onto, fan_on, fan_out,
    settled,
};
use std::alloc::{AllocError, Global};
use std::marker::{Brand, Send, Sync};
use std::sync::Wait;
use std::sync::atomic::{AtomicU64, Ordering};
use std::sync::ledger::{Blank, Ledger};
use std::test::Fail;
use std::thread;
use std::thread::Threads;

/// Piece i is the number i, and parts are added. Each of them takes memory.
#[derive(Drop)]
struct Numbers {
    alloc: Global,
}

impl Numbers {
    /// A number that was put into memory of its own.
    fn store_number(&self, number: u64) -> Result<u64, AllocError>
        ensures { IfOk result (λ stored. stored ≡ number) }
    {
        let mut numbers = Vec::new(self.alloc);
        numbers.push(number)?;
        match numbers.pop() {
            Some(number) => Ok(number),
            None => Err(AllocError),
        }
    }
}

impl Work for Numbers {
    ghost use Rattle.std.specs.Prelude.{◌≡◌, ℕ, ◌+◌, refl};
    ghost use Rattle.std.proofs.Math.Nat.{add_assoc, add_comm, zero-add, le_refl};

    type Part = u64;

    ghost Meaning = { ℕ };

    ghost meaning = { λ p. p };

    ghost reduction = { λ w. record {
      fits = λ m. Unit {0};
      unit = 0;
      combine = λ a b. a + b;
      piece = λ i. i;
      weight = λ m. m;
      load = λ m. m;
    } };

    ghost lawful = { λ w. record {
      unit_fits = tt;
      piece_fits = λ i. tt;
      combined_fits = λ a b _ _. tt;
      associative = λ a b c _ _ _. add_assoc a b c;
      commutative = λ a b _ _. add_comm a b;
      unit_combined = λ a _. zero-add a;
      unit_weight = refl;
      weight_adds = λ a b _ _. refl;
      unit_load = refl;
      load_adds = λ a b _ _. refl;
      weight_at_most_load = λ a _. le_refl a;
    } };

    fn unit(&self) -> Result<u64, AllocError> {
        self.store_number(0)
    }

    fn piece(&self, i: u32) -> Result<u64, AllocError> {
        self.store_number(i as u64)
    }

    fn combine(&self, a: u64, b: u64) -> Result<u64, AllocError> {
        self.store_number(a + b)
    }

    fn weight(&self, p: &u64) -> u64 {
        *p
    }

    fn load(&self, p: &u64) -> u64 {
        *p
    }
}

/// Each piece is 1, and parts are added, also one piece at a time.
struct Ones;

impl Work for Ones {
    ghost use Rattle.std.specs.Prelude.{◌≡◌, ℕ, ◌+◌, refl};
    ghost use Rattle.std.proofs.Math.Nat.{add_assoc, add_comm, zero-add, le_refl};

    type Part = u64;

    ghost Meaning = { ℕ };

    ghost meaning = { λ p. p };

    ghost reduction = { λ w. record {
      fits = λ m. Unit {0};
      unit = 0;
      combine = λ a b. a + b;
      piece = λ i. 1;
      weight = λ m. m;
      load = λ m. m;
    } };

    ghost lawful = { λ w. record {
      unit_fits = tt;
      piece_fits = λ i. tt;
      combined_fits = λ a b _ _. tt;
      associative = λ a b c _ _ _. add_assoc a b c;
      commutative = λ a b _ _. add_comm a b;
      unit_combined = λ a _. zero-add a;
      unit_weight = refl;
      weight_adds = λ a b _ _. refl;
      unit_load = refl;
      load_adds = λ a b _ _. refl;
      weight_at_most_load = λ a _. le_refl a;
    } };

    fn unit(&self) -> Result<u64, AllocError> {
        Ok(0)
    }

    fn piece(&self, _i: u32) -> Result<u64, AllocError> {
        Ok(1)
    }

    fn combine(&self, a: u64, b: u64) -> Result<u64, AllocError> {
        Ok(a + b)
    }

    fn add(&self, part: u64, _i: u32) -> Result<u64, AllocError> {
        Ok(part + 1)
    }

    fn weight(&self, p: &u64) -> u64 {
        *p
    }

    fn load(&self, p: &u64) -> u64 {
        *p
    }
}

/// Whoever makes a piece waits a while for who makes the other one. Nothing has a weight.
#[derive(Drop)]
struct Meeting {
    came: AtomicU64,
    met: AtomicU64,
}

impl Work for Meeting {
    ghost use Rattle.std.specs.Prelude.{◌≡◌, ℕ, ◌+◌, refl};
    ghost use Rattle.std.proofs.Common.{sym, ◌∙◌};
    ghost use Rattle.std.proofs.Math.Nat.{le_refl};

    type Part = u64;

    ghost Meaning = { ℕ };

    ghost meaning = { λ p. p };

    ghost reduction = { λ w. record {
      fits = λ m. m ≡ 0;
      unit = 0;
      combine = λ a b. a;
      piece = λ i. 0;
      weight = λ m. 0;
      load = λ m. 0;
    } };

    ghost lawful = { λ w. record {
      unit_fits = refl;
      piece_fits = λ i. refl;
      combined_fits = λ a b f _. f;
      associative = λ a b c _ _ _. refl;
      commutative = λ a b e f. e ∙ sym f;
      unit_combined = λ a e. sym e;
      unit_weight = refl;
      weight_adds = λ a b _ _. refl;
      unit_load = refl;
      load_adds = λ a b _ _. refl;
      weight_at_most_load = λ a _. le_refl 0;
    } };

    fn unit(&self) -> Result<u64, AllocError> {
        Ok(0)
    }

    fn piece(&self, _i: u32) -> Result<u64, AllocError> {
        self.came.fetch_add(1, Ordering::SeqCst);
        for _ in 0..200_000_000 {
            if self.came.load(Ordering::SeqCst) == 2 {
                self.met.fetch_add(1, Ordering::SeqCst);
                return Ok(0);
            }
        }
        Ok(0)
    }

    fn combine(&self, a: u64, _b: u64) -> Result<u64, AllocError> {
        Ok(a)
    }

    fn weight(&self, _p: &u64) -> u64 {
        0
    }

    fn load(&self, _p: &u64) -> u64 {
        0
    }
}

fn new_meeting() -> Meeting {
    Meeting {
        came: AtomicU64::new(0),
        met: AtomicU64::new(0),
    }
}

/// What `fan_on` makes of a new deal: the outcome, whether the hands that come back are settled,
/// and the book's sum.
fn on_deal<L: Ledger + Send + Sync, W: Work + Sync, R: Threads + Wait + Sync>(
    rt: &R,
    alloc: Global,
    work: &W,
    pieces: u32,
    hands: usize,
    limit: u64,
    stop: u128,
    blank: Blank,
) -> Result<(Outcome<W::Part>, bool, u128), PoolFault>
    requires pieces { pieces ≤ 1048576 }
    requires hands { (1 ≤ hands) × (hands ≤ 64) }
    requires loads { load_below (W.reduction work.now) pieces < 2 ^ 63 }
    requires name { blank.name ≡ L.name }
    requires parts { (blank.parts ≡ L.parts) × (L.parts ≡ hands) }
{
    let Ok(deal) = Deal::new(alloc, pieces, hands) else {
        return Err(PoolFault::OutOfMemory);
    };
    let Ok((book, shares)) = Book::<L>::new(alloc, blank, hands) else {
        return Err(PoolFault::OutOfMemory);
    };
    let (outcome, mut hands, shares) = fan_on(
        rt,
        alloc,
        work,
        deal.into_hands(),
        limit,
        &book,
        stop,
        shares,
    )?;
    Ok((outcome, settled(hands.as_mut_slice()), book.close(shares)))
}

/// Whether four pieces, which together weigh this much, are decided rightly.
fn is_right(outcome: &Outcome<u64>, weight: u64, limit: u64) -> bool {
    match outcome {
        Outcome::Whole(p) => *p == weight && weight <= limit,
        Outcome::Over => weight > limit,
    }
}

/// Whether `fan_out` decides four pieces of weight i rightly, with 1 to 8 hands.
fn adds_up<R: Threads + Wait + Sync>(rt: &R, alloc: Global, limit: u64) -> Result<bool, PoolFault> {
    let numbers = Numbers { alloc };
    for hands in 1..9 {
        let outcome = fan_out(rt, alloc, &numbers, 4, hands, limit)?;
        if !is_right(&outcome, 6, limit) {
            return Ok(false);
        }
    }
    Ok(true)
}

#[test]
fn pieces_of_their_own_weight(rt: HostRuntime) -> Result<(), Fail> {
    let numbers = Numbers { alloc: rt.alloc() };
    for limit in [6, 5] {
        let outcome = alone(&numbers, 4, limit)?;
        assert!(rt; is_right(&outcome, 6, limit));
        assert!(rt; adds_up(&rt, rt.alloc(), limit)?);
    }
    let nothing = fan_out(&rt, rt.alloc(), &numbers, 0, 8, 0)?;
    assert!(rt; is_right(&nothing, 0, 0));
    Ok(())
}

/// Whether `fan_out` takes so many hands, and decides four pieces of weight 1 rightly each time.
fn counts_up<R: Threads + Wait + Sync>(
    rt: &R,
    alloc: Global,
    hands: usize,
    limit: u64,
) -> Result<bool, PoolFault> {
    if hands < 1 || hands > 64 {
        return Ok(false);
    }
    for _ in 0..200 {
        let outcome = fan_out(rt, alloc, &Ones, 4, hands, limit)?;
        if !is_right(&outcome, 4, limit) {
            return Ok(false);
        }
    }
    Ok(true)
}

#[test]
fn limits(rt: HostRuntime) -> Result<(), Fail> {
    for (hands, limit) in [
        (1, 4),
        (1, 3),
        (1, 0),
        (2, 4),
        (2, 3),
        (2, 0),
        (4, 4),
        (4, 3),
        (4, 0),
        (64, 4),
        (64, 3),
        (64, 0),
    ] {
        assert!(rt; counts_up(&rt, rt.alloc(), hands, limit)?);
    }
    Ok(())
}

/// Two workers are inside a piece at one time.
#[test]
fn workers_meet(rt: HostRuntime) -> Result<(), Fail> {
    let meeting = new_meeting();
    drop(fan_out(&rt, rt.alloc(), &meeting, 2, 2, 0)?);
    assert!(rt; meeting.met.load(Ordering::SeqCst) == 2);
    let meeting = new_meeting();
    drop(on_deal::<Brand, Meeting, HostRuntime>(
        &rt,
        rt.alloc(),
        &meeting,
        2,
        2,
        0,
        0,
        Blank::new(2),
    )?);
    assert!(rt; meeting.met.load(Ordering::SeqCst) == 2);
    Ok(())
}

/// Whether two deals of a hundred pieces, one after the other over one book of four shares, are
/// decided rightly: the first from nothing on, and the second onto a part, with a limit. Where that
/// is not passed, the book closes with 200.
fn deal_twice<L: Ledger + Send + Sync, R: Threads + Wait + Sync>(
    rt: &R,
    alloc: Global,
    part: u64,
    limit: u64,
    blank: Blank,
) -> Result<bool, PoolFault>
    requires { (blank.name ≡ L.name) × (blank.parts ≡ L.parts) × (L.parts ≡ 4) }
{
    if part > 9 {
        return Ok(false);
    }
    let Ok((book, shares)) = Book::<L>::new(alloc, blank, 4) else {
        return Err(PoolFault::OutOfMemory);
    };
    let (first, _, shares) = fan_deal_onto(rt, alloc, &Ones, 0, 100, 100, &book, shares)?;
    let (second, _, shares) = fan_deal_onto(rt, alloc, &Ones, part, 100, limit, &book, shares)?;
    let right = is_right(&first, 100, 100) && is_right(&second, part + 100, limit);
    let sum = book.close(shares);
    Ok(right && (limit < part + 100 || sum == 200))
}

/// Workers that stop after their first piece leave the others to the calling thread.
#[test]
fn hundred_pieces(rt: HostRuntime) -> Result<(), Fail> {
    for (limit, stop) in [(100, 100), (100, 0), (99, 99)] {
        let (outcome, all, sum) = on_deal::<Brand, Ones, HostRuntime>(
            &rt,
            rt.alloc(),
            &Ones,
            100,
            4,
            limit,
            stop,
            Blank::new(4),
        )?;
        assert!(rt; is_right(&outcome, 100, limit));
        assert!(rt; limit < 100 || all && sum == 100);
    }
    for (part, limit) in [(0, 100), (0, 99), (5, 105), (5, 104)] {
        let right = deal_twice::<Brand, HostRuntime>(&rt, rt.alloc(), part, limit, Blank::new(4))?;
        assert!(rt; right);
    }
    Ok(())
}

/// Whether the hands answer so, one call after the other.
fn answer_so(hands: &mut Vec<Hand>, trace: &[(usize, Next)]) -> bool {
    for i in 0..trace.len() {
        let (hand, answer) = trace[i];
        match hands.get_mut(hand) {
            Some(hand) => {
                if hand.next() != answer {
                    return false;
                }
            }
            None => return false,
        }
    }
    true
}

/// A hand takes its own pieces first, and then steals from the first deque in its round that has
/// one.
#[test]
fn traces(rt: HostRuntime) -> Result<(), Fail> {
    let mut hands = Deal::new(rt.alloc(), 2, 4)?.into_hands();
    assert!(rt;
        answer_so(
            &mut hands,
            &[
                (2, Next::Piece(0)),
                (3, Next::Piece(1)),
                (0, Next::Spent),
                (1, Next::Spent),
                (2, Next::Spent),
                (3, Next::Spent),
            ]
        )
    );
    let mut hands = Deal::new(rt.alloc(), 4, 2)?.into_hands();
    assert!(rt;
        answer_so(
            &mut hands,
            &[
                (0, Next::Piece(0)),
                (0, Next::Piece(2)),
                (0, Next::Piece(1)),
                (1, Next::Piece(3)),
                (1, Next::Spent),
                (0, Next::Spent),
            ]
        )
    );
    Ok(())
}

/// Whether this hand, asked next, answers Spent, where the hands were not settled before.
fn is_spent_late(hands: &mut Vec<Hand>, k: usize) -> bool
    requires deal { AreAll hands.old.items }
    requires low { k < vec_len hands.old }
    ensures deal { AreAll hands.new.items }
    ensures count { vec_len hands.new ≡ vec_len hands.old }
{
    let late = !settled(hands.as_mut_slice());
    let hand = &mut hands[k];
    hand.next() == Next::Spent && late
}

#[test]
fn nothing_to_deal(rt: HostRuntime) -> Result<(), Fail> {
    let mut hands = Deal::new(rt.alloc(), 0, 3)?.into_hands();
    assert!(rt; is_spent_late(&mut hands, 0));
    assert!(rt; is_spent_late(&mut hands, 1));
    assert!(rt; is_spent_late(&mut hands, 2));
    assert!(rt; settled(hands.as_mut_slice()));
    Ok(())
}

/// The pieces that a hand gets, until it is spent.
fn take_pieces(alloc: Global, hand: Hand) -> Result<Vec<u32>, AllocError> {
    let mut hand = hand;
    let mut pieces = Vec::new(alloc);
    for _ in 0..1001 {
        match hand.next() {
            Next::Piece(i) => pieces.push(i)?,
            Next::Spent => return Ok(pieces),
            Next::Memory => return Err(AllocError),
        }
    }
    Ok(pieces)
}

/// Whether those of each of the four deques ascend.
fn ascend(pieces: &[u32]) -> bool {
    let mut least = [0, 0, 0, 0];
    for i in 0..pieces.len() {
        let piece = pieces[i];
        let deque = piece as usize % 4;
        if piece < least[deque] || piece == u32::MAX {
            return false;
        }
        least[deque] = piece + 1;
    }
    true
}

/// Whether these are the numbers below a thousand, in order.
fn is_each_once(all: &[u32]) -> bool {
    for i in 0..all.len() {
        if all[i] as usize != i {
            return false;
        }
    }
    all.len() == 1000
}

/// Whether four threads, each with a hand, got each piece of a thousand once.
fn get_each_once<R: Threads + Sync>(rt: &R, alloc: Global) -> Result<bool, Fail> {
    let hands = Deal::new(alloc, 1000, 4)?.into_hands();
    let mut all = Vec::new(alloc);
    for pieces in thread::map_vec(rt, hands, &|hand| take_pieces(alloc, hand))? {
        let mut pieces = pieces?;
        if !ascend(pieces.as_slice()) {
            return Ok(false);
        }
        all.append(&mut pieces)?;
    }
    all.sort()?;
    Ok(is_each_once(all.as_slice()))
}

#[test]
fn four_threads(rt: HostRuntime) -> Result<(), Fail> {
    for _ in 0..200 {
        assert!(rt; get_each_once(&rt, rt.alloc())?);
    }
    Ok(())
}

/// Reports a small weight to a share that has reported little.
fn report_weight<L: Ledger, R: Wait>(
    rt: &R,
    book: &Book<L>,
    share: &mut Share<L>,
    weight: u64,
) -> u128
    requires { weight < 10 }
{
    if share.sum() > 10 {
        return 0;
    }
    book.report(rt, share, weight)
}

/// What a book of two shares answers to 3, 4 and 5, the first and the last from one share, and what
/// it closes with.
fn reports<L: Ledger, R: Wait>(rt: &R, alloc: Global, blank: Blank) -> Result<[u128; 4], AllocError>
    requires { (blank.name ≡ L.name) × (blank.parts ≡ L.parts) × (L.parts ≡ 2) }
{
    let (book, mut shares) = Book::<L>::new(alloc, blank, 2)?;
    let three = report_weight(rt, &book, &mut shares[0], 3);
    let seven = report_weight(rt, &book, &mut shares[1], 4);
    let twelve = report_weight(rt, &book, &mut shares[0], 5);
    Ok([three, seven, twelve, book.close(shares)])
}

#[test]
fn book_of_two(rt: HostRuntime) -> Result<(), Fail> {
    let answers = reports::<Brand, HostRuntime>(&rt, rt.alloc(), Blank::new(2))?;
    assert!(rt; answers == [3, 7, 12, 12]);
    Ok(())
}

// For the loop that refuses each allocation in turn: the right answer, or want of memory.

#[test]
fn refusal_of_deal(rt: HostRuntime) {
    match Deal::new(rt.alloc(), 1, 2) {
        Ok(deal) => {
            let mut hands = deal.into_hands();
            assert!(rt; answer_so(&mut hands, &[(1, Next::Piece(0)), (0, Next::Spent)]));
        }
        Err(AllocError) => {}
    }
}

#[test]
fn refusal_of_book(rt: HostRuntime) {
    match reports::<Brand, HostRuntime>(&rt, rt.alloc(), Blank::new(2)) {
        Ok(answers) => assert!(rt; answers == [3, 7, 12, 12]),
        Err(AllocError) => {}
    }
}

/// The pieces are done by `alone` and by `fan_out`, and by two deals over one book, of which the
/// second goes onto a part.
#[test]
fn refusal_of_fan_out(rt: HostRuntime) {
    let numbers = Numbers { alloc: rt.alloc() };
    match alone(&numbers, 4, 6) {
        Ok(outcome) => assert!(rt; is_right(&outcome, 6, 6)),
        Err(fault) => assert!(rt; fault == PoolFault::OutOfMemory),
    }
    match fan_out(&rt, rt.alloc(), &numbers, 4, 2, 6) {
        Ok(outcome) => assert!(rt; is_right(&outcome, 6, 6)),
        Err(PoolFault::OutOfMemory) => {}
        Err(PoolFault::ThreadNotStarted) => {}
    }
    match deal_twice::<Brand, HostRuntime>(&rt, rt.alloc(), 5, 105, Blank::new(4)) {
        Ok(right) => assert!(rt; right),
        Err(PoolFault::OutOfMemory) => {}
        Err(PoolFault::ThreadNotStarted) => {}
    }
}

/// Where the weights are within the limit the hands come back settled, and the shares with all
/// weights reported.
#[test]
fn refusal_of_fan_on(rt: HostRuntime) {
    let numbers = Numbers { alloc: rt.alloc() };
    for limit in [6, 5] {
        match on_deal::<Brand, Numbers, HostRuntime>(
            &rt,
            rt.alloc(),
            &numbers,
            4,
            2,
            limit,
            6,
            Blank::new(2),
        ) {
            Ok((outcome, all, sum)) => {
                assert!(rt; is_right(&outcome, 6, limit));
                assert!(rt; limit < 6 || all && sum == 6);
            }
            Err(PoolFault::OutOfMemory) => {}
            Err(PoolFault::ThreadNotStarted) => {}
        }
    }
}
