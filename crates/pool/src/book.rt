//! A number that many threads add to, and that each of them may read.

ghost use Rattle.std.specs.Prelude.{◌≡◌, ℕ, ◌+◌, ◌-◌, ◌^◌, ◌<◌, ◌≤◌, min, IfOk, IfErr, vec_len, All, sum_by, length};
ghost use Rattle.pool.specs.Limits.{load_limit, most_hands};

use std::alloc::{AllocError, Global};
use std::marker::Model;
use std::sync::ledger::{Blank, Ledger};
use std::sync::{Mutex, Wait, ledger};

/// What is behind the lock: the sum of what all shares reported, held at the greatest number.
#[derive(Drop)]
struct Tally<L: Ledger> {
    number: u128,
    reported: ledger::Book<L>,
    ghost is_total: { number ≡ min reported.total (2 ^ 128 - 1) },
}

/// The sum of what all workers reported, held at the greatest number of 128 bits. L says which
/// shares are of this book.
///
/// Contracts see nothing of it. It keeps that the ledger has at most 64 parts.
///
/// Example: once two workers have reported 3 and 4, the book's number is 7.
#[derive(Drop)]
pub struct Book<L: Ledger> {
    tally: Mutex<Tally<L>>,
}

impl<L: Ledger> Model for Book<L> {
    ghost use Rattle.std.specs.Prelude.{◌≤◌};
    ghost use Rattle.pool.specs.Limits.{most_hands};

    ghost Value = { Unit {0} };

    ghost view = { λ _. tt };

    ghost invariant = { λ _. L.parts ≤ most_hands };
}

/// What one worker reported to the book of the ledger L.
///
/// Example: a share by which 3 and then 5 were reported has the sum 8.
#[derive(Drop)]
pub struct Share<L: Ledger> {
    /// The sum of the weights that were reported by this share.
    pub sum: u64,
    token: ledger::Share<L>,
    ghost one_part: { token.parts ≡ 1 },
    ghost same: { token.amount ≡ sum },
}

impl<L: Ledger> Tally<L> {
    /// Adds to a share and to the number, which it answers.
    fn add(&mut self, token: &mut ledger::Share<L>, weight: u64) -> u128
        requires { 0 < token.old.parts }
        ensures amount { token.new.amount ≡ token.old.amount + weight }
        ensures parts { token.new.parts ≡ token.old.parts }
        ensures number { min token.new.amount (2 ^ 128 - 1) ≤ result }
        ensures exact { result ≡ min (self.old.reported.total + weight) (2 ^ 128 - 1) }
        ensures whole { token.old.parts ≡ L.parts → result ≡ min token.new.amount (2 ^ 128 - 1) }
    {
        let Tally { number, reported } = self;
        reported.add(token, weight);
        reported.audit(token);
        *number = number.saturating_add(weight as u128);
        *number
    }

    /// The number, once one token stands for all shares.
    fn last(self, token: &mut ledger::Share<L>) -> u128
        requires { token.old.parts ≡ L.parts }
        ensures { result ≡ min token.old.amount (2 ^ 128 - 1) }
    {
        let Tally {
            number,
            mut reported,
        } = self;
        reported.audit(token);
        number
    }
}

impl<L: Ledger> Share<L> {
    /// The sum of the weights that were reported by this share, 0 of a new one.
    pub fn sum(&self) -> u64
        ensures { result ≡ self.now.sum }
    {
        self.sum
    }

    /// The share that this token stands for.
    fn of(token: ledger::Share<L>) -> Share<L>
        requires { (token.parts ≡ 1) × (token.amount ≡ 0) }
        ensures { result.sum ≡ 0 }
    {
        Share { sum: 0, token }
    }
}

impl<L: Ledger> Book<L> {
    /// A book at 0, and a share for each hand, with the sum 0. It asks for 1 to 64 hands, and for a
    /// blank of L with as many parts.
    ///
    /// Example: `Book::<L>::new(alloc, blank, 4)` answers a book and four shares, of a blank with
    /// four parts.
    ///
    /// # Errors
    ///
    /// `AllocError` where there is no memory for the list of shares.
    pub fn new(
        alloc: Global,
        blank: Blank,
        hands: usize,
    ) -> Result<(Book<L>, Vec<Share<L>>), AllocError>
        requires hands { (1 ≤ hands) × (hands ≤ most_hands) }
        requires name { blank.name ≡ L.name }
        requires parts { (blank.parts ≡ L.parts) × (L.parts ≡ hands) }
        ensures each { IfOk result (λ r. vec_len r.1 ≡ hands) }
        ensures none { IfOk result (λ r. All (λ s. s.sum ≡ 0) r.1.items) }
    {
        let (reported, mut rest) = blank.open::<L>();
        let mut shares = Vec::new(alloc);
        for _i in 0..hands {
            let share = Share::of(rest.split_off(1, 0));
            if shares.push(share).is_err() {
                return Err(AllocError);
            }
        }
        let tally = Mutex::new(Tally {
            number: 0,
            reported,
        });
        Ok((Book { tally }, shares))
    }

    /// Adds a weight to the share and to the book, and answers the book's number after it, which
    /// others may have added to. The number is not below the share's sum, and is that sum where the
    /// book has one share. It may wait for the lock. It asks that the share's sum stays below 2^63.
    ///
    /// Example: where the only share of a book has the sum 3, `book.report(rt, &mut share, 4)`
    /// answers 7.
    pub fn report<R: Wait>(&self, rt: &R, share: &mut Share<L>, weight: u64) -> u128
        requires { share.old.sum + weight < load_limit }
        ensures sum { share.new.sum ≡ share.old.sum + weight }
        ensures least { share.new.sum ≤ result }
        ensures only { L.parts ≡ 1 → result ≡ share.new.sum }
    {
        let Share { sum, token } = share;
        *sum += weight;
        self.tally.lock(rt).add(token, weight)
    }

    /// The sum of all shares. It asks for as many shares as the ledger has parts. `new` makes so
    /// many, and none is made otherwise, so these are all of them, in whatever order. It waits for
    /// nobody.
    ///
    /// Example: where a book has two shares, of the sums 8 and 4, `book.close(shares)` answers 12.
    pub fn close(self, shares: Vec<Share<L>>) -> u128
        requires { vec_len shares ≡ L.parts }
        ensures { result ≡ sum_by (λ s. s.sum) shares.items }
    {
        let Book { tally } = self;
        let tally = tally.into_inner();
        let mut shares = shares;
        let Some(first) = shares.pop() else {
            return 0;
        };
        let Share { sum: _, token } = first;
        let mut all = token;
        while let Some(next) = shares.pop() {
            let Share { sum: _, token } = next;
            all.merge(token);
        }
        tally.last(&mut all)
    }
}
