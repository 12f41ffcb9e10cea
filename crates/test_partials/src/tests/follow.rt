//! The result over a front of whole lines, followed by that over the rest, is the result over all.

ghost use Rattle.std.specs.Prelude.{◌≡◌, ◌^◌, ◌<◌, length, true, IfOk};
ghost use Rattle.semantics.specs.Lines.{lines};
ghost use Rattle.lines.specs.Pieces.{AreWholeLines};
ghost use Rattle.tables.specs.Partials.{IsPartialOf, StandsForInput};

use super::partials::{
    BY_D, BY_D_AND_R, UNGROUPED, assert_groups, assert_two_found, plan_of, plan_or_refused,
    result_of_piece, result_with_piece,
};
use super::reference::{Findings, findings_of};
use lines::LineFault;
use query::Plan;
use std::alloc::{AllocError, Global};
use std::marker::Sync;
use std::process::Abort;
use std::thread::Threads;
use tables::{HashSeed, Parallel, Partial, sound_law};

/// An input in two parts, how many lines it has, and its refused lines.
#[derive(Clone, Copy)]
struct Parted {
    front: &'static [u8],
    rest: &'static [u8],
    lines: u64,
    refused: &'static [(u64, LineFault)],
}

/// Groups and a refused line in each of both parts.
const IN_BOTH: Parted = Parted {
    front: b"{\"d\":\"x\",\"q\":5}\n[1]\n",
    rest: b"{\"d\":\"x\",\"q\":2}\nx\n{\"d\":\"y\",\"r\":\"n\"}",
    lines: 5,
    refused: &[(2, LineFault::NoObject), (4, LineFault::NoJson)],
};

/// No refused line in the front, none in the rest, and parts without a line or without a good one.
const ALL_PARTED: &[Parted] = &[
    IN_BOTH,
    Parted {
        front: b"{\"d\":\"x\",\"q\":5}\n{\"d\":\"y\",\"r\":\"n\"}\n",
        rest: b"[1]\n{\"d\":\"x\",\"q\":2}\n{\"q\":true}\n",
        lines: 5,
        refused: &[(3, LineFault::NoObject), (5, LineFault::BadValue(2))],
    },
    Parted {
        front: b"\n{\"d\":\"x\",\"q\":5}\n[1]\n",
        rest: b"{\"d\":\"x\",\"q\":2}\n{\"d\":\"y\",\"r\":\"n\"}\n",
        lines: 5,
        refused: &[(1, LineFault::NoJson), (3, LineFault::NoObject)],
    },
    Parted {
        front: b"",
        rest: b"{\"d\":\"x\",\"q\":5}\n[1]",
        lines: 2,
        refused: &[(2, LineFault::NoObject)],
    },
    Parted {
        front: b"[1]\n{\"d\":\"x\",\"q\":5}\n",
        rest: b"",
        lines: 2,
        refused: &[(1, LineFault::NoObject)],
    },
    Parted {
        front: b"\nx\n",
        rest: b"\n[1]\n",
        lines: 4,
        refused: &[
            (1, LineFault::NoJson),
            (2, LineFault::NoJson),
            (3, LineFault::NoJson),
            (4, LineFault::NoObject),
        ],
    },
    Parted {
        front: b"",
        rest: b"",
        lines: 0,
        refused: &[],
    },
];

/// Whether bytes are whole lines: there are none, or they end in a line feed.
pub fn are_whole_lines(bytes: &[u8]) -> bool
    ensures { result ≡ true → AreWholeLines bytes.now }
{
    match bytes.split_last() {
        Some((last, _)) => *last == b'\n',
        None => true,
    }
}

/// Whether bytes are few, so that their lines are few too.
pub fn has_few_lines(bytes: &[u8]) -> bool
    ensures { result ≡ true → length (lines bytes.now) < 2 ^ 62 }
{
    bytes.len() < 1 << 62
}

/// The result over an input: over no pieces where it is empty, and else over one.
pub fn over(alloc: Global, plan: &Plan, input: &[u8]) -> Result<Partial, AllocError>
    ensures { IfOk result (λ partial.
        StandsForInput plan.now partial input.now) }
{
    if input.is_empty() {
        return Partial::empty(alloc, plan);
    }
    Partial::fold_piece(alloc, plan, 0, input)
}

/// The result over a front of whole lines, followed by that over the rest.
fn follow(
    rt: &impl Abort,
    alloc: Global,
    plan: &Plan,
    front: &[u8],
    rest: &[u8],
) -> Result<Partial, AllocError>
    requires { AreWholeLines front.now }
    ensures { IfOk result (IsPartialOf plan.now) }
{
    let behind = over(alloc, plan, rest)?;
    match over(alloc, plan, front) {
        Ok(whole) => {
            assert!(rt; whole.same_shape(&behind));
            assert!(rt; whole.lines() + behind.lines() < 1 << 63);
            whole.follow(behind)
        }
        Err(refused) => {
            drop(behind);
            Err(refused)
        }
    }
}

/// The same, where so many hands put the tables together.
pub fn follow_by_hands<H: Abort + Threads + Sync>(
    rt: &H,
    alloc: Global,
    plan: &Plan,
    front: &[u8],
    rest: &[u8],
    count: usize,
) -> Result<Partial, AllocError>
    requires front { AreWholeLines front.now }
    requires hands { 0 < count }
    ensures { IfOk result (IsPartialOf plan.now) }
{
    let behind = over(alloc, plan, rest)?;
    match over(alloc, plan, front) {
        Ok(whole) => {
            assert!(rt; whole.same_shape(&behind));
            assert!(rt; whole.lines() + behind.lines() < 1 << 63);
            whole.follow_by(
                &Parallel {
                    rt,
                    workers: count,
                    seed: HashSeed::Fixed,
                },
                behind,
            )
        }
        Err(refused) => {
            drop(behind);
            Err(refused)
        }
    }
}

/// The result over a front of whole lines, with the rest folded behind it.
fn folded_behind(
    rt: &impl Abort,
    alloc: Global,
    plan: &Plan,
    front: &[u8],
    rest: &[u8],
) -> Result<Partial, AllocError>
    requires { AreWholeLines front.now }
    ensures { IfOk result (IsPartialOf plan.now) }
{
    let whole = over(alloc, plan, front)?;
    assert!(rt; whole.lines() < 1 << 62);
    assert!(rt; has_few_lines(rest));
    whole.fold_behind(plan, rest)
}

/// The result over a front of whole lines as one piece, with the rest folded onto it as the next
/// one.
fn folded_onto_one_piece(
    rt: &impl Abort,
    alloc: Global,
    plan: &Plan,
    front: &[u8],
    rest: &[u8],
) -> Result<Partial, AllocError>
    ensures { IfOk result (IsPartialOf plan.now) }
{
    let whole = over(alloc, plan, front)?.in_one_piece()?;
    assert!(rt; whole.lines() < 1 << 62);
    assert!(rt; has_few_lines(rest));
    result_with_piece(plan, whole, 1, rest)
}

/// Asserts that a result is that of an input in two parts.
fn assert_found(
    rt: &impl Abort,
    alloc: Global,
    plan: &Plan,
    partial: Partial,
    parted: &Parted,
    wanted: &Findings,
)
    requires { IsPartialOf plan.now partial }
{
    assert_eq!(rt; partial.lines(), parted.lines);
    assert_eq!(rt; partial.refused(), parted.refused.len() as u64);
    sound_law();
    let groups = partial.finish(plan).expect(rt, "memory");
    assert_eq!(rt; groups.refused(), parted.refused);
    assert_groups(rt, alloc, &groups, wanted);
}

/// Asserts that the result over both parts of an input, one following the other, folded behind it
/// or folded onto it, is what the result over all of it is.
fn assert_followed<H: Abort + Threads + Sync>(rt: &H, alloc: Global, plan: &Plan, parted: &Parted) {
    let mut input = parted.front.to_vec(alloc).expect(rt, "memory");
    input.extend_from_slice(parted.rest).expect(rt, "memory");
    let wanted = findings_of(rt, alloc, plan, input.as_slice());
    let whole = result_of_piece(alloc, plan, 0, input.as_slice()).expect(rt, "memory");
    assert_found(rt, alloc, plan, whole, parted, &wanted);
    assert!(rt; are_whole_lines(parted.front));
    let both = follow(rt, alloc, plan, parted.front, parted.rest).expect(rt, "memory");
    assert_found(rt, alloc, plan, both, parted, &wanted);
    let by_hands = follow_by_hands(rt, alloc, plan, parted.front, parted.rest, 3);
    let by_hands = by_hands.expect(rt, "memory");
    assert_found(rt, alloc, plan, by_hands, parted, &wanted);
    let folded = folded_behind(rt, alloc, plan, parted.front, parted.rest).expect(rt, "memory");
    assert_found(rt, alloc, plan, folded, parted, &wanted);
    let onto = folded_onto_one_piece(rt, alloc, plan, parted.front, parted.rest);
    let onto = onto.expect(rt, "memory");
    assert_found(rt, alloc, plan, onto, parted, &wanted);
}

#[test]
fn followed_like_the_whole(rt: HostRuntime) {
    let sets = "SELECT COUNT(DISTINCT q), MIN(d), AVG(q) FROM lines GROUP BY CUBE (d, r)";
    for text in [BY_D, UNGROUPED, BY_D_AND_R, sets] {
        let plan = plan_of(&rt, rt.alloc(), text);
        for parted in ALL_PARTED {
            assert_followed(&rt, rt.alloc(), &plan, parted);
        }
        drop(plan);
    }
}

/// Asserts that a result is that of the input with groups in both parts, or memory was refused.
fn assert_both_or_refused(rt: &impl Abort, plan: &Plan, both: Result<Partial, AllocError>)
    requires { IfOk both (IsPartialOf plan.now) }
{
    if let Ok(both) = both {
        assert!(rt; both.lines() == 5 && both.refused() == 2);
        sound_law();
        if let Ok(groups) = both.finish(plan) {
            assert_two_found(rt, &groups, IN_BOTH.refused);
        }
    }
}

/// For the loop that refuses each allocation in turn: the result over both parts, or want of
/// memory.
#[test]
fn refusal_of_follow(rt: HostRuntime) {
    assert!(rt; are_whole_lines(IN_BOTH.front));
    if let Some(plan) = plan_or_refused(&rt, rt.alloc(), BY_D) {
        let both = follow(&rt, rt.alloc(), &plan, IN_BOTH.front, IN_BOTH.rest);
        assert_both_or_refused(&rt, &plan, both);
        drop(plan);
    }
}

/// The same where several hands put the tables together.
#[test]
fn refusal_of_follow_by(rt: HostRuntime) {
    assert!(rt; are_whole_lines(IN_BOTH.front));
    if let Some(plan) = plan_or_refused(&rt, rt.alloc(), BY_D) {
        let both = follow_by_hands(&rt, rt.alloc(), &plan, IN_BOTH.front, IN_BOTH.rest, 3);
        assert_both_or_refused(&rt, &plan, both);
        drop(plan);
    }
}

/// The same of the rest folded behind the front, and onto the front as one piece.
#[test]
fn refusal_of_fold_behind(rt: HostRuntime) {
    assert!(rt; are_whole_lines(IN_BOTH.front));
    if let Some(plan) = plan_or_refused(&rt, rt.alloc(), BY_D) {
        let both = folded_behind(&rt, rt.alloc(), &plan, IN_BOTH.front, IN_BOTH.rest);
        assert_both_or_refused(&rt, &plan, both);
        let both = folded_onto_one_piece(&rt, rt.alloc(), &plan, IN_BOTH.front, IN_BOTH.rest);
        assert_both_or_refused(&rt, &plan, both);
        drop(plan);
    }
}
