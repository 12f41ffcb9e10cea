//! Results with many groups that several hands begin, put together and finish are the result over
//! all.

ghost use Rattle.std.specs.Prelude.{◌<◌, IfOk};
ghost use Rattle.tables.specs.Partials.{IsPartialOf};

use super::follow::{are_whole_lines, follow_by_hands, has_few_lines};
use super::partials::{
    BY_D, finish, merge_by_hands, plan_of, result_of_piece, result_with_piece, sorted_rows,
};
use query::Plan;
use std::alloc::{AllocError, Global};
use std::marker::Sync;
use std::process::Abort;
use std::thread::Threads;
use tables::{Group, Groups, HashSeed, Parallel, Partial, sound_law};

/// A line for each number from the first one to before the last one, which stands in two columns.
fn numbered_lines(alloc: Global, first: u32, last: u32) -> Result<String, AllocError> {
    let mut text = String::new(alloc);
    for number in first..last {
        let number = number.to_string(alloc)?;
        text.push_str("{\"d\":\"")?;
        text.push_str(number.as_str())?;
        text.push_str("\",\"q\":")?;
        text.push_str(number.as_str())?;
        text.push_str("}\n")?;
    }
    Ok(text)
}

/// The result over a piece with this index, which begins as so many hands begin it.
fn begun_by_hands<H: Abort + Threads + Sync>(
    rt: &H,
    alloc: Global,
    plan: &Plan,
    index: u32,
    piece: &[u8],
    count: usize,
) -> Result<Partial, AllocError>
    ensures { IfOk result (IsPartialOf plan.now) }
{
    let begun = Partial::empty_by(
        alloc,
        plan,
        &Parallel {
            rt,
            workers: count,
            seed: HashSeed::Fixed,
        },
    )?;
    assert!(rt; begun.lines() < 1 << 62);
    assert!(rt; has_few_lines(piece));
    result_with_piece(plan, begun, index, piece)
}

/// The result over two pieces, put together by so many hands; the second one begins as so many
/// others begin it.
fn merged_by_hands<H: Abort + Threads + Sync>(
    rt: &H,
    alloc: Global,
    plan: &Plan,
    first: &[u8],
    second: &[u8],
    count: usize,
    others: usize,
) -> Result<Partial, AllocError>
    requires hands { 0 < count }
    ensures { IfOk result (IsPartialOf plan.now) }
{
    let behind = begun_by_hands(rt, alloc, plan, 1, second, others)?;
    match begun_by_hands(rt, alloc, plan, 0, first, count) {
        Ok(before) => merge_by_hands(rt, plan, before, behind, count),
        Err(refused) => {
            drop(behind);
            Err(refused)
        }
    }
}

fn is_same(left: &(usize, Group), right: &(usize, Group)) -> bool {
    left.0 == right.0
        && left.1.key.as_slice() == right.1.key.as_slice()
        && left.1.lines == right.1.lines
        && left.1.cells.as_slice() == right.1.cells.as_slice()
}

/// Asserts that a result finds these groups, where so many hands finish it and give its memory
/// back.
fn assert_finds<H: Abort + Threads + Sync>(
    rt: &H,
    alloc: Global,
    plan: &Plan,
    partial: Partial,
    count: usize,
    wanted: &Groups,
)
    requires partial { IsPartialOf plan.now partial }
    requires hands { 0 < count }
{
    let hands = Parallel {
        rt,
        workers: count,
        seed: HashSeed::Fixed,
    };
    sound_law();
    let groups = partial.finish_by(&hands, plan).expect(rt, "memory");
    assert_eq!(rt; groups.rows().len(), wanted.rows().len());
    let rows = sorted_rows(rt, alloc, &groups);
    let wanted = sorted_rows(rt, alloc, wanted);
    for (row, wanted) in rows.iter().zip(wanted.iter()) {
        assert!(rt; is_same(*row, *wanted), "{row:?} / {wanted:?}");
    }
    drop(rows);
    groups.give_back(&hands, alloc);
}

/// Asserts that these groups are found by the results over two inputs that so many hands put
/// together, also where one of them begins as so many others begin it.
fn assert_joined<H: Abort + Threads + Sync>(
    rt: &H,
    alloc: Global,
    plan: &Plan,
    front: &[u8],
    rest: &[u8],
    count: usize,
    others: usize,
    wanted: &Groups,
)
    requires { 0 < count }
{
    assert!(rt; are_whole_lines(front));
    let merged = merged_by_hands(rt, alloc, plan, rest, front, count, others);
    assert_finds(rt, alloc, plan, merged.expect(rt, "memory"), count, wanted);
    let followed = follow_by_hands(rt, alloc, plan, front, rest, count);
    assert_finds(
        rt,
        alloc,
        plan,
        followed.expect(rt, "memory"),
        count,
        wanted,
    );
}

/// Two inputs of 6,000 groups each, half of which both have.
#[test]
fn joined_by_hands_like_the_whole(rt: HostRuntime) {
    let alloc = rt.alloc();
    let front = numbered_lines(alloc, 0, 6000).expect(&rt, "memory");
    let rest = numbered_lines(alloc, 3000, 9000).expect(&rt, "memory");
    let mut input = front.clone().expect(&rt, "memory");
    input.push_str(rest.as_str()).expect(&rt, "memory");
    let plan = plan_of(&rt, alloc, BY_D);
    let whole = result_of_piece(alloc, &plan, 0, input.as_bytes()).expect(&rt, "memory");
    let wanted = finish(&plan, whole).expect(&rt, "memory");
    assert_eq!(rt; wanted.rows().len(), 9000);
    let (front, rest) = (front.as_bytes(), rest.as_bytes());
    assert_joined(&rt, alloc, &plan, front, rest, 1, 1, &wanted);
    assert_joined(&rt, alloc, &plan, front, rest, 2, 2, &wanted);
    assert_joined(&rt, alloc, &plan, front, rest, 5, 5, &wanted);
    assert_joined(&rt, alloc, &plan, front, rest, 5, 1, &wanted);
    drop(plan);
}
