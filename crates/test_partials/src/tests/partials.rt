//! Partial results over pieces of an input, merged in several orders.

ghost use Rattle.std.specs.Prelude.{◌+◌, ◌≤◌, ◌<◌, ◌^◌, length, IfOk};
ghost use Rattle.semantics.specs.Lines.{lines};
ghost use Rattle.std.proofs.Props.{props};
ghost use Rattle.tables.specs.Partials.{IsPartialOf};

use super::reference::{Findings, Row, cell_of, findings_of};
use lines::{LineFault, Piece, cut};
use query::{ColumnFunction, Plan, Query, QueryFault, check, parse};
use std::alloc::{AllocError, Global};
use std::marker::Sync;
use std::process::Abort;
use std::thread::Threads;
use tables::{Cell, Group, Groups, HashSeed, Parallel, Partial, sound_law};
use values::{Record, Schema, SchemaFault, Value};

const COLUMNS: &str = "d:text,r:text,q:int";

pub const BY_D: &str = "SELECT d, COUNT(*) AS n, SUM(q) AS s FROM lines GROUP BY d";

pub const UNGROUPED: &str = "SELECT COUNT(*) AS n, SUM(q) AS s FROM lines";

pub const BY_D_AND_R: &str = "SELECT d, r, COUNT(*), SUM(q) FROM lines GROUP BY d, r";

const BY_R: &str = "SELECT r FROM lines GROUP BY r";

/// The columns, and `None` for want of memory.
fn schema_or_refused(rt: &impl Abort, alloc: Global) -> Option<Schema> {
    match Schema::parse(alloc, COLUMNS) {
        Ok(schema) => Some(schema),
        Err(fault) => {
            assert!(rt; fault == SchemaFault::OutOfMemory);
            None
        }
    }
}

fn is_out_of_memory(fault: &QueryFault) -> bool {
    matches!(fault, QueryFault::OutOfMemory)
}

/// The query of a text, and `None` for want of memory.
fn query_or_refused(rt: &impl Abort, alloc: Global, text: &str) -> Option<Query> {
    match parse(alloc, text) {
        Ok(query) => Some(query),
        Err(fault) => {
            assert!(rt; is_out_of_memory(&fault), "{text}");
            None
        }
    }
}

// A query or a plan is given up by a call: a drop in place is proved in place, for each form of a
// query.

/// The plan of a query's text, and `None` for want of memory.
pub fn plan_or_refused(rt: &impl Abort, alloc: Global, text: &str) -> Option<Plan> {
    let query = query_or_refused(rt, alloc, text)?;
    let Some(schema) = schema_or_refused(rt, alloc) else {
        drop(query);
        return None;
    };
    match check(alloc, query, schema) {
        Ok(plan) => Some(plan),
        Err(fault) => {
            assert!(rt; is_out_of_memory(&fault), "{text}");
            None
        }
    }
}

/// The plan of a query's text.
pub fn plan_of(rt: &impl Abort, alloc: Global, text: &str) -> Plan {
    plan_or_refused(rt, alloc, text).expect(rt, "memory")
}

/// The result over the pieces of both, which are of the query of a plan.
fn merge(rt: &impl Abort, plan: &Plan, left: Partial, right: Partial) -> Result<Partial, AllocError>
    requires left { IsPartialOf plan.now left }
    requires right { IsPartialOf plan.now right }
    ensures { IfOk result (λ merged. IsPartialOf plan.now merged) }
{
    assert!(rt; left.same_shape(&right));
    assert!(rt; left.lines() + right.lines() < 1 << 63);
    left.merge(right)
}

/// The same, where so many hands put the tables together.
pub fn merge_by_hands<H: Abort + Threads + Sync>(
    rt: &H,
    plan: &Plan,
    left: Partial,
    right: Partial,
    count: usize,
) -> Result<Partial, AllocError>
    requires left { IsPartialOf plan.now left }
    requires right { IsPartialOf plan.now right }
    requires hands { 0 < count }
    ensures { IfOk result (λ merged. IsPartialOf plan.now merged) }
{
    assert!(rt; left.same_shape(&right));
    assert!(rt; left.lines() + right.lines() < 1 << 63);
    left.merge_by(
        &Parallel {
            rt,
            workers: count,
            seed: HashSeed::Fixed,
        },
        right,
    )
}

/// The result over the bytes of one piece, or want of memory.
pub fn result_of_piece(
    alloc: Global,
    plan: &Plan,
    index: u32,
    bytes: &[u8],
) -> Result<Partial, AllocError>
    requires { length bytes.now < 2 ^ 63 }
    ensures { IfOk result (IsPartialOf plan.now) }
{
    Partial::fold_piece(alloc, plan, index, bytes)
}

/// The result over the pieces of another one and one more, or want of memory.
pub fn result_with_piece(
    plan: &Plan,
    before: Partial,
    index: u32,
    bytes: &[u8],
) -> Result<Partial, AllocError>
    requires of_plan { IsPartialOf plan.now before }
    requires few { before.lines + length (lines bytes.now) < 2 ^ 63 }
    ensures { IfOk result (IsPartialOf plan.now) }
{
    before.fold_onto(plan, index, bytes)
}

/// The result over a piece of an input.
fn fold_piece(
    rt: &impl Abort,
    alloc: Global,
    plan: &Plan,
    input: &[u8],
    index: usize,
    piece: &Piece,
) -> Partial
    ensures { IsPartialOf plan.now result }
{
    let bytes = input
        .get(piece.start..piece.stop)
        .expect(rt, "a piece of the input");
    let index = u32::try_from(index).expect(rt, "few pieces");
    result_of_piece(alloc, plan, index, bytes).expect(rt, "memory")
}

/// Where a list of pieces is parted in two, which are merged apart.
#[derive(Clone, Copy)]
enum Parting {
    BehindTheFirst,
    InTheMiddle,
    BeforeTheLast,
}

impl Parting {
    ghost use Rattle.std.specs.Prelude.{◌≤◌, ◌<◌};

    /// How many of so many pieces stand before the parting.
    fn place(self, count: usize) -> usize
        requires { 2 ≤ count }
        ensures some { 1 ≤ result }
        ensures not_all { result < count }
    {
        match self {
            Parting::BehindTheFirst => 1,
            Parting::InTheMiddle => count / 2,
            Parting::BeforeTheLast => count - 1,
        }
    }
}

/// Pieces are parted in two, what comes of the one part is merged with what comes of the other, and
/// each part is treated so; a single piece is merged into the result over none.
fn merge_pieces(
    rt: &impl Abort,
    alloc: Global,
    plan: &Plan,
    input: &[u8],
    pieces: &[Piece],
    first: usize,
    parting: Parting,
) -> Partial
    ensures { IsPartialOf plan.now result }
{
    if pieces.len() < 2 {
        let none = Partial::empty(alloc, plan).expect(rt, "memory");
        let Some(piece) = pieces.first() else {
            return none;
        };
        let one = fold_piece(rt, alloc, plan, input, first, piece);
        return merge(rt, plan, none, one).expect(rt, "memory");
    }
    let (left, right) = pieces.split_at(parting.place(pieces.len()));
    let second = first.checked_add(left.len()).expect(rt, "few pieces");
    let left = merge_pieces(rt, alloc, plan, input, left, first, parting);
    let right = merge_pieces(rt, alloc, plan, input, right, second, parting);
    merge(rt, plan, left, right).expect(rt, "memory")
}

/// The rows by the index of their set, those of one set by their keys.
pub fn sorted_rows<'a>(
    rt: &impl Abort,
    alloc: Global,
    groups: &'a Groups,
) -> Vec<&'a (usize, Group)> {
    let rows: Result<Vec<&(usize, Group)>, AllocError> = groups.rows().iter().collect(alloc);
    let mut rows = rows.expect(rt, "memory");
    rows.sort_unstable_by(|a, b| a.0.cmp(&b.0).then_with(|| a.1.key.cmp(&b.1.key)));
    rows
}

/// Whether this is the row that is wanted.
pub fn is_row((set, group): &(usize, Group), wanted: &Row) -> bool {
    *set == wanted.set
        && group.key.as_slice() == wanted.key.as_slice()
        && group.lines == wanted.lines
        && group.cells.as_slice() == wanted.cells.as_slice()
}

/// Asserts that groups and refused lines are those that are wanted.
pub fn assert_groups(rt: &impl Abort, alloc: Global, groups: &Groups, wanted: &Findings) {
    assert_eq!(rt; groups.rows().len(), wanted.rows.len());
    assert_eq!(rt; groups.refused(), wanted.refused.as_slice());
    let rows = sorted_rows(rt, alloc, groups);
    for (row, wanted) in rows.iter().zip(wanted.rows.iter()) {
        assert!(rt; is_row(*row, wanted), "{row:?} / {wanted:?}");
    }
}

/// Cuts an input into small pieces, greater ones and a single one, merges the results over its
/// pieces in several orders, and compares the numbers of lines and what comes of it.
fn assert_found(rt: &impl Abort, alloc: Global, plan: &Plan, input: &[u8], wanted: &Findings) {
    let partings = [
        Parting::BehindTheFirst,
        Parting::InTheMiddle,
        Parting::BeforeTheLast,
    ];
    for target in [1, 7, 1_000_000] {
        let pieces = cut(alloc, input, target).expect(rt, "memory");
        for parting in partings {
            let partial = merge_pieces(rt, alloc, plan, input, pieces.as_slice(), 0, parting);
            assert_eq!(rt; partial.lines(), wanted.lines);
            assert_eq!(rt; partial.refused(), wanted.refused.len() as u64);
            sound_law();
            let groups = partial.finish(plan).expect(rt, "memory");
            assert_groups(rt, alloc, &groups, wanted);
        }
    }
}

/// A value of a text, and NULL of none.
fn text_value(alloc: Global, text: Option<&str>) -> Result<Value, AllocError> {
    match text {
        Some(text) => Ok(Value::Text(text.to_string(alloc)?)),
        None => Ok(Value::Null),
    }
}

/// A cell of a whole number, and of NULL where there is none.
fn number_cell(number: Option<i128>) -> Cell {
    match number {
        Some(number) => Cell::Plain(Value::Int(number)),
        None => Cell::Plain(Value::Null),
    }
}

/// A group of the first set: the texts of its key, its number of lines, and its whole numbers;
/// `None` for NULL.
type GroupByHand<'a> = (&'a [Option<&'a str>], u64, &'a [Option<i128>]);

/// What a query finds in an input, written by hand.
struct ByHand<'a> {
    text: &'a str,
    input: &'a [u8],
    lines: u64,
    groups: &'a [GroupByHand<'a>],
    refused: &'a [(u64, LineFault)],
}

/// Three good lines and a refused one.
pub const FOUR: &[u8] =
    b"{\"d\":\"x\",\"q\":5}\n{\"d\":\"x\",\"q\":2}\n[1]\n{\"d\":\"y\",\"r\":\"n\"}\n";

/// A line for each fault, and one with a number that no 64 bits hold.
const ALL_REFUSED: &[u8] = b"\n[1]\n{\"q\":true}\n{\"q\":9223372036854775808}\n";

/// Three lines with the greatest number of 64 bits.
const GREATEST: &[u8] =
    b"{\"q\":9223372036854775807}\n{\"q\":9223372036854775807}\n{\"q\":9223372036854775807}\n";

const ALL_BY_HAND: &[ByHand<'static>] = &[
    ByHand {
        text: BY_D,
        input: FOUR,
        lines: 4,
        groups: &[
            (&[Some("x")], 2, &[Some(2), Some(7)]),
            (&[Some("y")], 1, &[Some(1), None]),
        ],
        refused: &[(3, LineFault::NoObject)],
    },
    ByHand {
        text: BY_R,
        input: FOUR,
        lines: 4,
        groups: &[(&[Some("n")], 1, &[]), (&[None], 2, &[])],
        refused: &[(3, LineFault::NoObject)],
    },
    ByHand {
        text: UNGROUPED,
        input: b"",
        lines: 0,
        groups: &[(&[], 0, &[Some(0), None])],
        refused: &[],
    },
    ByHand {
        text: BY_D,
        input: b"",
        lines: 0,
        groups: &[],
        refused: &[],
    },
    ByHand {
        text: UNGROUPED,
        input: GREATEST,
        lines: 3,
        groups: &[(&[], 3, &[Some(3), Some(27_670_116_110_564_327_421)])],
        refused: &[],
    },
    ByHand {
        text: UNGROUPED,
        input: ALL_REFUSED,
        lines: 4,
        groups: &[(&[], 0, &[Some(0), None])],
        refused: &[
            (1, LineFault::NoJson),
            (2, LineFault::NoObject),
            (3, LineFault::BadValue(2)),
            (4, LineFault::BadValue(2)),
        ],
    },
];

/// The row of a group of the first set.
fn row(alloc: Global, (texts, lines, numbers): &GroupByHand<'_>) -> Result<Row, AllocError> {
    let mut key = Vec::new(alloc);
    for text in *texts {
        key.push(text_value(alloc, *text)?)?;
    }
    let mut cells = Vec::new(alloc);
    for number in *numbers {
        cells.push(number_cell(*number))?;
    }
    Ok(Row {
        set: 0,
        key,
        lines: *lines,
        cells,
    })
}

/// What was written by hand, as the reference gives it.
fn by_hand(alloc: Global, found: &ByHand<'_>) -> Result<Findings, AllocError> {
    let mut rows = Vec::new(alloc);
    for group in found.groups {
        rows.push(row(alloc, group)?)?;
    }
    Ok(Findings {
        lines: found.lines,
        rows,
        refused: found.refused.to_vec(alloc)?,
    })
}

#[test]
fn found_by_hand(rt: HostRuntime) {
    for found in ALL_BY_HAND {
        let plan = plan_of(&rt, rt.alloc(), found.text);
        let wanted = by_hand(rt.alloc(), found).expect(&rt, "memory");
        assert_found(&rt, rt.alloc(), &plan, found.input, &wanted);
        drop(plan);
    }
}

/// The result of a query over no pieces.
fn empty_of(rt: &impl Abort, alloc: Global, text: &str) -> Partial {
    let plan = plan_of(rt, alloc, text);
    let empty = Partial::empty(alloc, &plan).expect(rt, "memory");
    drop(plan);
    empty
}

#[test]
fn shapes(rt: HostRuntime) {
    let alloc = rt.alloc();
    let by_d = "SELECT COUNT(*) FROM lines GROUP BY d";
    let cases = [
        (BY_D, BY_D, true),
        (UNGROUPED, UNGROUPED, true),
        (BY_D_AND_R, BY_D_AND_R, true),
        (BY_R, BY_R, true),
        (by_d, "SELECT d, COUNT(*) AS n FROM lines GROUP BY d", true),
        (by_d, "SELECT COUNT(*) FROM lines GROUP BY r", false),
        (by_d, "SELECT COUNT(*) FROM lines GROUP BY d, r", false),
        (by_d, "SELECT COUNT(*) FROM lines", false),
        (by_d, "SELECT SUM(q) FROM lines GROUP BY d", false),
        (by_d, BY_D, false),
        (BY_D, "SELECT SUM(q), COUNT(*) FROM lines GROUP BY d", false),
    ];
    for (text, other, same) in cases {
        let one = empty_of(&rt, alloc, text);
        let another = empty_of(&rt, alloc, other);
        let met = (one.same_shape(&another), another.same_shape(&one));
        assert!(rt; met == (same, same), "{text} / {other}");
    }
}

/// Numbers that look like chance, the same for the same seed: a linear congruential generator.
#[derive(Debug, Drop)]
struct LinearCongruential {
    state: u64,
}

impl LinearCongruential {
    ghost use Rattle.std.specs.Prelude.{◌<◌, length};

    /// The next number, below a bound.
    fn below(&mut self, bound: u64) -> u64
        requires { 0 < bound }
        ensures { result < bound }
    {
        self.state = self
            .state
            .wrapping_mul(6_364_136_223_846_793_005)
            .wrapping_add(1_442_695_040_888_963_407);
        (self.state >> 33) % bound
    }

    /// One of some texts.
    fn one_of<'a>(&mut self, texts: &[&'a str]) -> &'a str
        requires { 0 < length texts.now }
    {
        let place = self.below(texts.len() as u64);
        texts[place as usize]
    }
}

/// Lines that are refused.
const BAD_LINES: [&str; 8] = [
    "",
    "{\"d\":",
    "x",
    "[1]",
    "7",
    "{\"q\":true}",
    "{\"d\":7,\"q\":1.5}",
    "{\"q\":9223372036854775808}",
];

/// Members of the column `d`, the first of them missing.
const D_MEMBERS: [&str; 4] = ["", "\"d\":null,", "\"d\":\"x\",", "\"d\":\"y\","];

/// Members of the column `r`.
const R_MEMBERS: [&str; 4] = ["", "\"r\":null,", "\"r\":\"n\",", "\"r\":\"\","];

/// Members of the column `q`.
const Q_MEMBERS: [&str; 7] = [
    "",
    "\"q\":null,",
    "\"q\":0,",
    "\"q\":5,",
    "\"q\":-2,",
    "\"q\":9223372036854775807,",
    "\"q\":-9223372036854775808,",
];

/// Puts a made-up line behind a text; about one in five is refused.
fn push_line(numbers: &mut LinearCongruential, text: &mut String) -> Result<(), AllocError> {
    if numbers.below(5) == 0 {
        text.push_str(numbers.one_of(&BAD_LINES))?;
    } else {
        text.push_str("{")?;
        text.push_str(numbers.one_of(&D_MEMBERS))?;
        text.push_str(numbers.one_of(&R_MEMBERS))?;
        text.push_str(numbers.one_of(&Q_MEMBERS))?;
        text.push_str("\"z\":0}")?;
    }
    Ok(())
}

/// A made-up input of up to 50 lines, the last with or without its line feed.
pub fn made_up_input(alloc: Global, seed: u64) -> Result<String, AllocError> {
    let mut numbers = LinearCongruential { state: seed };
    let mut text = String::new(alloc);
    for _ in 0..numbers.below(51) {
        push_line(&mut numbers, &mut text)?;
        text.push('\n')?;
    }
    if numbers.below(2) == 0 {
        text.pop();
    }
    Ok(text)
}

/// The number of made-up inputs.
pub const INPUTS: u64 = 500;

/// Holds the result of a query over the made-up inputs to the plain program.
fn assert_like_reference(rt: &impl Abort, alloc: Global, text: &str) {
    let plan = plan_of(rt, alloc, text);
    for seed in 0..INPUTS {
        let input = made_up_input(alloc, seed).expect(rt, "memory");
        let wanted = findings_of(rt, alloc, &plan, input.as_bytes());
        assert_found(rt, alloc, &plan, input.as_bytes(), &wanted);
    }
    drop(plan);
}

/// The made-up inputs have what makes a comparison worth it: the most groups, with NULL in some of
/// their keys, many refused lines, no line at all, and a last line with and without its line feed.
#[test]
fn made_up_inputs_are_of_all_kinds(rt: HostRuntime) {
    let alloc = rt.alloc();
    let plan = plan_of(&rt, alloc, BY_D_AND_R);
    let mut most_groups = 0;
    let mut most_refused = 0;
    let mut fewest_lines = u64::MAX;
    let mut ended = false;
    let mut unended = false;
    for seed in 0..INPUTS {
        let input = made_up_input(alloc, seed).expect(&rt, "memory");
        let found = findings_of(&rt, alloc, &plan, input.as_bytes());
        most_groups = found.rows.len().max(most_groups);
        most_refused = found.refused.len().max(most_refused);
        fewest_lines = found.lines.min(fewest_lines);
        ended |= input.ends_with("}\n");
        unended |= input.ends_with('}');
    }
    // Each of x, y and NULL with each of n, the empty text and NULL.
    assert!(rt; most_groups == 9);
    assert!(rt; most_refused > 5);
    assert!(rt; fewest_lines == 0);
    assert!(rt; ended && unended);
    drop(plan);
}

/// Lists of grouping sets, with all set functions.
const SET_LISTS: [&str; 8] = [
    "SELECT COUNT(*), COUNT(DISTINCT q), MIN(d) FROM lines GROUP BY ROLLUP (d, r)",
    "SELECT COUNT(r), AVG(q), MAX(r) FROM lines GROUP BY CUBE (d, r)",
    "SELECT SUM(q), MIN(d), COUNT(DISTINCT d) FROM lines GROUP BY GROUPING SETS ((r), (), (d))",
    "SELECT COUNT(DISTINCT d), MAX(q) FROM lines GROUP BY GROUPING SETS ((r), (d))",
    "SELECT COUNT(*), COUNT(DISTINCT r) FROM lines GROUP BY ROLLUP (d), ROLLUP (d)",
    "SELECT COUNT(*), MAX(d) FROM lines GROUP BY DISTINCT GROUPING SETS ((d, r), (), (r, d), r), ROLLUP (d)",
    "SELECT COUNT(q), MIN(q) FROM lines GROUP BY r, CUBE (d)",
    "SELECT SUM(q), COUNT(DISTINCT q) FROM lines GROUP BY GROUPING SETS (ROLLUP (d, r), CUBE (r), (d, d))",
];

#[test]
fn like_reference(rt: HostRuntime) {
    for text in [BY_D, UNGROUPED, BY_D_AND_R, BY_R] {
        assert_like_reference(&rt, rt.alloc(), text);
    }
    for text in SET_LISTS {
        assert_like_reference(&rt, rt.alloc(), text);
    }
}

/// The first piece of the four lines has so many bytes, which are the first line's.
const FIRST_LEN: usize = 16;

/// Takes no memory.
fn assert_four_counted(rt: &impl Abort, partial: &Partial) {
    assert!(rt; partial.lines() == 4 && partial.refused() == 1);
}

/// Whether this is a group by `d`: two lines of `x` with the sum 7, or one of `y`. It takes no
/// memory.
fn is_one_of_two((set, group): &(usize, Group)) -> bool {
    let (lines, sum) = match group.key.first() {
        Some(Value::Text(text)) if text.as_str() == "x" => (2, Value::Int(7)),
        Some(Value::Text(text)) if text.as_str() == "y" => (1, Value::Null),
        Some(Value::Text(_) | Value::Null | Value::Int(_) | Value::Bool(_)) | None => return false,
    };
    let cells = [Cell::Plain(Value::Int(i128::from(lines))), Cell::Plain(sum)];
    *set == 0
        && group.key.len() == 1
        && group.lines == lines
        && group.cells.as_slice() == cells.as_slice()
}

/// Asserts that there are these two groups, and these refused lines. It takes no memory.
pub fn assert_two_found(rt: &impl Abort, groups: &Groups, refused: &[(u64, LineFault)]) {
    let [first, second] = groups.rows() else {
        panic!(rt; "not two groups");
    };
    assert!(rt; is_one_of_two(first) && is_one_of_two(second));
    assert!(rt; first.1.lines != second.1.lines);
    assert!(rt; groups.refused() == refused);
}

/// What is found of the four lines by a result over them, or want of memory.
fn assert_four_or_refused(rt: &impl Abort, plan: &Plan, partial: Result<Partial, AllocError>)
    requires { IfOk partial (IsPartialOf plan.now) }
{
    let Ok(partial) = partial else {
        return;
    };
    assert_four_counted(rt, &partial);
    sound_law();
    if let Ok(groups) = partial.finish(plan) {
        let refused = [(3, LineFault::NoObject)];
        assert_two_found(rt, &groups, refused.as_slice());
    }
}

/// For the loop that refuses each allocation in turn: the result over a piece, or want of memory.
#[test]
fn refusal_of_fold_piece(rt: HostRuntime) {
    if let Some(plan) = plan_or_refused(&rt, rt.alloc(), BY_D) {
        let folded = result_of_piece(rt.alloc(), &plan, 0, FOUR);
        assert_four_or_refused(&rt, &plan, folded);
        drop(plan);
    }
}

/// The result over the first of the four lines.
fn first_folded(alloc: Global, plan: &Plan) -> Result<Partial, AllocError>
    ensures { IfOk result (IsPartialOf plan.now) }
{
    result_of_piece(alloc, plan, 0, &FOUR[..FIRST_LEN])
}

/// Two pieces of the four lines merged.
pub fn two_merged(rt: &impl Abort, alloc: Global, plan: &Plan) -> Result<Partial, AllocError>
    ensures { IfOk result (IsPartialOf plan.now) }
{
    let second = result_of_piece(alloc, plan, 1, &FOUR[FIRST_LEN..])?;
    match first_folded(alloc, plan) {
        Ok(first) => merge(rt, plan, second, first),
        Err(refused) => {
            drop(second);
            Err(refused)
        }
    }
}

/// The same of two results: the result over both, or want of memory.
#[test]
fn refusal_of_merge(rt: HostRuntime) {
    if let Some(plan) = plan_or_refused(&rt, rt.alloc(), BY_D) {
        let merged = two_merged(&rt, rt.alloc(), &plan);
        assert_four_or_refused(&rt, &plan, merged);
        drop(plan);
    }
}

/// The result over the first of the four lines, which begins as three hands begin it.
fn first_by_hands<H: Abort + Threads + Sync>(
    rt: &H,
    alloc: Global,
    plan: &Plan,
) -> Result<Partial, AllocError>
    ensures { IfOk result (IsPartialOf plan.now) }
{
    let begun = Partial::empty_by(
        alloc,
        plan,
        &Parallel {
            rt,
            workers: 3,
            seed: HashSeed::Fixed,
        },
    )?;
    assert!(rt; begun.lines() < 1 << 62);
    result_with_piece(plan, begun, 0, &FOUR[..FIRST_LEN])
}

/// The same, where several hands put the tables together.
fn two_merged_by_hands<H: Abort + Threads + Sync>(
    rt: &H,
    alloc: Global,
    plan: &Plan,
) -> Result<Partial, AllocError>
    ensures { IfOk result (IsPartialOf plan.now) }
{
    let second = result_of_piece(alloc, plan, 1, &FOUR[FIRST_LEN..])?;
    match first_by_hands(rt, alloc, plan) {
        Ok(first) => merge_by_hands(rt, plan, second, first, 3),
        Err(refused) => {
            drop(second);
            Err(refused)
        }
    }
}

/// As `assert_four_or_refused`, where three hands finish the result and give its memory back.
fn assert_four_by_hands<H: Abort + Threads + Sync>(
    rt: &H,
    alloc: Global,
    plan: &Plan,
    partial: Result<Partial, AllocError>,
)
    requires { IfOk partial (IsPartialOf plan.now) }
{
    let Ok(partial) = partial else {
        return;
    };
    assert_four_counted(rt, &partial);
    let hands = Parallel {
        rt,
        workers: 3,
        seed: HashSeed::Fixed,
    };
    sound_law();
    if let Ok(groups) = partial.finish_by(&hands, plan) {
        let refused = [(3, LineFault::NoObject)];
        assert_two_found(rt, &groups, refused.as_slice());
        groups.give_back(&hands, alloc);
    }
}

/// The same of two results that several hands begin, put together and finish.
#[test]
fn refusal_of_merge_by(rt: HostRuntime) {
    if let Some(plan) = plan_or_refused(&rt, rt.alloc(), BY_D) {
        let merged = two_merged_by_hands(&rt, rt.alloc(), &plan);
        assert_four_by_hands(&rt, rt.alloc(), &plan, merged);
        drop(plan);
    }
}

/// A piece of the four lines folded onto the result over the one before.
fn folded_on(rt: &impl Abort, alloc: Global, plan: &Plan) -> Result<Partial, AllocError>
    ensures { IfOk result (IsPartialOf plan.now) }
{
    let first = first_folded(alloc, plan)?;
    assert!(rt; first.lines() < 1 << 62);
    result_with_piece(plan, first, 1, &FOUR[FIRST_LEN..])
}

/// The same of a piece folded onto a result: the result over both, or want of memory.
#[test]
fn refusal_of_fold_onto(rt: HostRuntime) {
    if let Some(plan) = plan_or_refused(&rt, rt.alloc(), BY_D) {
        let folded = folded_on(&rt, rt.alloc(), &plan);
        assert_four_or_refused(&rt, &plan, folded);
        drop(plan);
    }
}

/// The groups of no line, or want of memory.
fn finished_or_refused(alloc: Global, plan: &Plan) -> Option<Groups> {
    let none = Partial::empty(alloc, plan).ok()?;
    finish(plan, none).ok()
}

/// The groups of a result of the plan over some pieces.
pub fn finish(plan: &Plan, partial: Partial) -> Result<Groups, AllocError>
    requires { IsPartialOf plan.now partial }
{
    sound_law();
    partial.finish(plan)
}

/// Asserts that there is one group, of no line. It takes no memory.
fn assert_none_found(rt: &impl Abort, groups: &Groups) {
    let [(set, group)] = groups.rows() else {
        panic!(rt; "not one group");
    };
    let cells = [Cell::Plain(Value::Int(0)), Cell::Plain(Value::Null)];
    assert!(rt; *set == 0 && group.key.is_empty() && group.lines == 0);
    assert!(rt; group.cells.as_slice() == cells.as_slice());
    assert!(rt; groups.refused().is_empty());
}

/// The same of the groups of no line: the one group, or want of memory.
#[test]
fn refusal_of_finish(rt: HostRuntime) {
    if let Some(plan) = plan_or_refused(&rt, rt.alloc(), UNGROUPED) {
        if let Some(groups) = finished_or_refused(rt.alloc(), &plan) {
            assert_none_found(&rt, &groups);
        }
        drop(plan);
    }
}

/// Records of one column of whole numbers.
fn records_of(alloc: Global, numbers: &[Option<i128>]) -> Result<Vec<Record>, AllocError> {
    let mut records = Vec::new(alloc);
    for number in numbers {
        let value = match number {
            Some(number) => Value::Int(*number),
            None => Value::Null,
        };
        records.push(Record::new(vec![in alloc; value]?))?;
    }
    Ok(records)
}

fn references<'a>(rt: &impl Abort, alloc: Global, records: &'a [Record]) -> Vec<&'a Record> {
    let references: Result<Vec<&Record>, AllocError> = records.iter().collect(alloc);
    references.expect(rt, "memory")
}

/// The plain program itself, held to values written by hand.
#[test]
fn reference_by_hand(rt: HostRuntime) {
    let alloc = rt.alloc();
    let cases = [
        (
            ColumnFunction::CountRows,
            number_cell(Some(4)),
            number_cell(Some(1)),
        ),
        (
            ColumnFunction::Count(0),
            number_cell(Some(3)),
            number_cell(Some(0)),
        ),
        (
            ColumnFunction::CountDistinct(0),
            number_cell(Some(2)),
            number_cell(Some(0)),
        ),
        (
            ColumnFunction::Sum(0),
            number_cell(Some(8)),
            number_cell(None),
        ),
        (
            ColumnFunction::Min(0),
            number_cell(Some(-2)),
            number_cell(None),
        ),
        (
            ColumnFunction::Max(0),
            number_cell(Some(5)),
            number_cell(None),
        ),
        (ColumnFunction::Avg(0), Cell::Ratio(8, 3), number_cell(None)),
    ];
    let some = records_of(alloc, &[Some(5), None, Some(-2), Some(5)]).expect(&rt, "memory");
    let null = records_of(alloc, &[None]).expect(&rt, "memory");
    let some = references(&rt, alloc, some.as_slice());
    let null = references(&rt, alloc, null.as_slice());
    for (function, of_some, of_null) in cases {
        let met_of_some = cell_of(&rt, alloc, function, some.as_slice());
        let met_of_null = cell_of(&rt, alloc, function, null.as_slice());
        assert!(rt;
            met_of_some == of_some && met_of_null == of_null,
            "{function:?}"
        );
    }
}
