//! Reads each line of a file as a record in every way, by its bytes, by its tokens and by its JSON
//! tree, and prints how many lines there are, how many are records, how many the bytes alone
//! answered and how many the tokens alone, and how many one of the ways read otherwise than the
//! tree.
//!
//! Example: under `d:text,q:int`, of a file of the lines `{"d":"x","r":"n","q":5}` and `[1]`, it
//! prints `2 lines, 1 records, 1 by their bytes alone, 1 by their tokens alone, 0 different`.

use lines::{LineRefusal, RecordReader, lines_of, read_by_tree};
use std::alloc::Global;
use std::rt::Files;
use std::{fs, io};
use values::{Record, Schema};

/// Numbers of lines.
#[derive(Clone, Copy)]
struct Counts {
    lines: u64,
    records: u64,
    by_bytes: u64,
    by_tokens: u64,
    different: u64,
}

/// One more where the condition holds.
fn count_if(count: u64, condition: bool) -> u64 {
    count.saturating_add(u64::from(condition))
}

/// Whether two readings are the same record, or the same refusal.
fn are_same(one: &Result<Record, LineRefusal>, other: &Result<Record, LineRefusal>) -> bool {
    match (one, other) {
        (Ok(one), Ok(other)) => one.values() == other.values(),
        (Err(one), Err(other)) => one == other,
        (Ok(_), Err(_)) | (Err(_), Ok(_)) => false,
    }
}

/// Whether a way that may leave a doubt leaves one, or reads the same record.
fn is_no_other(answer: &Option<Record>, read: &Result<Record, LineRefusal>) -> bool {
    match (answer, read) {
        (None, _) => true,
        (Some(answer), Ok(read)) => answer.values() == read.values(),
        (Some(_), Err(_)) => false,
    }
}

/// What the three ways make of the lines of the bytes.
fn counts_of(alloc: Global, schema: &Schema, bytes: &[u8]) -> Counts {
    let mut reader = RecordReader::new(alloc);
    let mut counts = Counts {
        lines: 0,
        records: 0,
        by_bytes: 0,
        by_tokens: 0,
        different: 0,
    };
    for line in lines_of(bytes) {
        let by_tree = read_by_tree(alloc, schema, line);
        let read = reader.read(schema, line);
        let by_bytes = reader.read_by_bytes(schema, line);
        let by_tokens = reader.read_by_tokens(schema, line);
        let same = are_same(&read, &by_tree)
            && is_no_other(&by_bytes, &by_tree)
            && is_no_other(&by_tokens, &by_tree);
        counts = Counts {
            lines: count_if(counts.lines, true),
            records: count_if(counts.records, by_tree.is_ok()),
            by_bytes: count_if(counts.by_bytes, by_bytes.is_some()),
            by_tokens: count_if(counts.by_tokens, by_tokens.is_some()),
            different: count_if(counts.different, !same),
        };
    }
    counts
}

/// Compares the three ways on the lines of the file at a path, under columns. Where these are
/// refused, it prints nothing.
pub fn run<R: Files + Print + AllocGlobal>(rt: &R, columns: &str, path: &str) -> io::Result<()> {
    let Ok(schema) = Schema::parse(rt.alloc(), columns) else {
        return Ok(());
    };
    let bytes = fs::read(rt, path)?;
    let Counts {
        lines,
        records,
        by_bytes,
        by_tokens,
        different,
    } = counts_of(rt.alloc(), &schema, bytes.as_slice());
    println!(rt;
        "{lines} lines, {records} records, {by_bytes} by their bytes alone, {by_tokens} by their tokens alone, {different} different"
    )
}
