//! Parts of the program, each by itself, for the scripts of the folder `bench/`. The first word
//! says which part, and the others are its words:
//!
//! - `part COLUMNS QUERY FILE HANDS` times the writing and the reading of the part of a file,
//! - `compare COLUMNS FILE` holds the three ways to read a line to one another.
//!
//! HANDS are 1 to 64, and 1 where the word is no number. Where the first word is another one, or a
//! word is missing, it prints nothing.
//!
//! Example: the words `compare q:int FILE` make it print
//! `1 lines, 1 records, 1 by their bytes alone, 1 by their tokens alone, 0
//! different` of a FILE with the line `{"q":1}`.
#![tactic(auto)]

ghost use Rattle.std.specs.Prelude.{◌≤◌};

use std::{env, io};

mod compare;
mod part;
mod result;

/// The number of hands that a word means.
fn hands_of(word: &str) -> usize
    ensures { (1 ≤ result) × (result ≤ 64) }
{
    word.parse::<usize>().unwrap_or(1).clamp(1, 64)
}

fn main(rt: HostRuntime) -> io::Result<()> {
    let words: Vec<String> = env::args(&rt)?.skip(1).collect(rt.alloc())?;
    let words: Vec<&str> = words.iter().map(|word| word.as_str()).collect(rt.alloc())?;
    match words.as_slice() {
        ["part", columns, query, path, hands, ..] => part::run(&rt, columns, query, path, hands),
        ["compare", columns, path, ..] => compare::run(&rt, columns, path),
        _ => Ok(()),
    }
}
