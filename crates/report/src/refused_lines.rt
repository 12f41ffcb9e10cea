//! The list of refused lines.

ghost use Rattle.std.specs.Prelude.{◌≡◌, ◌<◌, ◌++◌, IfOk, OnOk, codes, decimal, length, max};
ghost use Rattle.values.specs.Schema.{fields_of};
ghost use Rattle.semantics.specs.Canonical.{name_at};
ghost use Rattle.semantics.specs.Columns.{names_of};
ghost use Rattle.semantics.specs.Texts.{fault_text, refused_line};
ghost use Rattle.report.specs.Report.{IsLineRoom, line_room, longest, refusals_of};
ghost use Rattle.report.specs.Inside.Lengths.{memory_limit};

use itoa::Buffer;
use lines::LineFault;
use std::alloc::{AllocError, Global};
use tables::Groups;
use values::{Column, Schema};

/// The most bytes of a refused line beside the name of a column: those of the words, of a number of
/// 64 bits and of a line feed.
const MOST_BESIDE_A_NAME: usize = 48;

/// The bytes of the list of refused lines: for each, in the order given, `line N: ` and what is
/// wrong with it, ended by a line feed. There are none where no line is refused. N is the number of
/// the line in the input, from 1.
///
/// A fault at the place of a column is said to be in the column of this name, and in one without a
/// name where there is none.
///
/// Example: under the columns `shop:text,cents:int`, line 2 with `NoJson` and line 5 with
/// `BadValue(1)` give `line 2: not JSON` and `line 5: bad value in column cents`, each ended by a
/// line feed.
///
/// # Errors
///
/// `AllocError` where there is no memory for the text.
pub fn refused_text(alloc: Global, groups: &Groups, schema: &Schema) -> Result<Vec<u8>, AllocError>
    ensures { IfOk result (λ text. text.items ≡ refusals_of schema.now groups.now.refused) }
{
    let mut text = Vec::new(alloc);
    for (number, fault) in groups.refused() {
        push_refused_line(&mut text, schema, *number, *fault)?;
    }
    Ok(text)
}

/// Adds a refused line to the bytes of a list of refused lines, as `refused_text` has it.
///
/// Example: under the columns `shop:text,cents:int`, line 5 with `BadValue(1)` adds
/// `line 5: bad value in column cents`, ended by a line feed.
///
/// # Errors
///
/// `AllocError` where the text has no room for the line, and there is no memory for more: then the
/// text ends with a beginning of the line.
pub fn push_refused_line(
    text: &mut Vec<u8>,
    schema: &Schema,
    number: u64,
    fault: LineFault,
) -> Result<(), AllocError>
    ensures { OnOk result (text.new.items
        ≡ text.old.items ++ refused_line schema.now (number, fault)) }
{
    push_number(text, number)?;
    push_fault(text, schema, fault)?;
    text.extend_from_slice(b"\n")
}

/// So many bytes as are enough for each line of a list of refused lines, under these columns.
///
/// Example: under the columns `shop:text,cents:int` it is 53, since
/// `line 18446744073709551615: bad value in column cents` has 52 bytes, and a line feed ends it.
pub fn refused_line_room(schema: &Schema) -> usize
    ensures room { result ≡ line_room schema.now }
    ensures enough { IsLineRoom schema.now result }
{
    MOST_BESIDE_A_NAME + longest_name(schema.columns())
}

/// Adds the number of a refused line.
fn push_number(text: &mut Vec<u8>, number: u64) -> Result<(), AllocError>
    ensures { OnOk result (text.new.items
        ≡ text.old.items ++ codes "line " ++ decimal number ++ codes ": ") }
{
    let mut buffer = Buffer::new();
    text.extend_from_slice(b"line ")?;
    text.extend_from_slice(buffer.format(number).as_bytes())?;
    text.extend_from_slice(b": ")
}

/// Adds what is wrong with a line.
fn push_fault(text: &mut Vec<u8>, schema: &Schema, fault: LineFault) -> Result<(), AllocError>
    ensures { OnOk result (text.new.items ≡ text.old.items ++ fault_text schema.now fault) }
{
    match fault {
        LineFault::TooLong => text.extend_from_slice(b"too long"),
        LineFault::NoJson => text.extend_from_slice(b"not JSON"),
        LineFault::NoObject => text.extend_from_slice(b"not an object"),
        LineFault::BadValue(place) => push_bad_value(text, column_name(schema, place)),
    }
}

/// Adds that the value in the column of this name is bad.
fn push_bad_value(text: &mut Vec<u8>, name: &str) -> Result<(), AllocError>
    ensures { OnOk result (text.new.items
        ≡ text.old.items ++ codes "bad value in column " ++ name.now) }
{
    text.extend_from_slice(b"bad value in column ")?;
    text.extend_from_slice(name.as_bytes())
}

/// The name of the column at a place, and nothing where there is no column.
fn column_name(schema: &Schema, place: usize) -> &str
    ensures { result.now ≡ name_at schema.now place }
{
    match schema.columns().get(place) {
        Some(column) => column.name.as_str(),
        None => "",
    }
}

/// The length of the longest name of a column.
fn longest_name(columns: &[Column]) -> usize
    ensures longest { result ≡ longest (names_of (fields_of columns.now)) }
    ensures within { result < memory_limit }
{
    let mut longest = 0;
    for column in columns {
        longest = longer(longest, column.name.as_str());
    }
    longest
}

/// A length, or that of a name where it is longer.
fn longer(most: usize, name: &str) -> usize
    ensures longer { result ≡ max most (length name.now) }
    ensures within { most < memory_limit → result < memory_limit }
{
    most.max(name.len())
}
