//! The lines of bytes as texts, where they are UTF-8, which is tested for many lines at once.

ghost use Rattle.std.specs.Prelude.{◌≡◌};
ghost use Rattle.std.specs.Iterator.{YieldsFirstBy, YieldsFirstRef, item_count};
ghost use Rattle.semantics.specs.Lines.{lines};
ghost use Rattle.lines.specs.Checked.{line_bytes, lines_left};

use crate::cuts::split_piece;
use crate::split::{Lines, lines_of};
use memchr::memchr;
use std::iter::FusedIterator;
use std::marker::Model;

/// How many bytes are tested at once, or some more, up to the end of a line. They are so few that
/// they are still in the processor's cache when their lines are read.
const BLOCK_LEN: usize = 65_536;

/// A line, as a text where it is known to be UTF-8.
#[derive(Clone, Copy, Debug)]
pub enum Line<'a> {
    /// A line that is UTF-8.
    Text(&'a str),
    /// A line of which it is not known.
    Bytes(&'a [u8]),
}

/// An iterator over lines, each as a text where it is known to be UTF-8. Contracts see it as the
/// list of the lines that are left, as bytes.
///
/// It takes no memory: a line is lent from the bytes that it was made of.
///
/// Example: `checked_lines_of(b"ab\ncd")` gives the texts `ab` and `cd`, and from then on nothing.
#[derive(Debug, Drop)]
pub struct CheckedLines<'a> {
    block: Block<'a>,
    rest: &'a [u8],
}

impl<'a> Model for CheckedLines<'a> {
    ghost use Rattle.std.specs.Prelude.{ℕ, List, ◌++◌};
    ghost use Rattle.semantics.specs.Lines.{lines};
    ghost use Rattle.lines.specs.Checked.{lines_left};

    ghost Value = { List (List ℕ) };

    ghost view = { λ inside. lines_left inside.block ++ lines inside.rest.now };
}

/// The lines of the bytes, as [`lines_of`] gives them, each as a text where it is known to be
/// UTF-8.
///
/// Lines are tested in blocks. So a line comes as bytes where it, or another line of its block, is
/// not UTF-8.
///
/// Example: of the lines of `ab\n\ncd\n` each is a text: `ab`, an empty one, and `cd`.
pub fn checked_lines_of(piece: &[u8]) -> CheckedLines<'_>
    ensures { result ≡ lines piece.now }
{
    CheckedLines {
        block: Block::Texts(TextLines { rest: "" }),
        rest: piece,
    }
}

impl<'a> Iterator for CheckedLines<'a> {
    type Item = Line<'a>;

    ghost next_gives = { YieldsFirstBy line_bytes (λ left. left) };

    ghost remaining = { item_count (λ left. left) };

    /// The next line, or `None` once there is none, and from then on.
    fn next(&mut self) -> Option<Line<'a>> {
        match self.block.next() {
            Some(line) => Some(line),
            None => {
                let (block, rest) = split_piece(self.rest, BLOCK_LEN);
                self.block = block_of(block);
                self.rest = rest;
                self.block.next()
            }
        }
    }
}

impl FusedIterator for CheckedLines<'_> {}

/// The lines of a block that are left.
#[derive(Debug, Drop)]
pub(crate) enum Block<'a> {
    Texts(TextLines<'a>),
    Bytes(Lines<'a>),
}

/// The lines of a block, as texts where the whole block is UTF-8.
fn block_of(bytes: &[u8]) -> Block<'_>
    ensures { lines_left result ≡ lines bytes.now }
{
    match simdutf8::basic::from_utf8(bytes) {
        Ok(text) => Block::Texts(TextLines { rest: text }),
        Err(_) => Block::Bytes(lines_of(bytes)),
    }
}

impl<'a> Iterator for Block<'a> {
    type Item = Line<'a>;

    ghost next_gives = { YieldsFirstBy line_bytes lines_left };

    ghost remaining = { item_count lines_left };

    /// The next line, or `None` once there is none, and from then on.
    #[inline(always)]
    fn next(&mut self) -> Option<Line<'a>> {
        match self {
            Block::Texts(lines) => Some(Line::Text(lines.next()?)),
            Block::Bytes(lines) => Some(Line::Bytes(lines.next()?)),
        }
    }
}

/// The lines of a text that are left. Contracts see it as the list of them.
#[derive(Debug, Drop)]
pub(crate) struct TextLines<'a> {
    rest: &'a str,
}

impl<'a> Model for TextLines<'a> {
    ghost use Rattle.std.specs.Prelude.{ℕ, List};
    ghost use Rattle.semantics.specs.Lines.{lines};

    ghost Value = { List (List ℕ) };

    ghost view = { λ inside. lines inside.rest.now };
}

impl<'a> Iterator for TextLines<'a> {
    type Item = &'a str;

    ghost next_gives = { YieldsFirstRef (λ left. left) };

    ghost remaining = { item_count (λ left. left) };

    /// The next line, or `None` once there is none, and from then on.
    #[inline(always)]
    fn next(&mut self) -> Option<&'a str> {
        let rest = self.rest;
        if rest.is_empty() {
            return None;
        }
        match memchr(b'\n', rest.as_bytes()) {
            Some(end) => {
                self.rest = &rest[end + 1..];
                Some(&rest[..end])
            }
            None => {
                self.rest = &rest[rest.len()..];
                Some(rest)
            }
        }
    }
}
