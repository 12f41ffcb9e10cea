//! What is wrong with parts.

use thiserror::Error;

/// What is wrong with a line of parts.
///
/// Example: the text of `PartsFaultKind::OutOfOrder` is `out of order`.
#[derive(Debug, PartialEq, Eq, Drop, Error)]
pub enum PartsFaultKind {
    /// There is no line at all.
    #[error("no part")]
    NoPart,
    /// A part should begin, and the line is not the mark of one.
    #[error("not a part")]
    NotAPart,
    /// The line is the mark of a part of this version, a whole number as it is written, shown in
    /// the same way.
    #[error("a part of version {0}")]
    OtherVersion(String),
    /// The part is of other columns: those that the line names, in quotes. Characters that are not
    /// shown, or that turn the direction of writing, are escaped, and of more than 200 characters
    /// there are the first 200 and `..`.
    #[error("other columns: {0}")]
    OtherColumns(String),
    /// The part is of another query: that of the line, in quotes, shown in the same way.
    #[error("another query: {0}")]
    OtherQuery(String),
    /// The line is the text of no value, or has more than 1,048,576 bytes.
    #[error("not a value")]
    NotAValue,
    /// The value is not of the type that stands in its place.
    #[error("unexpected value")]
    UnexpectedValue,
    /// A key, a different value or the number of a refused line is not above the one before.
    #[error("out of order")]
    OutOfOrder,
    /// A number is impossible: more refused lines than lines, or one with a number above theirs;
    /// more records than good lines, or a count above its group's; a sum that so many numbers of 64
    /// bits cannot have; or, without GROUP BY, not exactly one group, or with it a group without a
    /// record.
    #[error("out of range")]
    OutOfRange,
    /// The lines end before the part does.
    #[error("ends too early")]
    EndsTooEarly,
    /// The checksum is not that of the lines before it.
    #[error("checksum does not fit")]
    WrongChecksum,
    /// All parts so far have 2^63 lines or more together.
    #[error("too many lines")]
    TooManyLines,
}

/// The first fault of parts, from the front.
///
/// Example: of two parts of 20 lines each, of which the checksum of the second one does not fit, it
/// is `WrongChecksum` in the part 2, at the line 40. Its text is
/// `part 2, line 40: checksum does not fit`.
#[derive(Debug, PartialEq, Eq, Drop, Error)]
#[error("part {part}, line {line}: {kind}")]
pub struct PartsFault {
    /// The number of the part, from 1.
    pub part: u64,
    /// The number of the line, from 1 over all parts. Where they end too early it is the number
    /// that the next line would have.
    pub line: u64,
    /// What is wrong there.
    pub kind: PartsFaultKind,
}
