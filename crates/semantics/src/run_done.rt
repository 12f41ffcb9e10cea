//! What a run that is done answers.

/// The counts of an input.
///
/// Example: of the input of the line `{}` and an empty line, each ended by a line feed, `lines` is
/// 2 and `refused` is 1.
#[derive(Clone, Copy, Debug, PartialEq, Eq)]
pub struct Done {
    /// How many lines the input has, refused ones among them.
    pub lines: u64,
    /// How many of them are refused.
    pub refused: u64,
}
