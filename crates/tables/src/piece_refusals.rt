//! The refused lines of a piece.

use crate::refusals::Refusals;

/// The refused lines of a piece, and how many lines it has: what is kept of it beside its groups.
#[derive(Drop)]
pub(crate) struct PieceRefusals {
    /// The piece's index.
    pub(crate) index: u32,
    /// The number of its lines.
    pub(crate) lines: u64,
    /// Its refused lines, by their numbers within it, from 1, ascending.
    pub(crate) refused: Refusals,
}
