//! Cutting an input into pieces that are not too many.

ghost use Rattle.std.specs.Prelude.{◌≡◌, ◌≤◌, ◌<◌, All, IfOk, length};
ghost use Rattle.semantics.specs.Lines.{lines};
ghost use Rattle.tables.specs.Pieces.{IsCutInto, all_lines};
ghost use Rattle.tables.specs.Pieces.{indexed_pieces};
ghost use Rattle.semantics.specs.Limits.{input_limit};
ghost use Rattle.jlreport_scan.specs.declared.pieces.TheConstants.{MAX_PIECES};

use lines::{Piece, cut};
use std::alloc::{AllocError, Global};

/// The most pieces that an input is cut into.
pub const MAX_PIECES: usize = 1_048_576;

/// The pieces of an input, each of `piece` bytes or more but perhaps the last. Where these would be
/// more than 1,048,576 pieces, they are longer.
pub(crate) fn pieces_of(alloc: Global, input: &[u8], piece: usize) -> Result<Vec<Piece>, AllocError>
    requires { length input.now < input_limit }
    ensures few { IfOk result (λ pieces. length pieces.items ≤ MAX_PIECES) }
    ensures not_empty { IfOk result (λ pieces.
        All (λ piece. piece.start < piece.stop) pieces.items) }
    ensures within { IfOk result (λ pieces.
        All (λ piece. piece.stop ≤ length input.now) pieces.items) }
    ensures cut { IfOk result (λ pieces.
        IsCutInto input.now (indexed_pieces input.now pieces.items)) }
    ensures lines { IfOk result (λ pieces.
        all_lines (indexed_pieces input.now pieces.items) ≡ lines input.now) }
{
    cut(alloc, input, piece.max(input.len() / MAX_PIECES + 1))
}
