//! Laws of the definitions, for the layers above.

ghost use Rattle.std.specs.Prelude.{◌≡◌, ◌++◌, ℕ, List, length, map, take};
ghost use Rattle.semantics.specs.Columns.{Field};
ghost use Rattle.semantics.specs.Records.{valid_records, refused_lines};
ghost use Rattle.semantics.specs.Lines.{lines};
ghost use Rattle.lines.specs.Numbering.{refused_from};
ghost use Rattle.lines.specs.Pieces.{AreWholeLines};
ghost use Rattle.lines.specs.Clip.{parts, clip_lines, clipped_len};

/// A law, with no work to do: in a clipped input each part between two line feeds is the first
/// 1,048,577 bytes of what it was. So it has as many lines, and the same valid records and refused
/// lines.
pub fn clip_law()
    ensures parts { (input : List ℕ)
        → parts (clip_lines input) ≡ map (take clipped_len) (parts input) }
    ensures lines { (input : List ℕ)
        → lines (clip_lines input) ≡ map (take clipped_len) (lines input) }
    ensures count { (input : List ℕ) → length (lines (clip_lines input)) ≡ length (lines input) }
    ensures valid { (fields : List Field) (input : List ℕ)
        → valid_records fields (clip_lines input) ≡ valid_records fields input }
    ensures refused { (fields : List Field) (input : List ℕ)
        → refused_lines fields (clip_lines input) ≡ refused_lines fields input }
{}

/// A law, with no work to do: an input whose front is whole lines has the lines of its front and
/// then those of its rest, and so it is with the valid records and with the refused lines, of which
/// those of the rest are numbered behind the lines of the front.
pub fn front_law()
    ensures lines { (front rest : List ℕ) → AreWholeLines front
        → lines (front ++ rest) ≡ lines front ++ lines rest }
    ensures valid { (fields : List Field) (front rest : List ℕ) → AreWholeLines front
        → valid_records fields (front ++ rest)
        ≡ valid_records fields front ++ valid_records fields rest }
    ensures refused { (fields : List Field) (front rest : List ℕ) → AreWholeLines front
        → refused_lines fields (front ++ rest) ≡ refused_lines fields front
        ++ refused_from (length (lines front)) (refused_lines fields rest) }
{}
