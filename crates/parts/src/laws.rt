//! What joins of joins come to, with no work to do.

ghost use Rattle.std.specs.Prelude.{◌≡◌, [], ◌∷◌, ◌++◌, ℕ, List, map};
ghost use Rattle.std.specs.List.{flat_map};
ghost use Rattle.semantics.specs.Columns.{Field};
ghost use Rattle.semantics.specs.Parts.{newline_terminated, concatenated, part_text};
ghost use Rattle.semantics.specs.Syntax.{Query};

/// What makes trees of joins right, where the join of parts is the part of their inputs, one behind
/// the other, each from a line of its own on (`concatenated`). The join of joins is the join of all
/// their parts, in order. A part does not tell whether its input lacks the last line feed. And of
/// an input whose first half is whole lines, the part is the join of the parts of its two halves.
///
/// So `part(a ++ b) = join(part(a), part(b))` where `a` is whole lines, and the same holds of any
/// number of inputs, with the parts of any neighbours joined first.
///
/// Example: of three inputs `a`, `b` and `c`, a line each without its line feed, the join of their
/// parts is the part of the lines `a`, `b` and `c`, whether the first two are joined first, or the
/// last two.
pub fn parts_law()
    ensures joins { (trees : List (List (List ℕ)))
        → concatenated (map concatenated trees) ≡ concatenated (flat_map (λ inputs. inputs) trees) }
    ensures closes { (fields : List Field) (q : Query) (input : List ℕ)
        → part_text fields q (newline_terminated input) ≡ part_text fields q input }
    ensures front { (fields : List Field) (q : Query) (first second : List ℕ)
        → newline_terminated first ≡ first → part_text fields q (concatenated (first ∷ second ∷ []))
        ≡ part_text fields q (first ++ second) }
{}
