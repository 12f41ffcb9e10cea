//! What the lines of values and of groups come to, with no work to do.

ghost use Rattle.std.specs.Prelude.{◌≡◌, ◌≤◌, ℕ, List, Some, IfSome, IsTrue, map, ◌<◌, ◌^◌};
ghost use Rattle.std.specs.List.{AllByRecursion};
ghost use Rattle.semantics.specs.Lines.{lines};
ghost use Rattle.semantics.specs.Values.{Datum};
ghost use Rattle.part_lines.specs.LineValues.{IsTextOf, line_value};
ghost use Rattle.part_lines.specs.Texts.{is_storable};
ghost use Rattle.semantics.specs.Parts.{text_of, value_text};
ghost use Rattle.lines_json.specs.Bytes.{space};
ghost use Rattle.semantics.specs.GroupStates.{EntryForm};
ghost use Rattle.part_lines.specs.Groups.{HaveShape, ShapeForm};
ghost use Rattle.part_lines.specs.Known.{AreGroupsFor, AreRead, AreReadAgain, AreReadAs, HaveValues, IsWritable};
ghost use Rattle.part_lines.specs.Reading.{Before};

/// A law: what is written of a value that a program can hold is read as that value, and nothing
/// else is. Of the text of a value that none can hold, as a number of more than 128 bits, no other
/// value is read. The lines of values written one behind the other are their texts. No byte of a
/// text is below 32, as line feeds and the other control characters of JSON are.
pub fn text_law()
    ensures again { (d : Datum) → IsTrue (is_storable d) → line_value (value_text d) ≡ Some d }
    ensures same { (d : Datum) → IfSome (line_value (value_text d)) (λ e. e ≡ d) }
    ensures alone { (line : List ℕ) (d : Datum) → line_value line ≡ Some d → IsTextOf line d }
    ensures lines { (values : List Datum) → lines (text_of values) ≡ map value_text values }
    ensures no_control { (d : Datum) → AllByRecursion (λ b. space ≤ b) (value_text d) }
{}

/// A law. Where the next lines are read as the values of groups of a shape, and so many groups are
/// read, it is these, and the lines behind them are left: a check that fails is an `Err`. None
/// fails where the lines have these values and the groups fit: then they are read. The texts of
/// values are lines that are read as these values, and that have them where a program can hold them
/// and they are not too long.
pub fn groups_law()
    ensures again { (shape : ShapeForm) (gs : List EntryForm) → HaveShape shape gs
        → AreReadAgain shape gs }
    ensures read { (shape : ShapeForm) (before : Before) (gs : List EntryForm)
        → before.left < 2 ^ 64 → AreGroupsFor shape before gs → AreRead shape before gs }
    ensures texts { (ds : List Datum) → AreReadAs (map value_text ds) ds }
    ensures values { (ds : List Datum) → AllByRecursion IsWritable ds
        → HaveValues (map value_text ds) ds }
{
    text_law();
}
