//! Where the values of a part come from.

ghost use Rattle.std.specs.Prelude.{◌≡◌, ◌+◌, OnOk};
ghost use Rattle.values.specs.Datum.{datum_of};
ghost use Rattle.part_lines.specs.Reading.{Gives, Stream, value_at};

use crate::fault::PartRefusal;
use values::Value;

/// The values of a part, one after the other.
///
/// Example: of the lines `"Harbour"` and `2` the first call of `next` answers the text `Harbour`,
/// after which `line` answers 1.
pub trait ValueReader {
    /// The lines are known. Where they are not, nothing is said of what is read but how many lines
    /// were.
    ghost known: { Self → Type 0 };

    /// The lines that are to come, and those before.
    ghost stream: { Self → Stream };

    /// The next value.
    ///
    /// # Errors
    ///
    /// The fault of the next line, a read that failed, or want of memory.
    fn next(&mut self) -> Result<Value, PartRefusal>
        ensures known { known self.old → OnOk result (known self.new) }
        ensures line { OnOk result ((stream self.new).place ≡ (stream self.old).place + 1) }
        ensures read { known self.old → Gives (λ value. (datum_of value, stream self.new)) result
            (value_at (stream self.old)) };

    /// The number of the line that was read last, from 1, and 0 before the first one.
    fn line(&self) -> u64
        ensures { known self.now → result ≡ (stream self.now).place };
}
