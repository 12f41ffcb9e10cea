//! Sums of whole numbers.

ghost use Rattle.std.specs.Prelude.{◌≡◌, ◌+◌, ◌<◌, ◌^◌, ◌∷◌, [], ◌+ℤ◌, FitsSigned, length};
ghost use Rattle.std.specs.Int.{w128};
ghost use Rattle.values.specs.Datum.{datum_of};
ghost use Rattle.semantics.specs.Aggregates.{total, numbers};

use values::Value;

/// The sum of whole numbers, and how many were added.
#[derive(Clone, Copy)]
pub(crate) struct Total {
    pub(crate) sum: i128,
    pub(crate) count: u64,
}

impl Total {
    /// The sum of no numbers.
    pub(crate) const NONE: Total = Total { sum: 0, count: 0 };

    /// Adds a value, where it is a whole number.
    pub(crate) fn add(&mut self, value: &Value)
        requires sum { FitsSigned w128 (self.old.sum +ℤ total (numbers (datum_of value.now ∷ []))) }
        requires count { self.old.count + length (numbers (datum_of value.now ∷ [])) < 2 ^ 64 }
        ensures sum { self.new.sum ≡ self.old.sum +ℤ total (numbers (datum_of value.now ∷ [])) }
        ensures count { self.new.count
            ≡ self.old.count + length (numbers (datum_of value.now ∷ [])) }
    {
        if let Value::Int(number) = value {
            self.sum += *number;
            self.count += 1;
        }
    }

    /// Adds the numbers of another sum.
    pub(crate) fn absorb(&mut self, other: Total)
        requires sum { FitsSigned w128 (self.old.sum +ℤ other.sum) }
        requires count { self.old.count + other.count < 2 ^ 64 }
        ensures sum { self.new.sum ≡ self.old.sum +ℤ other.sum }
        ensures count { self.new.count ≡ self.old.count + other.count }
    {
        self.sum += other.sum;
        self.count += other.count;
    }
}
