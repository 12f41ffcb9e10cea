//! Truth values.

ghost use Rattle.std.specs.Prelude.{◌≡◌, ◌↔◌, IsTrue, if◌then◌else◌};

/// A truth value of three-valued logic (ISO/IEC 9075-2, `<search condition>`).
///
/// Example: of a record in which `cents` is NULL, `cents > 5` is Unknown.
#[derive(Clone, Copy, Debug, PartialEq, Eq, Hash)]
pub enum Truth {
    /// A predicate does not hold.
    False,
    /// It is not known whether a predicate holds, as where a value is compared with NULL.
    Unknown,
    /// A predicate holds.
    True,
}

impl Truth {
    ghost use Rattle.semantics.specs.Truth.{conjunction, disjunction, negation};

    /// `self AND other`, by the truth table of AND (ISO/IEC 9075-2, `<search condition>`): False
    /// where either is False, True where both are True, and else Unknown.
    ///
    /// Example: `Truth::True.and(Truth::Unknown)` answers `Unknown`.
    pub fn and(self, other: Truth) -> Truth
        ensures table { result ≡ conjunction self other }
    {
        match (self, other) {
            (Truth::False, _) | (_, Truth::False) => Truth::False,
            (Truth::True, Truth::True) => Truth::True,
            (Truth::Unknown, _) | (_, Truth::Unknown) => Truth::Unknown,
        }
    }

    /// `self OR other`, by the truth table of OR (ISO/IEC 9075-2, `<search condition>`): True where
    /// either is True, False where both are False, and else Unknown.
    ///
    /// Example: `Truth::True.or(Truth::Unknown)` answers `True`.
    pub fn or(self, other: Truth) -> Truth
        ensures table { result ≡ disjunction self other }
    {
        match (self, other) {
            (Truth::True, _) | (_, Truth::True) => Truth::True,
            (Truth::False, Truth::False) => Truth::False,
            (Truth::Unknown, _) | (_, Truth::Unknown) => Truth::Unknown,
        }
    }

    /// `NOT self`, by the truth table of NOT (ISO/IEC 9075-2, `<search condition>`): True and False
    /// are exchanged, and Unknown stays.
    ///
    /// Example: `Truth::Unknown.not()` answers `Unknown`.
    pub fn not(self) -> Truth
        ensures table { result ≡ negation self }
    {
        match self {
            Truth::False => Truth::True,
            Truth::Unknown => Truth::Unknown,
            Truth::True => Truth::False,
        }
    }

    /// Whether `self IS truth`, which is never unknown (ISO/IEC 9075-2, `<boolean test>`).
    ///
    /// Example: `Truth::Unknown.is(Truth::False)` answers `false`.
    pub fn is(self, truth: Truth) -> bool
        ensures same { IsTrue result ↔ (self ≡ truth) }
    {
        self == truth
    }
}

impl From<bool> for Truth {
    ghost use Rattle.semantics.specs.declared.truth.Truth.TheVariants.{True, False};

    ghost from_gives = { λ holds truth. truth ≡ (if holds then True else False) };

    /// The truth value of a test that is not unknown.
    ///
    /// Example: `Truth::from(false)` answers `False`.
    fn from(holds: bool) -> Truth {
        if holds { Truth::True } else { Truth::False }
    }
}
