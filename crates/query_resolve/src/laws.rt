//! Laws of grouping sets, of lists without repeats, and of predicates that are the same, with no
//! work to do.

ghost use Rattle.std.specs.Prelude.{◌≡◌, ℕ, Bool, List, true, Decides};
ghost use Rattle.semantics.specs.Columns.{Field};
ghost use Rattle.semantics.specs.Syntax.{SetFunction, Query, Predicate, function};
ghost use Rattle.semantics.specs.Names.{PlannedFunction};
ghost use Rattle.semantics.specs.Lists.{distinct};
ghost use Rattle.semantics.specs.Sets.{cross_product, cube_sets, expanded_sets, rollup_sets, sets_of};
ghost use Rattle.semantics.specs.Inside.Same.{same_planned, same_predicate};
ghost use Rattle.query_resolve.specs.Laws.{AreDistinct, HaveSameColumns, IsCrossProduct, IsCube, IsRollup};
ghost use Rattle.query_resolve.specs.Shown.{function_value, values_of_functions};
ghost use Rattle.semantics.specs.Groups.{Key, Record};
ghost use Rattle.semantics.specs.Rows.{expression_value};
ghost use Rattle.semantics.specs.SetFunctions.{set_functions};
ghost use Rattle.std.specs.List.{Contains};

/// A law: ROLLUP stands for the sets of its first n units, of its first n-1, and so on to the empty
/// set, ISO/IEC 9075-2 `<rollup list>`.
pub fn rollup_law()
    ensures { (units : List (List (List ℕ))) → IsRollup units (rollup_sets units) }
{}

/// A law: CUBE stands for the sets of all subsets of its units, by falling binary numbers whose
/// highest digit is the first unit, ISO/IEC 9075-2 `<cube list>`.
pub fn cube_law()
    ensures { (units : List (List (List ℕ))) → IsCube units (cube_sets units) }
{}

/// A law: GROUP BY DISTINCT keeps of the expanded list each set that has not the columns of an
/// earlier one, in order. So no two of its sets have the same columns, and each set of the expanded
/// list has its columns in one of them, ISO/IEC 9075-2 `<group by clause>`.
pub fn distinct_law()
    ensures { (fields : List Field) (t : Query) → t.distinct_sets ≡ true
        → AreDistinct HaveSameColumns (expanded_sets fields t) (sets_of fields t) }
{}

/// A law: where being the same is reflexive and transitive, `distinct` keeps of a list each element
/// that is not the same as an earlier one, in order. So no two that it keeps are the same, and each
/// element is the same as one that it keeps.
pub fn kept_law<A>()
    ensures { (same : A → A → Bool) → ((a : A) → same a a ≡ true)
        → ((a b c : A) → same a b ≡ true → same b c ≡ true → same a c ≡ true)
        → (xs : List A) → AreDistinct (λ a b. same a b ≡ true) xs (distinct same xs) }
{}

/// A law: in a cross product the leftmost list varies slowest: with n sets in the second list, at
/// place i * n + j stand the columns of the first list's set at place i and of the second's at
/// place j, ISO/IEC 9075-2 `<group by clause>`.
pub fn cross_product_law()
    ensures { (firsts seconds : List (List (List ℕ)))
        → IsCrossProduct firsts seconds (cross_product firsts seconds) }
{}

/// A law: two predicates are the same exactly where their trees are equal.
pub fn same_predicate_law()
    ensures { (p q : Predicate) → Decides (same_predicate p q) (p ≡ q) }
{}

/// A law: two set functions are the same exactly where the function, DISTINCT, the column and the
/// filter are equal.
pub fn same_function_law()
    ensures { (f g : PlannedFunction) → Decides (same_planned f g) (f ≡ g) }
{}

/// A law: what a row of a group shows for a set function of the query is the value of this function
/// over the members of the group. So nobody has to believe in which order the different set
/// functions stand.
pub fn shown_law()
    ensures { (fields : List Field) (t : Query) (set : List ℕ) (key : Key) (rows : List Record)
        (f : SetFunction) → Contains (set_functions t) f
        → expression_value fields t set key (values_of_functions fields t rows) (function f)
        ≡ function_value fields rows f }
{}
