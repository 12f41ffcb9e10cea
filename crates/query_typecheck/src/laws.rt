//! Laws of filters and of faults, with no work to do.

ghost use Rattle.std.specs.Prelude.{◌≡◌, ◌↔◌, List, [], Option, Some, Decides, slice_get};
ghost use Rattle.semantics.specs.Columns.{Field};
ghost use Rattle.semantics.specs.declared.kind.Kind.{Kind};
ghost use Rattle.semantics.specs.Syntax.{Query};
ghost use Rattle.semantics.specs.declared.query_fault.QueryFault.{QueryFault};
ghost use Rattle.query_typecheck.specs.FirstFaults.{IsFirst, first_fault, query_fault};
ghost use Rattle.semantics.specs.Faults.{query_faults, same_kind};
ghost use Rattle.query_typecheck.specs.Filters.{AreTypedFilters, LeadBack};
ghost use Rattle.query_typecheck.specs.Standing.{IsViolation};
ghost use Rattle.query_typecheck.specs.Typing.{IsTyped};

/// A law: the index of each set function of a query leads to its own FILTER, and each FILTER of a
/// typed query is typed as WHERE is.
pub fn filters_law()
    ensures back { (fields : List Field) (t : Query) → LeadBack fields t }
    ensures typed { (fields : List Field) (t : Query) → IsTyped fields t
        → AreTypedFilters fields t }
{}

/// A law: the first fault of a list is that of one element, where none before it has any; and two
/// types pass the test of types exactly where they are equal.
pub fn first_fault_law<A>()
    ensures first { (test : A → Option QueryFault) (xs : List A) (f : QueryFault)
        → first_fault test xs ≡ Some f ↔ IsFirst test xs f }
    ensures kinds { (k l : Kind) → Decides (same_kind k l) (k ≡ l) }
{}

/// A law: a query has no fault exactly where it is typed; the first of its faults is that of the
/// first test that it fails, and stands in it.
pub fn typed_law()
    ensures typed { (fields : List Field) (t : Query)
        → query_faults fields t ≡ [] ↔ IsTyped fields t }
    ensures first { (fields : List Field) (t : Query)
        → slice_get (query_faults fields t) 0 ≡ query_fault fields t }
    ensures stands { (fields : List Field) (t : Query) (f : QueryFault)
        → slice_get (query_faults fields t) 0 ≡ Some f → IsViolation fields t f }
{}
