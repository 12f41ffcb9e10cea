//! Whether a record is kept, and whether it passes a FILTER.

ghost use Rattle.std.specs.Prelude.{◌≡◌, ◌<◌, length};
ghost use Rattle.semantics.specs.Records.{Fits};
ghost use Rattle.query_resolve.specs.Functions.{filter_at};
ghost use Rattle.semantics.specs.SetFunctions.{functions_of};
ghost use Rattle.semantics.specs.Conditions.{where_truth};

use crate::plan::Plan;
use values::{Record, Truth};

/// The truth value of the predicate of WHERE for a record (ISO/IEC 9075-2, `<search condition>`). A
/// record is kept exactly where it is True; it is True of each record where WHERE is not written.
/// It takes no memory. It asks that the record fits the schema of the plan.
///
/// Example: under the columns `q:int` `WHERE q > 2` is True for the record of the line `{"q":5}`,
/// and Unknown for that of `{}`.
pub fn holds(plan: &Plan, record: &Record) -> Truth
    requires { Fits plan.now.fields «record».now }
    ensures { result ≡ where_truth plan.now.fields plan.now.query.where_condition «record».now }
{
    plan.where_truth(record.values())
}

/// The truth value of the FILTER of a set function for a record (ISO/IEC 9075-2,
/// `<filter clause>`). The function is named by its place among the different ones, from 0. It
/// takes a record of a group exactly where this is True; it is True of each record where the
/// function has no FILTER. No memory is taken. It asks that the record fits the schema of the plan,
/// and that the place is below `Plan::functions`.
///
/// Example: of `SELECT COUNT(*), COUNT(*) FILTER (WHERE q > 2) FROM lines` and the record of the
/// line `{"q":1}` it is True for the function 0, and False for the function 1.
pub fn filter_holds(plan: &Plan, f: usize, record: &Record) -> Truth
    requires place { f < length (functions_of plan.now.fields plan.now.query) }
    requires fits { Fits plan.now.fields «record».now }
    ensures { result
        ≡ where_truth plan.now.fields (filter_at plan.now.fields plan.now.query f) «record».now }
{
    plan.filter_truth(f, record.values())
}
