//! A query that is typed under a schema, and what its names stand for there.

ghost use Rattle.std.specs.Prelude.{◌≡◌};
ghost use Rattle.query_resolve.specs.Resolution.{resolution_of};
ghost use Rattle.query_typecheck.specs.Typing.{IsTyped};
ghost use Rattle.query_resolve.specs.Functions.{filters_of};
ghost use Rattle.query_eval.specs.Binding.{AreConditionsOf, IsConditionOf};

use crate::query::Query;
use query_eval::{Condition, bound_truth, condition_truth_at, mark_conditions};
use query_resolve::FilteredFunction;
use query_typecheck::{Resolved, filters_law};
use std::alloc::AllocError;
use std::marker::Model;
use values::{Record, Schema, Truth, Value};

/// A query that is typed under the schema that it holds, with what its names stand for there.
/// Contracts see it as that query and the columns of that schema. Only `check` makes one.
///
/// Example: the plan of `SELECT shop, COUNT(*) FROM lines GROUP BY shop` under the columns
/// `shop:text,cents:int` has the one grouping set of the place 0, and one set function.
pub struct Plan {
    query: Query,
    schema: Schema,
    resolved: Resolved,
    condition: Option<Condition>,
    filters: Vec<Condition>,
    ghost typed: { ∥ IsTyped schema query ∥₁ },
    ghost resolution: { ∥ resolved ≡ resolution_of schema query ∥₁ },
    ghost condition_is: { ∥ IsConditionOf schema query.where_condition condition ∥₁ },
    ghost filters_are: { ∥ AreConditionsOf schema (filters_of schema query) filters.items ∥₁ },
}

impl Model for Plan {
    ghost use Rattle.query_plan.specs.Planned.{PlannedQuery, plan_of};
    ghost use Rattle.query_plan.specs.Coding.{coded_planned};

    ghost Value = { PlannedQuery };

    ghost coded = { coded_planned };

    ghost view = { λ p. plan_of p.schema p.query };
}

// A function of its own: a derived one is written out, and proved, wherever a plan is given up.
impl Drop for Plan {
    fn drop(self) {
        let Plan {
            query,
            schema,
            resolved,
            condition,
            filters,
        } = self;
        drop(query);
        drop(schema);
        drop(resolved);
        drop(condition);
        drop(filters);
    }
}

impl Plan {
    ghost use Rattle.std.specs.Prelude.{◌<◌, List, length, map, true, IfOk, OnOk};
    ghost use Rattle.std.specs.List.{list_all};
    ghost use Rattle.semantics.specs.Values.{Datum};
    ghost use Rattle.values.specs.Datum.{data_of};
    ghost use Rattle.semantics.specs.Records.{Fits};
    ghost use Rattle.query_resolve.specs.Resolution.{contents};
    ghost use Rattle.semantics.specs.Sets.{grouping_places, sets_of};
    ghost use Rattle.query_resolve.specs.Functions.{filter_at, filters_of, indexed_functions};
    ghost use Rattle.semantics.specs.SetFunctions.{functions_of};
    ghost use Rattle.semantics.specs.Conditions.{passes, record_value, where_truth, truth};
    ghost use Rattle.query_eval.specs.Meaning.{condition_truth, is_safe};

    /// The plan of a query that is typed under a schema, of what it is resolved to there, and of
    /// the conditions of its WHERE and of its different filters.
    pub(crate) fn new(
        query: Query,
        schema: Schema,
        resolved: Resolved,
        condition: Option<Condition>,
        filters: Vec<Condition>,
    ) -> Plan
        requires typed { IsTyped schema query }
        requires resolution { resolved ≡ resolution_of schema query }
        requires condition { IsConditionOf schema query.where_condition condition }
        requires filters { AreConditionsOf schema (filters_of schema query) filters.items }
        ensures query { result.query ≡ query }
        ensures schema { result.fields ≡ schema }
    {
        Plan {
            query,
            schema,
            resolved,
            condition,
            filters,
        }
    }

    /// The schema that the plan was made under.
    pub fn schema(&self) -> &Schema
        ensures schema { result.now ≡ self.now.fields }
    {
        &self.schema
    }

    /// The query that the plan was made of. It is typed under the schema.
    pub fn query(&self) -> &Query
        ensures query { result.now ≡ self.now.query }
        ensures typed { ∥ IsTyped self.now.fields self.now.query ∥₁ }
    {
        &self.query
    }

    /// The grouping sets, each as the places of its columns in the schema, from 0, in the order in
    /// which GROUP BY first names them; under GROUP BY DISTINCT without each set that has the same
    /// columns as an earlier one. Without GROUP BY it is the one empty set. ISO/IEC 9075-2
    /// `<group by clause>`.
    ///
    /// Example: under the columns `d:text,r:text` `GROUP BY CUBE (d, r)` has four: that of the
    /// places 0 and 1, that of 0, that of 1, and the empty one.
    pub fn sets(&self) -> &[Vec<usize>]
        ensures sets { contents result.now ≡ sets_of self.now.fields self.now.query }
    {
        self.resolved.sets()
    }

    /// The grouping columns, by their places in the schema, from 0, in the order in which GROUP BY
    /// first names them.
    ///
    /// Example: under the columns `d:text,r:text` they are 1 and 0 for `GROUP BY r, CUBE (d)`.
    pub fn grouping(&self) -> &[usize]
        ensures grouping { result.now ≡ grouping_places self.now.fields self.now.query }
    {
        self.resolved.grouping()
    }

    /// The number of the different set functions, 0 to 64, of which each is named by its place,
    /// from 0, in the order in which they first stand in SELECT, HAVING and ORDER BY.
    ///
    /// Example: it is 2 for `SELECT COUNT(*), SUM(q) FROM lines HAVING COUNT(*) > 1`.
    pub fn functions(&self) -> usize
        ensures count { result ≡ length (functions_of self.now.fields self.now.query) }
    {
        self.set_functions().len()
    }

    /// The different set functions, in the order in which they first stand in SELECT, HAVING and
    /// ORDER BY, each with the index of its FILTER among the different filters, ISO/IEC 9075-2
    /// `<aggregate function>`.
    ///
    /// Example: under the columns `q:int` that of `SELECT SUM(q) FILTER (WHERE q > 2) FROM lines`
    /// is the function `Sum(0)` with the filter `Some(0)`.
    pub fn set_functions(&self) -> &[FilteredFunction]
        ensures functions { result.now ≡ indexed_functions self.now.fields self.now.query }
    {
        self.resolved.functions()
    }

    /// Marks which of the different filters are True for a record, in the order in which they first
    /// stand; what the marks were is forgotten, and their memory is used again. It asks that the
    /// record fits the schema.
    ///
    /// Example: of `SELECT COUNT(*) FILTER (WHERE q > 2), COUNT(*) FILTER (WHERE NOT q > 2) FROM
    /// lines` the marks are `true` and `false` where q is 5, and both are `false` where q is NULL.
    ///
    /// # Errors
    ///
    /// `AllocError` where there is no memory for the marks; without FILTER there are none.
    pub fn mark_filters(&self, record: &Record, marks: &mut Vec<bool>) -> Result<(), AllocError>
        requires { Fits self.now.fields «record».now }
        ensures marks { OnOk result (marks.new.items
            ≡ map (λ p. passes self.now.fields p «record».now)
            (filters_of self.now.fields self.now.query)) }
    {
        mark_conditions(self.conditions(), record.values(), marks)
    }

    /// The conditions of the different filters, in the order in which they first stand.
    fn conditions(&self) -> &[Condition]
        ensures worth { (values : List Datum)
            → map (λ c. condition_truth c values) result.now
            ≡ map (truth (record_value self.now.fields values))
            (filters_of self.now.fields self.now.query) }
        ensures safe { (values : List Datum) → Fits self.now.fields values
            → list_all (λ is_safe. is_safe values) (map is_safe result.now) ≡ true }
    {
        filters_law();
        self.filters.as_slice()
    }

    /// The truth value of the FILTER of the set function at a place, for the values of a record
    /// that fits the schema.
    pub(crate) fn filter_truth(&self, place: usize, values: &[Value]) -> Truth
        requires place { place < length (functions_of self.now.fields self.now.query) }
        requires fits { Fits self.now.fields (data_of values.now) }
        ensures { result ≡ where_truth self.now.fields
            (filter_at self.now.fields self.now.query place) (data_of values.now) }
    {
        filters_law();
        match self.set_functions()[place].filter {
            Some(index) => condition_truth_at(self.conditions(), index, values),
            None => Truth::True,
        }
    }

    /// The truth value of WHERE for the values of a record that fits the schema.
    pub(crate) fn where_truth(&self, values: &[Value]) -> Truth
        requires { Fits self.now.fields (data_of values.now) }
        ensures { result
            ≡ where_truth self.now.fields self.now.query.where_condition (data_of values.now) }
    {
        bound_truth(&self.condition, values)
    }
}
