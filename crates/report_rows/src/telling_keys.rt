//! Which keys of ORDER BY stand in the codes of rows.
//!
//! A key that has the values of an earlier key tells no rows apart that the earlier one does not. A
//! code ends with the values of the group's key: where there is one grouping set, keys that say the
//! same as the first of these values need not stand in front of them. The order is the same without
//! either.

ghost use Rattle.std.specs.Prelude.{◌≡◌, ◌<◌, ℕ, true, false, IfOk, OnOk, map};
ghost use Rattle.values.specs.Datum.{datum_of};
ghost use Rattle.query_ast.specs.Syntax.{key_form};
ghost use Rattle.report_rows.specs.Inside.SortEntries.{AreEnough, AreTelling, are_default_behind, are_default_from, are_same_sources, coded_form, is_always, is_cell_at, is_default_at, is_first_at, is_key_at, is_repeated, is_same_source, with_key};

use crate::coded_key::CodedKey;
use crate::source::{ValueSource, expression_sources};
use crate::view::PlanView;
use query_plan::Key;
use query_typecheck::key_expression;
use std::alloc::{AllocError, Global};
use values::Value;

/// The keys of ORDER BY that stand in codes, in their order. With several grouping sets the last
/// keys do, whatever they say, since the index of a set stands in front of the group's key.
///
/// Example: under GROUP BY a, b none does for ORDER BY a, b, and one for ORDER BY COUNT(*) DESC,
/// COUNT(*), a.
pub(crate) fn coded_keys<'p>(
    alloc: Global,
    plan: &'p PlanView<'_>,
) -> Result<Vec<CodedKey<'p>>, AllocError>
    ensures { IfOk result (λ keys.
        AreEnough (map coded_form keys.items) plan.now.fields plan.now.query) }
{
    let mut keys = telling_keys(alloc, plan)?;
    if plan.sets().len() != 1 {
        return Ok(keys);
    }
    let count = keys_in_front(keys.as_slice());
    keys.truncate(count);
    Ok(keys)
}

// ---- keys that have the values of an earlier one

/// The keys of ORDER BY without those that have the values of an earlier one.
fn telling_keys<'p>(alloc: Global, plan: &'p PlanView<'_>) -> Result<Vec<CodedKey<'p>>, AllocError>
    ensures { IfOk result (λ keys.
        AreTelling (map coded_form keys.items) plan.now.query.keys
        plan.now.fields plan.now.query) }
{
    let items = plan.query().tree().items.as_slice();
    let keys = plan.query().tree().keys.as_slice();
    let mut kept = Vec::new(alloc);
    for key in keys {
        let expression = key_expression(items, &key.expression);
        let sources = expression_sources(alloc, plan, expression)?;
        keep_key(&mut kept, key, sources)?;
    }
    Ok(kept)
}

/// Puts a key of ORDER BY, for which rows have their values at these sources, behind others, unless
/// it has the values of one of them.
fn keep_key<'p>(
    kept: &mut Vec<CodedKey<'p>>,
    key: &'p Key,
    sources: Vec<ValueSource>,
) -> Result<(), AllocError>
    ensures { OnOk result (map coded_form kept.new.items
        ≡ with_key (map coded_form kept.old.items) (key_form key.now, sources.items)) }
{
    if is_repeated(kept.as_slice(), sources.as_slice()) {
        return Ok(());
    }
    kept.push(CodedKey { key, sources })?;
    Ok(())
}

/// Whether rows have their values for one of these keys at these sources.
fn is_repeated(keys: &[CodedKey<'_>], sources: &[ValueSource]) -> bool
    ensures { result ≡ is_repeated (map coded_form keys.now) sources.now }
{
    for key in keys {
        if are_same(key.sources.as_slice(), sources) {
            return true;
        }
    }
    false
}

/// Whether these are the same sources, one by one.
fn are_same(first: &[ValueSource], second: &[ValueSource]) -> bool
    ensures { result ≡ are_same_sources first.now second.now }
{
    if first.len() != second.len() {
        return false;
    }
    for (place, source) in first.iter().enumerate() {
        if !is_same(source, &second[place]) {
            return false;
        }
    }
    true
}

/// Whether two sources are the same.
fn is_same(first: &ValueSource, second: &ValueSource) -> bool
    ensures { result ≡ is_same_source first.now second.now }
{
    match first {
        ValueSource::KeyAt(place) => is_key_at(*place, second),
        ValueSource::CellAt(place) => is_cell_at(*place, second),
        ValueSource::Always(value) => is_always(value, second),
    }
}

/// Whether a source is the value at a place of a group's key.
fn is_key_at(place: usize, source: &ValueSource) -> bool
    ensures { result ≡ is_key_at place source.now }
{
    match source {
        ValueSource::KeyAt(at) => *at == place,
        ValueSource::CellAt(_) | ValueSource::Always(_) => false,
    }
}

/// Whether a source is the cell at a place.
fn is_cell_at(place: usize, source: &ValueSource) -> bool
    ensures { result ≡ is_cell_at place source.now }
{
    match source {
        ValueSource::CellAt(at) => *at == place,
        ValueSource::KeyAt(_) | ValueSource::Always(_) => false,
    }
}

/// Whether a source is this value for all rows.
fn is_always(value: &Value, source: &ValueSource) -> bool
    ensures { result ≡ is_always (datum_of value.now) source.now }
{
    match source {
        ValueSource::Always(other) => value.order(other).is_eq(),
        ValueSource::KeyAt(_) | ValueSource::CellAt(_) => false,
    }
}

// ---- keys that say what the group's key says

/// How many keys are left without the last ones that are the beginning of the default order of one
/// grouping set: as few as can be.
fn keys_in_front(keys: &[CodedKey<'_>]) -> usize
    ensures behind { are_default_behind result (map coded_form keys.now) ≡ true }
    ensures fewest { (n : ℕ) → n < result
        → are_default_behind n (map coded_form keys.now) ≡ false }
{
    for count in 0..keys.len() {
        if are_default(&keys[count..]) {
            return count;
        }
    }
    keys.len()
}

/// Whether keys are the beginning of the default order of the first grouping set.
fn are_default(keys: &[CodedKey<'_>]) -> bool
    ensures { result ≡ are_default_from 0 (map coded_form keys.now) }
{
    for (place, key) in keys.iter().enumerate() {
        if !is_default_at(place, key) {
            return false;
        }
    }
    true
}

/// Whether a key ascends with NULL last, and the rows of the first grouping set have its value at a
/// place of a group's key.
fn is_default_at(place: usize, coded: &CodedKey<'_>) -> bool
    ensures { result ≡ is_default_at place (coded_form coded.now) }
{
    let key = coded.key;
    !key.descending && !key.nulls_first && is_first_at(place, coded.sources.as_slice())
}

/// Whether the first of these sources is the value at a place of a group's key.
fn is_first_at(place: usize, sources: &[ValueSource]) -> bool
    ensures { result ≡ is_first_at place sources.now }
{
    match sources.first() {
        Some(source) => is_key_at(place, source),
        None => false,
    }
}
