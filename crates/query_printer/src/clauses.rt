//! The clauses of a query, the headers of its items, and the texts of grouping sets.

ghost use Rattle.std.specs.Prelude.{◌≡◌, ◌++◌, codes, IfOk, map, OnOk, string_bytes};
ghost use Rattle.std.specs.Option.{option_map};
ghost use Rattle.values.specs.Schema.{fields_of};
ghost use Rattle.semantics.specs.Canonical.{canonical_text, comma_list, direction_text, group_by_text, group_texts, header_text, item_text, key_text, list_clause, name_at, names_text, nulls_text, predicate_clause, set_text};
ghost use Rattle.query_ast.specs.Syntax.{element_form, item_form, key_form, predicate_form, tree_form};
ghost use Rattle.semantics.specs.Syntax.{element_forms};

use crate::groups::push_groups;
use crate::lists::{Written, write_list};
use crate::predicates::{push_expression, push_predicate};
use query_ast::{GroupingElement, Item, Key, Predicate, Tree};
use query_lexer::push_name;
use std::alloc::{AllocError, Global};
use values::{Column, Schema};

/// The canonical text of a query: keywords in capitals, one space where there is any, double quotes
/// round the names that need them, brackets only where they are needed, no ASC, and NULLS FIRST or
/// NULLS LAST only where it is not the default of its key.
///
/// Example: of the tree of `select shop, count(*) as n from lines group by shop` it answers
/// `SELECT shop, COUNT(*) AS n FROM lines GROUP BY shop`.
///
/// # Errors
///
/// `AllocError` where there is no memory for the text.
pub fn print_tree(alloc: Global, tree: &Tree) -> Result<String, AllocError>
    ensures { IfOk result (λ text. string_bytes text ≡ canonical_text (tree_form tree.now)) }
{
    let mut out = String::new(alloc);
    push_tree(&mut out, tree)?;
    Ok(out)
}

/// Writes a query at the end.
fn push_tree(out: &mut String, tree: &Tree) -> Result<(), AllocError>
    ensures { OnOk result (string_bytes out.new
        ≡ string_bytes out.old ++ canonical_text (tree_form tree.now)) }
{
    push_select(out, &tree.items)?;
    push_predicate_clause(out, " WHERE ", &tree.where_condition)?;
    push_group_by(out, tree.distinct_sets, &tree.groups)?;
    push_predicate_clause(out, " HAVING ", &tree.having_condition)?;
    push_order_by(out, &tree.keys)
}

/// Writes the items of a query at the end, and where it reads from.
fn push_select(out: &mut String, items: &[Item]) -> Result<(), AllocError>
    ensures { OnOk result (string_bytes out.new ≡ string_bytes out.old ++ (codes "SELECT "
        ++ comma_list (map item_text (map item_form items.now)) ++ codes " FROM lines")) }
{
    out.push_str("SELECT ")?;
    write_list(out, items)?;
    out.push_str(" FROM lines")
}

/// The header of an item: its alias, or the canonical text of its expression where it has none. An
/// alias stands without the double quotes of the query.
///
/// Example: the header of `count(*) AS "my count"` is `my count`, and that of `count(*)` is
/// `COUNT(*)`.
///
/// # Errors
///
/// `AllocError` where there is no memory for the text.
pub fn header(alloc: Global, item: &Item) -> Result<String, AllocError>
    ensures { IfOk result (λ text. string_bytes text ≡ header_text (item_form item.now)) }
{
    if let Some(alias) = &item.alias {
        return alias.as_str().to_string(alloc);
    }
    let mut out = String::new(alloc);
    push_expression(&mut out, &item.expression)?;
    Ok(out)
}

/// The text `(c1, c2)` of a grouping set, given by the places of its columns in the schema, from 0.
/// Its columns stand in the order of the places. A place that is beyond the schema has the empty
/// name.
///
/// Example: under the columns `shop:text,cents:int` the places 1 and 0 give `(cents, shop)`, and no
/// places give `()`.
///
/// # Errors
///
/// `AllocError` where there is no memory for the text.
pub fn set_text(alloc: Global, schema: &Schema, set: &[usize]) -> Result<String, AllocError>
    ensures { IfOk result (λ text. string_bytes text ≡ set_text schema.now set.now) }
{
    let mut out = String::new(alloc);
    out.push_str("(")?;
    push_columns(&mut out, schema.columns(), set)?;
    out.push_str(")")?;
    Ok(out)
}

/// The name of the column at a place, empty where there is none.
fn column_name(columns: &[Column], place: usize) -> &str
    ensures { result.now ≡ name_at (fields_of columns.now) place }
{
    match columns.get(place) {
        Some(column) => column.name.as_str(),
        None => "",
    }
}

/// Writes the names of columns at the end, with commas.
fn push_columns(out: &mut String, columns: &[Column], places: &[usize]) -> Result<(), AllocError>
    ensures { OnOk result (string_bytes out.new
        ≡ string_bytes out.old ++ names_text (map (name_at (fields_of columns.now)) places.now)) }
{
    let [first, others @ ..] = places else {
        return Ok(());
    };
    push_name(out, column_name(columns, *first))?;
    for place in others {
        out.push_str(", ")?;
        push_name(out, column_name(columns, *place))?;
    }
    Ok(())
}

/// An item: its expression, and its alias.
impl Written for Item {
    ghost use Rattle.semantics.specs.Syntax.{SelectItem};
    ghost use Rattle.query_ast.specs.Syntax.{item_form};
    ghost use Rattle.semantics.specs.Canonical.{item_text};

    ghost Form = { SelectItem };

    ghost form = { item_form };

    ghost text = { item_text };

    fn write(&self, out: &mut String) -> Result<(), AllocError> {
        push_expression(out, &self.expression)?;
        if let Some(alias) = &self.alias {
            out.push_str(" AS ")?;
            push_name(out, alias.as_str())?;
        }
        Ok(())
    }
}

/// DESC, where it is written.
fn direction_text(descending: bool) -> &'static str
    ensures { result.now ≡ direction_text descending }
{
    if descending { " DESC" } else { "" }
}

/// NULLS FIRST or NULLS LAST, where it is not the default of the direction.
fn nulls_text(descending: bool, nulls_first: bool) -> &'static str
    ensures { result.now ≡ nulls_text descending nulls_first }
{
    match (descending, nulls_first) {
        (true, true) | (false, false) => "",
        (true, false) => " NULLS LAST",
        (false, true) => " NULLS FIRST",
    }
}

/// A key. NULLS FIRST and NULLS LAST are written only where they are not the default.
impl Written for Key {
    ghost use Rattle.semantics.specs.Syntax.{SortKey};
    ghost use Rattle.query_ast.specs.Syntax.{key_form};
    ghost use Rattle.semantics.specs.Canonical.{key_text};

    ghost Form = { SortKey };

    ghost form = { key_form };

    ghost text = { key_text };

    fn write(&self, out: &mut String) -> Result<(), AllocError> {
        push_expression(out, &self.expression)?;
        out.push_str(direction_text(self.descending))?;
        out.push_str(nulls_text(self.descending, self.nulls_first))
    }
}

/// Writes a clause of one predicate at the end, where there is one.
fn push_predicate_clause(
    out: &mut String,
    keywords: &str,
    predicate: &Option<Predicate>,
) -> Result<(), AllocError>
    ensures { OnOk result (string_bytes out.new ≡ string_bytes out.old
        ++ predicate_clause keywords.now (option_map predicate_form predicate.now)) }
{
    match predicate {
        None => Ok(()),
        Some(predicate) => {
            out.push_str(keywords)?;
            push_predicate(out, predicate)
        }
    }
}

/// The keywords of GROUP BY, and DISTINCT where it is written.
fn group_by_text(distinct: bool) -> &'static str
    ensures { result.now ≡ group_by_text distinct }
{
    if distinct {
        " GROUP BY DISTINCT "
    } else {
        " GROUP BY "
    }
}

/// Writes GROUP BY at the end, where it has an element.
fn push_group_by(
    out: &mut String,
    distinct: bool,
    groups: &[GroupingElement],
) -> Result<(), AllocError>
    ensures { OnOk result (string_bytes out.new
        ≡ string_bytes out.old ++ list_clause (group_by_text distinct)
        (group_texts (element_forms (map element_form groups.now)))) }
{
    if groups.is_empty() {
        return Ok(());
    }
    out.push_str(group_by_text(distinct))?;
    push_groups(out, groups)
}

/// Writes ORDER BY at the end, where it has a key.
fn push_order_by(out: &mut String, keys: &[Key]) -> Result<(), AllocError>
    ensures { OnOk result (string_bytes out.new ≡ string_bytes out.old
        ++ list_clause (codes " ORDER BY ") (map key_text (map key_form keys.now))) }
{
    if keys.is_empty() {
        return Ok(());
    }
    out.push_str(" ORDER BY ")?;
    write_list(out, keys)
}
