//! Reads a query.

ghost use Rattle.std.specs.Prelude.{◌≡◌, ◌<◌, ◌≤◌, ◌-◌, ℕ, Err, length, map, IfOk, MatchResult};
ghost use Rattle.std.specs.Option.{option_map};
ghost use Rattle.semantics.specs.Syntax.{Query};
ghost use Rattle.query_ast.specs.Syntax.{tree_form, element_form, item_form, key_form, predicate_form};
ghost use Rattle.query_parser.specs.declared.fault.GrammarFault.TheVariants.{OutOfMemory, OverLimit, Unexpected};
ghost use Rattle.semantics.specs.Grammar.{DerivesWithin};
ghost use Rattle.semantics.specs.Prefixes.{IsUnexpected, IsOverLimit};
ghost use Rattle.query_parser.specs.Inside.Steps.{Gives};
ghost use Rattle.query_parser.specs.Inside.QuerySteps.{from_at, clause_at, select_at, records_at, rows_at, query_at, whole_at};
ghost use Rattle.semantics.specs.Leaves.{language_limits};

use crate::fault::GrammarFault;
use crate::fronts::{after_word, expect_name, expect_word, unexpected_fault};
use crate::groups::groups;
use crate::items::items;
use crate::keep::keep;
use crate::keys::keys;
use crate::predicates::{MAX_LEVELS, predicate};
use query_ast::{GroupingElement, Item, Key, Predicate, Tree};
use query_lexer::{Token, Word};
use std::alloc::Global;

/// What stands behind FROM and the name `lines`.
#[tactic(auto, unfolding(crate::specs::Inside::QuerySteps::from_at))]
fn from_lines(tokens: &[Token]) -> Result<&[Token], GrammarFault>
    ensures exact { Gives (λ x. x.now) result (from_at tokens.now) }
    ensures shorter { IfOk result (λ x. length x.now < length tokens.now) }
{
    let source = expect_word(tokens, Word::From)?;
    let (name, rest) = expect_name(source)?;
    if name.as_str() == "lines" {
        return Ok(rest);
    }
    Err(unexpected_fault(source))
}

/// The predicate of WHERE or HAVING behind its word, none where it is not written.
#[tactic(auto, unfolding(crate::specs::Inside::QuerySteps::clause_at))]
fn clause(
    alloc: Global,
    tokens: &[Token],
    word: Word,
) -> Result<(Option<Predicate>, &[Token]), GrammarFault>
    ensures exact { Gives (λ x. (option_map predicate_form x.0, x.1.now)) result
        (clause_at language_limits word tokens.now) }
    ensures shorter { IfOk result (λ x. length x.1.now ≤ length tokens.now) }
{
    let Some(rest) = after_word(tokens, word) else {
        return Ok((None, tokens));
    };
    let (predicate, rest) = predicate(alloc, rest, MAX_LEVELS + 1)?;
    Ok((Some(predicate), rest))
}

/// The items of SELECT, and what stands behind FROM.
#[tactic(auto, unfolding(crate::specs::Inside::QuerySteps::select_at))]
fn select(alloc: Global, tokens: &[Token]) -> Result<(Vec<Item>, &[Token]), GrammarFault>
    ensures exact { Gives (λ x. (map item_form x.0.items, x.1.now)) result
        (select_at language_limits tokens.now) }
{
    let rest = expect_word(tokens, Word::Select)?;
    let (items, rest) = items(alloc, rest)?;
    keep(items, from_lines(rest))
}

/// WHERE and GROUP BY, which say of the records.
#[tactic(auto, unfolding(crate::specs::Inside::QuerySteps::records_at))]
fn records(
    alloc: Global,
    tokens: &[Token],
) -> Result<((Option<Predicate>, bool, Vec<GroupingElement>), &[Token]), GrammarFault>
    ensures exact { Gives (λ x.
        ((option_map predicate_form x.0.0, x.0.1, map element_form x.0.2.items), x.1.now))
        result (records_at language_limits tokens.now) }
{
    let (where_condition, rest) = clause(alloc, tokens, Word::Where)?;
    let (where_condition, (group_by, rest)) = keep(where_condition, groups(alloc, rest))?;
    let (distinct_sets, groups) = group_by;
    Ok(((where_condition, distinct_sets, groups), rest))
}

/// HAVING and ORDER BY, which say of the rows.
#[tactic(auto, unfolding(crate::specs::Inside::QuerySteps::rows_at))]
fn rows(
    alloc: Global,
    tokens: &[Token],
) -> Result<((Option<Predicate>, Vec<Key>), &[Token]), GrammarFault>
    ensures exact { Gives (λ x.
        ((option_map predicate_form x.0.0, map key_form x.0.1.items), x.1.now))
        result (rows_at language_limits tokens.now) }
{
    let (having_condition, rest) = clause(alloc, tokens, Word::Having)?;
    let (having_condition, (keys, rest)) = keep(having_condition, keys(alloc, rest))?;
    Ok(((having_condition, keys), rest))
}

/// A query in front, and what stands behind it.
#[tactic(auto, unfolding(crate::specs::Inside::QuerySteps::query_at))]
fn query(alloc: Global, tokens: &[Token]) -> Result<(Box<Tree>, &[Token]), GrammarFault>
    ensures exact { Gives (λ x. (tree_form x.0.value, x.1.now)) result
        (query_at language_limits tokens.now) }
{
    let (items, rest) = select(alloc, tokens)?;
    let (items, (records, rest)) = keep(items, records(alloc, rest))?;
    let ((items, records), (rows, rest)) = keep((items, records), rows(alloc, rest))?;
    let (where_condition, distinct_sets, groups) = records;
    let (having_condition, keys) = rows;
    let tree = Tree {
        items,
        where_condition,
        distinct_sets,
        groups,
        having_condition,
        keys,
    };
    Ok((Box::new(alloc, tree)?, rest))
}

/// The query that all of the tokens are.
#[tactic(auto, unfolding(crate::specs::Inside::QuerySteps::whole_at))]
fn whole(alloc: Global, tokens: &[Token]) -> Result<Box<Tree>, GrammarFault>
    ensures { Gives (λ tree. tree_form tree.value) result (whole_at language_limits tokens.now) }
{
    let (tree, rest) = query(alloc, tokens)?;
    if !rest.is_empty() {
        drop(tree);
        return Err(unexpected_fault(rest));
    }
    Ok(tree)
}

/// The query that all of the tokens derive, ISO/IEC 9075-2 `<query specification>` with its
/// `<order by clause>`, in the profile of `docs/LANGUAGE.md`.
///
/// Example: of the tokens of `SELECT COUNT(*) FROM lines` it answers a tree of one item; of those
/// of `SELECT COUNT(*) FROM lines LIMIT 3` it answers `Unexpected(2)`.
///
/// # Errors
///
/// `Unexpected` with the number of the tokens that are left where the first of them does not
/// continue a query, 0 where the end does not; `OverLimit` where some tokens in front begin a query
/// that does not keep the limits; `OutOfMemory`, which says nothing of the tokens.
pub fn read_query(alloc: Global, tokens: &[Token]) -> Result<Box<Tree>, GrammarFault>
    // What is read is derived.
    ensures derived { IfOk result (λ tree.
        DerivesWithin language_limits tokens.now (tree_form tree.value)) }
    // What is derived is read, and no other, unless memory runs out.
    ensures read { (q : Query) → DerivesWithin language_limits tokens.now q
        → MatchResult result (λ tree. tree_form tree.value ≡ q) (λ fault. fault ≡ OutOfMemory) }
    // A token that is not expected, or the end, continues no query.
    ensures unexpected { (left : ℕ) → result ≡ Err (Unexpected left)
        → IsUnexpected tokens.now (length tokens.now - left) }
    // Such a token is among those that are there, or it is the end.
    ensures within { (left : ℕ) → result ≡ Err (Unexpected left) → left ≤ length tokens.now }
    // Where it is too much, some tokens in front begin a query that does not keep the limits.
    ensures over_limit { result ≡ Err OverLimit → IsOverLimit tokens.now }
{
    whole(alloc, tokens)
}
