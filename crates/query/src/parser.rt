//! Reading a query.

ghost use Rattle.std.specs.Prelude.{◌≡◌, ◌<◌, ◌≤◌, ◌-◌, ◌⊎◌, [], ◌∷◌, ◌++◌, ℕ, Err, IfErr, IfOk, MatchResult, Some, length, slice_get, vec_len};
ghost use Rattle.semantics.specs.declared.query_fault.QueryFault.TheVariants.{OutOfMemory, OverLimit};
ghost use Rattle.semantics.specs.Syntax as syntax;
ghost use Rattle.semantics.specs.Reading.{Derives, IsRefusalOf, Refuses};
ghost use Rattle.semantics.specs.Limits.{max_query_len};

use query_lexer::{TokenFault, Tokens, read_tokens};
use query_parser::{GrammarFault, read_query};
use query_plan::Query;
use semantics::QueryFault;
use std::alloc::Global;

/// The most bytes of a query.
const MAX_BYTES: usize = 65_536;

/// Reads a query: the one that the text derives, ISO/IEC 9075-2 `<query specification>` with its
/// `<order by clause>`, in the profile of `docs/LANGUAGE.md`.
///
/// Example: `parse(alloc, "SELECT COUNT(*) FROM table1")` answers `Unexpected(21)`, and
/// `parse(alloc, "SELECT COUNT(*) AS n FROM lines;")` answers `NoToken(31)`.
///
/// # Errors
///
/// `OverLimit` for a text of more than 65,536 bytes, before anything else. Then the whole text has
/// to spell tokens: `NoToken` names the byte where none begins, from 0. Then `Unexpected` names the
/// byte of the first token that does not continue a query, or the length of the text where its end
/// does not; where the tokens before it are more than the limits allow, the fault is `OverLimit`.
/// `OutOfMemory` says nothing of the text.
#[tactic(auto, using(crate::proofs::Places::unexpected_at, crate::proofs::Places::too_much))]
pub fn parse(alloc: Global, text: &str) -> Result<Query, QueryFault>
    // What is read is derived.
    ensures derived { IfOk result (λ query. Derives text.now query) }
    // What is derived is read, and no other, unless memory runs out.
    ensures read { (q : syntax.Query) → Derives text.now q
        → MatchResult result (λ query. query ≡ q) (λ fault. fault ≡ OutOfMemory) }
    // A text that is too long has no other fault.
    ensures too_long { max_query_len < length text.now → result ≡ Err OverLimit }
    // A fault is one of the text, or memory ran out.
    ensures refused { IfErr result (λ fault. (fault ≡ OutOfMemory) ⊎ IsRefusalOf text.now fault) }
    // A fault of the text is told, and no other, unless memory runs out.
    ensures told { (fault : QueryFault) → IsRefusalOf text.now fault → Refuses result fault }
{
    if text.len() > MAX_BYTES {
        return Err(QueryFault::OverLimit);
    }
    let tokens = match read_tokens(alloc, text) {
        Ok(tokens) => tokens,
        Err(TokenFault::NoToken(byte)) => return Err(QueryFault::NoToken(byte)),
        Err(TokenFault::OutOfMemory) => return Err(QueryFault::OutOfMemory),
    };
    match read_query(alloc, tokens.all.as_slice()) {
        Ok(tree) => Ok(Query::new(tree)),
        Err(GrammarFault::Unexpected(left)) => {
            let byte = start_of_last(&tokens, left, text.len());
            Err(QueryFault::Unexpected(byte))
        }
        Err(GrammarFault::OverLimit) => Err(QueryFault::OverLimit),
        Err(GrammarFault::OutOfMemory) => Err(QueryFault::OutOfMemory),
    }
}

/// The byte where the first of the last so many tokens begins, or the end where there is none.
#[tactic(auto, using(crate::proofs::Places::place_before, crate::proofs::Places::place_last))]
fn start_of_last(tokens: &Tokens, count: usize, end: usize) -> usize
    requires { count ≤ vec_len tokens.now.starts }
    ensures { slice_get (tokens.now.starts.items ++ end ∷ []) (vec_len tokens.now.starts - count)
        ≡ Some result }
{
    let place = tokens.starts.len() - count;
    match tokens.starts.get(place) {
        Some(byte) => *byte,
        None => end,
    }
}
