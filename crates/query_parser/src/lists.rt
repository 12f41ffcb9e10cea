//! Reads lists, whose parts stand with commas between them.

ghost use Rattle.std.specs.Prelude.{◌≡◌, ◌<◌, ◌≤◌, ◌∷◌, [], Bool, List, length, map, IfOk};
ghost use Rattle.semantics.specs.declared.token.Token.{Token};
ghost use Rattle.semantics.specs.declared.token.Sign.TheVariants.{Comma};
ghost use Rattle.query_parser.specs.Inside.Fronts.{is_sign};
ghost use Rattle.query_parser.specs.Inside.Steps.{Gives, Reader, excess, with_front, more};
ghost use Rattle.query_parser.specs.Inside.Stops.{fault_of};

use crate::fault::GrammarFault;
use crate::fronts::{after_sign, unexpected_fault};
use query_lexer::{Sign, Token};
use std::alloc::Global;

/// What stands in a list, with commas between its parts, and how a part is read.
///
/// Example: the parts of `Names` are names. Of the tokens of `shop, cents` `begins` is true, and
/// `read` answers `shop` and the tokens of `, cents`.
pub(crate) trait Listed {
    /// A part, as the tree holds it.
    type Part: Drop;

    ghost Form: { Type 0 };

    ghost form: { Self.Part → Form };

    ghost reader: { Reader Form };

    ghost front: { List Token → Bool };

    /// Whether a part begins in front of these tokens. Where a list has as many parts as it may
    /// have, this decides which fault another one is.
    fn begins(tokens: &[Token]) -> bool
        ensures { result ≡ front tokens.now };

    /// A part, and what stands behind it.
    ///
    /// # Errors
    ///
    /// `Unexpected` or `OverLimit` where no part within the limits stands in front; `OutOfMemory`
    /// where there is no memory for it.
    fn read(alloc: Global, tokens: &[Token]) -> Result<(Self::Part, &[Token]), GrammarFault>
        ensures exact { Gives (λ x. (form x.0, x.1.now)) result (reader tokens.now) }
        ensures shorter { IfOk result (λ x. length x.1.now < length tokens.now) };
}

/// The fault of a part too many: the limit where one begins, else the token.
fn excess<L: Listed>(tokens: &[Token]) -> GrammarFault
    ensures { result ≡ fault_of (excess L.front tokens.now) }
{
    if L::begins(tokens) {
        return GrammarFault::OverLimit;
    }
    unexpected_fault(tokens)
}

/// The first part of a list, which is read already, and those behind it, each behind its comma,
/// with at most so many others; and what stands behind the list.
///
/// Example: of the first name `shop`, the tokens of `, cents FROM lines` and at most 1 other,
/// `more_parts::<Names>` answers `shop` and `cents`, and the tokens of `FROM lines`; of those of
/// `, cents, day` it answers `OverLimit`.
///
/// # Errors
///
/// `OverLimit` where a part too many begins behind a comma, and `Unexpected` where anything else
/// stands there; before that each fault of a part, as `read` answers it; `OutOfMemory` where there
/// is no memory for the list.
pub(crate) fn more_parts<L: Listed>(
    alloc: Global,
    first: L::Part,
    tokens: &[Token],
    most_others: usize,
) -> Result<(Vec<L::Part>, &[Token]), GrammarFault>
    ensures exact { Gives (λ x. (map L.form x.0.items, x.1.now)) result (with_front
        (L.form first ∷ []) (more (is_sign Comma) L.front L.reader most_others tokens.now)) }
    ensures shorter { IfOk result (λ x. length x.1.now ≤ length tokens.now) }
{
    let mut all = Vec::new(alloc);
    all.push(first)?;
    let mut rest = tokens;
    while let Some(behind) = after_sign(rest, Sign::Comma) {
        if all.len() > most_others {
            return Err(excess::<L>(behind));
        }
        let (next, left) = L::read(alloc, behind)?;
        all.push(next)?;
        rest = left;
    }
    Ok((all, rest))
}
