//! Texts that are made in parts, each on a thread of its own.

ghost use Rattle.std.specs.Prelude.{◌≡◌, ◌++◌, IfOk, OnOk};
ghost use Rattle.std.specs.List.{flat_map};
ghost use Rattle.report_rows.specs.Parts.{AreMade, items_of};

use std::alloc::AllocError;

/// A list with these parts behind it, one after the other, where each of them was made.
///
/// Example: of the list 1 and the parts 2, 3 and 4 it answers 1, 2, 3, 4.
///
/// # Errors
///
/// `AllocError` where a part was not made, or there is no memory for the list.
pub(crate) fn join_parts<T: Drop>(
    list: Vec<T>,
    parts: Vec<Result<Vec<T>, AllocError>>,
) -> Result<Vec<T>, AllocError>
    ensures made { OnOk result (AreMade parts.items) }
    ensures items { IfOk result (λ whole.
        whole.items ≡ list.items ++ flat_map items_of parts.items) }
{
    let mut whole = list;
    whole.reserve(items_in(parts.as_slice()))?;
    for part in parts {
        let mut part = part?;
        whole.append(&mut part)?;
    }
    Ok(whole)
}

/// How many items the parts have together that were made.
fn items_in<T: Drop>(parts: &[Result<Vec<T>, AllocError>]) -> usize {
    let mut count: usize = 0;
    for part in parts {
        if let Ok(part) = part {
            count = count.saturating_add(part.len());
        }
    }
    count
}
