//! Lists that grow.

ghost use Rattle.std.specs.Prelude.{◌≡◌, ◌+◌, [], ◌∷◌, ◌++◌, OnOk, vec_len};

use std::alloc::AllocError;

/// Puts a value behind all others.
pub fn put_last<T: Drop>(all: &mut Vec<T>, last: T) -> Result<(), AllocError>
    ensures items { OnOk result (all.new.items ≡ all.old.items ++ last ∷ []) }
    ensures len { OnOk result (vec_len all.new ≡ vec_len all.old + 1) }
{
    if all.push(last).is_err() {
        return Err(AllocError);
    }
    Ok(())
}
