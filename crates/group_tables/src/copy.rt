//! Copies of values.

ghost use Rattle.std.specs.Prelude.{◌≡◌, IfOk};
ghost use Rattle.values.specs.Datum.{datum_of};

use std::alloc::AllocError;
use values::Value;

/// A copy of a value.
pub(crate) fn copy_of(value: &Value) -> Result<Value, AllocError>
    ensures { IfOk result (λ copy. datum_of copy ≡ datum_of value.now) }
{
    value.clone()
}
