//! Lists, with commas.

ghost use Rattle.std.specs.Prelude.{◌≡◌, ◌++◌, ℕ, List, map, OnOk, string_bytes};
ghost use Rattle.semantics.specs.Canonical.{comma_list};

use std::alloc::AllocError;

/// What is written in lists.
pub(crate) trait Written {
    ghost Form: { Type 0 };

    ghost form: { Self → Form };

    ghost text: { Form → List ℕ };

    /// Writes it at the end.
    fn write(&self, out: &mut String) -> Result<(), AllocError>
        ensures { OnOk result (string_bytes out.new
            ≡ string_bytes out.old ++ text (form self.now)) };
}

/// Writes a list at the end, with commas.
pub(crate) fn write_list<T: Written>(out: &mut String, list: &[T]) -> Result<(), AllocError>
    ensures { OnOk result (string_bytes out.new
        ≡ string_bytes out.old ++ comma_list (map T.text (map T.form list.now))) }
{
    let [first, others @ ..] = list else {
        return Ok(());
    };
    first.write(out)?;
    for item in others {
        out.push_str(", ")?;
        item.write(out)?;
    }
    Ok(())
}
