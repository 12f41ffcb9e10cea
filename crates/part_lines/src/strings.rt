//! Texts as strings of JSON.

ghost use Rattle.std.specs.Prelude.{◌≡◌, IfOk, IsTrue};
ghost use Rattle.json.specs.Print.{escape, quoted};

use json::Writer;
use lines_json::is_plain;
use std::alloc::{AllocError, Global};

/// A text as a string of JSON (RFC 8259, section 7), with the shortest escapes.
///
/// It stands in memory of its own, since a writer clears memory ahead of what it writes.
pub(crate) fn json_string(alloc: Global, text: &str) -> Result<Vec<u8>, AllocError>
    ensures { IfOk result (λ string. string.items ≡ quoted text.now) }
{
    let mut writer = Writer::new(Vec::with_capacity(alloc, text.len().saturating_mul(2))?);
    writer.string(text)?;
    Ok(writer.into_inner())
}

/// Whether a text is its own content as a string of JSON, since nothing of it has to be escaped;
/// `false` says nothing of the text.
pub(crate) fn has_no_escape(text: &str) -> bool
    ensures { IsTrue result → escape text.now ≡ text.now }
{
    is_plain(text.as_bytes())
}
