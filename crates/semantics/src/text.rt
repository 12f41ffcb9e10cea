//! Names and texts.

ghost use Rattle.std.specs.Prelude.{◌≡◌, string_bytes, IfOk};

use std::alloc::AllocError;
use std::marker::Model;

/// A name or a text, which contracts see as its bytes in UTF-8.
///
/// Example: the name `"my column"` of a query is the text `my column`, without its quotes.
#[derive(Debug, Drop)]
pub struct Text {
    text: String,
}

impl Model for Text {
    ghost use Rattle.std.specs.Prelude.{List, ℕ, string_bytes};

    ghost Value = { List ℕ };

    ghost view = { λ t. string_bytes t.text };
}

impl Text {
    /// The text of a string. It takes no memory.
    ///
    /// Example: `Text::from_string(name).as_str()` has the characters of `name`.
    pub fn from_string(text: String) -> Text
        ensures { result ≡ string_bytes text }
    {
        Text { text }
    }

    /// The characters.
    pub fn as_str(&self) -> &str
        ensures { result.now ≡ self.now }
    {
        self.text.as_str()
    }

    /// The same text again, in memory of its own.
    ///
    /// Example: `text.try_clone()?.as_str()` has the characters of `text.as_str()`.
    ///
    /// # Errors
    ///
    /// `AllocError` where there is no memory for it.
    pub fn try_clone(&self) -> Result<Text, AllocError>
        ensures { IfOk result (λ t. t ≡ self.now) }
    {
        Ok(Text {
            text: self.text.clone()?,
        })
    }
}

impl PartialEq for Text {
    ghost use Rattle.std.specs.Str.{bytes_eq};
    ghost use Rattle.std.proofs.Common.{rules};
    ghost use Rattle.std.specs.Cmp.Rules.{comparing};

    ghost eq = { λ text other. bytes_eq text other };

    ghost laws = { Prim.search (comparing, rules) };

    /// Whether the characters are the same.
    fn eq(&self, other: &Text) -> bool {
        self.as_str() == other.as_str()
    }
}
