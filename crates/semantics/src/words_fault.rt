//! Why the words of a command line are refused.

ghost use Rattle.std.specs.Prelude.{◌≡◌};
ghost use Rattle.semantics.specs.declared.words_fault.WordsFault.TheVariants as fault;

use clap::Error;
use std::convert::From;

/// Why there are no settings.
///
/// Example: `--workers 65` among words that are good otherwise is `Range`; `--piece x` among them
/// is `Clap`.
#[derive(Debug, Drop, thiserror::Error)]
pub enum WordsFault {
    /// What `clap` answers in place of settings. Its kind says which it is: a refusal, help,
    /// the version, or want of memory.
    #[error("{0}")]
    Clap(Error),
    /// The number of workers or the size of a piece is none that `Options::new` takes.
    #[error("a number is out of range")]
    Range,
    /// A word is not UTF-8. Only the program itself meets it, before the words are read.
    #[error("a word is not UTF-8")]
    NotUtf8,
}

impl From<Error> for WordsFault {
    ghost from_gives = { λ error given. given ≡ fault.Clap error };

    fn from(error: Error) -> WordsFault {
        WordsFault::Clap(error)
    }
}
