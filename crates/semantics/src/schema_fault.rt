//! Why a text is no schema.

use thiserror::Error;

/// Why a text is no schema. A part is what stands between commas; parts are numbered from 1.
///
/// Example: of the text `shop:text,shop:int` it is `RepeatedName(2)`.
#[derive(Clone, Copy, Debug, PartialEq, Eq, Error)]
pub enum SchemaFault {
    /// The text is empty.
    #[error("schema: empty")]
    Empty,
    /// What stands before the first colon of the part with this number (all of it, where there is
    /// none) is no name: as of `2nd:int`, or of a part with a space in front.
    #[error("schema: column {0} has a bad name")]
    BadName(usize),
    /// The part with this number has no colon, or what follows its first colon is not `int`, `text`
    /// or `bool`, in small letters.
    #[error("schema: column {0} has no known type")]
    UnknownType(usize),
    /// An earlier part has the same name as the part with this number.
    #[error("schema: column {0} repeats a name")]
    RepeatedName(usize),
    /// There is a thirty-third part, and those before it have no fault.
    #[error("schema: more than 32 columns")]
    TooManyColumns,
    /// Memory was refused. This says nothing of the text.
    #[error("out of memory")]
    OutOfMemory,
}
