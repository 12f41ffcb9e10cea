//! How a join of parts fails.

use crate::parts_fault::PartsFault;
use crate::run_fault::RunFault;
use thiserror::Error;

/// Why parts are not joined, and what was written before. Its text is what the program says of it.
///
/// Example: the text of `JoinFault::Run(RunFault::TooManyRefused(3))` is
/// `more than 3 refused lines`.
#[derive(Debug, PartialEq, Eq, Drop, Error)]
pub enum JoinFault {
    /// What was read is no parts of the columns and the query, one behind the other: this is the
    /// first fault. Nothing was written.
    #[error("{0}")]
    Parts(PartsFault),
    /// The join failed as a run does.
    #[error("{0}")]
    Run(RunFault),
}
