//! Why the program ends without what it was asked for.

ghost use Rattle.std.specs.Prelude.{◌≡◌};
ghost use Rattle.semantics.specs.declared.ending.Ending.TheVariants as ending;
ghost use Rattle.semantics.specs.Serving.{join_status, query_status, run_status, schema_status, status_of};

use crate::join_fault::JoinFault;
use crate::query_fault::QueryFault;
use crate::run_fault::RunFault;
use crate::schema_fault::SchemaFault;
use crate::words_fault::WordsFault;
use thiserror::Error;

/// Why the program ends without what it was asked for. Its text is what the program says of it on
/// standard error, but of words that `clap` refuses, whose text is that of `clap`.
///
/// Example: the text of `Ending::NotOpened` is `cannot open the file`, and its status is 3.
#[derive(Debug, Drop, Error)]
pub enum Ending {
    /// The words of the command line are refused.
    #[error("{0}")]
    Words(WordsFault),
    /// The columns are refused.
    #[error("{0}")]
    Schema(SchemaFault),
    /// The query is refused.
    #[error("{0}")]
    Query(QueryFault),
    /// The file is not there, or may not be read, or there was no memory to open it.
    #[error("cannot open the file")]
    NotOpened,
    /// The run failed, or a text that was asked for in its place was not written.
    #[error("{0}")]
    Run(RunFault),
    /// The join failed.
    #[error("{0}")]
    Join(JoinFault),
}

impl Ending {
    /// Want of memory.
    pub const OUT_OF_MEMORY: Ending = Ending::Run(RunFault::OutOfMemory);

    /// The status that the program ends with, 2 to 6.
    ///
    /// Example: of `Ending::Run(RunFault::TooManyRefused(0))` it is 5.
    pub fn status(&self) -> u8
        ensures { result ≡ status_of self.now }
    {
        match self {
            Ending::Words(_) => 2,
            Ending::Schema(fault) => status_of_schema(fault),
            Ending::Query(fault) => status_of_query(fault),
            Ending::NotOpened => 3,
            Ending::Run(fault) => status_of_run(fault),
            Ending::Join(fault) => status_of_join(fault),
        }
    }
}

impl From<SchemaFault> for Ending {
    ghost from_gives = { λ fault given. given ≡ ending.Schema fault };

    fn from(fault: SchemaFault) -> Ending {
        Ending::Schema(fault)
    }
}

impl From<QueryFault> for Ending {
    ghost from_gives = { λ fault given. given ≡ ending.Query fault };

    fn from(fault: QueryFault) -> Ending {
        Ending::Query(fault)
    }
}

impl From<RunFault> for Ending {
    ghost from_gives = { λ fault given. given ≡ ending.Run fault };

    fn from(fault: RunFault) -> Ending {
        Ending::Run(fault)
    }
}

impl From<JoinFault> for Ending {
    ghost from_gives = { λ fault given. given ≡ ending.Join fault };

    fn from(fault: JoinFault) -> Ending {
        Ending::Join(fault)
    }
}

/// The status where the columns are refused.
fn status_of_schema(fault: &SchemaFault) -> u8
    ensures { result ≡ schema_status fault.now }
{
    match fault {
        SchemaFault::Empty
        | SchemaFault::BadName(_)
        | SchemaFault::UnknownType(_)
        | SchemaFault::RepeatedName(_)
        | SchemaFault::TooManyColumns => 2,
        SchemaFault::OutOfMemory => 4,
    }
}

/// The status where the query is refused.
fn status_of_query(fault: &QueryFault) -> u8
    ensures { result ≡ query_status fault.now }
{
    match fault {
        QueryFault::NoToken(_)
        | QueryFault::Unexpected(_)
        | QueryFault::UnknownColumn(_)
        | QueryFault::TypesDisagree
        | QueryFault::NotGrouped(_)
        | QueryFault::OverLimit
        | QueryFault::FunctionNotAllowed
        | QueryFault::RepeatedHeader(_) => 2,
        QueryFault::OutOfMemory => 4,
    }
}

/// The status where a run fails.
fn status_of_run(fault: &RunFault) -> u8
    ensures { result ≡ run_status fault.now }
{
    match fault {
        RunFault::Reading
        | RunFault::WritingReport
        | RunFault::WritingRefused
        | RunFault::WritingPart => 3,
        RunFault::OutOfMemory | RunFault::ThreadNotStarted => 4,
        RunFault::TooManyRefused(_) => 5,
    }
}

/// The status where a join fails.
fn status_of_join(fault: &JoinFault) -> u8
    ensures { result ≡ join_status fault.now }
{
    match fault {
        JoinFault::Parts(_) => 6,
        JoinFault::Run(fault) => status_of_run(fault),
    }
}
