//! What the words of a command line ask for.

use semantics::Options;

/// What a run of the program is asked for. The texts are those of the words, and are not copied.
///
/// Example: of `jlreport --columns q:int --query 'SELECT SUM(q) FROM lines' lines.jsonl`, `columns`
/// is `q:int`, `query` is `SELECT SUM(q) FROM lines`, `file` is `lines.jsonl`, and `explain`,
/// `partial`, `join` and `progress` are `false`.
#[derive(Clone, Copy, Debug, PartialEq, Eq)]
pub struct Settings<'a> {
    /// The text of the columns, not read yet: `name:type` parts joined by commas, where it is good.
    pub columns: &'a str,
    /// The text of the query, not read yet.
    pub query: &'a str,
    /// The path of the file to read.
    pub file: &'a str,
    /// How the run is done.
    pub options: Options,
    /// Whether the query is to be explained, and no file read.
    pub explain: bool,
    /// Whether a part is to be written in place of the report.
    pub partial: bool,
    /// Whether the file has parts, one behind the other, in place of lines.
    pub join: bool,
    /// Whether a person is to see how far the file is read.
    pub progress: bool,
}
