//! The command of the program, and what words say under it.

ghost use Rattle.std.specs.Prelude.{◌≡◌, ◌↔◌, [], ℕ, IfErr, IfOk, IfSome, IsNone, Some, codes, true};
ghost use Rattle.clap.specs.Walk.{texts};
ghost use Rattle.clap.specs.Words.{app_of, fault_of, kind_of, new_app};
ghost use Rattle.jlreport_cli.specs.Inside.Matches.{IsNumberAt};
ghost use Rattle.semantics.specs.CommandLine.{IsNumberOf, IsSet, command, value_of, AreInRange, IsRefusalOf};

use crate::arguments::{
    defaulted_option, flag, is_set, number_of, number_option, required_option, required_word,
    text_of,
};
use crate::words::Settings;
use clap::error::ErrorKind;
use clap::{ArgMatches, Command, Error};
use semantics::{Options, WordsFault};
use std::alloc::Global;

/// What `--version` shows behind the program's name.
const VERSION: &str = "1.2.0";

/// What stands at the top of the help.
const ABOUT: &str = "Answers one SQL aggregate query over a file of JSON lines";

/// What help says of the columns.
const COLUMNS_HELP: &str =
    "The columns that the query can name, as NAME:TYPE,.. with TYPE int, text or bool";

/// What help says of the query.
const QUERY_HELP: &str = "The query to answer";

/// What help says of the number of workers.
const WORKERS_HELP: &str = "How many threads share the work, 1 to 64";

/// What help says of the size of a piece.
const PIECE_HELP: &str = "How many bytes are worked on at once, 1 to 67108864";

/// What help says of the limit of refused lines.
const MAX_REFUSED_HELP: &str =
    "How many lines may be refused, 0 to 18446744073709551615 [default: no limit]";

/// What help says of the flag that asks for an explanation.
const EXPLAIN_HELP: &str =
    "Print the query in its canonical form and its grouping sets, and read no file";

/// What help says of the flag that asks for a part.
const PARTIAL_HELP: &str =
    "Print the part, which can be joined with others, in place of the report";

/// What help says of the flag that joins parts.
const JOIN_HELP: &str = "Read parts, one behind the other, in place of lines";

/// What help says of the flag that shows how far a run is.
const PROGRESS_HELP: &str = "Show on the terminal how far the file is read, while that takes time";

/// What help says of the file.
const FILE_HELP: &str =
    "The file to read, with one JSON object on each line, or parts; - is standard input";

/// What stands at the end of the help that `-h` shows.
const SUMMARY: &str =
    "The report goes to standard output (\\N is NULL), refused lines to standard error, with status 1.
Example:
  jlreport --columns shop:text,cents:int --query 'SELECT shop, SUM(cents) AS cents
    FROM lines GROUP BY shop ORDER BY cents DESC NULLS LAST' examples/events.jsonl";

/// What stands at the end of the help that `--help` shows.
const DETAILS: &str = "Columns:
  A column is NAME:TYPE, with TYPE int (whole numbers of 64 bits), text (strings) or bool. It takes
  the member NAME of the object on a line. A line fits where each column's member is of its type, is
  null or is missing; other members are ignored. A NAME has ASCII letters, digits and _, no digit
  first. There are 1 to 32 columns with different names, joined by commas without spaces.

Query (LANGUAGE.md, named below, says all of it):
  SELECT ITEM, .. FROM lines [WHERE PRED] [GROUP BY [DISTINCT] GROUP, ..] [HAVING PRED]
    [ORDER BY KEY, ..]

  ITEM   EXPR [AS NAME]
  EXPR   NAME, COUNT(*), COUNT(NAME), COUNT(DISTINCT NAME), SUM(NAME), MIN(NAME), MAX(NAME),
         AVG(NAME), GROUPING(NAME, ..); all but NAME and GROUPING also with FILTER (WHERE PRED)
  GROUP  NAME, (NAME, ..), (), ROLLUP (NAME, ..), CUBE (NAME, ..), GROUPING SETS (GROUP, ..);
         with DISTINCT only the first of the grouping sets that have the same columns counts
  KEY    EXPR or a NAME after AS, [ASC | DESC], [NULLS FIRST | NULLS LAST]
  PRED   EXPRs, whole numbers, 'texts', TRUE and FALSE, compared by =, <>, <, <=, >, >=, BETWEEN,
         IN and IS NULL; a NAME of type bool; IS TRUE, IS FALSE and IS UNKNOWN; NOT, AND, OR and
         brackets. WHERE keeps the lines, and HAVING the rows, of which it is true; FILTER takes
         the lines of a group of which it is true.

  Keywords are read in any case. In double quotes a NAME may be any text.

Output:
  The report goes to standard output, as CSV: a row of headers, then the rows by the keys of ORDER
  BY, then by their grouping set, then by the columns of GROUP BY, NULL last. NULL is \\N; a text
  that begins with \\ has one more in front. The refused lines go to standard error, each as its
  number and why: it is over 1048576 bytes, not JSON, not an object, or has a member that does not
  fit its column. With --explain there is no report: standard output has the query on a line, and
  then a line for each grouping set, as its number from 0 and its columns.

Parts:
  With --partial standard output has the part of the lines in place of the report: their groups and
  their refused lines, as a text. With --join the file has parts of the same columns and query, one
  behind the other, and the report is that of all their lines. With both, parts are joined to one.

Exit status:
  0  there is a report, and no line is refused; or a part, an explanation, help or the version
  1  there is a report, and some lines are refused
  2  the words, the columns or the query are refused
  3  the file cannot be opened or read, or the output cannot be written
  4  memory ran out, or a thread could not be started
  5  more lines are refused than may be, and there is no report or part
  6  what was read with --join is no part, is broken, or is of other columns or another query

Examples:
  jlreport --columns shop:text,cents:int --query \\
    'SELECT shop, SUM(cents) FROM lines GROUP BY ROLLUP (shop)' examples/events.jsonl
  jlreport --columns shop:text,member:bool --query \\
    'SELECT shop, COUNT(*) AS n FROM lines WHERE member GROUP BY shop HAVING COUNT(*) > 5
     ORDER BY n DESC' examples/events.jsonl
  jlreport --partial --columns cents:int --query 'SELECT SUM(cents) AS s FROM lines' \\
    examples/events.jsonl > part
  jlreport --join --columns cents:int --query 'SELECT SUM(cents) AS s FROM lines' part

Read on:
  man jlreport. These pages stand in docs/ of the sources, and where the program is installed as
  PREFIX/bin/jlreport, in PREFIX/share/doc/jlreport (mostly /usr/local/share/doc/jlreport):
    LANGUAGE.md  the columns, the lines and the query language, also for who comes from SQL
    COOKBOOK.md  questions to a log, each with its query and its report
    FAULTS.md    each fault, when it comes and what to do, and what is no fault
    SCALE.md     how far one machine goes, and how many machines share a log by parts
    examples/    the files of all examples";

/// The command without its arguments, with the texts that help shows around them.
fn described_command<'a>(alloc: Global) -> Command<'a>
    ensures { app_of result ≡ record (new_app (codes "jlreport")) {
      top = record (new_app (codes "jlreport")).top { has_version = true };
    } }
{
    Command::new(alloc, "jlreport")
        .version(VERSION)
        .about(ABOUT)
        .after_help(SUMMARY)
        .after_long_help(DETAILS)
}

/// The command of the program.
fn program_command<'a>(alloc: Global) -> Result<Command<'a>, Error>
    ensures ok { IfOk result (λ c. app_of c ≡ command) }
    ensures err { IfErr result (λ e. kind_of e ≡ ErrorKind.OutOfMemory) }
{
    let arguments = [
        required_option(alloc, "columns", "SPEC", COLUMNS_HELP),
        required_option(alloc, "query", "TEXT", QUERY_HELP),
        defaulted_option(alloc, "workers", "N", "4", WORKERS_HELP),
        defaulted_option(alloc, "piece", "BYTES", "1048576", PIECE_HELP),
        number_option(alloc, "max-refused", "N", MAX_REFUSED_HELP),
        flag(alloc, "explain", EXPLAIN_HELP),
        flag(alloc, "partial", PARTIAL_HELP),
        flag(alloc, "join", JOIN_HELP),
        flag(alloc, "progress", PROGRESS_HELP),
        required_word(alloc, "file", "FILE", FILE_HELP),
    ];
    let mut command = described_command(alloc);
    for argument in arguments {
        command = command.arg(argument)?;
    }
    Ok(command)
}

/// How a run is done by what was given, where the numbers are in their ranges.
fn options_of(matches: &ArgMatches<'_>) -> Option<Options>
    ensures piece { IfSome result (λ options.
        IsNumberAt matches.now (codes "piece") (Some options.piece)) }
    ensures max_refused { IfSome result (λ options.
        IsNumberAt matches.now (codes "max-refused") options.max_refused) }
    ensures workers { IfSome result (λ options.
        IsNumberAt matches.now (codes "workers") (Some options.workers)) }
    ensures out_of_range { IsNone result → (workers piece : ℕ)
        → IsNumberAt matches.now (codes "workers") (Some workers)
        → IsNumberAt matches.now (codes "piece") (Some piece)
        → AreInRange workers piece → ⊥ }
{
    let (Some(workers), Some(piece)) = (number_of(matches, "workers"), number_of(matches, "piece"))
    else {
        return None;
    };
    Options::new(
        workers as usize,
        piece as usize,
        number_of(matches, "max-refused"),
    )
}

/// What the words ask for, of which the first is the program's name: the values that `clap`
/// publishes for them under the command of `jlreport`. The columns and the query are not read here,
/// and the file is not opened.
///
/// Where no numbers are given there are 4 workers, the size of a piece is 1,048,576 bytes, and any
/// number of lines may be refused.
///
/// Example: of the words `jlreport`, `in.jsonl`, `--columns=q:int`, `--query` and `SELECT q`, the
/// columns are `q:int`, the query is `SELECT q` and the file is `in.jsonl`. Without a query they
/// are refused, with the kind `MissingRequiredArgument`.
///
/// # Errors
///
/// `WordsFault::Clap` where the words have a fault under the command, where they ask for help or
/// for the version, and where memory runs out; `WordsFault::Range` where they have none, and a
/// number is out of its range. `WordsFault::NotUtf8` is never answered.
pub fn settings<'a>(alloc: Global, words: &'a [&'a str]) -> Result<Settings<'a>, WordsFault>
    ensures columns { IfOk result (λ s.
        value_of (codes "columns") (texts words.now) ≡ Some s.columns.now) }
    ensures query { IfOk result (λ s.
        value_of (codes "query") (texts words.now) ≡ Some s.query.now) }
    ensures file { IfOk result (λ s.
        value_of (codes "file") (texts words.now) ≡ Some s.file.now) }
    ensures piece { IfOk result (λ s.
        IsNumberOf (codes "piece") (texts words.now) (Some s.options.piece)) }
    ensures max_refused { IfOk result (λ s.
        IsNumberOf (codes "max-refused") (texts words.now) s.options.max_refused) }
    ensures workers { IfOk result (λ s.
        IsNumberOf (codes "workers") (texts words.now) (Some s.options.workers)) }
    ensures explain { IfOk result (λ s. (s.explain ≡ true)
        ↔ IsSet (codes "explain") (texts words.now)) }
    ensures partial { IfOk result (λ s. (s.partial ≡ true)
        ↔ IsSet (codes "partial") (texts words.now)) }
    ensures join { IfOk result (λ s. (s.join ≡ true)
        ↔ IsSet (codes "join") (texts words.now)) }
    ensures progress { IfOk result (λ s. (s.progress ≡ true)
        ↔ IsSet (codes "progress") (texts words.now)) }
    ensures taken { IfOk result (λ _. fault_of command (texts words.now) ≡ []) }
    ensures refused { IfErr result (IsRefusalOf (texts words.now)) }
{
    let command = program_command(alloc)?;
    let matches = command.try_get_matches_from(words)?;
    let Some(options) = options_of(&matches) else {
        return Err(WordsFault::Range);
    };
    Ok(Settings {
        columns: text_of(&matches, "columns"),
        query: text_of(&matches, "query"),
        file: text_of(&matches, "file"),
        options,
        explain: is_set(&matches, "explain"),
        partial: is_set(&matches, "partial"),
        join: is_set(&matches, "join"),
        progress: is_set(&matches, "progress"),
    })
}
