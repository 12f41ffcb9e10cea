//! What the program does once its words are read.

ghost use Rattle.std.specs.Prelude.{◌≡◌, ◌<◌, [], ℕ, List, Err, IfErr, IfOk, IsOk, MatchResult, Ok, OnOk, true};
ghost use Rattle.std.specs.Io.KnownBytes.{Appends, Keeps};
ghost use Rattle.semantics.specs.Columns.{schema_of};
ghost use Rattle.semantics.specs.Explanation.{Explains, IsAnswerable, explanation};
ghost use Rattle.semantics.specs.Faults.{query_faults};
ghost use Rattle.semantics.specs.Reading.{Derives};
ghost use Rattle.semantics.specs.Serving.{EndsByClap, EndsByRun, EndsBySettings, EndsByText, EndsByWords, IsRefused, IsServed, IsTold, done_status, last_status};

use crate::explanation::explanation;
use crate::joins::{join_partial, run_join};
use crate::partial::run_partial;
use crate::runs::run;
use crate::writer::put_and_flush;
use clap::error::ErrorKind;
use jlreport_cli::{Settings, WordsFault};
use query::{Plan, check, parse};
use semantics::{Done, Ending, RunFault};
use std::alloc::{AllocError, Global};
use std::io::{Read, Write};
use std::marker::{Send, Sync};
use std::random::RandomSource;
use std::sync::Wait;
use std::thread::Threads;
use values::Schema;

/// Does what the words ask for, and answers the status that the program ends with: 0 where no line
/// is refused, where a part is written, or where help, the version or an explanation is asked for;
/// 1 where some lines are refused; 2 where the words, the schema or the query are refused; 3 where
/// the file cannot be opened or read or a text cannot be written; 4 where memory runs out or a
/// thread cannot be started; 5 where more lines are refused than may be; 6 where parts are to be
/// joined and what was read is no parts of the columns and the query. The report, a part, the
/// explanation, help and the version go to `out`; the refused lines and what went wrong go to
/// `err`. Where what went wrong cannot be written there, the status alone tells it.
///
/// `opener` answers the reader of the file of a path, or `None` where it cannot be opened. It has
/// to be such that it can always be called; it is called once at most, only once the words, the
/// schema and the query are good, and not where an explanation is asked for.
///
/// Example: where `asked` is `Err(WordsFault::Range)`, it writes
/// `jlreport: a number is out of range` and a line feed to `err`, and answers 2, unless memory runs
/// out.
pub fn serve<
    R: Read + Drop + Send,
    O: Write,
    E: Write,
    F: FnMut(&str) -> Option<R>,
    H: Threads + Wait + RandomSource + Sync,
>(
    rt: &H,
    alloc: Global,
    asked: Result<Settings<'_>, WordsFault>,
    opener: &mut F,
    out: &mut O,
    err: &mut E,
) -> u8
    requires { F.IsAlwaysCallable opener.old }
    // 0 and 1 are answered only where the columns and the query are good.
    ensures answerable { IfOk asked.entry (λ settings. result < 2
        → IsAnswerable settings.columns.now settings.query.now) }
    // Where an explanation is asked for and 0 is answered, it is written.
    ensures explains { IfOk asked.entry (λ settings. settings.explain ≡ true → result ≡ 0
        → Explains settings.columns.now settings.query.now (O.contents out.old)
        (O.contents out.new)) }
    // The program ends as the settings ask for, or the words where there are none; it tells why
    // where it is not done, and answers its status.
    ensures served { MatchResult asked.entry
        (λ settings. IsServed (λ end err_then. EndsBySettings F.FnMut opener.old opener.new
        R.remaining settings.columns.now settings.query.now settings.file.now settings.explain
        settings.join settings.partial settings.options.max_refused end (O.contents out.old)
        (O.contents out.new) (E.contents err.old) err_then) result (E.contents err.new))
        (λ fault. (opener.new ≡ opener.old) × IsServed (λ end err_then.
        EndsByWords fault end (O.contents out.old) (O.contents out.new)
        × Keeps (E.contents err.old) err_then) result (E.contents err.new)) }
{
    match asked {
        Ok(settings) => {
            let end = execute(rt, alloc, settings, opener, out, err);
            tell(alloc, end, err)
        }
        Err(fault) => {
            let end = answer_words(alloc, fault, out);
            tell(alloc, end, err)
        }
    }
}

/// The plan of the query that is asked for, under the columns that are asked for.
fn plan_of(alloc: Global, settings: Settings<'_>) -> Result<Plan, Ending>
    ensures schema { IfOk result (λ plan. schema_of settings.entry.columns.now ≡ Ok plan.fields) }
    ensures query { IfOk result (λ plan. Derives settings.entry.query.now plan.query) }
    ensures faultless { IfOk result (λ plan. query_faults plan.fields plan.query ≡ []) }
    ensures refused { IfErr result (λ ending. IsRefused settings.entry.columns.now
        settings.entry.query.now (Err ending)) }
{
    let schema = Schema::parse(alloc, settings.columns)?;
    let query = parse(alloc, settings.query)?;
    let plan = check(alloc, query, schema)?;
    Ok(plan)
}

/// Executes what is asked for: explains the query, or answers it over the file or joins the parts
/// in it.
fn execute<
    R: Read + Drop + Send,
    O: Write,
    E: Write,
    F: FnMut(&str) -> Option<R>,
    H: Threads + Wait + RandomSource + Sync,
>(
    rt: &H,
    alloc: Global,
    settings: Settings<'_>,
    opener: &mut F,
    out: &mut O,
    err: &mut E,
) -> Result<u8, Ending>
    requires { F.IsAlwaysCallable opener.old }
    ensures answerable { IfOk result (λ _.
        IsAnswerable settings.entry.columns.now settings.entry.query.now) }
    ensures explains { settings.entry.explain ≡ true
        → OnOk result (Explains settings.entry.columns.now settings.entry.query.now
        (O.contents out.old) (O.contents out.new)) }
    ensures ends { EndsBySettings F.FnMut opener.old opener.new R.remaining settings.entry.columns.now
        settings.entry.query.now settings.entry.file.now settings.entry.explain
        settings.entry.join settings.entry.partial settings.entry.options.max_refused result
        (O.contents out.old) (O.contents out.new) (E.contents err.old) (E.contents err.new) }
{
    let plan = plan_of(alloc, settings)?;
    if settings.explain {
        return write_explanation(alloc, &plan, out);
    }
    match opener(settings.file) {
        Some(reader) => answer(rt, alloc, &plan, settings, reader, out, err),
        None => Err(Ending::NotOpened),
    }
}

/// Answers the query over the lines that a reader gives, or over those whose parts it gives, by a
/// report or by a part, and answers the status. Where a part is written it is 0, whether or not
/// lines are refused.
fn answer<R: Read + Drop + Send, O: Write, E: Write, H: Threads + Wait + RandomSource + Sync>(
    rt: &H,
    alloc: Global,
    plan: &Plan,
    settings: Settings<'_>,
    reader: R,
    out: &mut O,
    err: &mut E,
) -> Result<u8, Ending>
    ensures { EndsByRun settings.entry.join settings.entry.partial result
        settings.entry.options.max_refused plan.now.fields plan.now.query (R.remaining reader)
        (O.contents out.old) (O.contents out.new) (E.contents err.old) (E.contents err.new) }
{
    let options = settings.options;
    let done = match (settings.join, settings.partial) {
        (false, false) => run(rt, alloc, plan, options, reader, out, err)?,
        (false, true) => run_partial(rt, alloc, plan, options, reader, out)?,
        (true, false) => run_join(rt, alloc, plan, options, reader, out, err)?,
        (true, true) => join_partial(rt, alloc, plan, options, reader, out)?,
    };
    Ok(status_done(settings.partial, done))
}

/// The status where a report or a part is written: 1 where lines are refused of a report, and else
/// 0.
fn status_done(partial: bool, done: Done) -> u8
    ensures { result ≡ done_status partial done }
{
    if partial || done.refused == 0 { 0 } else { 1 }
}

/// Writes the explanation of a query.
fn write_explanation<O: Write>(alloc: Global, plan: &Plan, out: &mut O) -> Result<u8, Ending>
    ensures { EndsByText (explanation plan.now.fields plan.now.query) result
        (O.contents out.old) (O.contents out.new) }
{
    match explanation(alloc, plan) {
        Ok(text) => write_text(text.as_bytes(), out),
        Err(_) => Err(Ending::OUT_OF_MEMORY),
    }
}

/// Writes a text that is asked for in place of a report.
fn write_text<O: Write>(text: &[u8], out: &mut O) -> Result<u8, Ending>
    ensures { EndsByText text.now result (O.contents out.old) (O.contents out.new) }
{
    match put_and_flush(out, text) {
        Ok(()) => Ok(0),
        Err(_) => Err(Ending::Run(RunFault::WritingReport)),
    }
}

/// Answers words that are no settings: writes help or the version, where they ask for it, and else
/// refuses them.
fn answer_words<O: Write>(alloc: Global, fault: WordsFault, out: &mut O) -> Result<u8, Ending>
    ensures { EndsByWords fault result (O.contents out.old) (O.contents out.new) }
{
    match fault {
        WordsFault::Clap(error) => answer_clap(alloc, error, out),
        WordsFault::Range => Err(Ending::Words(WordsFault::Range)),
        WordsFault::NotUtf8 => Err(Ending::Words(WordsFault::NotUtf8)),
    }
}

/// Does what `clap` answers in place of settings: writes help or the version, or refuses the words.
fn answer_clap<O: Write>(alloc: Global, error: clap::Error, out: &mut O) -> Result<u8, Ending>
    ensures { EndsByClap error result (O.contents out.old) (O.contents out.new) }
{
    if error.kind() == ErrorKind::OutOfMemory {
        return Err(Ending::OUT_OF_MEMORY);
    }
    if error.use_stderr() {
        return Err(Ending::Words(WordsFault::Clap(error)));
    }
    match error.to_string(alloc) {
        Ok(text) => write_text(text.as_bytes(), out),
        Err(_) => Err(Ending::OUT_OF_MEMORY),
    }
}

/// The status of an end. Where it is none that is done, standard error is told why; where there is
/// no memory for that text, it is told that.
fn tell<E: Write>(alloc: Global, end: Result<u8, Ending>, err: &mut E) -> u8
    ensures status { result ≡ last_status end }
    ensures told { IsTold end (E.contents err.old) (E.contents err.new) }
    ensures done { result < 2 → IsOk end }
{
    match end {
        Ok(status) => status,
        Err(ending) => {
            match line_of(alloc, &ending) {
                Ok(line) => try_to_put(err, line.as_bytes()),
                Err(_) => try_to_put(err, b"jlreport: out of memory\n"),
            }
            ending.status()
        }
    }
}

/// Writes a text as far as it goes.
fn try_to_put<E: Write>(err: &mut E, text: &[u8])
    ensures { (front : List ℕ) × Appends (E.contents err.old) (E.contents err.new) front }
{
    let _ = put_and_flush(err, text);
}

/// What is told of an ending: the text of `clap`, where it refused the words, and else
/// `jlreport: `, what went wrong, and a line feed.
fn line_of(alloc: Global, ending: &Ending) -> Result<String, AllocError> {
    match ending {
        Ending::Words(WordsFault::Clap(error)) => error.to_string(alloc),
        Ending::Words(WordsFault::Range | WordsFault::NotUtf8)
        | Ending::Schema(_)
        | Ending::Query(_)
        | Ending::NotOpened
        | Ending::Run(_)
        | Ending::Join(_) => format!(in alloc; "jlreport: {ending}\n"),
    }
}
