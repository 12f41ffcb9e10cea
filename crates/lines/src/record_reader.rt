//! Reading lines as records: by the bytes of a line, by its tokens where these leave a doubt, and
//! by its JSON tree where the tokens leave one too.

ghost use Rattle.std.specs.Prelude.{◌≡◌, ◌<◌, ◌≤◌, IfErr, IfOk, IfSome, length};
ghost use Rattle.semantics.specs.Records.{Fits, IsRefusal, max_line_len, decode_line};

use crate::bytes::record_by_bytes;
use crate::spare::Spare;
use crate::tokens::record_by_tokens;
use crate::tree::read_by_tree;
use crate::utf8::Line;
use json::Scratch;
use semantics::{LineFault, LineRefusal};
use std::alloc::Global;
use values::{Record, Schema};

/// The greatest length of a line in bytes.
pub(crate) const MAX_LINE_LEN: usize = 1_048_576;

/// Reads a line as a record: one value for each column of the schema, in order.
///
/// A line is one JSON object (RFC 8259, section 4), without its line feed. A column takes the
/// member of its name, of several with one name the last: NULL where there is no such member or it
/// is `null`, and else a whole number from -2^63 to 2^63-1, a string or a truth value, by the
/// column's type. Other members are ignored, whatever they hold.
///
/// Whoever reads many lines keeps a [`RecordReader`].
///
/// Example: under `shop:text,cents:int` it answers of the line
/// `{"cents":250,"shop":"Quay","till":3}` the record of the text `Quay` and the whole number 250.
///
/// # Errors
///
/// `Fault` with the first fault that the line has, or `Memory` where there was no memory to read
/// it. A line that is too long is refused as `TooLong`, whatever memory there is.
pub fn read_record(alloc: Global, schema: &Schema, line: &[u8]) -> Result<Record, LineRefusal>
    ensures ok { IfOk result (λ «record». decode_line schema.now line.now ≡ Ok «record») }
    ensures refused { IfErr result (λ refusal.
        IsRefusal refusal (decode_line schema.now line.now)) }
    ensures fits { IfOk result (λ «record». Fits schema.now «record») }

    // A line that is too long is not looked into, so its refusal never is for want of memory.
    ensures too_long { max_line_len < length line.now
        → result ≡ Err (LineRefusal.Fault LineFault.TooLong) }
{
    RecordReader::new(alloc).read(schema, line)
}

/// Reads lines as records, one after another, in memory that it keeps from line to line.
///
/// What it answers of a line is what [`read_record`] answers; the lines before make no difference,
/// nor do the records that it is given back.
///
/// Example: a reader of many lines calls `read` for each, and `give_back` with a record that it is
/// done with.
pub struct RecordReader {
    alloc: Global,
    scratch: Scratch,
    spare: Spare,
}

// A function of its own: a derived one is written out, and proved, wherever a reader is given up.
impl Drop for RecordReader {
    fn drop(self) {
        let RecordReader {
            alloc: _,
            scratch,
            spare,
        } = self;
        drop(scratch);
        drop(spare);
    }
}

impl RecordReader {
    ghost use Rattle.std.specs.Prelude.{◌≡◌, ◌<◌, IfErr, IfOk, IfSome, length};
    ghost use Rattle.semantics.specs.Records.{Fits, IsRefusal, max_line_len, decode_line};
    ghost use Rattle.lines.specs.Checked.{line_bytes};

    /// A reader that keeps no memory yet. It takes none.
    ///
    /// Example: `RecordReader::new(alloc).read(&schema, line)` does what
    /// `read_record(alloc, &schema, line)` does.
    pub fn new(alloc: Global) -> RecordReader {
        RecordReader {
            alloc,
            scratch: Scratch::new(alloc),
            spare: Spare::new(alloc),
        }
    }

    /// Takes back a record that is done with: the next one is made in its memory. It may be any
    /// record.
    ///
    /// Example: a loop over lines may end each turn with `reader.give_back(record)`.
    pub fn give_back(&mut self, done: Record) {
        self.spare.keep(done.into_values());
    }

    /// Reads one line as [`read_record`] does. The reader can be used again, also after an error.
    ///
    /// Example: under `cents:int` it answers of the line `{"cents":5}` the record of the whole
    /// number 5, and of an empty line `Fault(LineFault::NoJson)`.
    ///
    /// # Errors
    ///
    /// `Fault` with the first fault that the line has, or `Memory` where there was no memory to
    /// read it. A line that is too long is refused as `TooLong`, whatever memory there is.
    pub fn read(&mut self, schema: &Schema, line: &[u8]) -> Result<Record, LineRefusal>
        ensures ok { IfOk result (λ «record». decode_line schema.now line.now ≡ Ok «record») }
        ensures refused { IfErr result (λ refusal.
            IsRefusal refusal (decode_line schema.now line.now)) }
        ensures fits { IfOk result (λ «record». Fits schema.now «record») }

        // A line that is too long is not looked into, so its refusal never is for want of memory.
        ensures too_long { max_line_len < length line.now
            → result ≡ Err (LineRefusal.Fault LineFault.TooLong) }
    {
        match text_of(line) {
            Some(text) => self.read_text(schema, text),
            None => read_by_tree(self.alloc, schema, line),
        }
    }

    /// Reads one line as [`read`](Self::read) does, and tests no text again.
    ///
    /// Example: a loop over the lines that [`checked_lines_of`](crate::checked_lines_of) gives
    /// hands each to it.
    ///
    /// # Errors
    ///
    /// `Fault` with the first fault that the line has, or `Memory` where there was no memory to
    /// read it. A line that is too long is refused as `TooLong`, whatever memory there is.
    pub fn read_line(&mut self, schema: &Schema, line: Line<'_>) -> Result<Record, LineRefusal>
        ensures ok { IfOk result (λ «record».
            decode_line schema.now (line_bytes line.entry) ≡ Ok «record») }
        ensures refused { IfErr result (λ refusal.
            IsRefusal refusal (decode_line schema.now (line_bytes line.entry))) }
        ensures fits { IfOk result (λ «record». Fits schema.now «record») }

        // A line that is too long is not looked into, so its refusal never is for want of memory.
        ensures too_long { max_line_len < length (line_bytes line.entry)
            → result ≡ Err (LineRefusal.Fault LineFault.TooLong) }
    {
        match line {
            Line::Text(text) => self.read_text(schema, text),
            Line::Bytes(bytes) => self.read(schema, bytes),
        }
    }

    /// Reads one line that is known to be UTF-8.
    fn read_text(&mut self, schema: &Schema, line: &str) -> Result<Record, LineRefusal>
        ensures ok { IfOk result (λ «record». decode_line schema.now line.now ≡ Ok «record») }
        ensures refused { IfErr result (λ refusal.
            IsRefusal refusal (decode_line schema.now line.now)) }
        ensures fits { IfOk result (λ «record». Fits schema.now «record») }
        ensures too_long { max_line_len < length line.now
            → result ≡ Err (LineRefusal.Fault LineFault.TooLong) }
    {
        if line.len() > MAX_LINE_LEN {
            return Err(LineRefusal::Fault(LineFault::TooLong));
        }
        if let Some(taken) = record_by_bytes(schema, line, &mut self.spare) {
            return Ok(taken);
        }
        match record_by_tokens(schema, line, &mut self.scratch, &mut self.spare) {
            Some(taken) => Ok(taken),
            None => read_by_tree(self.alloc, schema, line.as_bytes()),
        }
    }

    /// Reads one line by its bytes alone, without tokens of it; `None` says nothing of the line.
    ///
    /// It comes of each line of which [`read_by_tokens`](Self::read_by_tokens) answers `None`, and
    /// of one where a name has an escape.
    ///
    /// Example: under `cents:int` it answers `None` of the line `{"\u0063ents":2}`, of which `read`
    /// answers the record of the whole number 2.
    #[inline(always)]
    pub fn read_by_bytes(&mut self, schema: &Schema, line: &[u8]) -> Option<Record>
        ensures ok { IfSome result (λ «record». decode_line schema.now line.now ≡ Ok «record») }
        ensures fits { IfSome result (λ «record». Fits schema.now «record») }
    {
        record_by_bytes(schema, text_of(line)?, &mut self.spare)
    }

    /// Reads one line by its tokens alone, without its tree; `None` says nothing of the line.
    ///
    /// It comes of each line that has a fault, of one where a member that its column does not take
    /// is followed by another of its name, and where there is no memory. Which of these it is,
    /// [`read`](Self::read) tells.
    ///
    /// Example: under `cents:int` it answers `None` of the line `{"cents":"x","cents":2}`, of which
    /// `read` answers the record of the whole number 2.
    pub fn read_by_tokens(&mut self, schema: &Schema, line: &[u8]) -> Option<Record>
        ensures ok { IfSome result (λ «record». decode_line schema.now line.now ≡ Ok «record») }
        ensures fits { IfSome result (λ «record». Fits schema.now «record») }
    {
        record_by_tokens(schema, text_of(line)?, &mut self.scratch, &mut self.spare)
    }
}

/// The text of a line, where it is UTF-8 and not too long.
fn text_of(line: &[u8]) -> Option<&str>
    ensures text { IfSome result (λ text. text.now ≡ line.now) }
    ensures short { IfSome result (λ text. length text.now ≤ max_line_len) }
{
    if line.len() > MAX_LINE_LEN {
        return None;
    }
    simdutf8::compat::from_utf8(line).ok()
}
