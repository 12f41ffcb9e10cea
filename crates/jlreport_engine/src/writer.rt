//! Writing texts whole.

ghost use Rattle.std.specs.Prelude.{◌<◌, IfErr, IfOk, OnErr, OnOk, length, take};
ghost use Rattle.std.specs.Io.KnownBytes.{Appends};
ghost use Rattle.semantics.specs.Run.{AppendsBeginning};
ghost use Rattle.report.specs.Report.{refusals_of};
ghost use Rattle.jlreport_engine.specs.Inside.Written.{HasRoomFor, LeavesWritten, Sends};

use lines::LineFault;
use report::{push_refused_line, refused_line_room};
use semantics::RunFault;
use std::alloc::{AllocError, Global};
use std::io::Write;
use values::Schema;

/// A write or a flush failed, or a write took no byte.
#[derive(Clone, Copy, Debug, PartialEq, Eq)]
pub(crate) struct WriteFault;

/// Writes a text, by as many single writes as it takes, and does not flush it. An empty text is not
/// written at all. It takes no memory of its own.
///
/// Example: `put(&mut out, b"done\n")` answers `Ok(())` where all 5 bytes were written; where the
/// first write takes 2 of them and the second one fails, it answers `Err(2)`.
///
/// # Errors
///
/// Where a write fails, is interrupted or takes no byte: the number of bytes that were written
/// before, which is less than the length of the text. They are the first bytes of the text, and no
/// write is tried again.
pub fn put<W: Write>(writer: &mut W, text: &[u8]) -> Result<(), usize>
    ensures whole { OnOk result (Appends (W.contents writer.old) (W.contents writer.new) text.now) }
    ensures count { IfErr result (λ written. written < length text.now) }
    ensures beginning { IfErr result (λ written.
        Appends (W.contents writer.old) (W.contents writer.new) (take written text.now)) }
{
    let mut rest = text;
    while !rest.is_empty() {
        match writer.write(rest) {
            Ok(0) | Err(_) => return Err(text.len() - rest.len()),
            Ok(taken) => rest = &rest[taken..],
        }
    }
    Ok(())
}

/// Writes a text whole, and flushes it.
pub(crate) fn put_and_flush<W: Write>(writer: &mut W, text: &[u8]) -> Result<(), WriteFault>
    ensures ok { OnOk result (Appends (W.contents writer.old) (W.contents writer.new) text.now) }
    ensures err { OnErr result
        (AppendsBeginning (W.contents writer.old) (W.contents writer.new) text.now) }
{
    if put(writer, text).is_err() {
        return Err(WriteFault);
    }
    match writer.flush() {
        Ok(()) => Ok(()),
        Err(_) => Err(WriteFault),
    }
}

// ---- a list that is longer than a buffer

/// A list of refused lines that has no more bytes is written at once.
const LIST_BYTES: usize = 65_536;

/// A buffer for the list of so many refused lines: it has room for all of it, or for 64 KiB and any
/// one line more.
pub(crate) fn list_buffer(
    alloc: Global,
    schema: &Schema,
    lines: usize,
) -> Result<Vec<u8>, AllocError>
    ensures { IfOk result (λ buffer. HasRoomFor schema.now lines buffer) }
{
    let room = refused_line_room(schema);
    Vec::with_capacity(
        alloc,
        room.saturating_mul(lines)
            .min(room.saturating_add(LIST_BYTES)),
    )
}

/// Writes what waits in a buffer, where it may have no room for so many bytes more.
fn make_room<W: Write>(writer: &mut W, buffer: &mut Vec<u8>, room: usize) -> Result<(), WriteFault>
    ensures sent { OnOk result (Sends (W.contents writer.old) (W.contents writer.new)
        buffer.old.items buffer.new.items) }
    ensures err { OnErr result
        (AppendsBeginning (W.contents writer.old) (W.contents writer.new) buffer.old.items) }
{
    if room <= buffer.capacity() - buffer.len() {
        return Ok(());
    }
    if put(writer, buffer.as_slice()).is_err() {
        return Err(WriteFault);
    }
    buffer.clear();
    Ok(())
}

/// Writes a list of refused lines, and flushes it. It takes no memory: the lines wait in the
/// buffer, which is written as soon as it may have no room for the next one. What is in the buffer
/// before is gone.
fn put_refused<W: Write>(
    writer: &mut W,
    buffer: &mut Vec<u8>,
    schema: &Schema,
    refused: &[(u64, LineFault)],
) -> Result<(), WriteFault>
    ensures ok { OnOk result (Appends (W.contents writer.old) (W.contents writer.new)
        (refusals_of schema.now refused.now)) }
    ensures err { OnErr result (AppendsBeginning (W.contents writer.old) (W.contents writer.new)
        (refusals_of schema.now refused.now)) }
{
    let room = refused_line_room(schema);
    buffer.clear();
    for (number, fault) in refused {
        make_room(writer, buffer, room)?;
        // The line has room, so it takes no memory; were memory refused all the same, a beginning
        // of the list was written.
        if push_refused_line(buffer, schema, *number, *fault).is_err() {
            return Err(WriteFault);
        }
    }
    put_and_flush(writer, buffer.as_slice())
}

/// Writes a report whole, and then a list of refused lines through a buffer, each flushed. It takes
/// no memory.
pub(crate) fn put_both<O: Write, E: Write>(
    out: &mut O,
    report: &[u8],
    err: &mut E,
    buffer: &mut Vec<u8>,
    schema: &Schema,
    refused: &[(u64, LineFault)],
) -> Result<(), RunFault>
    ensures report { OnOk result (Appends (O.contents out.old) (O.contents out.new) report.now) }
    ensures list { OnOk result (Appends (E.contents err.old) (E.contents err.new)
        (refusals_of schema.now refused.now)) }
    ensures fault { IfErr result (λ fault. LeavesWritten fault report.now
        (refusals_of schema.now refused.now) (O.contents out.old) (O.contents out.new)
        (E.contents err.old) (E.contents err.new)) }
{
    if put_and_flush(out, report).is_err() {
        return Err(RunFault::WritingReport);
    }
    match put_refused(err, buffer, schema, refused) {
        Ok(()) => Ok(()),
        Err(_) => Err(RunFault::WritingRefused),
    }
}
