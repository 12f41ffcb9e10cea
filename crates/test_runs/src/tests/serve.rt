//! What the program says, and its status, where an output fails or memory is refused.

use super::runs::{BY_D, BY_D_REPORT, COLUMNS, COUNT, THREE};
use super::streams::{Pause, Sink};
use jlreport_cli::settings;
use jlreport_engine::serve;
use std::alloc::Global;
use std::io::ErrorKind;
use std::marker::Sync;
use std::process::Abort;
use std::random::RandomSource;
use std::sync::Wait;
use std::thread::Threads;

const SUM: &str = "SELECT SUM(q) FROM lines";

/// The words of a run.
const A_RUN: &[&str] = &["jlreport", "--columns", COLUMNS, "--query", BY_D, "f"];

/// The words of an explanation.
const AN_EXPLANATION: &[&str] = &[
    "jlreport",
    "--columns",
    COLUMNS,
    "--query",
    SUM,
    "--explain",
    "f",
];

/// Asserts that the program ends with 3, and has then written so many bytes of a text.
fn assert_not_written(
    rt: &(impl Abort + Threads + Wait + RandomSource + Sync),
    alloc: Global,
    words: &[&str],
    (room, flushes): (usize, bool),
    written: &[u8],
) {
    let taken = Vec::new(alloc);
    let mut out = Sink {
        room,
        at_once: 2,
        pause: Pause::Error(ErrorKind::BrokenPipe),
        flushes,
        taken,
    };
    let mut err = Vec::new(alloc);
    let mut opener = |_path: &str| Some(THREE);
    let asked = settings(alloc, words);
    assert_eq!(rt; serve(rt, alloc, asked, &mut opener, &mut out, &mut err), 3);
    assert_eq!(rt; out.taken.as_slice(), written);
    assert_eq!(rt;
        err.as_slice(),
        b"jlreport: writing the report failed\n".as_slice()
    );
}

/// A report and an explanation, to a writer that takes a few bytes and then fails, or whose flush
/// fails.
#[test]
fn outputs_that_are_not_written(rt: HostRuntime) {
    let explanation = b"SELECT SUM(q) FROM lines\n0: ()\n".as_slice();
    let cases = [
        (A_RUN, (3, true), b"d,n".as_slice()),
        (A_RUN, (100, false), BY_D_REPORT),
        (AN_EXPLANATION, (3, true), b"SEL".as_slice()),
        (AN_EXPLANATION, (100, false), explanation),
    ];
    for (words, sink, written) in cases {
        assert_not_written(&rt, rt.alloc(), words, sink, written);
    }
}

/// What is said where memory is refused, and where a thread is not started.
const OUT_OF_MEMORY: &[u8] = b"jlreport: out of memory\n\0";

const THREAD_NOT_STARTED: &[u8] = b"jlreport: a thread could not be started\n\0";

/// Asserts that the program writes this and ends so, or, where memory is refused, says so and ends
/// with 4. Where only the text of a fault gets no memory, it says so and ends with the status of
/// the fault.
fn assert_served(
    rt: &(impl Abort + Threads + Wait + RandomSource + Sync),
    alloc: Global,
    words: &[&str],
    (status, report, told): (u8, &[u8], &[u8]),
    starts_threads: bool,
) {
    let (mut room, mut note) = ([0u8; 64], [0u8; 64]);
    let (mut out, mut err) = (room.as_mut_slice(), note.as_mut_slice());
    let mut opener = |_path: &str| Some(THREE);
    let asked = settings(alloc, words);
    let met = serve(rt, alloc, asked, &mut opener, &mut out, &mut err);
    if met == status {
        assert!(rt; room.starts_with(report));
        let is_without_text = status > 1 && note.starts_with(OUT_OF_MEMORY);
        assert!(rt; is_without_text || note.starts_with(told));
    } else {
        let is_unstarted = starts_threads && note.starts_with(THREAD_NOT_STARTED);
        assert_eq!(rt; met, 4);
        assert!(rt; room.starts_with(b"\0"));
        assert!(rt; is_unstarted || note.starts_with(OUT_OF_MEMORY));
    }
}

/// Runs on the calling thread and on two.
#[test]
fn refusal_of_serve(rt: HostRuntime) {
    let report = b"n\n3\n\0".as_slice();
    for (workers, starts_threads) in [("1", false), ("2", true)] {
        let words = [
            "jlreport",
            "--columns",
            COLUMNS,
            "--query",
            COUNT,
            "--workers",
            workers,
            "f",
        ];
        let wanted = (0, report, b"\0".as_slice());
        assert_served(&rt, rt.alloc(), words.as_slice(), wanted, starts_threads);
    }
}

/// A schema that is refused, and an explanation.
#[test]
fn refusal_of_serve_without_a_run(rt: HostRuntime) {
    let refused = ["jlreport", "--columns", "q:date", "--query", COUNT, "f"];
    let told = b"jlreport: schema: column 1 has no known type\n\0".as_slice();
    assert_served(&rt, rt.alloc(), refused.as_slice(), (2, b"\0", told), false);
    let explanation = b"SELECT SUM(q) FROM lines\n0: ()\n\0".as_slice();
    assert_served(
        &rt,
        rt.alloc(),
        AN_EXPLANATION,
        (0, explanation, b"\0"),
        false,
    );
}
