//! The words of the command line, as `settings` reads them.

use clap::error::ErrorKind;
use jlreport_cli::{Options, WordsFault, settings};
use std::process::Abort;

/// Checks which sizes of a round these options take, and that they change nothing else.
fn check_rounds(rt: &impl Abort, options: Options) {
    for round in [1_048_578, 4_000_000, 67_108_864] {
        let other = options.with_round(round).expect(rt, "options");
        assert_eq!(rt; other.round(), round);
        assert_eq!(rt; other.workers(), options.workers());
        assert_eq!(rt; other.piece(), options.piece());
        assert_eq!(rt; other.max_refused(), options.max_refused());
    }
    for round in [0, 1_048_577, 67_108_865] {
        assert!(rt; options.with_round(round).is_none());
    }
}

#[test]
fn options(rt: HostRuntime) {
    match Options::new(64, 1, Some(3)) {
        Some(options) => {
            assert_eq!(rt; options.workers(), 64);
            assert_eq!(rt; options.piece(), 1);
            assert_eq!(rt; options.max_refused(), Some(3));
            assert_eq!(rt; options.round(), 67_108_864);
            check_rounds(&rt, options);
        }
        None => panic!(rt; "no options"),
    }
    assert!(rt; Options::new(1, 67_108_864, None).is_some());
    for (workers, piece) in [(0, 1), (65, 1), (1, 0), (1, 67_108_865)] {
        assert!(rt; Options::new(workers, piece, None).is_none());
    }
}

/// Where memory is refused the answer is want of memory, and else the settings.
#[test]
fn refusal_of_settings(rt: HostRuntime) {
    let words = ["jlreport", "--columns", "q:int", "--query", "S", "in.jsonl"];
    match settings(rt.alloc(), words.as_slice()) {
        Ok(given) => {
            assert!(rt; given.columns == "q:int" && given.query == "S" && given.file == "in.jsonl");
            assert_eq!(rt; given.options.workers(), 4);
            assert_eq!(rt; given.options.piece(), 1_048_576);
            assert!(rt; given.options.max_refused().is_none() && !given.explain);
        }
        Err(WordsFault::Clap(error)) => assert!(rt; error.kind() == ErrorKind::OutOfMemory),
        Err(_) => panic!(rt; "another answer"),
    }
}
