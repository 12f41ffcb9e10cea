//! `put` over writers that take few bytes a call, take none or fail.

use super::streams::{Pause, Sink};
use jlreport_engine::put;
use std::alloc::Global;
use std::io::ErrorKind;
use std::process::Abort;

/// Text with line feeds, a zero and a byte that is no UTF-8 in it.
const TEXT: &[u8] = b"d,n\nx,2\n\0\xff\n";

/// The most bytes that a writer takes a call.
const AT_ONCE: [usize; 4] = [1, 2, 3, 1_000_000];

/// The same, and what the writer does in place of taking more. A write that takes none is one that
/// failed.
const PAUSES: [(usize, Pause); 6] = [
    (1, Pause::Nothing),
    (1, Pause::Error(ErrorKind::BrokenPipe)),
    (1, Pause::Error(ErrorKind::Interrupted)),
    (3, Pause::Nothing),
    (3, Pause::Error(ErrorKind::BrokenPipe)),
    (3, Pause::Error(ErrorKind::Interrupted)),
];

/// A writer that takes so many bytes, pauses once, and would take more then; its flush fails.
fn sink(alloc: Global, room: usize, (at_once, pause): (usize, Pause)) -> Sink {
    Sink {
        room,
        at_once,
        pause,
        flushes: false,
        taken: Vec::new(alloc),
    }
}

/// The text is written whole, is not flushed, and nothing is called behind its last byte.
#[test]
fn puts_a_text_whole(rt: HostRuntime) {
    for at_once in AT_ONCE {
        let pause = Pause::Error(ErrorKind::BrokenPipe);
        let mut out = sink(rt.alloc(), TEXT.len(), (at_once, pause));
        assert_eq!(rt; put(&mut out, TEXT).err(), None);
        assert_eq!(rt; out.taken.as_slice(), TEXT);
        assert_eq!(rt; out.room, 0);
    }
}

/// Asserts for each number of bytes below the text's that a writer which takes as many and then
/// pauses has got just the first ones, and that this number is answered.
fn assert_each_put_cut(rt: &impl Abort, alloc: Global, pause: (usize, Pause)) {
    for room in 0..TEXT.len() {
        let mut out = sink(alloc, room, pause);
        let met = put(&mut out, TEXT).err();
        assert!(rt; met == Some(room), "{met:?}: {pause:?} behind {room} bytes");
        assert!(rt;
            out.taken.as_slice() == &TEXT[..room],
            "{pause:?} behind {room} bytes"
        );
    }
}

#[test]
fn puts_what_is_taken(rt: HostRuntime) {
    for pause in PAUSES {
        assert_each_put_cut(&rt, rt.alloc(), pause);
    }
}

/// No call is made for a text of no bytes: any would have the writer pause, and take more from then
/// on.
#[test]
fn puts_no_bytes(rt: HostRuntime) {
    for pause in PAUSES {
        let mut out = sink(rt.alloc(), 0, pause);
        assert_eq!(rt; put(&mut out, b"").err(), None);
        assert!(rt; out.taken.is_empty());
        assert_eq!(rt; out.room, 0);
    }
}
