//! An input in rounds of whole lines: lines that are too long or end where a round ends, readers
//! that are slow, and readers that fail.

use lines::{ReadFault, Round, Rounds, clip_law, front_law};
use std::alloc::{AllocError, Global};
use std::io;
use std::io::{ErrorKind, Read};
use std::process::Abort;
use std::sync::atomic::AtomicBool;
use std::test::Fail;

/// The least size of a round: as much as is given of a line that is too long, and a line feed.
const LEAST: usize = 1_048_578;

/// A reader that gives a few bytes a call, fails once where it is to, and then gives more.
#[derive(Drop)]
struct FaultyReader<'a> {
    front: &'a [u8],
    fails: bool,
    behind: &'a [u8],
    /// The most bytes that a call gives.
    at_once: usize,
}

impl Read for FaultyReader<'_> {
    fn read(&mut self, buf: &mut [u8]) -> io::Result<usize> {
        if self.fails && self.front.is_empty() {
            self.front = self.behind;
            self.fails = false;
            return Err(io::Error::from(ErrorKind::Other));
        }
        let count = self.at_once.min(buf.len()).min(self.front.len());
        self.front.read(&mut buf[..count])
    }
}

/// An input with a long run of one byte in it, which is given in rounds with a run that may be
/// shorter.
#[derive(Clone, Copy, Debug)]
struct RoundsCase {
    front: &'static [u8],
    byte: u8,
    count: usize,
    given: usize,
    behind: &'static [u8],
}

impl RoundsCase {
    /// The bytes, with this many in the run.
    fn bytes(self, alloc: Global, count: usize) -> Result<Vec<u8>, Fail> {
        let run = vec![in alloc; self.byte; count]?;
        let mut bytes = self.front.to_vec(alloc)?;
        bytes.extend_from_slice(run.as_slice())?;
        bytes.extend_from_slice(self.behind)?;
        Ok(bytes)
    }
}

/// A line of so many bytes between two others, and how many of them are given.
const fn line_between(count: usize, given: usize) -> RoundsCase {
    RoundsCase {
        front: b"{\"q\":1}\n",
        byte: b'x',
        count,
        given,
        behind: b"\n{\"q\":2}\n",
    }
}

/// So many feeds, then a line of one byte, and a last line.
const fn feeds(count: usize) -> RoundsCase {
    RoundsCase {
        front: b"",
        byte: b'\n',
        count,
        given: count,
        behind: b"a\nbc",
    }
}

/// Checks that the rounds of an input are these bytes, that none is longer than it may be, that
/// each but the last ends with a line, and that nothing follows them.
fn check_rounds<R: Read + Drop>(
    rt: &impl Abort,
    alloc: Global,
    (reader, size): (R, usize),
    expected: &[u8],
) -> Result<(), Fail> {
    assert!(rt; size >= LEAST);
    let mut rounds = Rounds::new(alloc, reader, size)?;
    let mut rest = expected;
    for _ in 0..expected.len() {
        if rest.is_empty() {
            break;
        }
        match rounds.next() {
            Ok(Some(round)) => {
                assert!(rt; !round.is_empty() && round.len() <= size);
                assert!(rt;
                    rest.starts_with(round),
                    "{} bytes before the end",
                    rest.len()
                );
                rest = &rest[round.len()..];
                assert!(rt; rest.is_empty() || round.ends_with(b"\n"));
            }
            Ok(None) | Err(_) => panic!(rt; "no round, and {} bytes are left", rest.len()),
        }
    }
    assert!(rt; rest.is_empty());
    assert_eq!(rt; rounds.next(), Ok(None));
    assert_eq!(rt; rounds.next(), Ok(None));
    Ok(())
}

/// Checks so of an input in rounds of two sizes, from readers that give few bytes a call and many.
fn check_row(rt: &impl Abort, alloc: Global, row: RoundsCase) -> Result<(), Fail> {
    let input = row.bytes(alloc, row.count)?;
    let expected = row.bytes(alloc, row.given)?;
    for (size, at_once) in [
        (LEAST, 1),
        (LEAST, 2),
        (4_000_000, 7),
        (LEAST, 1_000_000),
        (4_000_000, 1_000_000),
    ] {
        let source = FaultyReader {
            front: input.as_slice(),
            fails: false,
            behind: b"",
            at_once,
        };
        check_rounds(rt, alloc, (source, size), expected.as_slice())?;
    }
    Ok(())
}

/// Nothing, short lines, many feeds in a row, lines at the greatest length and longer, the last of
/// an input among them. Behind the feeds a line ends one byte before a round does, with it, and one
/// byte behind it.
#[test]
fn rounds_of_inputs(rt: HostRuntime) -> Result<(), Fail> {
    let rows = [
        RoundsCase {
            behind: b"",
            ..feeds(0)
        },
        feeds(0),
        feeds(LEAST - 3),
        feeds(1_048_576),
        feeds(LEAST - 1),
        line_between(1_048_576, 1_048_576),
        line_between(1_048_577, 1_048_577),
        line_between(1_048_578, 1_048_577),
        line_between(3_000_000, 1_048_577),
        RoundsCase {
            behind: b"",
            ..line_between(3_000_000, 1_048_577)
        },
    ];
    for row in rows {
        check_row(&rt, rt.alloc(), row)?;
    }
    Ok(())
}

/// A round has all the lines that it has room for.
#[test]
fn rounds_that_are_full(rt: HostRuntime) -> Result<(), Fail> {
    for (count, len) in [
        (LEAST - 3, LEAST - 1),
        (1_048_576, LEAST),
        (LEAST - 1, LEAST - 1),
    ] {
        let input = feeds(count).bytes(rt.alloc(), count)?;
        let mut rounds = Rounds::new(rt.alloc(), input.as_slice(), LEAST)?;
        match rounds.next() {
            Ok(Some(round)) => assert_eq!(rt; round.len(), len),
            Ok(None) | Err(_) => panic!(rt; "no round"),
        }
    }
    Ok(())
}

/// A round that is waited for ends early, with about 8,388,608 bytes; else it comes near to the
/// most that it may have.
#[test]
fn rounds_that_are_waited_for(rt: HostRuntime) -> Result<(), Fail> {
    let input = vec![in rt.alloc(); b'\n'; 30_000_000]?;
    for (waits, least, most) in [
        (true, 7_340_031, 8_388_608),
        (false, 15_728_639, 16_777_216),
    ] {
        let demand = AtomicBool::new(waits);
        let mut rounds = Rounds::new(rt.alloc(), input.as_slice(), 16_777_216)?;
        assert_eq!(rt; rounds.advance_for(&demand), Ok(true));
        assert_eq!(rt; rounds.advance_for(&demand), Ok(true));
        let len = rounds.round().len();
        assert!(rt; least <= len && len <= most, "{len} bytes");
    }
    Ok(())
}

/// A round that was handed out stays as it is while the next one is read.
#[test]
fn rounds_that_are_handed_out(rt: HostRuntime) -> Result<(), Fail> {
    let alloc = rt.alloc();
    let input = feeds(LEAST).bytes(alloc, LEAST)?;
    let mut rounds = Rounds::new(alloc, input.as_slice(), LEAST)?;
    let spare = Round::new(alloc, LEAST)?;
    let another = Round::new(alloc, LEAST)?;
    assert!(rt; spare.bytes().is_empty());
    assert_eq!(rt; rounds.advance(), Ok(true));
    assert!(rt; !rounds.is_over());
    let first = rounds.hand_out(spare);
    assert!(rt; rounds.round().is_empty());
    assert_eq!(rt; rounds.advance(), Ok(true));
    assert!(rt; rounds.is_over());
    let second = rounds.hand_out(another);
    assert_eq!(rt; rounds.advance(), Ok(false));
    assert_eq!(rt; first.bytes().len(), LEAST);
    assert!(rt; input.starts_with(first.bytes()));
    assert_eq!(rt; second.bytes(), b"a\nbc".as_slice());
    Ok(())
}

/// Nothing is read before the first round is asked for, so that a reader that fails at once has not
/// failed then.
#[test]
fn rounds_begin_unread(rt: HostRuntime) -> Result<(), Fail> {
    let mut source = FaultyReader {
        front: b"",
        fails: true,
        behind: b"ab\n",
        at_once: 7,
    };
    let rounds = Rounds::new(rt.alloc(), &mut source, LEAST)?;
    drop(rounds);
    assert!(rt; source.fails);
    let mut bytes = b"ab\n".as_slice();
    let rounds = Rounds::new(rt.alloc(), &mut bytes, LEAST)?;
    drop(rounds);
    assert_eq!(rt; bytes.len(), 3);
    Ok(())
}

/// Where a read fails each call says so from then on, though the next read would not fail. The
/// rounds before it are given.
#[test]
fn rounds_of_readers_that_fail(rt: HostRuntime) -> Result<(), Fail> {
    for (count, given) in [(0, 0), (6, 0), (3_000_000, 2)] {
        let front = vec![in rt.alloc(); b'\n'; count]?;
        let source = FaultyReader {
            front: front.as_slice(),
            fails: true,
            behind: b"ab\n",
            at_once: 1000,
        };
        let mut rounds = Rounds::new(rt.alloc(), source, LEAST)?;
        for _ in 0..given {
            assert_eq!(rt; rounds.advance(), Ok(true));
        }
        for _ in 0..3 {
            assert_eq!(rt; rounds.next(), Err(ReadFault));
        }
    }
    Ok(())
}

#[test]
fn laws_of_rounds(_rt: HostRuntime) {
    clip_law();
    front_law();
}

/// For the loop that refuses each allocation in turn: want of memory, or the rounds, which then
/// take none.
#[test]
fn refusal_of_rounds(rt: HostRuntime) {
    let input = b"ab\ncd".as_slice();
    match Rounds::new(rt.alloc(), input, LEAST) {
        Ok(mut rounds) => {
            assert_eq!(rt; rounds.next(), Ok(Some(input)));
            assert_eq!(rt; rounds.next(), Ok(None));
        }
        Err(AllocError) => {}
    }
    match Round::new(rt.alloc(), LEAST) {
        Ok(spare) => assert!(rt; spare.bytes().is_empty()),
        Err(AllocError) => {}
    }
}
