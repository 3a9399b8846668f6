// Whole replays between streams that give and take little at a time, or fail. The journal and its lines are the program `replay`'s stdin and
// stdout.
use super::*;
use std::io;
use std::io::{Cursor, ErrorKind, Read, Write};

const JOURNAL: &[u8] =
    b"\x01\0\x06coh1\x02\x01\x12\0\x04\0\0\x02\0\x14\0\0\x15\0\x01\0\x11\0\x06\0\0\0\0\0\x07\x10\0\x02\x01\0\x10\0\x02\0\0";

const LINES: &[u8] = b"0 0 0\n1 0 0\n2 0 1\n3 0 1\n4 0 0\n5 3 0\n6 0 7\n";

// Gives a few bytes at a time, and where they are all given, its end or a failure.
#[derive(Drop)]
struct Short<'a> {
    left: &'a [u8],
    breaks: bool,
}

impl<'a> Read for Short<'a> {
    fn read(&mut self, buf: &mut [u8]) -> io::Result<usize> {
        if self.breaks && self.left.is_empty() {
            return Err(io::Error::from(ErrorKind::Other));
        }
        let few = buf.len().min(5);
        self.left.read(&mut buf[..few])
    }
}

// Takes a few bytes at a time.
#[derive(Drop)]
struct Slow<W> {
    to: W,
}

impl<W: Write> Write for Slow<W> {
    fn write(&mut self, buf: &[u8]) -> io::Result<usize> {
        self.to.write(&buf[..buf.len().min(4)])
    }

    fn flush(&mut self) -> io::Result<()> {
        self.to.flush()
    }
}

// What came of a replay from a reader that may break into a writer with so much room: the answer in words and numbers, and what was taken.
fn told<const N: usize>(breaks: bool) -> (bool, usize, usize, [u8; N]) {
    let mut from = Short {
        left: JOURNAL,
        breaks,
    };
    let mut to = Slow {
        to: Cursor::new([0u8; N]),
    };
    let mut journal = [0u8; JOURNAL_ROOM];
    let (whole, moved) = match replay(&mut from, &mut to, &mut journal) {
        Ok(moved) => (true, moved),
        Err(ReplayError::NotWritten(moved)) => (false, moved),
        Err(ReplayError::NotRead) => (false, Moved { read: 0, taken: 0 }),
    };
    (whole, moved.read, moved.taken, to.to.into_inner())
}

#[test]
fn writes_every_line(rt: HostRuntime) {
    let (whole, read, taken, lines) = told::<42>(false);
    assert!(rt; whole);
    assert_eq!(rt; read, 42);
    assert_eq!(rt; taken, 42);
    assert_eq!(rt; &lines[..], LINES);
}

#[test]
fn tells_that_the_writer_is_full(rt: HostRuntime) {
    let (whole, read, taken, lines) = told::<10>(false);
    assert!(rt; !whole);
    assert_eq!(rt; read, 42);
    assert_eq!(rt; taken, 10);
    assert_eq!(rt; &lines[..], &LINES[..10]);
}

#[test]
fn writes_nothing_where_reading_fails(rt: HostRuntime) {
    let (whole, read, taken, lines) = told::<10>(true);
    assert!(rt; !whole);
    assert_eq!(rt; read, 0);
    assert_eq!(rt; taken, 0);
    assert_eq!(rt; lines, [0u8; 10]);
}
