// Replays each journal that an argument names: its name, and then its lines.
#![tactic(auto)]

use arrayvec::ArrayString;
use bench::{JOURNAL_ROOM, ReplayError, replay};
use std::env::{Env, FillError};
use std::fmt::Write as _;
use std::fs::File;
use std::io;
use std::io::{ErrorKind, Read, Write};

// The room for an argument, and the room for what the system says of an error.
const PATH_ROOM: usize = 4096;

const REASON_ROOM: usize = 512;

// The system's number for a name that is too long: ENAMETOOLONG.
const NAME_TOO_LONG: i32 = 36;

// A reader or a writer that keeps why its last call failed. A replay tells only that one did, so that what was moved decides its answer
// (`ReplaysUnique.answer`).
#[derive(Drop)]
struct Told<T> {
    stream: T,
    error: Option<io::Error>,
}

impl<R: Read> Read for Told<R> {
    ghost remaining = { λ told. R.remaining told.stream };

    fn read(&mut self, buf: &mut [u8]) -> io::Result<usize> {
        let got = self.stream.read(buf);
        self.error = got.err();
        got
    }
}

impl<W: Write> Write for Told<W> {
    ghost contents = { λ told. W.contents told.stream };

    fn write(&mut self, buf: &[u8]) -> io::Result<usize> {
        let took = self.stream.write(buf);
        self.error = took.err();
        took
    }

    fn flush(&mut self) -> io::Result<()> {
        self.stream.flush()
    }
}

fn main(rt: HostRuntime) {
    let mut path = [0u8; PATH_ROOM];
    // std's iterator over the arguments allocates.
    for i in 1..usize::MAX {
        match rt.arg(i, &mut path) {
            Ok(length) => play(&rt, &path[..length]),
            Err(FillError::NotPresent) => return,
            Err(FillError::TooLong) => fail(
                &rt,
                b"journals: an argument",
                io::Error::from_raw_os_error(NAME_TOO_LONG),
            ),
        }
    }
}

// The journal that an argument names.
fn play(rt: &HostRuntime, path: &[u8]) {
    if let Err(error) = try_play(rt, path) {
        fail(rt, path, error);
    }
}

// The same, with why it failed.
fn try_play(rt: &HostRuntime, path: &[u8]) -> io::Result<()> {
    let name = str::from_utf8(path).map_err(|_| io::Error::new(
        ErrorKind::InvalidInput,
        "the name is not UTF-8",
    ))?;
    let mut from = Told {
        stream: File::open(rt, name)?,
        error: None,
    };
    let mut to = Told {
        stream: rt.stdout(),
        error: None,
    };
    // As much of the name as is taken; whether its lines are taken is told below.
    let _ = to.stream.write_all(path);
    let _ = to.stream.write_all(b"\n");
    let mut journal = [0u8; JOURNAL_ROOM];
    match replay(&mut from, &mut to, &mut journal) {
        Ok(_) => Ok(()),
        Err(ReplayError::NotRead) => Err(from.error.unwrap_or(io::Error::from(ErrorKind::Other))),
        Err(ReplayError::NotWritten(_)) => Err(
            to.error.unwrap_or(io::Error::from(ErrorKind::WriteZero)),
        ),
    }
}

// Tells on standard error what failed, and why: in the system's words, without the number that `io::Error` puts behind them.
fn fail(rt: &HostRuntime, what: &[u8], error: io::Error) {
    let mut said = ArrayString::<REASON_ROOM>::new();
    let _ = write!(said, "{error}");
    let said = said.as_str();
    let reason = said
        .split_once(" (os error ")
        .map_or(said, |(words, _)| words);
    let mut to = rt.stderr();
    let _ = to.write_all(what);
    let _ = writeln!(to, ": {reason}");
}
