// What the paper says is run, on the engine that is linked: the script on stdin, line by line; what it tells is held to the file stdout.
#![tactic(auto)]

ghost use Rattle.std.specs.Prelude.{◌≤◌, length};

mod image;
mod lines;
mod named;
mod play;
mod report;

use crate::image::fresh;
use crate::lines::Line;
use crate::play::{Checks, KEPT};
use std::io::Read;
use words::layout::WORDS;

// How many bytes of a script are played; those behind them are not read.
const SCRIPT_ROOM: usize = 65536;

// Each line of the script in a row; an empty one says nothing, and is seen here, so that it costs no call.
fn main(rt: HostRuntime) {
    let mut script = [0u8; SCRIPT_ROOM];
    let length = read_script(&mut rt.stdin(), &mut script);
    let mut state = fresh(0, 0, 0);
    let mut expected = fresh(0, 0, 0);
    let mut kept = [[0u64; WORDS]; KEPT];
    let mut checks = Checks::new(&mut state, &mut expected, &mut kept);
    for line in script[..length].split(|byte| *byte == b'\n') {
        if let Some((letter, rest)) = line.split_first() {
            checks.play(&rt, line, Line::new(*letter, rest));
        }
    }
}

// Reads until the room is full, the input ends or a read fails: how many bytes there are. The bench, which reads so too, is no library of this
// crate's. Of the library's methods `read_exact` does not say how many, and `read_to_end` has them on the heap.
fn read_script(from: &mut impl Read, room: &mut [u8]) -> usize
    ensures { result ≤ length room.new }
{
    let mut read = 0;
    while read < room.len() {
        match from.read(&mut room[read..]) {
            Ok(count) if count > 0 => read += count,
            _ => break,
        }
    }
    read
}
