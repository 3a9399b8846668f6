// Records written into a lent buffer and read from it: each kind, where there is no room, and what is not read.
#![tactic(auto)]

use journal::Record;
use journal::numbers::{damage_no, written_no};
use journal::reading::{place_after, read};
use journal::writing::write;
use rules::{Edition, Event};

// The length of each buffer, and the byte that a fresh one is filled with.
const ROOM: usize = 16;

const FILLER: u8 = 170;

// The opening of each edition, of 8 cards and 32 blocks at place 2.
const OPENINGS: [(&str, Edition); 2] = [
    ("opening of 8 and 32", Edition::Msi),
    ("MOSI opening of 8 and 32", Edition::Mosi),
];

// 21, 22 twice, 23 twice and 20, in buffers that no writer made: the bytes at a place.
const DAMAGE: [(&str, usize, &[u8]); 6] = [
    ("tag 24", 2, &[24, 0, 2, 255, 3]),
    ("length 3", 2, &[16, 0, 3, 255, 3]),
    ("length 258", 2, &[16, 1, 2, 255, 3]),
    ("opening coh2", 2, &[1, 0, 6, b'c', b'o', b'h', b'2', 8, 32]),
    ("opening noh1", 2, &[1, 0, 6, b'n', b'o', b'h', b'1', 8, 32]),
    ("load cut short", 12, &[16, 0, 2, 255]),
];

// Each group in a row, told piece by piece: a piece that cannot be told is not told, and the next is told all the same.
fn main(rt: HostRuntime) {
    for (name, edition) in OPENINGS {
        let opening = Record::Opening {
            edition,
            cards: 8,
            blocks: 32,
        };
        tell(&rt, name, 2, opening);
    }
    for (name, at, event) in events() {
        tell(&rt, name, at, Record::Happens(event));
    }
    for (name, at, bytes) in DAMAGE {
        damaged(&rt, name, at, bytes);
    }
}

// The events that stay within a card, those of the line and the pool, and Rejoin; then a load that just fits, and 24: the rest too short, or
// none. Each with its name, and the place where it is written.
fn events() -> [(&'static str, usize, Event); 15] {
    let load = Event::Load {
        card: 255,
        block: 3,
    };
    let dropped = Event::Drop {
        card: 254,
        block: 255,
    };
    let ask = Event::Ask {
        card: 5,
        block: 6,
        kind: 3,
        mask: 255,
    };
    [
        ("load", 2, load),
        ("store of 4294967295", 2, store(255, 4294967295)),
        ("store of 16909060", 2, store(31, 16909060)),
        ("drop", 2, dropped),
        ("ask", 2, ask),
        ("order", 2, Event::Order),
        ("deliver", 2, Event::Deliver { position: 255 }),
        ("copy", 2, Event::Copy { position: 63 }),
        ("rejoin", 2, Event::Rejoin { card: 128 }),
        ("load at 11", 11, load),
        ("load at 12", 12, load),
        ("order at 14", 14, Event::Order),
        ("load at 16", 16, load),
        ("load at 17", 17, load),
        ("load at 2^64 - 1", usize::MAX, load),
    ]
}

// A store by card 7.
fn store(block: u8, value: u32) -> Event {
    Event::Store {
        card: 7,
        block,
        value,
    }
}

// Writes a record at a place of a fresh buffer, and tells the answer, the bytes, and what is read there.
fn tell(rt: &impl Print, name: &str, at: usize, one: Record) {
    let mut buffer = [FILLER; ROOM];
    let answer = write(&mut buffer, at, one);
    begin(rt, name);
    match answer {
        Ok(place) => {
            say(rt, " up to");
            number(rt, place as u64);
        }
        Err(_) => {
            say(rt, " refused");
            number(rt, written_no(answer) as u64);
        }
    }
    say(rt, ",");
    say_read(rt, &buffer, at);
}

// Tells what is read of bytes at a place of a buffer.
fn damaged(rt: &impl Print, name: &str, at: usize, bytes: &[u8]) {
    let mut buffer = [FILLER; ROOM];
    for (place, byte) in buffer.iter_mut().skip(at).zip(bytes) {
        *place = *byte;
    }
    begin(rt, name);
    say_read(rt, &buffer, at);
}

// The bytes of a buffer, what is read at a place of it (a record, nothing more, or the number of the damage), and the place to read at next.
fn say_read(rt: &impl Print, buffer: &[u8; ROOM], at: usize) {
    say(rt, " bytes");
    for byte in buffer {
        number(rt, *byte as u64);
    }
    say(rt, ", read");
    let found = read(buffer, at);
    match found {
        Ok(Some((one, _))) => say(rt, again(buffer, at, one)),
        Ok(None) => say(rt, " end"),
        Err(damage) => {
            say(rt, " refused");
            number(rt, damage_no(damage) as u64);
        }
    }
    say(rt, ", place");
    number(rt, place_after(found, at) as u64);
    say(rt, "\n");
}

// The record that was read is written at its place of a fresh buffer: the same bytes again, or not.
fn again(buffer: &[u8; ROOM], at: usize, one: Record) -> &'static str {
    let mut again = [FILLER; ROOM];
    let _ = write(&mut again, at, one);
    if again == *buffer {
        " the same again"
    } else {
        " another"
    }
}

// The name of a check.
fn begin(rt: &impl Print, name: &str) {
    say(rt, name);
    say(rt, ":");
}

// A piece of a line.
fn say(rt: &impl Print, piece: &str) {
    let _ = rt.write_all(piece.as_bytes());
}

// A number, with a space before it.
fn number(rt: &impl Print, n: u64) {
    say(rt, " ");
    let _ = print!(rt; "{n}");
}
