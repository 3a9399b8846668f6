// Replays the journal on standard input: one line a record on standard output.
#![tactic(auto)]

use bench::{JOURNAL_ROOM, replay};

fn main(rt: HostRuntime) {
    let mut journal = [0u8; JOURNAL_ROOM];
    if let Err(error) = replay(&mut rt.stdin(), &mut rt.stdout(), &mut journal) {
        // What cannot be told on standard error is not told.
        let _ = eprintln!(rt; "replay: {error}");
    }
}
