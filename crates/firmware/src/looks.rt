// Looking at a chassis: what is seen comes out as numbers, in what C lends for them; numbers stand for editions, kinds and refusals, too: the
// C interface.
ghost use Rattle.std.specs.Prelude.{◌≡◌};
ghost use Rattle.engine.specs.Looking.{counts, message, request, cell, home};
ghost use Rattle.firmware.specs.Looks.{seen_number, seen_numbers, seen_after, Shows};

use crate::halves::refused;
use engine::{Seen, looks};
use journal::numbers::refusal_no;
use rules::Refusal;
use words::layout::WORDS;

// How many numbers a look shows.
pub const SEEN: usize = 6;

// The numbers of what is seen.
fn numbers_of(what: Seen) -> [u64; SEEN]
    ensures { result ≡ seen_numbers what }
{
    match what {
        Seen::Counts(n) => [
            u8::from(n.edition) as u64,
            n.cards,
            n.blocks,
            n.waiting,
            n.pooled,
            n.last.0,
        ],
        Seen::Message(m) => [
            m.sender as u64,
            m.receiver as u64,
            m.block as u64,
            m.value as u64,
            m.number.0,
            0,
        ],
        Seen::Request(r) => [
            r.card as u64,
            r.block as u64,
            r.kind as u64,
            r.mask as u64,
            r.retry.0 as u64,
            0,
        ],
        Seen::Cell(x) => [x.state as u64, x.value as u64, x.awaits.0, 0, 0, 0],
        Seen::Home(h) => [h.memory as u64, h.owner as u64, h.sharers as u64, 0, 0, 0],
    }
}

// Lends the numbers of what is seen; a refusal keeps those that there were.
fn show(what: Result<Seen, Refusal>, seen: &mut [u64; SEEN]) -> u64
    ensures { (result ≡ seen_number what) × (seen.new ≡ seen_after seen.old what) }
{
    match what {
        Ok(one) => {
            *seen = numbers_of(one);
            0
        }
        Err(refusal) => refused(refusal_no(refusal)),
    }
}

// The edition, the sizes, how many wait and how many messages there are, and the last order number.
pub fn coherence_counts(state: &[u64; WORDS], seen: &mut [u64; SEEN]) -> u64
    ensures { Shows state.now counts seen.old result seen.new }
{
    show(looks::counts(state), seen)
}

// A message of the pool.
pub fn coherence_message(state: &[u64; WORDS], position: u8, seen: &mut [u64; SEEN]) -> u64
    ensures { Shows state.now (message position) seen.old result seen.new }
{
    show(looks::message(state, position), seen)
}

// A request of the line.
pub fn coherence_request(state: &[u64; WORDS], position: u8, seen: &mut [u64; SEEN]) -> u64
    ensures { Shows state.now (request position) seen.old result seen.new }
{
    show(looks::request(state, position), seen)
}

// A card's cell for a block.
pub fn coherence_cell(state: &[u64; WORDS], card: u8, block: u8, seen: &mut [u64; SEEN]) -> u64
    ensures { Shows state.now (cell card block) seen.old result seen.new }
{
    show(looks::cell(state, card, block), seen)
}

// Home's part of a block.
pub fn coherence_home(state: &[u64; WORDS], block: u8, seen: &mut [u64; SEEN]) -> u64
    ensures { Shows state.now (home block) seen.old result seen.new }
{
    show(looks::home(state, block), seen)
}
