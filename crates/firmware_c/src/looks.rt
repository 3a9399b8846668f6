// Looking at a chassis: what is seen comes out as numbers, in what C lends for them. Numbers stand for kinds and refusals: the C
// interface.
ghost use Rattle.engine.specs.Looking.{counts, message, request, cell, home};
ghost use Rattle.firmware.specs.Looks.{Shows};

use firmware::looks::SEEN;
use words::layout::WORDS;

// The edition, the sizes, how many wait and how many messages there are, and the last order number.
#[unsafe(no_mangle)]
pub extern "C" fn coherence_counts(state: &[u64; WORDS], seen: &mut [u64; SEEN]) -> u64
    ensures { Shows state.now counts seen.old result seen.new }
{
    firmware::looks::coherence_counts(state, seen)
}

// A message of the pool.
#[unsafe(no_mangle)]
pub extern "C" fn coherence_message(
    state: &[u64; WORDS],
    position: u8,
    seen: &mut [u64; SEEN],
) -> u64
    ensures { Shows state.now (message position) seen.old result seen.new }
{
    firmware::looks::coherence_message(state, position, seen)
}

// A request of the line.
#[unsafe(no_mangle)]
pub extern "C" fn coherence_request(
    state: &[u64; WORDS],
    position: u8,
    seen: &mut [u64; SEEN],
) -> u64
    ensures { Shows state.now (request position) seen.old result seen.new }
{
    firmware::looks::coherence_request(state, position, seen)
}

// A card's cell for a block.
#[unsafe(no_mangle)]
pub extern "C" fn coherence_cell(
    state: &[u64; WORDS],
    card: u8,
    block: u8,
    seen: &mut [u64; SEEN],
) -> u64
    ensures { Shows state.now (cell card block) seen.old result seen.new }
{
    firmware::looks::coherence_cell(state, card, block, seen)
}

// Home's part of a block.
#[unsafe(no_mangle)]
pub extern "C" fn coherence_home(state: &[u64; WORDS], block: u8, seen: &mut [u64; SEEN]) -> u64
    ensures { Shows state.now (home block) seen.old result seen.new }
{
    firmware::looks::coherence_home(state, block, seen)
}
