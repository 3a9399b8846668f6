// Start and the events, on words that C lends: each answers the number of the engine's answer. Numbers stand for kinds and refusals: the C
// interface.
ghost use Rattle.rules.specs.declared.Event.TheVariants.{Load, Store, Drop, Ask, Order, Deliver, Copy, Rejoin};
ghost use Rattle.engine.specs.Promise.{Answers};
ghost use Rattle.firmware.specs.Editions.{StartsByte};
ghost use Rattle.firmware.specs.Halves.{Says};

use words::layout::WORDS;

// The words become those of a new chassis of an edition and of so many cards and blocks; of none, where one of these is out of range.
#[unsafe(no_mangle)]
pub extern "C" fn coherence_start(
    state: &mut [u64; WORDS],
    edition: u8,
    cards: u8,
    blocks: u8,
) -> u64
    ensures { Says (λ r. StartsByte edition cards blocks r state.new) result }
{
    firmware::chassis::coherence_start(state, edition, cards, blocks)
}

// A card reads its cell's value, and nothing changes.
#[unsafe(no_mangle)]
pub extern "C" fn coherence_load(state: &[u64; WORDS], card: u8, block: u8) -> u64
    ensures { Says (λ r. Answers state.now (Load card block) r state.now) result }
{
    firmware::chassis::coherence_load(state, card, block)
}

// A card writes its cell's value.
#[unsafe(no_mangle)]
pub extern "C" fn coherence_store(state: &mut [u64; WORDS], card: u8, block: u8, value: u32) -> u64
    ensures { Says (λ r. Answers state.old (Store card block value) r state.new) result }
{
    firmware::chassis::coherence_store(state, card, block, value)
}

// A card drops its copy, and home is not told.
#[unsafe(no_mangle)]
pub extern "C" fn coherence_drop(state: &mut [u64; WORDS], card: u8, block: u8) -> u64
    ensures { Says (λ r. Answers state.old (Drop card block) r state.new) result }
{
    firmware::chassis::coherence_drop(state, card, block)
}

// A card's request joins the line; the mask names the cards that are to see it.
#[unsafe(no_mangle)]
pub extern "C" fn coherence_ask(
    state: &mut [u64; WORDS],
    card: u8,
    block: u8,
    kind: u8,
    mask: u8,
) -> u64
    ensures { Says (λ r. Answers state.old (Ask card block kind mask) r state.new) result }
{
    firmware::chassis::coherence_ask(state, card, block, kind, mask)
}

// The request at the head of the line has its turn.
#[unsafe(no_mangle)]
pub extern "C" fn coherence_order(state: &mut [u64; WORDS]) -> u64
    ensures { Says (λ r. Answers state.old Order r state.new) result }
{
    firmware::chassis::coherence_order(state)
}

// A message of the pool reaches its receiver.
#[unsafe(no_mangle)]
pub extern "C" fn coherence_deliver(state: &mut [u64; WORDS], position: u8) -> u64
    ensures { Says (λ r. Answers state.old (Deliver position) r state.new) result }
{
    firmware::chassis::coherence_deliver(state, position)
}

// A message of the pool is there once more.
#[unsafe(no_mangle)]
pub extern "C" fn coherence_copy(state: &mut [u64; WORDS], position: u8) -> u64
    ensures { Says (λ r. Answers state.old (Copy position) r state.new) result }
{
    firmware::chassis::coherence_copy(state, position)
}

// A card starts anew: out of the line and the sharers, its blocks to home, its cells I.
#[unsafe(no_mangle)]
pub extern "C" fn coherence_rejoin(state: &mut [u64; WORDS], card: u8) -> u64
    ensures { Says (λ r. Answers state.old (Rejoin card) r state.new) result }
{
    firmware::chassis::coherence_rejoin(state, card)
}
