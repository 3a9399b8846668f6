// Start and the events, on words that C lends: each answers the number of the engine's answer. Numbers stand for editions, kinds and
// refusals, since C hands in any byte, and an export may answer no enum: the C interface.
ghost use Rattle.rules.specs.declared.Event.TheVariants.{Load, Store, Drop, Ask, Order, Deliver, Copy, Rejoin};
ghost use Rattle.engine.specs.Promise.{Answers, Starts};
ghost use Rattle.firmware.specs.Editions.{StartsByte};
ghost use Rattle.firmware.specs.Halves.{Says};

use crate::halves::one_number;
use engine::events;
use engine::start::start_in;
use rules::Edition;
use words::layout::WORDS;

// The words become those of a new chassis of an edition and of so many cards and blocks; of none, where one of these is out of range.
pub fn coherence_start(state: &mut [u64; WORDS], edition: u8, cards: u8, blocks: u8) -> u64
    ensures { Says (λ r. StartsByte edition cards blocks r state.new) result }
{
    match Edition::try_from(edition) {
        Ok(edition) => start_one(state, edition, cards, blocks),
        // No edition is refused as no cards are.
        Err(_) => start_one(state, Edition::Msi, 0, 0),
    }
}

// The same, of an edition that there is.
fn start_one(state: &mut [u64; WORDS], edition: Edition, cards: u8, blocks: u8) -> u64
    ensures { Says (λ r. Starts edition cards blocks r state.new) result }
{
    one_number(start_in(state, edition, cards, blocks))
}

// A card reads its cell's value, and nothing changes.
pub fn coherence_load(state: &[u64; WORDS], card: u8, block: u8) -> u64
    ensures { Says (λ r. Answers state.now (Load card block) r state.now) result }
{
    one_number(events::load(state, card, block))
}

// A card writes its cell's value.
pub fn coherence_store(state: &mut [u64; WORDS], card: u8, block: u8, value: u32) -> u64
    ensures { Says (λ r. Answers state.old (Store card block value) r state.new) result }
{
    one_number(events::store(state, card, block, value))
}

// A card drops its copy, and home is not told.
pub fn coherence_drop(state: &mut [u64; WORDS], card: u8, block: u8) -> u64
    ensures { Says (λ r. Answers state.old (Drop card block) r state.new) result }
{
    one_number(events::drop(state, card, block))
}

// A card's request joins the line; the mask names the cards that are to see it.
pub fn coherence_ask(state: &mut [u64; WORDS], card: u8, block: u8, kind: u8, mask: u8) -> u64
    ensures { Says (λ r. Answers state.old (Ask card block kind mask) r state.new) result }
{
    one_number(events::ask(state, card, block, kind, mask))
}

// The request at the head of the line has its turn.
pub fn coherence_order(state: &mut [u64; WORDS]) -> u64
    ensures { Says (λ r. Answers state.old Order r state.new) result }
{
    one_number(events::order(state))
}

// A message of the pool reaches its receiver.
pub fn coherence_deliver(state: &mut [u64; WORDS], position: u8) -> u64
    ensures { Says (λ r. Answers state.old (Deliver position) r state.new) result }
{
    one_number(events::deliver(state, position))
}

// A message of the pool is there once more.
pub fn coherence_copy(state: &mut [u64; WORDS], position: u8) -> u64
    ensures { Says (λ r. Answers state.old (Copy position) r state.new) result }
{
    one_number(events::copy(state, position))
}

// A card starts anew: out of the line and the sharers, its blocks to home, its cells I.
pub fn coherence_rejoin(state: &mut [u64; WORDS], card: u8) -> u64
    ensures { Says (λ r. Answers state.old (Rejoin card) r state.new) result }
{
    one_number(events::rejoin(state, card))
}
