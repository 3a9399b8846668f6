// Looking at a chassis: nothing is changed. Each look takes any words, and answers 15 where they are not formed, before all else.
ghost use Rattle.std.specs.Prelude.{◌≡◌};
ghost use Rattle.engine.specs.Looking.{looks};
ghost use Rattle.engine.specs.Looking.{counts, message, request, cell, home};

use crate::chassis::View;
use crate::fields::{
    blocks, cards, edition, home_at, last, message_at, pooled, request_at, waiting,
};
use crate::{Counts, Seen};
use rules::Refusal;
use words::layout::WORDS;

// The sizes, how many wait and how many messages there are, and the last order number.
pub fn counts(state: &[u64; WORDS]) -> Result<Seen, Refusal>
    ensures { result ≡ looks state.now counts }
{
    View::of(state)?;
    Ok(Seen::Counts(Counts {
        edition: edition(state),
        cards: cards(state),
        blocks: blocks(state),
        waiting: waiting(state),
        pooled: pooled(state),
        last: last(state),
    }))
}

// A message of the pool. This look and the next are two: one over what waits would take the case of `Seen` and the look with it.
pub fn message(state: &[u64; WORDS], position: u8) -> Result<Seen, Refusal>
    ensures { result ≡ looks state.now (message position) }
{
    View::of(state)?;
    if pooled(state) <= position as u64 {
        return Err(Refusal::NoSuchMessage);
    }
    Ok(Seen::Message(message_at(state, position)))
}

// A request of the line.
pub fn request(state: &[u64; WORDS], position: u8) -> Result<Seen, Refusal>
    ensures { result ≡ looks state.now (request position) }
{
    View::of(state)?;
    if waiting(state) <= position as u64 {
        return Err(Refusal::NoSuchMessage);
    }
    Ok(Seen::Request(request_at(state, position)))
}

// A card's cell for a block.
pub fn cell(state: &[u64; WORDS], card: u8, block: u8) -> Result<Seen, Refusal>
    ensures { result ≡ looks state.now (cell card block) }
{
    let view = View::of(state)?;
    Ok(Seen::Cell(view.find(card, block)?))
}

// Home's part of a block.
pub fn home(state: &[u64; WORDS], block: u8) -> Result<Seen, Refusal>
    ensures { result ≡ looks state.now (home block) }
{
    View::of(state)?;
    if blocks(state) <= block as u64 {
        return Err(Refusal::NoSuchBlock);
    }
    Ok(Seen::Home(home_at(state, block)))
}
