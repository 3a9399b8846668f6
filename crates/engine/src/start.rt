// Start: the words of a new chassis.
ghost use Rattle.std.specs.Prelude.{◌≡◌};
ghost use Rattle.rules.specs.Chassis.{no_chassis};
ghost use Rattle.words.specs.Words.{words};
ghost use Rattle.engine.specs.Promise.{Starts};

use crate::fields::{put_home, set_blocks, set_cards, set_edition};
use crate::formed::are_sizes;
use rules::numbers::{HOME, MOST_BLOCKS};
use rules::{Answer, Edition, Home, Refusal};
use words::layout::WORDS;

// What Start answers, and the words that it makes. Two fields and no Result of the words: `Starts` says what the words of a refusal are, too.
#[derive(Clone, Copy)]
pub struct Started {
    pub answer: Answer,
    pub state: [u64; WORDS],
}

// A chassis of an edition and of so many cards and blocks; of none, where these are out of range.
pub fn start(edition: Edition, cards: u8, blocks: u8) -> Started
    ensures { Starts edition cards blocks result.answer result.state }
{
    let mut state: [u64; WORDS] = [0; WORDS];
    let answer = start_in(&mut state, edition, cards, blocks);
    Started { answer, state }
}

// The same, in words that the caller lends: what was in them is gone, also where it refuses.
pub fn start_in(state: &mut [u64; WORDS], edition: Edition, cards: u8, blocks: u8) -> Answer
    ensures { Starts edition cards blocks result state.new }
{
    start_none(state);
    if !are_sizes(cards as u64, blocks as u64) {
        return Err(Refusal::NoSuchSize);
    }
    set_edition(state, edition);
    set_cards(state, cards as u64);
    set_blocks(state, blocks as u64);
    Ok(0)
}

// The words of a chassis of no cards and no blocks.
pub(crate) fn start_none(state: &mut [u64; WORDS])
    ensures { state.new ≡ words no_chassis }
{
    *state = [0; WORDS];
    for block in 0..MOST_BLOCKS {
        put_home(
            state,
            block,
            Home {
                memory: 0,
                owner: HOME,
                sharers: 0,
            },
        );
    }
}
