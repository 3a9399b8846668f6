// Rejoin, on words that are formed: the card's requests leave the line, and it leaves the blocks that are there.
ghost use Rattle.std.specs.Prelude.{◌≡◌, true, ◌≤◌, ◌<◌};
ghost use Rattle.rules.specs.Numbers.{most_cards, most_blocks, room};
ghost use Rattle.rules.specs.declared.Event.TheVariants.{Rejoin};
ghost use Rattle.words.specs.Words.{words, view, blocks_of, waiting_of, formed};
ghost use Rattle.words.specs.Inner.Parts.{Does, Becomes};
ghost use Rattle.engine.specs.Inner.Places.{without_request};
ghost use Rattle.words.specs.Inner.Leaving.{home_left, BlocksFit, blocks_left, line_left, BecomesIf};

use crate::chassis::Chassis;
use crate::fields::{blocks, cards, home_at, idle, put_cell, put_home, request_at, waiting};
use crate::lists::remove;
use crate::masks::{only, without};
use rules::numbers::{HOME, ROOM};
use rules::{Answer, Home, Refusal, Request};
use words::layout::WORDS;

impl Chassis<'_> {
    // The card leaves the line and every block.
    pub(crate) fn rejoin(&mut self, card: u8) -> Answer
        ensures same_words { self.new.words.ghost_name ≡ self.old.words.ghost_name }
        ensures done { Does self.old.words.now (Rejoin card) result self.new.words.now }
    {
        if cards(self.words) <= card as u64 {
            return Err(Refusal::NoSuchCard);
        }
        leave_line(self.words, card);
        leave_blocks(self.words, card);
        Ok(0)
    }
}

// The card's requests leave the line, from the tail on, so that those still to be looked at keep their places. No more wait than there is room
// for: with the room beside it, no read of a place tests whether its word is there.
fn leave_line(s: &mut [u64; WORDS], card: u8)
    requires { formed s.old ≡ true }
    ensures { s.new ≡ words (line_left (view s.old) card) }
{
    for place in (0..(waiting(s) as u8).min(ROOM as u8)).rev() {
        if request_at(s, place).card == card {
            take_out(s, place);
        }
    }
}

// A request leaves the line: in a call of its own, since the walk over the line, which rarely comes to one, would else carry along at each place
// what the removal needs.
#[inline(never)]
fn take_out(s: &mut [u64; WORDS], place: u8)
    requires { (place < waiting_of s.old) × (waiting_of s.old ≤ room) }
    ensures { Becomes s.old s.new (λ c. without_request c place) }
{
    remove::<Request>(s, place);
}

// The card leaves the blocks that are there: home's part first, then its cell. Its bounds are those of the stores (`put_cell`, `put_home`).
fn leave_blocks(s: &mut [u64; WORDS], card: u8)
    requires { (card < most_cards) × (blocks_of s.old ≤ most_blocks) }
    ensures { BecomesIf BlocksFit s.old s.new (λ c. blocks_left c card c.blocks) }
{
    for block in 0..blocks(s) as u8 {
        let home = home_at(s, block);
        put_home(s, block, home_without(home, card));
        put_cell(s, card, block, idle());
    }
}

// Home's part of a block without the card, which has a mask (`only`): the block goes to home where the card is its owner, and the card is no sharer.
fn home_without(home: Home, card: u8) -> Home
    requires { card < most_cards }
    ensures { result ≡ home_left home card }
{
    let owner = if home.owner == card { HOME } else { home.owner };
    Home {
        owner,
        sharers: without(home.sharers, only(card)),
        ..home
    }
}
