// The request at the head of the line, and what is read for its turn before anything changes.
ghost use Rattle.std.specs.Prelude.{◌≡◌, true, ◌≤◌, ◌<◌};
ghost use Rattle.rules.specs.Numbers.{most_cards, most_blocks, last_retry};
ghost use Rattle.rules.specs.Formed.{home_or_card};
ghost use Rattle.words.specs.Words.{view, waiting_of, request_at};

use crate::chassis::View;
use crate::fields::{cards, cell_at, home_at, idle};
use rules::numbers::HOME;
use rules::{Cell, Home, Request};
use words::layout::WORDS;

// How many cards there are, home's part of the request's block, and the cells of the asker and of the owner: an idle one where that is home.
// The request is in range, the owner is home or a card, and an owner that asks has one cell: whatever takes a head knows it.
#[derive(Clone, Copy)]
pub(crate) struct Head {
    pub(crate) request: Request,
    pub(crate) cards: u64,
    pub(crate) home: Home,
    pub(crate) asker: Cell,
    pub(crate) owner: Cell,
    ghost few_cards: { cards ≤ most_cards },
    ghost card_there: { request.card < most_cards },
    ghost block_there: { request.block < most_blocks },
    ghost owner_there: { home_or_card most_cards home.owner ≡ true },
    ghost few_retries: { request.retry.0 ≤ last_retry.0 },
    ghost one_cell: { home.owner ≡ request.card → asker ≡ owner },
}

impl View<'_> {
    ghost use Rattle.engine.specs.Inner.Heads.{Reads};

    // What the words say of the request at the head.
    pub(crate) fn head(self, request: Request) -> Head
        requires { (0 < waiting_of self.words.now) × (request ≡ request_at self.words.now 0) }
        ensures { (result.request ≡ request) × Reads (view self.entry.words.now) result }
    {
        let s = self.words;
        let home = home_at(s, request.block);
        Head {
            request,
            cards: cards(s),
            home,
            asker: cell_at(s, request.card, request.block),
            owner: owner_cell(s, request.block, home.owner),
        }
    }
}

// The owner's cell, or an idle one where home is the owner. Another byte is no card, and a chassis says nothing of it.
fn owner_cell(s: &[u64; WORDS], block: u8, owner: u8) -> Cell
    requires { (block < most_blocks) × (home_or_card most_cards owner ≡ true) }
    ensures { result ≡ ((view s.now).block block).cell owner }
{
    if owner == HOME {
        return idle();
    }
    cell_at(s, owner, block)
}
