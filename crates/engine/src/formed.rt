// Refusal 15: whether words are those of a well formed chassis, tested item by item.
ghost use Rattle.std.specs.Prelude.{◌≡◌, true, false, ◌&&◌, ◌+◌, ◌^◌, ◌≤◌, ◌<◌, length, MatchOption};
ghost use Rattle.rules.specs.Tests.{all};
ghost use Rattle.rules.specs.Masks.{inside};
ghost use Rattle.rules.specs.Numbers.{most_cards, most_blocks, room, states_in};
ghost use Rattle.rules.specs.declared.Edition.{Edition};
ghost use Rattle.rules.specs.Formed.{sizes, home_or_card, ok_cell, ok_request, ok_message};
ghost use Rattle.words.specs.Words.{cards_of, blocks_of, last_of, formed};
ghost use Rattle.words.specs.Inner.Tested.{row_is, head_test, cell_test, block_test};

use crate::fields::{
    Item, blocks, cards, cell_at, home_at, last, pooled, states, waiting, word_at,
};
use crate::lists::Waits;
use crate::masks::{every, inside};
use crate::places::{cell_place, home_place};
use rules::numbers::{GETS, HOME, LAST_RETRY, MOSI, MOST_BLOCKS, MOST_CARDS, PUTX, ROOM};
use rules::table::{loads, waits};
use rules::{Cell, Home, Message, OrderNo, Request};
use words::layout::{EDITION_AT, WORDS};

// The words from a place on are these. Each is tested with `&` and no branch: slices that are compared bring `memcmp`, which the archive has not
// (`.ci/firmware`).
fn row_is(s: &[u64; WORDS], at: usize, row: &[u64]) -> bool
    requires { at + length row.now < 2 ^ 32 }
    ensures { result ≡ row_is s.now at row.now }
{
    let mut same = true;
    for (i, word) in row.iter().enumerate() {
        same = same & (word_at(s, at + i) == *word);
    }
    same
}

// The sizes that there are.
pub(crate) fn are_sizes(cards: u64, blocks: u64) -> bool
    ensures { result ≡ sizes cards blocks }
{
    (1 <= cards) & (cards <= MOST_CARDS as u64) & (1 <= blocks) & (blocks <= MOST_BLOCKS as u64)
}

// Home or a card that is there.
fn home_or_card(k: u8, cards: u64) -> bool
    ensures { result ≡ home_or_card cards k }
{
    (k == HOME) | ((k as u64) < cards)
}

// A cell of a card that is there, in a chassis of so many states. Order numbers are compared by their words here and below: crate rules derives
// no comparison for them (`loads-wired`).
fn ok_cell(x: Cell, states: usize, last: OrderNo) -> bool
    ensures { (e : Edition) → states ≡ states_in e → result ≡ ok_cell e last x }
{
    let n = x.awaits;
    let w = waits(x.state);
    let l = loads(x.state);
    ((x.state as usize) < states)
        & (n.0 <= last.0)
        & (!w | (n.0 != 0))
        & (w | (n.0 == 0))
        & (l | (x.value == 0))
}

// The header.
fn head_formed(s: &[u64; WORDS]) -> bool
    ensures { result ≡ head_test s.now }
{
    (word_at(s, EDITION_AT) <= MOSI as u64)
        & are_sizes(cards(s), blocks(s))
        & (waiting(s) <= ROOM as u64)
        & (pooled(s) <= ROOM as u64)
}

// A cell, where so many cards have one: its words are those of what is read, and that is well formed; or they are those of an idle cell.
fn cell_formed(s: &[u64; WORDS], card: u8, block: u8, cards: u64) -> bool
    ensures { result ≡ cell_test s.now cards block card }
{
    let p = cell_place(card, block);
    if (card as u64) < cards {
        let x = cell_at(s, card, block);
        return row_is(s, p, &x.row()) & ok_cell(x, states(s), last(s));
    }
    row_is(s, p, &[0, 0, 0])
}

// The cells of a block that so many cards have cells of: of one that is not there, none. Here and below each is tested with `&`: with `all`,
// which ends at the first that fails, the compiler tests word by word, and the whole test takes 1.5 to 2.4 times the instructions.
fn cells_formed(s: &[u64; WORDS], block: u8, cards: u64) -> bool
    ensures { result ≡ all most_cards (cell_test s.now cards block) }
{
    let mut ok = true;
    for card in 0..MOST_CARDS {
        ok = ok & cell_formed(s, card, block, cards);
    }
    ok
}

// Words whose header is formed: they have no more cards than there is room for.
#[derive(Clone, Copy)]
pub(crate) struct Headed<'a> {
    state: &'a [u64; WORDS],
    ghost few: { cards_of state.now ≤ most_cards },
}

// The words, where their header is formed.
fn with_header(s: &[u64; WORDS]) -> Option<Headed>
    ensures { MatchOption result (head_test s.now ≡ false) (λ h. (head_test s.now ≡ true) × (h.state.now ≡ s.now)) }
{
    if head_formed(s) {
        return Some(Headed { state: s });
    }
    None
}

impl<'a> Headed<'a> {
    // Home's part of a block that is there.
    fn ok_home(self, h: Home) -> bool
        ensures { result ≡ (home_or_card (cards_of self.entry.state.now) h.owner && inside (cards_of self.entry.state.now) h.sharers) }
    {
        let n = cards(self.state);
        home_or_card(h.owner, n) & inside(h.sharers, n)
    }

    // A request in the line.
    pub(crate) fn ok_request(self, r: Request) -> bool
        ensures { result ≡ ok_request (cards_of self.entry.state.now) (blocks_of self.entry.state.now) r }
    {
        let n = r.retry;
        let number = cards(self.state);
        let all = every(number);
        ((r.card as u64) < number)
            & ((r.block as u64) < blocks(self.state))
            & (GETS <= r.kind)
            & (r.kind <= PUTX)
            & (r.mask <= all)
            & (n.0 <= LAST_RETRY)
            & ((n.0 != LAST_RETRY) | (r.mask == all))
    }

    // A message in the pool.
    pub(crate) fn ok_message(self, m: Message) -> bool
        ensures { result ≡ ok_message (cards_of self.entry.state.now) (blocks_of self.entry.state.now) (last_of self.entry.state.now) m }
    {
        let n = m.number;
        let last = last(self.state);
        let number = cards(self.state);
        home_or_card(m.sender, number)
            & ((m.receiver as u64) < number)
            & ((m.block as u64) < blocks(self.state))
            & (n.0 != 0)
            & (n.0 <= last.0)
    }

    // A block: home's part, and the cells.
    fn block_formed(self, block: u8) -> bool
        ensures { result ≡ block_test self.entry.state.now block }
    {
        let s = self.state;
        let p = home_place(block);
        if (block as u64) < blocks(s) {
            let h = home_at(s, block);
            return row_is(s, p, &h.row()) & self.ok_home(h) & cells_formed(s, block, cards(s));
        }
        row_is(s, p, &[0, HOME as u64, 0]) & cells_formed(s, block, 0)
    }

    // The blocks.
    fn blocks_formed(self) -> bool
        ensures { result ≡ all most_blocks (block_test self.entry.state.now) }
    {
        let mut ok = true;
        for block in 0..MOST_BLOCKS {
            ok = ok & self.block_formed(block);
        }
        ok
    }

    // A place of the line or of the pool: what waits there, or zeros.
    fn place_formed<T: Waits>(self, place: u8) -> bool
        ensures { result ≡ T.tested self.entry.state.now place }
    {
        let s = self.state;
        let p = T::place(place);
        if (place as u64) < T::count(s) {
            let x = T::at(s, place);
            return row_is(s, p, &x.row()) & x.is_ok(self);
        }
        row_is(s, p, &[0, 0, 0, 0, 0])
    }

    // All places of the line, or of the pool.
    fn places_formed<T: Waits>(self) -> bool
        ensures { result ≡ all room (T.tested self.entry.state.now) }
    {
        let mut ok = true;
        for place in 0..ROOM as u8 {
            ok = ok & self.place_formed::<T>(place);
        }
        ok
    }
}

// The words are those of a well formed chassis.
pub(crate) fn is_formed(s: &[u64; WORDS]) -> bool
    ensures { result ≡ formed s.now }
{
    match with_header(s) {
        Some(h) => {
            h.blocks_formed() & h.places_formed::<Request>() & h.places_formed::<Message>()
        }
        None => false,
    }
}
