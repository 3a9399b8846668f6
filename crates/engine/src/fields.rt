// The fields of a chassis in its words: each is read and stored in one place. Items are structs by value.
ghost use Rattle.std.specs.Prelude.{◌≡◌, ℕ, List, get_or, set, ◌+◌, ◌≤◌, ◌<◌};
ghost use Rattle.std.proofs.lemmas.List.Edits.{sets};
ghost use Rattle.rules.specs.Numbers.{most_cards, most_blocks, edition_no, states_in};
ghost use Rattle.rules.specs.Chassis.{idle};
ghost use Rattle.words.specs.Layout.{edition_at, cards_at, blocks_at, waiting_at, pooled_at, last_at, all_words};
ghost use Rattle.words.specs.Words.{
  edition_of,
  cards_of,
  blocks_of,
  waiting_of,
  pooled_of,
  last_of,
  as_byte,
  as_mask,
  as_value,
  cell_at,
  memory_at,
  owner_at,
  sharers_at,
  request_at,
  message_at,
  cell_row,
  home_row,
  request_row,
  message_row,
};
ghost use Rattle.words.specs.Inner.Parts.{put_cell, put_home};

use crate::places::{cell_place, home_place, place_in};
use rules::numbers::{I, MSI, MSI_STATES, STATES};
use rules::{Cell, Edition, Home, Mask, Message, OrderNo, Request, RetryNo};
use words::layout::{
    BLOCKS_AT, CARDS_AT, CELL_WORDS, EDITION_AT, HOME_WORDS, LAST_AT, LINE, PLACE_WORDS, POOL,
    POOLED_AT, WAITING_AT, WORDS,
};

// A field of a byte, of a mask or of a value's 32 bits is what its word is below these.
const BYTES: u64 = 256;

const MASKS: u64 = 256;

const VALUES: u64 = 4294967296;

// The header: a function for each word, by its name, since one that takes the word's index is `s[AT]` again.

// A word that is no edition's number is MOSI, as `edition_of` has it, so `TryFrom` would be asked for nothing.
pub(crate) fn edition(s: &[u64; WORDS]) -> Edition
    ensures { result ≡ edition_of s.now }
{
    if s[EDITION_AT] == MSI as u64 {
        return Edition::Msi;
    }
    Edition::Mosi
}

// How many states a cell may be in.
pub(crate) fn states(s: &[u64; WORDS]) -> usize
    ensures { result ≡ states_in (edition_of s.now) }
{
    match edition(s) {
        Edition::Msi => MSI_STATES,
        Edition::Mosi => STATES,
    }
}

pub(crate) fn cards(s: &[u64; WORDS]) -> u64
    ensures { result ≡ cards_of s.now }
{
    s[CARDS_AT]
}

pub(crate) fn blocks(s: &[u64; WORDS]) -> u64
    ensures { result ≡ blocks_of s.now }
{
    s[BLOCKS_AT]
}

pub(crate) fn waiting(s: &[u64; WORDS]) -> u64
    ensures { result ≡ waiting_of s.now }
{
    s[WAITING_AT]
}

pub(crate) fn pooled(s: &[u64; WORDS]) -> u64
    ensures { result ≡ pooled_of s.now }
{
    s[POOLED_AT]
}

pub(crate) fn last(s: &[u64; WORDS]) -> OrderNo
    ensures { result ≡ last_of s.now }
{
    OrderNo(s[LAST_AT])
}

// A field

// A word, or 0 where there is none.
pub(crate) fn word_at(s: &[u64; WORDS], at: usize) -> u64
    ensures { result ≡ get_or s.now at 0 }
{
    s.get(at).copied().unwrap_or(0)
}

fn byte_at(s: &[u64; WORDS], at: usize) -> u8
    ensures { result ≡ as_byte (get_or s.now at 0) }
{
    (word_at(s, at) % BYTES) as u8
}

// A mask's bits and a byte's are two numbers of the layout, though both are 8 (`as_mask`, `as_byte`).
fn mask_at(s: &[u64; WORDS], at: usize) -> Mask
    ensures { result ≡ as_mask (get_or s.now at 0) }
{
    (word_at(s, at) % MASKS) as Mask
}

fn value_at(s: &[u64; WORDS], at: usize) -> u32
    ensures { result ≡ as_value (get_or s.now at 0) }
{
    (word_at(s, at) % VALUES) as u32
}

// Items: each is read from its last word on, so that the compiler tests once whether its words are there.

// A cell as Start makes it.
pub(crate) fn idle() -> Cell
    ensures { result ≡ idle }
{
    Cell {
        state: I,
        value: 0,
        awaits: OrderNo(0),
    }
}

// What a card has for a block.
pub(crate) fn cell_at(s: &[u64; WORDS], card: u8, block: u8) -> Cell
    ensures { result ≡ cell_at s.now card block }
{
    let p = cell_place(card, block);
    Cell {
        awaits: OrderNo(word_at(s, p + 2)),
        value: value_at(s, p + 1),
        state: byte_at(s, p),
    }
}

// What home has for a block.
pub(crate) fn home_at(s: &[u64; WORDS], block: u8) -> Home
    ensures { (result.memory ≡ memory_at s.now block) × (result.owner ≡ owner_at s.now block)
        × (result.sharers ≡ sharers_at s.now block) }
{
    let p = home_place(block);
    Home {
        sharers: mask_at(s, p + 2),
        owner: byte_at(s, p + 1),
        memory: value_at(s, p),
    }
}

// A place of the line.
pub(crate) fn request_at(s: &[u64; WORDS], place: u8) -> Request
    ensures { result ≡ request_at s.now place }
{
    let p = place_in::<LINE>(place);
    Request {
        retry: RetryNo(byte_at(s, p + 4)),
        mask: mask_at(s, p + 3),
        kind: byte_at(s, p + 2),
        block: byte_at(s, p + 1),
        card: byte_at(s, p),
    }
}

// A place of the pool.
pub(crate) fn message_at(s: &[u64; WORDS], place: u8) -> Message
    ensures { result ≡ message_at s.now place }
{
    let p = place_in::<POOL>(place);
    Message {
        number: OrderNo(word_at(s, p + 4)),
        value: value_at(s, p + 3),
        block: byte_at(s, p + 2),
        receiver: byte_at(s, p + 1),
        sender: byte_at(s, p),
    }
}

// Rows

// What N words say: an item, as it is stored and tested.
pub(crate) trait Item<const N: usize>: Copy {
    ghost row_of: { Self → List ℕ };

    fn row(self) -> [u64; N]
        ensures { result ≡ row_of self };
}

impl Item<CELL_WORDS> for Cell {
    ghost row_of = { cell_row };

    fn row(self) -> [u64; CELL_WORDS] {
        [self.state as u64, self.value as u64, self.awaits.0]
    }
}

impl Item<HOME_WORDS> for Home {
    ghost row_of = { λ h. home_row h.memory h.owner h.sharers };

    fn row(self) -> [u64; HOME_WORDS] {
        [self.memory as u64, self.owner as u64, self.sharers as u64]
    }
}

impl Item<PLACE_WORDS> for Request {
    ghost row_of = { request_row };

    fn row(self) -> [u64; PLACE_WORDS] {
        [
            self.card as u64,
            self.block as u64,
            self.kind as u64,
            self.mask as u64,
            self.retry.0 as u64,
        ]
    }
}

impl Item<PLACE_WORDS> for Message {
    ghost row_of = { message_row };

    fn row(self) -> [u64; PLACE_WORDS] {
        [
            self.sender as u64,
            self.receiver as u64,
            self.block as u64,
            self.value as u64,
            self.number.0,
        ]
    }
}

// Stores: each writes the words of what it names, and no other. The header has one for each word, as above.

pub(crate) fn set_edition(s: &mut [u64; WORDS], edition: Edition)
    ensures { s.new ≡ set s.old edition_at (edition_no edition) }
{
    s[EDITION_AT] = u8::from(edition) as u64;
}

pub(crate) fn set_cards(s: &mut [u64; WORDS], n: u64)
    ensures { s.new ≡ set s.old cards_at n }
{
    s[CARDS_AT] = n;
}

pub(crate) fn set_blocks(s: &mut [u64; WORDS], n: u64)
    ensures { s.new ≡ set s.old blocks_at n }
{
    s[BLOCKS_AT] = n;
}

pub(crate) fn set_waiting(s: &mut [u64; WORDS], n: u64)
    ensures { s.new ≡ set s.old waiting_at n }
{
    s[WAITING_AT] = n;
}

pub(crate) fn set_pooled(s: &mut [u64; WORDS], n: u64)
    ensures { s.new ≡ set s.old pooled_at n }
{
    s[POOLED_AT] = n;
}

pub(crate) fn set_last(s: &mut [u64; WORDS], n: OrderNo)
    ensures { s.new ≡ set s.old last_at n.0 }
{
    s[LAST_AT] = n.0;
}

// An item's words, from a place on. The stores keep their bounds: a store past the last word would be none, and `sets` is one in part.
pub(crate) fn put<T: Item<N>, const N: usize>(s: &mut [u64; WORDS], at: usize, item: T)
    requires { at + N ≤ all_words }
    ensures { s.new ≡ sets s.old at (T.row_of item) }
{
    let words = item.row();
    s[at..at + N].copy_from_slice(&words);
}

pub(crate) fn put_cell(s: &mut [u64; WORDS], card: u8, block: u8, cell: Cell)
    requires { (card < most_cards) × (block < most_blocks) }
    ensures { s.new ≡ put_cell s.old card block cell }
{
    put(s, cell_place(card, block), cell);
}

pub(crate) fn put_home(s: &mut [u64; WORDS], block: u8, home: Home)
    requires { block < most_blocks }
    ensures { s.new ≡ put_home s.old block home.memory home.owner home.sharers }
{
    put(s, home_place(block), home);
}
