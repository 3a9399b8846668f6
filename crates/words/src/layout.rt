// How a chassis lies in words: the header, the blocks, the line's places, the pool's places. A field is one word.
use rules::numbers::{MOST_BLOCKS, MOST_CARDS, ROOM};

// The header: the edition, cards, blocks, how many wait in the line, how many are in the pool, the last order number.
pub const EDITION_AT: usize = 0;

pub const CARDS_AT: usize = 1;

pub const BLOCKS_AT: usize = 2;

pub const WAITING_AT: usize = 3;

pub const POOLED_AT: usize = 4;

pub const LAST_AT: usize = 5;

pub const HEAD_WORDS: usize = LAST_AT + 1;

// A block: memory, owner, sharers, and for each card state, value, awaited number.
pub const HOME_WORDS: usize = 3;

pub const CELL_WORDS: usize = 3;

pub const BLOCK_WORDS: usize = HOME_WORDS + CELL_WORDS * (MOST_CARDS as usize);

// A place of the line: card, block, kind, mask, retry. One of the pool: sender, receiver, block, value, number.
pub const PLACE_WORDS: usize = 5;

// Where the blocks, the line and the pool begin, and how many words there are.
pub const BLOCKS: usize = HEAD_WORDS;

pub const LINE: usize = BLOCKS + BLOCK_WORDS * (MOST_BLOCKS as usize);

pub const POOL: usize = LINE + PLACE_WORDS * ROOM;

pub const WORDS: usize = POOL + PLACE_WORDS * ROOM;
