// Where each item of a chassis lies in its words. A card, a block or a place may be any byte, also one that is not there.
ghost use Rattle.std.specs.Prelude.{◌≡◌, ◌≤◌};
ghost use Rattle.words.specs.Layout.{all_words, home_place, cell_place, place_from};

use words::layout::{BLOCK_WORDS, BLOCKS, CELL_WORDS, HOME_WORDS, PLACE_WORDS};

// Home's part of a block.
pub(crate) fn home_place(block: u8) -> usize
    ensures { result ≡ home_place block }
{
    BLOCKS + BLOCK_WORDS * (block as usize)
}

// A card's cell of a block.
pub(crate) fn cell_place(card: u8, block: u8) -> usize
    ensures { result ≡ cell_place card block }
{
    home_place(block) + HOME_WORDS + CELL_WORDS * (card as usize)
}

// A place of the line or of the pool, by where its places begin.
pub(crate) fn place_in<const FROM: usize>(place: u8) -> usize
    requires { FROM ≤ all_words }
    ensures { result ≡ place_from FROM place }
{
    FROM + PLACE_WORDS * (place as usize)
}
