// The words that are expected: a fresh chassis, and the rows that a line sets in it. Nothing here calls the engine.
use crate::lines::{NUMBERS, byte};
use rules::numbers::HOME;
use words::layout::{
    BLOCK_WORDS, BLOCKS, BLOCKS_AT, CARDS_AT, CELL_WORDS, EDITION_AT, HOME_WORDS, LINE,
    PLACE_WORDS, POOL, WAITING_AT, WORDS,
};

// What Start is to make: all cells I, memory 0, owners home, the rest empty, unused places too.
pub(crate) fn fresh(cards: u64, blocks: u64, edition: u64) -> [u64; WORDS] {
    let mut w = [0u64; WORDS];
    w[EDITION_AT] = edition;
    w[CARDS_AT] = cards;
    w[BLOCKS_AT] = blocks;
    // Behind the memory of each block.
    for owner in w[BLOCKS + 1..LINE].iter_mut().step_by(BLOCK_WORDS) {
        *owner = u64::from(HOME);
    }
    w
}

// The row that a line sets, where it begins and its words: home's part, a cell, a request, a message, the counts and the last number, or one
// word of the header.
pub(crate) fn row_of(letter: u8, n: &[u64; NUMBERS]) -> Option<(usize, &[u64])> {
    match letter {
        b'h' => Some((place(BLOCKS, BLOCK_WORDS, n[0]), &n[1..4])),
        b'c' => {
            let cells = place(BLOCKS + HOME_WORDS, BLOCK_WORDS, n[1]);
            Some((place(cells, CELL_WORDS, n[0]), &n[2..5]))
        }
        b'r' => Some((place(LINE, PLACE_WORDS, n[0]), &n[1..6])),
        b'm' => Some((place(POOL, PLACE_WORDS, n[0]), &n[1..6])),
        b'n' => Some((WAITING_AT, &n[..3])),
        b'w' => Some((place(0, 1, n[0]), &n[1..2])),
        _ => None,
    }
}

// Where the part of a number begins, of parts of so many words in a row from a place on; the number is taken below 2^8.
fn place(from: usize, words: usize, number: u64) -> usize {
    from.saturating_add(words.saturating_mul(usize::from(byte(number))))
}

// Numbers of a line as words from a place on; a place that is not there is left out.
pub(crate) fn put(w: &mut [u64; WORDS], at: usize, row: &[u64]) {
    for (word, number) in w.iter_mut().skip(at).zip(row) {
        *word = *number;
    }
}
