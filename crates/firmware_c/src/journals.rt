// Journals: one record read, one written, and a run that writes its lines into a text that C lends. Numbers stand for kinds and refusals: the C
// interface.
ghost use Rattle.firmware.specs.Fields.{named};
ghost use Rattle.firmware.specs.Journals.{Reads, Writes, RunSays};

use firmware::FIELDS;
use firmware::journals::STANDING;
use words::layout::WORDS;

// Reads the record at a place: its fields, and the place after it. The end and damage keep the place and the fields.
#[unsafe(no_mangle)]
pub extern "C" fn coherence_read(
    journal: &[u8],
    place: &mut usize,
    fields: &mut [u64; FIELDS],
) -> u64
    ensures { Reads journal.now place.old fields.old result place.new fields.new }
{
    firmware::journals::coherence_read(journal, place, fields)
}

// Writes the record of a tag and its fields at a place, and moves the place behind it. A refusal keeps the place and the buffer.
#[unsafe(no_mangle)]
pub extern "C" fn coherence_write(
    buffer: &mut [u8],
    place: &mut usize,
    tag: u8,
    card: u8,
    block: u8,
    kind: u8,
    mask: u8,
    value: u32,
    position: u8,
) -> u64
    ensures { Writes buffer.old place.old (named tag card block kind mask value position) result
        buffer.new place.new }
{
    firmware::journals::coherence_write(
        buffer, place, tag, card, block, kind, mask, value, position,
    )
}

// Runs over a journal from where a run stands, into a text: one piece, after which there may be more.
#[unsafe(no_mangle)]
pub extern "C" fn coherence_run(
    state: &mut [u64; WORDS],
    journal: &[u8],
    standing: &mut [u64; STANDING],
    text: &mut [u8],
) -> u64
    ensures { RunSays state.old journal.now standing.old text.old result
        state.new standing.new text.new }
{
    firmware::journals::coherence_run(state, journal, standing, text)
}
