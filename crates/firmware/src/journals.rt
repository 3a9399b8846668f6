// Journals: one record read, one written, and a run that writes its lines into a text that C lends. Numbers stand for tags, kinds and
// refusals, and arrays for what is read and reached: the C interface.
ghost use Rattle.std.specs.Prelude.{◌≡◌};
ghost use Rattle.firmware.specs.Fields.{named};
ghost use Rattle.firmware.specs.Journals.{standing_of, Reads, Writes, RunSays};

use crate::fields::{FIELDS, Fields};
use crate::halves::refused;
use engine::run::{Ran, Reached, run};
use journal::Record;
use journal::numbers::{damage_no, refusal_no, written_no};
use journal::reader::{ReadOn, read_on};
use journal::writing::write;
use words::layout::WORDS;

// How many numbers say where a run stands: the number and the place of the next record, and how many bytes of text the last piece has.
pub const STANDING: usize = 3;

// Reads the record at a place: its fields, and the place after it. The end and damage keep the place and the fields.
pub fn coherence_read(journal: &[u8], place: &mut usize, fields: &mut [u64; FIELDS]) -> u64
    ensures { Reads journal.now place.old fields.old result place.new fields.new }
{
    let ReadOn { found, at } = read_on(journal, *place);
    *place = at;
    match found {
        Ok(Some((one, _))) => {
            *fields = Fields::from(one).into();
            1
        }
        Ok(None) => 0,
        Err(damage) => refused(damage_no(damage)),
    }
}

// Writes the record of a tag and its fields at a place, and moves the place behind it. A refusal keeps the place and the buffer. C hands in
// each field by itself, in its own width, so that none can be out of range: hence nine parameters.
pub fn coherence_write(
    buffer: &mut [u8],
    place: &mut usize,
    tag: u8,
    card: u8,
    block: u8,
    kind: u8,
    mask: u8,
    value: u32,
    position: u8,
) -> u64
    ensures { Writes buffer.old place.old (named tag card block kind mask value position) result
        buffer.new place.new }
{
    let given = Fields {
        tag,
        card,
        block,
        kind,
        mask,
        value,
        position,
    };
    let one = match Record::try_from(given) {
        Ok(one) => one,
        Err(damage) => return refused(damage_no(damage)),
    };
    let written = write(buffer, *place, one);
    if let Ok(next) = written {
        *place = next;
    }
    refused(written_no(written))
}

// Runs over a journal from where a run stands, into a text: one piece, after which there may be more.
pub fn coherence_run(
    state: &mut [u64; WORDS],
    journal: &[u8],
    standing: &mut [u64; STANDING],
    text: &mut [u8],
) -> u64
    ensures { RunSays state.old journal.now standing.old text.old result
        state.new standing.new text.new }
{
    let reached = Reached {
        number: standing[0] as usize,
        place: standing[1] as usize,
    };
    match run(state, journal, reached, text) {
        Ok(ran) => {
            *standing = standing_of(ran);
            match ran {
                Ran::More(..) => 1,
                Ran::Over(..) => 0,
            }
        }
        Err(refusal) => refused(refusal_no(refusal)),
    }
}

// Where a run stands after a piece, in numbers.
fn standing_of(ran: Ran) -> [u64; STANDING]
    ensures { result ≡ standing_of ran }
{
    match ran {
        Ran::More(at, count) | Ran::Over(at, count) => {
            [at.number as u64, at.place as u64, count as u64]
        }
    }
}
