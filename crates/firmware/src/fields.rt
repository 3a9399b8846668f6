// A record as seven numbers: its tag, card, block, kind, mask, value and position. What a record has not is 0; an opening's cards, blocks
// and edition stand in the places of a card, a block and a kind. Numbers stand for tags, kinds and editions, since C hands in any byte: the C
// interface.
ghost use Rattle.std.specs.Prelude.{◌≡◌};
ghost use Rattle.journal.specs.declared.Record.TheVariants.{Happens};
ghost use Rattle.journal.specs.Tags.{byte_of};
ghost use Rattle.firmware.specs.Fields.{fields, of_cell, in_order, named_by, opening_by};

use journal::tags::Tag;
use journal::{Damage, Record};
use rules::{Edition, Event};

// How many numbers a record has.
pub const FIELDS: usize = 7;

// The numbers of a record, by name.
#[derive(Clone, Copy)]
pub(crate) struct Fields {
    pub(crate) tag: u8,
    pub(crate) card: u8,
    pub(crate) block: u8,
    pub(crate) kind: u8,
    pub(crate) mask: u8,
    pub(crate) value: u32,
    pub(crate) position: u8,
}

// The fields of a tag, a card and a block alone.
fn of_cell(tag: Tag, card: u8, block: u8) -> Fields
    ensures { result ≡ of_cell (byte_of tag) card block }
{
    Fields {
        tag: tag.into(),
        card,
        block,
        kind: 0,
        mask: 0,
        value: 0,
        position: 0,
    }
}

// The numbers in order.
impl From<Fields> for [u64; FIELDS] {
    ghost from_gives = { λ given r. r ≡ in_order given };

    fn from(given: Fields) -> [u64; FIELDS] {
        [
            given.tag as u64,
            given.card as u64,
            given.block as u64,
            given.kind as u64,
            given.mask as u64,
            given.value as u64,
            given.position as u64,
        ]
    }
}

impl From<Record> for Fields {
    ghost from_gives = { λ one r. in_order r ≡ fields one };

    fn from(one: Record) -> Fields {
        match one {
            Record::Opening {
                edition,
                cards,
                blocks,
            } => Fields {
                kind: edition.into(),
                ..of_cell(Tag::Opening, cards, blocks)
            },
            Record::Happens(event) => event.into(),
        }
    }
}

impl From<Event> for Fields {
    ghost from_gives = { λ event r. in_order r ≡ fields (Happens event) };

    fn from(event: Event) -> Fields {
        match event {
            Event::Load { card, block } => of_cell(Tag::Load, card, block),
            Event::Store { card, block, value } => Fields {
                value,
                ..of_cell(Tag::Store, card, block)
            },
            Event::Drop { card, block } => of_cell(Tag::Drop, card, block),
            Event::Ask {
                card,
                block,
                kind,
                mask,
            } => Fields {
                kind,
                mask,
                ..of_cell(Tag::Ask, card, block)
            },
            Event::Order => of_cell(Tag::Order, 0, 0),
            Event::Deliver { position } => Fields {
                position,
                ..of_cell(Tag::Deliver, 0, 0)
            },
            Event::Copy { position } => Fields {
                position,
                ..of_cell(Tag::Copy, 0, 0)
            },
            Event::Rejoin { card } => of_cell(Tag::Rejoin, card, 0),
        }
    }
}

// The record that the numbers name.
impl TryFrom<Fields> for Record {
    type Error = Damage;

    ghost try_from_gives = { λ given r. r ≡ named_by given.tag given };

    #[tactic(auto, using(crate::proofs::Laws::no_tag))]
    fn try_from(given: Fields) -> Result<Record, Damage> {
        record_of(Tag::try_from(given.tag)?, given)
    }
}

// The record of a tag and the fields that it has.
#[tactic(auto, unfolding(crate::specs::Fields::named))]
fn record_of(tag: Tag, given: Fields) -> Result<Record, Damage>
    ensures { result ≡ named_by (byte_of tag) given }
{
    let Fields {
        card,
        block,
        kind,
        mask,
        value,
        position,
        ..
    } = given;
    let event = match tag {
        Tag::Opening => return opening(kind, card, block),
        Tag::Load => Event::Load { card, block },
        Tag::Store => Event::Store { card, block, value },
        Tag::Ask => Event::Ask {
            card,
            block,
            kind,
            mask,
        },
        Tag::Drop => Event::Drop { card, block },
        Tag::Order => Event::Order,
        Tag::Deliver => Event::Deliver { position },
        Tag::Copy => Event::Copy { position },
        Tag::Rejoin => Event::Rejoin { card },
    };
    Ok(Record::Happens(event))
}

// The opening of an edition's number.
#[tactic(auto, using(crate::proofs::Laws::opening_named, crate::proofs::Laws::no_opening))]
fn opening(edition: u8, cards: u8, blocks: u8) -> Result<Record, Damage>
    ensures { result ≡ opening_by edition cards blocks }
{
    match Edition::try_from(edition) {
        Ok(edition) => Ok(Record::Opening {
            edition,
            cards,
            blocks,
        }),
        Err(_) => Err(Damage::WrongOpening),
    }
}
