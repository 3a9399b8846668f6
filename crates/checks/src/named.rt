// The event that a line's numbers say: its record's tag and what the record has, in the paper's order.
use crate::lines::byte;
use engine::events;
use journal::tags::Tag;
use rules::{Answer, Edition, Event};
use words::layout::WORDS;

// How many numbers an event has at most, its tag among them.
pub(crate) const FIELDS: usize = 5;

// Its answer, by the function of its name.
pub(crate) fn named(state: &mut [u64; WORDS], event: Event) -> Answer {
    match event {
        Event::Load { card, block } => events::load(state, card, block),
        Event::Store { card, block, value } => events::store(state, card, block, value),
        Event::Ask {
            card,
            block,
            kind,
            mask,
        } => events::ask(state, card, block, kind, mask),
        Event::Drop { card, block } => events::drop(state, card, block),
        Event::Order => events::order(state),
        Event::Deliver { position } => events::deliver(state, position),
        Event::Copy { position } => events::copy(state, position),
        Event::Rejoin { card } => events::rejoin(state, card),
    }
}

// The edition of a number: 0 MSI, any other MOSI.
pub(crate) fn edition(n: u64) -> Edition {
    match n {
        0 => Edition::Msi,
        _ => Edition::Mosi,
    }
}

// The event itself: a Rejoin, where no other event has the tag.
pub(crate) fn event_of(n: [u64; FIELDS]) -> Event {
    let [tag, first, second, third, fourth] = n.map(byte);
    match Tag::try_from(tag) {
        Ok(Tag::Load) => Event::Load {
            card: first,
            block: second,
        },
        Ok(Tag::Store) => Event::Store {
            card: first,
            block: second,
            value: (n[3] & 0xffff_ffff) as u32,
        },
        Ok(Tag::Ask) => Event::Ask {
            card: first,
            block: second,
            kind: third,
            mask: fourth,
        },
        Ok(Tag::Drop) => Event::Drop {
            card: first,
            block: second,
        },
        Ok(Tag::Order) => Event::Order,
        Ok(Tag::Deliver) => Event::Deliver { position: first },
        Ok(Tag::Copy) => Event::Copy { position: first },
        Ok(Tag::Rejoin | Tag::Opening) | Err(_) => Event::Rejoin { card: first },
    }
}

// Each event by card 0, of block 0, of value or kind 1, at position 0, in the order of their tags.
pub(crate) const EACH: [Event; 8] = [
    Event::Load { card: 0, block: 0 },
    Event::Store {
        card: 0,
        block: 0,
        value: 1,
    },
    Event::Ask {
        card: 0,
        block: 0,
        kind: 1,
        mask: 0,
    },
    Event::Drop { card: 0, block: 0 },
    Event::Order,
    Event::Deliver { position: 0 },
    Event::Copy { position: 0 },
    Event::Rejoin { card: 0 },
];
