// The public events: each takes any words, and answers 15 where they are not formed, before all else. Here and below a card and a block stand
// apart, as the paper's events have them, and so do an opening's edition, cards and blocks: a struct of them would be made and taken apart at
// each call.
ghost use Rattle.std.specs.Prelude.{◌≡◌};
ghost use Rattle.rules.specs.declared.Event.TheVariants.{Load, Store, Drop, Ask, Order, Deliver, Copy, Rejoin};
ghost use Rattle.engine.specs.Promise.{Answers};
ghost use Rattle.words.specs.Inner.Parts.{Does};

use crate::chassis::{Chassis, View};
use rules::{Answer, Event, Mask};
use words::layout::WORDS;

// Any event. It goes whole into each event's function, where one case of `act` is left of it.
#[inline(always)]
pub fn step(state: &mut [u64; WORDS], event: Event) -> Answer
    ensures { Answers state.old event result state.new }
{
    View::of(state)?;
    let mut chassis = Chassis { words: state };
    chassis.act(event)
}

// A card reads its cell's value, and nothing changes: the words are lent to be read only.
pub fn load(state: &[u64; WORDS], card: u8, block: u8) -> Answer
    ensures { Answers state.now (Load card block) result state.now }
{
    View::of(state)?.load(card, block)
}

// A card writes its cell's value.
pub fn store(state: &mut [u64; WORDS], card: u8, block: u8, value: u32) -> Answer
    ensures { Answers state.old (Store card block value) result state.new }
{
    step(state, Event::Store { card, block, value })
}

// A card drops its copy, and home is not told.
pub fn drop(state: &mut [u64; WORDS], card: u8, block: u8) -> Answer
    ensures { Answers state.old (Drop card block) result state.new }
{
    step(state, Event::Drop { card, block })
}

// A card's request joins the line; the mask names the cards that are to see it.
pub fn ask(state: &mut [u64; WORDS], card: u8, block: u8, kind: u8, mask: Mask) -> Answer
    ensures { Answers state.old (Ask card block kind mask) result state.new }
{
    let event = Event::Ask {
        card,
        block,
        kind,
        mask,
    };
    step(state, event)
}

// The request at the head of the line has its turn.
pub fn order(state: &mut [u64; WORDS]) -> Answer
    ensures { Answers state.old Order result state.new }
{
    step(state, Event::Order)
}

// A message of the pool reaches its receiver.
pub fn deliver(state: &mut [u64; WORDS], position: u8) -> Answer
    ensures { Answers state.old (Deliver position) result state.new }
{
    step(state, Event::Deliver { position })
}

// A message of the pool is there once more.
pub fn copy(state: &mut [u64; WORDS], position: u8) -> Answer
    ensures { Answers state.old (Copy position) result state.new }
{
    step(state, Event::Copy { position })
}

// A card starts anew: out of the line and the sharers, its blocks to home, its cells I.
pub fn rejoin(state: &mut [u64; WORDS], card: u8) -> Answer
    ensures { Answers state.old (Rejoin card) result state.new }
{
    step(state, Event::Rejoin { card })
}

impl Chassis<'_> {
    // What an event does. It goes into a run's loop whole: a call at each record would pass the event through memory.
    #[inline(always)]
    pub(crate) fn act(&mut self, event: Event) -> Answer
        ensures same_words { self.new.words.ghost_name ≡ self.old.words.ghost_name }
        ensures done { Does self.old.words.now event result self.new.words.now }
    {
        match event {
            Event::Load { card, block } => self.view().load(card, block),
            Event::Store { card, block, value } => self.store(card, block, value),
            Event::Drop { card, block } => self.drop(card, block),
            Event::Ask {
                card,
                block,
                kind,
                mask,
            } => self.ask(card, block, kind, mask),
            Event::Order => self.order(),
            Event::Deliver { position } => self.deliver(position),
            Event::Copy { position } => self.copy(position),
            Event::Rejoin { card } => self.rejoin(card),
        }
    }
}
