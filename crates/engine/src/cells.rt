// Load, Store and Drop: a card's own cell, by the right that its state gives.
ghost use Rattle.std.specs.Prelude.{◌≡◌};
ghost use Rattle.rules.specs.declared.Event.TheVariants.{Load, Store, Drop};
ghost use Rattle.words.specs.Inner.Parts.{Does};
ghost use Rattle.engine.specs.Inner.Sought.{sought};

use crate::chassis::{Chassis, View};
use crate::fields::{blocks, cards, cell_at, idle, put_cell};
use rules::{Answer, Cell, Refusal, table};

impl View<'_> {
    // The cell that an event names: refusals 1 and 2, in this order.
    pub(crate) fn find(self, card: u8, block: u8) -> Result<Cell, Refusal>
        ensures { result ≡ sought self.entry.words.now card block }
    {
        if cards(self.words) <= card as u64 {
            return Err(Refusal::NoSuchCard);
        }
        if blocks(self.words) <= block as u64 {
            return Err(Refusal::NoSuchBlock);
        }
        Ok(cell_at(self.words, card, block))
    }

    // The cell's value, where its state loads.
    pub(crate) fn load(self, card: u8, block: u8) -> Answer
        ensures { Does self.entry.words.now (Load card block) result self.entry.words.now }
    {
        let cell = self.find(card, block)?;
        if !table::loads(cell.state) {
            return Err(Refusal::NoRight);
        }
        Ok(cell.value)
    }
}

impl Chassis<'_> {
    // The cell's value anew, where its state stores.
    pub(crate) fn store(&mut self, card: u8, block: u8, value: u32) -> Answer
        ensures same_words { self.new.words.ghost_name ≡ self.old.words.ghost_name }
        ensures done { Does self.old.words.now (Store card block value) result self.new.words.now }
    {
        let cell = self.view().find(card, block)?;
        if !table::stores(cell.state) {
            return Err(Refusal::NoRight);
        }
        put_cell(self.words, card, block, Cell { value, ..cell });
        Ok(0)
    }

    // The cell idle again, where its state drops.
    pub(crate) fn drop(&mut self, card: u8, block: u8) -> Answer
        ensures same_words { self.new.words.ghost_name ≡ self.old.words.ghost_name }
        ensures done { Does self.old.words.now (Drop card block) result self.new.words.now }
    {
        let cell = self.view().find(card, block)?;
        if !table::drops(cell.state) {
            return Err(Refusal::NoRight);
        }
        put_cell(self.words, card, block, idle());
        Ok(0)
    }
}
