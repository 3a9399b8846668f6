// Deliver and Copy: one message of the pool, by its position.
ghost use Rattle.std.specs.Prelude.{◌≡◌, ◌&&◌};
ghost use Rattle.rules.specs.Numbers.{same_number};
ghost use Rattle.rules.specs.Table.{waits};
ghost use Rattle.rules.specs.Events.{takes};
ghost use Rattle.rules.specs.declared.Event.TheVariants.{Deliver, Copy};
ghost use Rattle.words.specs.Inner.Parts.{Does};

use crate::chassis::Chassis;
use crate::fields::{cell_at, message_at, pooled, put_cell};
use crate::lists::{push, remove};
use rules::numbers::{ROOM, STALE, TAKEN};
use rules::{Answer, Cell, Message, OrderNo, Refusal, table};

// The receiver's cell waits for this very message: the numbers are compared by their words, as in `formed`.
fn is_live(cell: Cell, message: Message) -> bool
    ensures { result ≡ (waits cell.state && same_number cell.awaits message.number) }
{
    table::waits(cell.state) & (cell.awaits.0 == message.number.0)
}

// The receiver's cell once it has taken the message.
fn taken(cell: Cell, message: Message) -> Cell
    ensures { result ≡ takes message cell }
{
    Cell {
        state: table::filled_to(cell.state),
        value: message.value,
        awaits: OrderNo(0),
    }
}

impl Chassis<'_> {
    // The message reaches its receiver, which takes it if it is live. It leaves the pool either way.
    pub(crate) fn deliver(&mut self, position: u8) -> Answer
        ensures same_words { self.new.words.ghost_name ≡ self.old.words.ghost_name }
        ensures done { Does self.old.words.now (Deliver position) result self.new.words.now }
    {
        if pooled(self.words) <= position as u64 {
            return Err(Refusal::NoSuchMessage);
        }
        let message = message_at(self.words, position);
        let cell = cell_at(self.words, message.receiver, message.block);
        if !is_live(cell, message) {
            remove::<Message>(self.words, position);
            return Ok(STALE);
        }
        put_cell(
            self.words,
            message.receiver,
            message.block,
            taken(cell, message),
        );
        remove::<Message>(self.words, position);
        Ok(TAKEN)
    }

    // The message again, at the pool's tail.
    pub(crate) fn copy(&mut self, position: u8) -> Answer
        ensures same_words { self.new.words.ghost_name ≡ self.old.words.ghost_name }
        ensures done { Does self.old.words.now (Copy position) result self.new.words.now }
    {
        let n = pooled(self.words);
        if n <= position as u64 {
            return Err(Refusal::NoSuchMessage);
        }
        if ROOM as u64 <= n {
            return Err(Refusal::PoolFull);
        }
        let message = message_at(self.words, position);
        push(self.words, message);
        Ok(0)
    }
}
