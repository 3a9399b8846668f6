// Ask: the cell moves by the table, and the request joins the line's tail.
ghost use Rattle.std.specs.Prelude.{◌≡◌, Ok};
ghost use Rattle.rules.specs.Chassis.{goes_for};
ghost use Rattle.rules.specs.declared.Event.TheVariants.{Ask};
ghost use Rattle.words.specs.Inner.Parts.{Does};
ghost use Rattle.engine.specs.Inner.Sought.{sought};

use crate::chassis::Chassis;
use crate::fields::{cards, put_cell, waiting};
use crate::lists::push;
use crate::masks::inside;
use rules::numbers::{GETS, PUTX, ROOM};
use rules::{Answer, Cell, Mask, OrderNo, Refusal, Request, RetryNo, table};

impl Chassis<'_> {
    // Refusals 1 and 2 first, at the look-up. Into a run's loop whole, as `act`.
    #[inline(always)]
    pub(crate) fn ask(&mut self, card: u8, block: u8, kind: u8, mask: Mask) -> Answer
        ensures same_words { self.new.words.ghost_name ≡ self.old.words.ghost_name }
        ensures done { Does self.old.words.now (Ask card block kind mask) result self.new.words.now }
    {
        let cell = self.view().find(card, block)?;
        self.ask_from(card, block, kind, mask, cell)
    }

    // The cell is there: refusals 5, 6, 4 and 7, in this order. Whole into `ask`.
    #[inline(always)]
    fn ask_from(&mut self, card: u8, block: u8, kind: u8, mask: Mask, cell: Cell) -> Answer
        requires { Ok cell ≡ sought self.old.words.now card block }
        ensures same_words { self.new.words.ghost_name ≡ self.old.words.ghost_name }
        ensures done { Does self.old.words.now (Ask card block kind mask) result self.new.words.now }
    {
        if (kind < GETS) | (PUTX < kind) {
            return Err(Refusal::NoSuchKind);
        }
        if !inside(mask, cards(self.words)) {
            return Err(Refusal::StrangerInMask);
        }
        let to = table::asked(kind, cell.state).ok_or(Refusal::AskNotAllowed)?;
        if ROOM as u64 <= waiting(self.words) {
            return Err(Refusal::LineFull);
        }
        put_cell(self.words, card, block, goes_for(OrderNo(0), to, cell));
        let request = Request {
            card,
            block,
            kind,
            mask,
            retry: RetryNo(0),
        };
        push(self.words, request);
        Ok(0)
    }
}

// The cell in another state, awaiting a number: the value is kept where that state loads.
pub(crate) fn goes_for(number: OrderNo, state: u8, cell: Cell) -> Cell
    ensures { result ≡ goes_for number state cell }
{
    let value = if table::loads(state) { cell.value } else { 0 };
    Cell {
        state,
        value,
        awaits: number,
    }
}
