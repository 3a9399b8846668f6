// Order: the request at the head has its turn.
ghost use Rattle.std.specs.Prelude.{◌≡◌, ◌<◌, Ok};
ghost use Rattle.rules.specs.declared.Event.TheVariants.{Order};
ghost use Rattle.words.specs.Words.{view, waiting_of, request_at};
ghost use Rattle.words.specs.Inner.Parts.{Does};
ghost use Rattle.engine.specs.Inner.Ordering.{judged};

use crate::chassis::Chassis;
use crate::fields::{last, put_home, request_at, set_last, waiting};
use crate::sees::cards_see;
use crate::turns::{line_after, outcome_no, pool_after};
use rules::{Answer, OrderNo, Refusal, Request, Turn};

impl Chassis<'_> {
    // Refusal 8 first; then what is decided of the head.
    pub(crate) fn order(&mut self) -> Answer
        ensures same_words { self.new.words.ghost_name ≡ self.old.words.ghost_name }
        ensures done { Does self.old.words.now Order result self.new.words.now }
    {
        if waiting(self.words) == 0 {
            return Err(Refusal::LineEmpty);
        }
        let request = request_at(self.words, 0);
        let turn = self.view().judge(request)?;
        self.take_turn(request, turn)
    }

    // The head's turn, under the next order number: the cards' parts, home's part, the message, the line.
    fn take_turn(&mut self, request: Request, turn: Turn) -> Answer
        requires { (0 < waiting_of self.old.words.now) × (request ≡ request_at self.old.words.now 0)
            × (Ok turn ≡ judged (view self.old.words.now) request) }
        ensures same_words { self.new.words.ghost_name ≡ self.old.words.ghost_name }
        ensures done { Does self.old.words.now Order result self.new.words.now }
    {
        let before = last(self.words);
        let number = OrderNo(before.0 + 1);
        let head = self.view().head(request);
        let outcome = outcome_no(turn);
        cards_see(self.words, turn, number, head);
        put_home(self.words, head.request.block, head.home_after(turn));
        pool_after(self.words, turn, number, head);
        line_after(self.words, turn, head);
        set_last(self.words, number);
        Ok(outcome)
    }
}
