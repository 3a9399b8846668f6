// What is decided of the request at the head: the first reason to refuse it, or its turn. Nothing is stored here.
ghost use Rattle.std.specs.Prelude.{◌≡◌, true, ◌≤◌, ◌<◌};
ghost use Rattle.rules.specs.Numbers.{most_cards, most_blocks};
ghost use Rattle.rules.specs.Chassis.{Chassis};
ghost use Rattle.rules.specs.Order.{held, impossible, turn};
ghost use Rattle.words.specs.Words.{view, cards_of, waiting_of, request_at, formed};
ghost use Rattle.engine.specs.Inner.Heads.{block_read, Reads};
ghost use Rattle.engine.specs.Inner.Ordering.{judged_free, judged};

use crate::chassis::View;
use crate::fields::{cards, cell_at, edition, last, pooled};
use crate::head::Head;
use crate::mask::suffices;
use rules::numbers::{GETS, HOME, LAST_NUMBER, PUTX, ROOM};
use rules::{Edition, Refusal, Request, Turn, table};
use words::layout::WORDS;

// That a request is the one at the head is asked for four times: a struct of the request and a view, or of the request and a chassis, would be two
// types for that one fact, and is no plainer.
impl View<'_> {
    // Refusals 12, 9, 13 and 10, in this order; then the turn.
    pub(crate) fn judge(self, request: Request) -> Result<Turn, Refusal>
        requires { (0 < waiting_of self.words.now) × (request ≡ request_at self.words.now 0) }
        ensures { result ≡ judged (view self.entry.words.now) request }
    {
        let waits = held(self.words, request.block);
        let number = last(self.words);
        let spent = LAST_NUMBER <= number.0;
        if spent {
            return Err(Refusal::NumbersSpent);
        }
        if waits {
            return Err(Refusal::BlockHeld);
        }
        self.judge_free(request)
    }

    // The block is not held: refusals 13 and 10, then the turn.
    fn judge_free(self, request: Request) -> Result<Turn, Refusal>
        requires { (0 < waiting_of self.words.now) × (request ≡ request_at self.words.now 0) }
        ensures { result ≡ judged_free (view self.entry.words.now) request }
    {
        let head = self.head(request);
        if head.impossible() {
            return Err(Refusal::Impossible);
        }
        if (request.kind != PUTX) & (ROOM as u64 <= pooled(self.words)) {
            return Err(Refusal::PoolFull);
        }
        Ok(head.turn(edition(self.words)))
    }
}

// Some card waits for data of this block. There is no more room than for so many cards: a range of bytes counts them.
fn held(s: &[u64; WORDS], block: u8) -> bool
    requires { (cards_of s.now ≤ most_cards) × (block < most_blocks) }
    ensures { result ≡ held (cards_of s.now) ((view s.now).block block) }
{
    (0..cards(s) as u8).any(|card| table::waits(cell_at(s, card, block).state))
}

impl Head {
    // The asker and the owner in their states make the request impossible.
    fn impossible(self) -> bool
        ensures { result ≡ impossible (block_read self) self.request }
    {
        let request = self.request;
        let owner = self.home.owner;
        let asker = self.asker.state;
        let is_put = request.kind == PUTX;
        let owns = owner == request.card;
        let stands = table::put_stands(asker);
        let upgrades = table::upgrades(asker);
        !table::comes_from(request.kind, asker)
            | (!is_put & !upgrades & owns)
            | (!is_put & upgrades & !owns)
            | (!is_put & !(owner == HOME) & !table::can_give(self.owner.state))
            | (is_put & stands & !owns)
            | (is_put & !stands & owns)
    }

    // What comes of the request, in a chassis of this edition.
    fn turn(self, edition: Edition) -> Turn
        ensures { (c : Chassis) → c.edition ≡ edition → Reads c self → result ≡ turn c self.request }
    {
        let request = self.request;
        if request.kind == PUTX {
            if table::put_stands(self.asker.state) {
                return Turn::PutTaken;
            }
            return Turn::PutLapsed;
        }
        match (suffices(self), request.kind == GETS) {
            (true, true) => Turn::GetsGranted(edition),
            (true, false) => Turn::GetxGranted,
            (false, true) => Turn::GetsMissed,
            (false, false) => Turn::GetxMissed,
        }
    }
}
