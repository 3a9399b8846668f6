// What a turn does beside the cards' parts: its outcome, home's part, the message, the line.
ghost use Rattle.std.specs.Prelude.{◌≡◌, ◌++◌, ◌≤◌, ◌<◌};
ghost use Rattle.rules.specs.Lists.{removed};
ghost use Rattle.rules.specs.Numbers.{room, granted};
ghost use Rattle.rules.specs.Chassis.{Chassis, line_changed, pool_changed};
ghost use Rattle.rules.specs.Order.{giver, given, sharers_with, keeps, upshot_of, data_for, retry_mask, retried};
ghost use Rattle.rules.specs.declared.Turn.TheVariants.{GetsGranted, PutTaken};
ghost use Rattle.words.specs.Words.{words, waiting_of, pooled_of};
ghost use Rattle.words.specs.Inner.Parts.{Becomes};
ghost use Rattle.engine.specs.Inner.Heads.{block_read, home_after};

use crate::head::Head;
use crate::lists::{push, remove};
use crate::masks::{every, only, union};
use rules::numbers::{GRANTED, HOME, LAST_RETRY, PUT_LAPSED, PUT_TAKEN, TOO_SMALL};
use rules::{Edition, Home, Mask, Message, OrderNo, Request, RetryNo, Turn, table};
use words::layout::WORDS;

// The outcome

// The outcome that Order answers.
#[tactic(auto, unfolding(rules::specs::Order::upshot_of))]
pub(crate) fn outcome_no(turn: Turn) -> u32
    ensures { result ≡ (upshot_of turn).outcome }
{
    match turn {
        Turn::GetsGranted(_) | Turn::GetxGranted => GRANTED,
        Turn::GetsMissed | Turn::GetxMissed => TOO_SMALL,
        Turn::PutTaken => PUT_TAKEN,
        Turn::PutLapsed => PUT_LAPSED,
    }
}

impl Head {
    // Home's part

    // Who gives the data: the owner; home, where the owner is the asker itself.
    #[tactic(auto, unfolding(rules::specs::Order::giver))]
    fn giver(self) -> u8
        ensures { result ≡ giver (block_read self) self.request.card }
    {
        let owner = self.home.owner;
        if owner == self.request.card {
            HOME
        } else {
            owner
        }
    }

    // What an owning card gives away, or else memory's value.
    #[tactic(auto, using(crate::proofs::Heads::value_given), unfolding(rules::specs::Order::given))]
    fn given(self) -> u32
        ensures { result ≡ given (block_read self) self.request.card }
    {
        if self.giver() == HOME {
            self.home.memory
        } else {
            self.owner.value
        }
    }

    // An owner that sees GETS and can still give keeps the block.
    #[tactic(auto, using(crate::proofs::Heads::owner_read), unfolding(rules::specs::Order::keeps))]
    fn keeps(self, edition: Edition) -> bool
        ensures { result ≡ keeps edition (block_read self) }
    {
        table::can_give(table::sees_gets(edition, self.owner.state))
    }

    // The sharers after a GETS that is granted: those there were, where home owned or the owner keeps it, or else the owner; and the asker.
    fn sharers_with(self, edition: Edition) -> Mask
        ensures { result ≡ sharers_with edition (block_read self) self.request.card }
    {
        let owner = self.home.owner;
        let sharers = if (owner == HOME) | self.keeps(edition) {
            self.home.sharers
        } else {
            only(owner)
        };
        union(sharers, only(self.request.card))
    }

    // Home's part after a GETS that is granted.
    #[tactic(auto, unfolding(rules::specs::Order::upshot_of))]
    fn home_after_gets(self, edition: Edition) -> Home
        ensures { result ≡ home_after (GetsGranted edition) (block_read self) self.request.card }
    {
        let owner = if self.keeps(edition) {
            self.home.owner
        } else {
            HOME
        };
        Home {
            memory: self.given(),
            owner,
            sharers: self.sharers_with(edition),
        }
    }

    // Home's part after a put that is taken.
    #[tactic(auto, using(crate::proofs::Heads::asker_read), unfolding(rules::specs::Order::upshot_of))]
    fn home_after_put(self) -> Home
        ensures { result ≡ home_after PutTaken (block_read self) self.request.card }
    {
        let sharers = if table::leaves_sharers(self.asker.state) {
            self.home.sharers
        } else {
            0
        };
        Home {
            memory: self.asker.value,
            owner: HOME,
            sharers,
        }
    }

    // Home's part after the turn.
    #[tactic(auto, unfolding(rules::specs::Order::upshot_of))]
    pub(crate) fn home_after(self, turn: Turn) -> Home
        ensures { result ≡ home_after turn (block_read self) self.request.card }
    {
        match turn {
            Turn::GetsGranted(edition) => self.home_after_gets(edition),
            Turn::GetxGranted => Home {
                memory: self.given(),
                owner: self.request.card,
                sharers: 0,
            },
            Turn::PutTaken => self.home_after_put(),
            Turn::GetsMissed | Turn::GetxMissed | Turn::PutLapsed => self.home,
        }
    }

    // The message of a grant under an order number.
    #[tactic(auto, unfolding(rules::specs::Order::data_for))]
    fn message(self, number: OrderNo) -> Message
        ensures { result ≡ data_for (block_read self) self.request number }
    {
        Message {
            sender: self.giver(),
            receiver: self.request.card,
            block: self.request.block,
            value: self.given(),
            number,
        }
    }

    // The mask that home makes for a retry: the owner, if a card, and the sharers; for the last, every card.
    #[tactic(auto, unfolding(rules::specs::Order::retry_mask))]
    fn retry_mask(self, retry: RetryNo) -> Mask
        ensures { result ≡ retry_mask self.cards (block_read self) retry }
    {
        let owner = self.home.owner;
        if LAST_RETRY <= retry.0 {
            every(self.cards)
        } else if owner == HOME {
            self.home.sharers
        } else {
            union(only(owner), self.home.sharers)
        }
    }

    // The request again, its retry one higher.
    #[tactic(auto, unfolding(rules::specs::Order::retried))]
    fn retried(self) -> Request
        ensures { result ≡ retried self.cards (block_read self) self.request }
    {
        let request = self.request;
        let before = request.retry;
        let retry = RetryNo(before.0 + 1);
        Request {
            mask: self.retry_mask(retry),
            retry,
            ..request
        }
    }
}

// The message

// A grant's message joins the pool.
#[tactic(auto, unfolding(rules::specs::Order::upshot_of))]
pub(crate) fn pool_after(s: &mut [u64; WORDS], turn: Turn, number: OrderNo, head: Head)
    requires { (upshot_of turn).outcome ≡ granted → pooled_of s.old < room }
    ensures { Becomes s.old s.new (λ c. pool_changed c (c.pool ++ (upshot_of turn).sent (block_read head) head.request number)) }
{
    match turn {
        Turn::GetsGranted(_) | Turn::GetxGranted => push(s, head.message(number)),
        Turn::GetsMissed | Turn::GetxMissed | Turn::PutTaken | Turn::PutLapsed => {}
    }
}

// The line

// The head leaves the line; where its mask was too small it joins the tail again.
#[tactic(auto, unfolding(rules::specs::Order::upshot_of))]
pub(crate) fn line_after(s: &mut [u64; WORDS], turn: Turn, head: Head)
    requires { (0 < waiting_of s.old) × (waiting_of s.old ≤ room) × ((c : Chassis) × (s.old ≡ words c)) }
    ensures { Becomes s.old s.new (λ c. line_changed c (removed 0 c.line ++ (upshot_of turn).again head.cards (block_read head) head.request)) }
{
    remove::<Request>(s, 0);
    match turn {
        Turn::GetsMissed | Turn::GetxMissed => push(s, head.retried()),
        Turn::GetsGranted(_) | Turn::GetxGranted | Turn::PutTaken | Turn::PutLapsed => {}
    }
}
