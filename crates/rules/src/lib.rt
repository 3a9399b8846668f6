// The rules of the chassis: the paper's kinds, its numbers by name, and its card state table. The kinds stand in the root, since the prover's
// time grows with the length of their paths. What the events do is defined in specs/; docs/READING.md says in which order to read it.
// What holds a number derives no comparison: that would call the library's of numbers, and this crate calls nothing of the library, so that
// a program of this crate alone has the code of all that it calls (`loads-wired` of proofs/Wired).
#![tactic(auto)]

ghost use Rattle.std.specs.Prelude.{◌≡◌};
ghost use Rattle.rules.specs.Numbers.{edition_no, edition_by};

pub mod numbers;
pub mod table;

use crate::numbers::{MOSI, MSI};

// An order number: what home gives each ordered request, and what a reply is matched by.
#[derive(Clone, Copy)]
pub struct OrderNo(pub u64);

// A retry number: how often a request has gone back to the line. No reply is matched by it.
#[derive(Clone, Copy)]
pub struct RetryNo(pub u8);

// The edition of the protocol, chosen at Start.
#[derive(Clone, Copy, PartialEq, Eq)]
pub enum Edition {
    Msi,
    Mosi,
}

// A number that no edition has.
#[derive(Clone, Copy)]
pub struct NoEdition(pub u8);

// The number that stands for an edition in a word or a byte.
impl From<Edition> for u8 {
    ghost from_gives = { λ edition r. r ≡ edition_no edition };

    fn from(edition: Edition) -> u8 {
        match edition {
            Edition::Msi => MSI,
            Edition::Mosi => MOSI,
        }
    }
}

// And back: a number that no edition has is handed back.
impl TryFrom<u8> for Edition {
    type Error = NoEdition;

    ghost try_from_gives = { λ number r. r ≡ edition_by number };

    fn try_from(number: u8) -> Result<Edition, NoEdition> {
        match number {
            MSI => Ok(Edition::Msi),
            MOSI => Ok(Edition::Mosi),
            _ => Err(NoEdition(number)),
        }
    }
}

// A set of cards: bit k is card k.
pub type Mask = u8;

// States, kinds, owners and cards are bytes here and in the crates above: `numbers` says why.

// What home has for a block. The owner is a card or home.
#[derive(Clone, Copy)]
pub struct Home {
    pub memory: u32,
    pub owner: u8,
    pub sharers: Mask,
}

// What a card has for a block. It awaits number 0 where it awaits none: `no_number`, and words hold it so (`cell_row`).
#[derive(Clone, Copy)]
pub struct Cell {
    pub state: u8,
    pub value: u32,
    pub awaits: OrderNo,
}

// A request that waits in the line.
#[derive(Clone, Copy)]
pub struct Request {
    pub card: u8,
    pub block: u8,
    pub kind: u8,
    pub mask: Mask,
    pub retry: RetryNo,
}

// A data message that waits in the pool. The sender is a card or home.
#[derive(Clone, Copy)]
pub struct Message {
    pub sender: u8,
    pub receiver: u8,
    pub block: u8,
    pub value: u32,
    pub number: OrderNo,
}

// The events other than Start. Every byte may be any byte: what is out of range is refused.
#[derive(Clone, Copy)]
pub enum Event {
    Load {
        card: u8,
        block: u8,
    },
    Store {
        card: u8,
        block: u8,
        value: u32,
    },
    Drop {
        card: u8,
        block: u8,
    },
    Ask {
        card: u8,
        block: u8,
        kind: u8,
        mask: Mask,
    },
    Order,
    Deliver {
        position: u8,
    },
    Copy {
        position: u8,
    },
    Rejoin {
        card: u8,
    },
}

// Why the engine says no: a case for each number of the paper's list, from 1 to 15.
#[derive(Clone, Copy, PartialEq, Eq)]
pub enum Refusal {
    NoSuchCard = 1,
    NoSuchBlock = 2,
    NoRight = 3,
    AskNotAllowed = 4,
    NoSuchKind = 5,
    StrangerInMask = 6,
    LineFull = 7,
    LineEmpty = 8,
    BlockHeld = 9,
    PoolFull = 10,
    NoSuchMessage = 11,
    NumbersSpent = 12,
    Impossible = 13,
    NoSuchSize = 14,
    IllFormed = 15,
}

// What an event answers: a value (a load's, an outcome, else 0), or a refusal.
pub type Answer = Result<u32, Refusal>;

// What comes of the request at the head of the line. What a granted GETS does goes by the edition.
#[derive(Clone, Copy, PartialEq, Eq)]
pub enum Turn {
    GetsGranted(Edition),
    GetxGranted,
    GetsMissed,
    GetxMissed,
    PutTaken,
    PutLapsed,
}
