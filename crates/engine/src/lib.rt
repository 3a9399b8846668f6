// The engine: the chassis as words that the caller lends, changed in place.
#![tactic(auto)]

mod ask;
mod cells;
mod chassis;
pub mod events;
mod fields;
mod formed;
mod head;
mod judge;
mod lists;
pub mod looks;
mod mask;
mod masks;
mod order;
mod places;
mod pool;
mod rejoin;
pub mod run;
mod sees;
pub mod start;
mod turns;

use rules::{Cell, Edition, Home, Message, OrderNo, Request};

// The edition of a chassis, how much there is in it, and the last order number given.
#[derive(Clone, Copy)]
pub struct Counts {
    pub edition: Edition,
    pub cards: u64,
    pub blocks: u64,
    pub waiting: u64,
    pub pooled: u64,
    pub last: OrderNo,
}

// What a look shows.
#[derive(Clone, Copy)]
pub enum Seen {
    Counts(Counts),
    Message(Message),
    Request(Request),
    Cell(Cell),
    Home(Home),
}
