// The card state table, as the paper has it: a row for each state, read by a small function that takes any byte. A byte above the last
// state has an empty row.
ghost use Rattle.std.specs.Prelude.{◌≡◌, unwrap_or};
ghost use Rattle.rules.specs.Table.{
  leads,
  loads,
  stores,
  asks_gets,
  asks_getx,
  asks_putx,
  asked,
  sees_gets,
  sees_getx,
  drops,
  waits,
  is_reader,
  can_give,
  comes_from,
  upgrades,
  put_stands,
  leaves_sharers,
  granted_to,
  filled_to,
};
ghost use Rattle.rules.specs.Rows.{IsRowOf};

use crate::Edition;
use crate::numbers::{
    GETS, GETX, I, II_A, IM_AD, IM_D, IS_AD, IS_D, M, MI_A, NONE, O, OI_A, OM_AD, PUTX, S, SM_AD,
    SM_D, STATES,
};

// What the table has for a state: its rights; where an ask of each kind leads; where a seen request leads; the sets of states that the rules
// name; where a granted request leads, and data that comes.
#[derive(Clone, Copy)]
struct Row {
    loads: bool,
    stores: bool,
    asks_gets: Option<u8>,
    asks_getx: Option<u8>,
    asks_putx: Option<u8>,
    sees_gets_msi: Option<u8>,
    sees_gets_mosi: Option<u8>,
    sees_getx: Option<u8>,
    drops: bool,
    waits: bool,
    is_reader: bool,
    can_give: bool,
    from_gets: bool,
    from_getx: bool,
    from_putx: bool,
    upgrades: bool,
    put_stands: bool,
    leaves_sharers: bool,
    granted_to: Option<u8>,
    filled_to: Option<u8>,
}

// "An empty place means no right, or no move."
const EMPTY: Row = Row {
    loads: false,
    stores: false,
    asks_gets: None,
    asks_getx: None,
    asks_putx: None,
    sees_gets_msi: None,
    sees_gets_mosi: None,
    sees_getx: None,
    drops: false,
    waits: false,
    is_reader: false,
    can_give: false,
    from_gets: false,
    from_getx: false,
    from_putx: false,
    upgrades: false,
    put_stands: false,
    leaves_sharers: false,
    granted_to: None,
    filled_to: None,
};

const TABLE: [Row; STATES] = [
    // I
    Row {
        asks_gets: Some(IS_AD),
        asks_getx: Some(IM_AD),
        ..EMPTY
    },
    // S
    Row {
        loads: true,
        asks_getx: Some(SM_AD),
        sees_getx: Some(I),
        drops: true,
        is_reader: true,
        ..EMPTY
    },
    // M
    Row {
        loads: true,
        stores: true,
        asks_putx: Some(MI_A),
        sees_gets_msi: Some(S),
        sees_gets_mosi: Some(O),
        sees_getx: Some(I),
        can_give: true,
        ..EMPTY
    },
    // IS_AD
    Row {
        from_gets: true,
        granted_to: Some(IS_D),
        ..EMPTY
    },
    // IM_AD
    Row {
        from_getx: true,
        granted_to: Some(IM_D),
        ..EMPTY
    },
    // SM_AD
    Row {
        loads: true,
        sees_getx: Some(IM_AD),
        is_reader: true,
        from_getx: true,
        granted_to: Some(SM_D),
        ..EMPTY
    },
    // IS_D
    Row {
        waits: true,
        filled_to: Some(S),
        ..EMPTY
    },
    // IM_D
    Row {
        waits: true,
        filled_to: Some(M),
        ..EMPTY
    },
    // SM_D
    Row {
        loads: true,
        waits: true,
        filled_to: Some(M),
        ..EMPTY
    },
    // MI_A
    Row {
        loads: true,
        stores: true,
        sees_gets_msi: Some(II_A),
        sees_gets_mosi: Some(OI_A),
        sees_getx: Some(II_A),
        can_give: true,
        from_putx: true,
        put_stands: true,
        ..EMPTY
    },
    // II_A
    Row {
        from_putx: true,
        ..EMPTY
    },
    // O
    Row {
        loads: true,
        asks_getx: Some(OM_AD),
        asks_putx: Some(OI_A),
        sees_getx: Some(I),
        can_give: true,
        ..EMPTY
    },
    // OM_AD
    Row {
        loads: true,
        sees_getx: Some(IM_AD),
        can_give: true,
        from_getx: true,
        upgrades: true,
        granted_to: Some(SM_D),
        ..EMPTY
    },
    // OI_A
    Row {
        loads: true,
        sees_getx: Some(II_A),
        can_give: true,
        from_putx: true,
        put_stands: true,
        leaves_sharers: true,
        ..EMPTY
    },
];

// The row of a state, or an empty one where the byte is none. It is read in its place: indexed as a constant, the table is copied at each look,
// and the engine takes three times the instructions.
fn row_of(state: u8) -> Row
    ensures { IsRowOf state result }
{
    let table = &TABLE;
    let i = state as usize;
    if i < STATES { table[i] } else { EMPTY }
}

// Where a place leads, or another state where it is empty: `unwrap_or` by hand, as `row_of` is `get` by hand, since this crate calls nothing
// of the library (`loads-wired` of proofs/Wired).
fn place_or(to: Option<u8>, other: u8) -> u8
    ensures { result ≡ unwrap_or to other }
{
    match to {
        Some(state) => state,
        None => other,
    }
}

// The columns, each a function of its own: `EveryEntry` has an entry for each, for any byte.

// The state gives the right to load.
pub fn loads(state: u8) -> bool
    ensures { result ≡ loads state }
{
    row_of(state).loads
}

// The state gives the right to store.
pub fn stores(state: u8) -> bool
    ensures { result ≡ stores state }
{
    row_of(state).stores
}

// Where an ask for GETS leads.
pub fn asks_gets(state: u8) -> Option<u8>
    ensures { result ≡ leads (asks_gets state) }
{
    row_of(state).asks_gets
}

// Where an ask for GETX leads.
pub fn asks_getx(state: u8) -> Option<u8>
    ensures { result ≡ leads (asks_getx state) }
{
    row_of(state).asks_getx
}

// Where an ask for PUTX leads.
pub fn asks_putx(state: u8) -> Option<u8>
    ensures { result ≡ leads (asks_putx state) }
{
    row_of(state).asks_putx
}

// Where an ask of any kind leads.
#[tactic(auto, using(crate::proofs::Columns::unknown_kind), unfolding(crate::specs::Table::asked))]
pub fn asked(kind: u8, state: u8) -> Option<u8>
    ensures { result ≡ leads (asked kind state) }
{
    match kind {
        GETS => asks_gets(state),
        GETX => asks_getx(state),
        PUTX => asks_putx(state),
        _ => None,
    }
}

// Where an owner goes that sees GETS: the only place that looks at the edition.
#[tactic(auto, unfolding(crate::specs::Table::sees_gets, crate::specs::Table::moved))]
pub fn sees_gets(edition: Edition, state: u8) -> u8
    ensures { result ≡ sees_gets edition state }
{
    let row = row_of(state);
    match edition {
        Edition::Msi => place_or(row.sees_gets_msi, state),
        Edition::Mosi => place_or(row.sees_gets_mosi, state),
    }
}

// Where a card goes that sees another's GETX.
#[tactic(auto, unfolding(crate::specs::Table::sees_getx, crate::specs::Table::moved))]
pub fn sees_getx(state: u8) -> u8
    ensures { result ≡ sees_getx state }
{
    place_or(row_of(state).sees_getx, state)
}

// The state may be dropped.
pub fn drops(state: u8) -> bool
    ensures { result ≡ drops state }
{
    row_of(state).drops
}

// Data is on its way to the card.
pub fn waits(state: u8) -> bool
    ensures { result ≡ waits state }
{
    row_of(state).waits
}

// The state of a reader, which another's GETX moves, granted or not.
pub fn is_reader(state: u8) -> bool
    ensures { result ≡ is_reader state }
{
    row_of(state).is_reader
}

// An owner in this state can give its value away.
pub fn can_give(state: u8) -> bool
    ensures { result ≡ can_give state }
{
    row_of(state).can_give
}

// A request of this kind comes from this state.
#[tactic(auto, using(crate::proofs::Columns::unknown_kind), unfolding(crate::specs::Table::comes_from, crate::specs::Tests::one_of))]
pub fn comes_from(kind: u8, state: u8) -> bool
    ensures { result ≡ comes_from kind state }
{
    let row = row_of(state);
    match kind {
        GETS => row.from_gets,
        GETX => row.from_getx,
        PUTX => row.from_putx,
        _ => false,
    }
}

// A GETX from this state is an upgrade of its owner.
pub fn upgrades(state: u8) -> bool
    ensures { result ≡ upgrades state }
{
    row_of(state).upgrades
}

// A put from this state is taken; from another it has lapsed.
pub fn put_stands(state: u8) -> bool
    ensures { result ≡ put_stands state }
{
    row_of(state).put_stands
}

// A put from this state leaves the sharers listed.
pub fn leaves_sharers(state: u8) -> bool
    ensures { result ≡ leaves_sharers state }
{
    row_of(state).leaves_sharers
}

// Where an asker goes whose request is granted, or NONE: `granted_cell` of specs/Order and `takes` of specs/Events put it into any cell, so that
// an Option would be made NONE again at its one call, and is no plainer.
pub fn granted_to(state: u8) -> u8
    ensures { result ≡ granted_to state }
{
    place_or(row_of(state).granted_to, NONE)
}

// Where a card goes whose data comes, or NONE, as above.
pub fn filled_to(state: u8) -> u8
    ensures { result ≡ filled_to state }
{
    place_or(row_of(state).filled_to, NONE)
}
