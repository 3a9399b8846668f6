// The paper's numbers, by name.

// Sizes.
pub const MOST_CARDS: u8 = 8;

pub const MOST_BLOCKS: u8 = 32;

pub const ROOM: usize = 64;

pub const STATES: usize = 14;

// The states of a chassis of MSI are the first of them.
pub const MSI_STATES: usize = 11;

// Home, where a card number would stand. Cards, owners and senders stay bytes: an event may bring any card (`no_card` of specs/Events refuses
// what is none), and any words may have any (`ok_request`, `ok_message` and `home_or_card` of specs/Formed test them).
pub const HOME: u8 = 255;

// The last order number that can be given, and the last retry number.
pub const LAST_NUMBER: u64 = 18446744073709551615;

pub const LAST_RETRY: u8 = 3;

// The editions, where a word or a byte stands for one.
pub const MSI: u8 = 0;

pub const MOSI: u8 = 1;

// The kinds of ask. A kind stays a byte: an event may bring any (`reasons` of specs/Events refuses what is none), any words may have any
// (`ok_request` of specs/Formed tests it), and `asked` and `comes_from` of specs/Table are defined for each.
pub const GETS: u8 = 1;

pub const GETX: u8 = 2;

pub const PUTX: u8 = 3;

// The states of a cell. A state stays a byte: any words may have any (`ok_cell` of specs/Formed tests it), and the columns of specs/Table are
// defined for each.
pub const I: u8 = 0;

pub const S: u8 = 1;

pub const M: u8 = 2;

pub const IS_AD: u8 = 3;

pub const IM_AD: u8 = 4;

pub const SM_AD: u8 = 5;

pub const IS_D: u8 = 6;

pub const IM_D: u8 = 7;

pub const SM_D: u8 = 8;

pub const MI_A: u8 = 9;

pub const II_A: u8 = 10;

pub const O: u8 = 11;

pub const OM_AD: u8 = 12;

pub const OI_A: u8 = 13;

// An empty place of the table, where no Option can stand: the state of a cell for which a turn is impossible, which `granted_cell` of
// specs/Order and `takes` of specs/Events define too.
pub const NONE: u8 = 255;

// The outcomes of Order, and those of Deliver: numbers, since they are the value that an event answers (`Answers`).
pub const GRANTED: u32 = 1;

pub const TOO_SMALL: u32 = 2;

pub const PUT_TAKEN: u32 = 3;

pub const PUT_LAPSED: u32 = 4;

// The outcomes of Deliver.
pub const TAKEN: u32 = 1;

pub const STALE: u32 = 2;
