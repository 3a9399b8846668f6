// The cards' parts of a turn: what the asker, the owner and the readers make of the request.
ghost use Rattle.std.specs.Prelude.{◌≡◌, ℕ, ◌<◌};
ghost use Rattle.rules.specs.Numbers.{most_cards};
ghost use Rattle.rules.specs.Chassis.{Block, Chassis, goes, cell_of, block_changed};
ghost use Rattle.rules.specs.Order.{upshot_of, sees};
ghost use Rattle.words.specs.Words.{words};
ghost use Rattle.words.specs.Claims.{CellFits};
ghost use Rattle.words.specs.Inner.Parts.{seen_below};

use crate::ask::goes_for;
use crate::fields::{cell_at, idle, put_cell};
use crate::head::Head;
use crate::masks::has;
use rules::{Cell, OrderNo, Turn, table};
use words::layout::WORDS;

// The asker's cell after the turn.
#[tactic(auto, unfolding(rules::specs::Order::upshot_of))]
fn asker_sees(turn: Turn, number: OrderNo, cell: Cell) -> Cell
    ensures { result ≡ (upshot_of turn).asker_sees number cell }
{
    match turn {
        Turn::GetsGranted(_) | Turn::GetxGranted => {
            goes_for(number, table::granted_to(cell.state), cell)
        }
        Turn::GetsMissed | Turn::GetxMissed => cell,
        Turn::PutTaken | Turn::PutLapsed => idle(),
    }
}

// The cell in another state, awaiting no number.
fn goes(state: u8, cell: Cell) -> Cell
    ensures { result ≡ goes state cell }
{
    goes_for(OrderNo(0), state, cell)
}

// The owner's cell after the turn.
#[tactic(auto, unfolding(rules::specs::Order::upshot_of))]
fn owner_sees(turn: Turn, cell: Cell) -> Cell
    ensures { result ≡ (upshot_of turn).owner_sees cell }
{
    match turn {
        Turn::GetsGranted(edition) => goes(table::sees_gets(edition, cell.state), cell),
        Turn::GetxGranted => goes(table::sees_getx(cell.state), cell),
        Turn::GetsMissed | Turn::GetxMissed | Turn::PutTaken | Turn::PutLapsed => cell,
    }
}

// A reader's cell after the turn.
#[tactic(auto, unfolding(rules::specs::Order::upshot_of))]
fn reader_sees(turn: Turn, cell: Cell) -> Cell
    ensures { result ≡ (upshot_of turn).reader_sees cell }
{
    match turn {
        Turn::GetxGranted | Turn::GetxMissed => {
            if table::is_reader(cell.state) {
                goes(table::sees_getx(cell.state), cell)
            } else {
                cell
            }
        }
        Turn::GetsGranted(_) | Turn::GetsMissed | Turn::PutTaken | Turn::PutLapsed => cell,
    }
}

// What a card makes of the request. Turn, number and head stay three values: one struct of them would be opened again in each of the three
// functions that take them, and is no plainer.
#[tactic(auto, unfolding(rules::specs::Order::sees))]
fn seen(turn: Turn, number: OrderNo, head: Head, card: u8, cell: Cell) -> Cell
    ensures { (B : Block) → B.owner ≡ head.home.owner → B.cell card ≡ cell → result ≡ sees turn B head.request number card }
{
    let request = head.request;
    if request.card == card {
        return asker_sees(turn, number, cell);
    }
    if head.home.owner == card {
        return owner_sees(turn, cell);
    }
    if has(request.mask, card) {
        return reader_sees(turn, cell);
    }
    cell
}

// Every card sees the request, one by one.
pub(crate) fn cards_see(s: &mut [u64; WORDS], turn: Turn, number: OrderNo, head: Head)
    ensures { (c : Chassis) → s.old ≡ words c → ((k : ℕ) → k < most_cards → CellFits (cell_of c k head.request.block))
        → (c.block head.request.block).owner ≡ head.home.owner
        → s.new ≡ words (block_changed c head.request.block (seen_below head.cards turn (c.block head.request.block) head.request number)) }
{
    let block = head.request.block;
    for card in 0..head.cards as u8 {
        let cell = cell_at(s, card, block);
        put_cell(s, card, block, seen(turn, number, head, card, cell));
    }
}
