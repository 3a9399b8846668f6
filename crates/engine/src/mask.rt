// The mask test: whether the cards that the request at the head names are enough.
ghost use Rattle.std.specs.Prelude.{◌≡◌, ◌||◌, eqb};
ghost use Rattle.rules.specs.Numbers.{home};
ghost use Rattle.rules.specs.Masks.{has};
ghost use Rattle.rules.specs.Mask.{sharers_named, suffices};
ghost use Rattle.engine.specs.Inner.Heads.{block_read};

use crate::head::Head;
use crate::masks::{every, has, only, union, without};
use rules::numbers::{GETS, HOME};

// The owner is home, the asker or named; GETX needs also every sharer other than the asker.
#[tactic(auto, unfolding(rules::specs::Mask::suffices))]
pub(crate) fn suffices(head: Head) -> bool
    ensures { result ≡ suffices head.cards (block_read head) head.request }
{
    let request = head.request;
    owner_named(head) && (request.kind == GETS || sharers_named(head))
}

// The owner is home, the asker itself or in the mask.
fn owner_named(head: Head) -> bool
    ensures { result ≡ (eqb head.home.owner home || eqb head.home.owner head.request.card || has head.request.mask head.home.owner) }
{
    let owner = head.home.owner;
    let request = head.request;
    (owner == HOME) | (owner == request.card) | has(request.mask, owner)
}

// Of the cards that are there, no sharer is missed: every one but the asker is in the mask.
fn sharers_named(head: Head) -> bool
    ensures { result ≡ sharers_named head.cards head.home.sharers head.request }
{
    let request = head.request;
    let sharers = head.home.sharers;
    let named = union(only(request.card), request.mask);
    let missed = without(sharers, named);
    (missed & every(head.cards)) == 0
}
