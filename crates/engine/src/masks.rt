// Masks: bit k is card k.
ghost use Rattle.std.specs.Prelude.{◌≡◌, ◌≤◌, ◌<◌};
ghost use Rattle.rules.specs.Numbers.{most_cards};
ghost use Rattle.rules.specs.Masks.{has, only, every, union, without, inside};

use rules::Mask;
use rules::numbers::MOST_CARDS;

// The mask of one card. This one and the next keep their bounds: beyond them the definition's number is no mask.
pub(crate) fn only(card: u8) -> Mask
    requires { card < most_cards }
    ensures { result ≡ only card }
{
    1 << card
}

// The mask of every card, where there are so many.
pub(crate) fn every(cards: u64) -> Mask
    requires { cards ≤ most_cards }
    ensures { result ≡ every cards }
{
    ((1u64 << cards) - 1) as Mask
}

// The cards of one mask and of the other.
#[tactic(auto, unfolding(rules::specs::Masks::union))]
pub(crate) fn union(a: Mask, b: Mask) -> Mask
    ensures { result ≡ union a b }
{
    a | b
}

// The cards of the first mask that are not in the second.
#[tactic(auto, unfolding(rules::specs::Masks::without))]
pub(crate) fn without(a: Mask, b: Mask) -> Mask
    ensures { result ≡ without a b }
{
    a ^ (a & b)
}

// The card is in the mask: none is that a mask has no bit for, and so home is in none.
#[tactic(auto, unfolding(rules::specs::Masks::has))]
pub(crate) fn has(mask: Mask, card: u8) -> bool
    ensures { result ≡ has mask card }
{
    card < MOST_CARDS && (mask >> card) % 2 == 1
}

// No card in the mask but those that are there.
pub(crate) fn inside(mask: Mask, cards: u64) -> bool
    ensures { result ≡ inside cards mask }
{
    (MOST_CARDS as u64) < cards || mask <= every(cards)
}
