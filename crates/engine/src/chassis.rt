// A chassis: words that are formed. What refusal 15 asks is tested where one is made, and nowhere after it: an event leaves formed words formed.
ghost use Rattle.std.specs.Prelude.{◌≡◌, true, false, IfOk, IfErr};
ghost use Rattle.rules.specs.declared.Refusal.TheVariants.{IllFormed};
ghost use Rattle.words.specs.Words.{formed};

use crate::formed::is_formed;
use rules::Refusal;
use words::layout::WORDS;

// A chassis that is lent to be read. The two types differ in how the words are lent, over which no type is generic.
#[derive(Clone, Copy)]
pub(crate) struct View<'a> {
    pub(crate) words: &'a [u64; WORDS],
    ghost is_formed: { formed words.now ≡ true },
}

// A chassis that is lent to be changed.
#[derive(Drop)]
pub(crate) struct Chassis<'a> {
    pub(crate) words: &'a mut [u64; WORDS],
    ghost is_formed: { formed words.now ≡ true },
}

impl<'a> View<'a> {
    // The chassis of these words, or refusal 15.
    pub(crate) fn of(words: &'a [u64; WORDS]) -> Result<View<'a>, Refusal>
        ensures made { IfOk result (λ view. (view.words ≡ words.entry) × (formed words.now ≡ true)) }
        ensures refused { IfErr result (λ x. (formed words.now ≡ false) × (x ≡ IllFormed)) }
    {
        if is_formed(words) {
            Ok(View { words })
        } else {
            Err(Refusal::IllFormed)
        }
    }
}

impl<'a> Chassis<'a> {
    // To be read.
    pub(crate) fn view(&self) -> View<'_>
        ensures { result.words.now ≡ self.now.words.now }
    {
        View { words: self.words }
    }
}
