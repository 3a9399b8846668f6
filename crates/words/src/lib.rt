// The chassis as words: how it lies in them. The engine changes such words in place; what is proved of them alone, with no function, stands in
// this crate's proofs/.
#![tactic(auto)]

pub mod layout;
