// The states of a book, each a type of its own, and every public call on it.
#![tactic(auto)]

pub mod asking;
pub mod keying;
pub mod states;
