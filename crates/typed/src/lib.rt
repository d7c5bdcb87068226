// Lines of words as they are typed: what both programs read alike.
#![tactic(auto)]

pub mod form;
pub mod line;
#[cfg(test)]
mod tests;
pub mod words;
