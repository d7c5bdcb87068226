// The book: sizes, observed amounts and rules, and every ground on which a call is declined.
#![tactic(auto)]

pub mod faults;
pub mod keying;
pub mod kinds;
pub mod rules;
mod wording;
