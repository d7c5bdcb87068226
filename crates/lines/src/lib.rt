// Lines of calls on one book, and the law that every outcome keeps beside the paper run.
#![tactic(auto)]

pub mod calls;
pub mod run;
mod wording;
