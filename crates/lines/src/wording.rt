// States and outcomes as they are printed.
use crate::calls::{Outcome, State};
use std::fmt;

impl fmt::Display for State {
    fn fmt<W: fmt::Write>(&self, f: &mut fmt::Formatter<W>) -> fmt::Result {
        f.write_str(match self {
            State::Drafted => "a draft",
            State::Closed => "a closed book",
        })
    }
}

impl fmt::Display for Outcome {
    fn fmt<W: fmt::Write>(&self, f: &mut fmt::Formatter<W>) -> fmt::Result {
        match self {
            Outcome::NotTaken(state) => write!(f, "not taken by {state}"),
            Outcome::Accepted => f.write_str("accepted"),
            Outcome::Between(low, high) => write!(f, "between {low} and {high}"),
            Outcome::Refused(fault) => write!(f, "refused {fault}"),
        }
    }
}
