// The calls of a line, and what each comes to. An outcome is no `Result`: a line goes on after a refusal, so no one passes one on
// by `?`, and the law has a clause for each of its four cases.
ghost use Rattle.std.specs.Prelude.{◌≡◌, MatchResult};
ghost use Rattle.lines.specs.declared.calls.Outcome.TheVariants.{Accepted, Between, Refused};

use book::faults::{Fault, Place};
use book::rules::Term;
use engine::states::{Closed as ClosedBook, Draft};

#[derive(Clone, Copy, PartialEq, Eq, Debug)]
pub enum Call {
    Enter { at: Place, amount: i64 },
    AddTerm { property: usize, term: Term },
    Close,
    AskFactor { property: usize, column: usize },
    Reopen,
}

// Which calls a book takes goes by its state. An outcome and the law name the state alone, with no book in it.
#[derive(Clone, Copy, PartialEq, Eq, Debug)]
pub enum State {
    Drafted,
    Closed,
}

#[derive(Clone, Copy, PartialEq, Eq, Debug)]
pub enum Outcome {
    // the book's state does not take the call
    NotTaken(State),
    Accepted,
    // the lower and the upper end of what was asked
    Between(i64, i64),
    Refused(Fault),
}

// What a call that changes the book comes to.
impl From<Result<(), Fault>> for Outcome {
    ghost from_gives = { λ r o. MatchResult r (λ _. o ≡ Accepted) (λ f. o ≡ Refused f) };

    fn from(done: Result<(), Fault>) -> Outcome {
        match done {
            Ok(()) => Outcome::Accepted,
            Err(fault) => Outcome::Refused(fault),
        }
    }
}

// What a question comes to.
impl From<Result<(i64, i64), Fault>> for Outcome {
    ghost from_gives = { λ r o. MatchResult r (λ p. o ≡ Between p.0 p.1) (λ f. o ≡ Refused f) };

    fn from(answer: Result<(i64, i64), Fault>) -> Outcome {
        match answer {
            Ok((low, high)) => Outcome::Between(low, high),
            Err(fault) => Outcome::Refused(fault),
        }
    }
}

// A book in the state that the calls so far have left it in.
#[derive(Drop)]
pub enum AnyBook {
    InDraft(Draft),
    InClosed(ClosedBook),
}
