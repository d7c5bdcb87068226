// A line of calls, from its opening to its end.
ghost use Rattle.std.specs.Prelude.{◌≡◌, Some, None, MatchResult};
ghost use Rattle.book.specs.Keying.{sizes_fault};
ghost use Rattle.lines.specs.Line.{Reading, reading, Paper, paper_of, paper_next, accepted, Stands, Ran};

use crate::calls::{AnyBook, Call, Outcome, State};
use book::faults::Fault;
use book::kinds::Sizes;
use engine::states::{Closed, Draft};
use forms::ProjectingForm;
use sources::source::FactorSource;

// One call on a draft. What a step owes stays two clauses, and its reading is spelled out in each: the check finds the first alone,
// and a struct for the source and its form would make every caller of `run` build one.
fn draft_step(mut draft: Draft, call: Call) -> (AnyBook, Outcome)
    ensures next { paper_of result.0 ≡ paper_next (paper_of (AnyBook.InDraft draft)) call (accepted result.1) }
    ensures stands { (R : Reading) → Stands R (paper_of (AnyBook.InDraft draft)) call result.1 }
{
    let outcome = match call {
        Call::Enter { at, amount } => draft.enter(at, amount).into(),
        Call::AddTerm { property, term } => draft.add_term(property, term).into(),
        Call::Close => return (AnyBook::InClosed(draft.close()), Outcome::Accepted),
        Call::AskFactor { .. } | Call::Reopen => Outcome::NotTaken(State::Drafted),
    };
    (AnyBook::InDraft(draft), outcome)
}

// One call on a closed book.
fn closed_step<F: ProjectingForm, S: FactorSource>(
    source: &S,
    closed: Closed,
    call: Call,
) -> (AnyBook, Outcome)
    ensures next { paper_of result.0 ≡ paper_next (paper_of (AnyBook.InClosed closed)) call (accepted result.1) }
    ensures stands { Stands (reading (S.means source.now) (S.depth source.now) F.form)
        (paper_of (AnyBook.InClosed closed)) call result.1 }
{
    let outcome = match call {
        Call::AskFactor { property, column } => {
            closed.factor::<F, _>(source, property, column).into()
        }
        Call::Reopen => return (AnyBook::InDraft(closed.reopen()), Outcome::Accepted),
        Call::Enter { .. } | Call::AddTerm { .. } | Call::Close => {
            Outcome::NotTaken(State::Closed)
        }
    };
    (AnyBook::InClosed(closed), outcome)
}

// One call: what the state takes is done, and what it does not take changes nothing. By match on the state, and then on
// the call: a closure or a dyn for each call would need a heap, or hide the call from the law.
fn step<F: ProjectingForm, S: FactorSource>(
    source: &S,
    book: AnyBook,
    call: Call,
) -> (AnyBook, Outcome)
    ensures next { paper_of result.0 ≡ paper_next (paper_of book) call (accepted result.1) }
    ensures stands { Stands (reading (S.means source.now) (S.depth source.now) F.form) (paper_of book) call result.1 }
{
    match book {
        AnyBook::InDraft(draft) => draft_step(draft, call),
        AnyBook::InClosed(closed) => closed_step::<F, _>(source, closed, call),
    }
}

// Opens a book and makes the calls in order, as many as there is room for their outcomes; answers how many that were. Both
// are lent slices, since the engine allocates nothing.
pub fn run<F: ProjectingForm, S: FactorSource>(
    source: &S,
    sizes: Sizes,
    calls: &[Call],
    outcomes: &mut [Outcome],
) -> Result<usize, Fault>
    ensures { MatchResult result
        (λ n. (sizes_fault sizes ≡ None)
        × Ran (reading (S.means source.now) (S.depth source.now) F.form) sizes calls.now outcomes.old outcomes.new n)
        (λ e. (sizes_fault sizes ≡ Some e) × (outcomes.new ≡ outcomes.old)) }
{
    let draft = Draft::open(sizes)?;
    let mut book = AnyBook::InDraft(draft);
    let room = calls.len().min(outcomes.len());
    // by index: tried with a zip of both, but of what is written through it a proof knows the number alone
    for j in 0..room {
        (book, outcomes[j]) = step::<F, _>(source, book, calls[j]);
    }
    Ok(room)
}
