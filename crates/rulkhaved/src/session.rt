// A whole input: each `open` begins a line of calls, which is run as one.
use crate::parsing::Request;
use book::kinds::Sizes;
use forms::centre::CentreRadius;
use forms::two_ends::TwoEnds;
use lines::calls::{Call, Outcome, State};
use lines::run::run;
use sources::estimated::Estimated;
use std::alloc::{AllocError, Global};
use std::fmt::{self, Write};
use std::vec;
use typed::form::FormName;
use typed::line::Line;
use typed::words::NotUnderstood;

// A line of the input, and what it asks for: nothing, if it is skipped.
#[derive(Clone, Copy)]
struct Item<'a> {
    line: Line<'a>,
    request: Result<Option<Request>, NotUnderstood>,
}

fn items<'a>(heap: Global, text: &'a str) -> Result<Vec<Item<'a>>, AllocError> {
    text.lines()
        .map(Line)
        .map(|line| Item {
            line,
            request: line.read(Request::parse),
        })
        .collect(heap)
}

// The calls up to the next `open`.
fn calls_of(heap: Global, items: &[Item<'_>]) -> Result<Vec<Call>, AllocError> {
    let mut calls = Vec::new(heap);
    for item in items {
        match item.request {
            Ok(Some(Request::Open(_))) => break,
            Ok(Some(Request::Make(call))) => calls.push(call)?,
            _ => {}
        }
    }
    Ok(calls)
}

// The form of the books to come, and the outcomes of the open book's calls that are still to be made.
#[derive(Drop)]
struct Session {
    heap: Global,
    form: FormName,
    outcomes: vec::IntoIter<Outcome>,
}

impl Session {
    fn open(&mut self, sizes: Sizes, after: &[Item<'_>]) -> Result<Outcome, AllocError> {
        let calls = calls_of(self.heap, after)?;
        let mut outcomes = vec![in self.heap; Outcome::NotTaken(State::Drafted); calls.len()]?;
        // a form is a type, with a constant and a type of its own: no dyn can stand for it, and a closure is no plainer
        let ran = match self.form {
            FormName::Ends => run::<TwoEnds, Estimated>(&Estimated, sizes, &calls, &mut outcomes),
            FormName::Centre => {
                run::<CentreRadius, Estimated>(&Estimated, sizes, &calls, &mut outcomes)
            }
        };
        let opened = match ran {
            Ok(_) => Outcome::Accepted,
            Err(fault) => {
                // a book that is not open keeps no room for its calls
                outcomes = Vec::new(self.heap);
                Outcome::Refused(fault)
            }
        };
        self.outcomes = outcomes.into_iter();
        Ok(opened)
    }

    // What a request comes to; nothing for a call without a book.
    fn outcome(
        &mut self,
        request: Request,
        after: &[Item<'_>],
    ) -> Result<Option<Outcome>, AllocError> {
        match request {
            Request::Form(form) => {
                self.form = form;
                Ok(Some(Outcome::Accepted))
            }
            Request::Open(sizes) => Ok(Some(self.open(sizes, after)?)),
            Request::Make(_) => Ok(self.outcomes.next()),
        }
    }
}

// What is printed for an input, and whether every line of it was understood; it is printed either way.
#[derive(Drop)]
pub(crate) struct Printed {
    pub(crate) text: String,
    pub(crate) understood: bool,
}

// Want of memory for the words of a line, or of what a call came to, is an error of formatting, and else one of memory; `main`
// prints which.
pub(crate) fn answers(heap: Global, text: &str) -> anyhow::Result<Printed> {
    let items = items(heap, text)?;
    let mut session = Session {
        heap,
        form: FormName::Ends,
        outcomes: Vec::new(heap).into_iter(),
    };
    let mut out = String::new(heap);
    let mut rest = items.as_slice();
    while let [item, after @ ..] = rest {
        let Item { line, request } = *item;
        match request {
            Ok(None) => {}
            Ok(Some(request)) => {
                write!(out, "{line}").map_err(fmt::Error::from)?;
                out.push_str(": ")?;
                match (request, session.outcome(request, after)?) {
                    (_, None) => out.push_str("not taken: no book is open")?,
                    (Request::Form(_) | Request::Open(_), Some(Outcome::Accepted)) => {
                        out.push_str("accepted")?
                    }
                    (_, Some(outcome)) => write!(out, "{outcome}").map_err(fmt::Error::from)?,
                }
                out.push_str("\n")?;
            }
            Err(fault) => {
                let number = items.len() - after.len();
                write!(out, "line {number}: {fault}: ")?;
                write!(out, "{line}").map_err(fmt::Error::from)?;
                out.push_str("\n")?;
            }
        }
        rest = after;
    }
    let understood = items.iter().all(|item| item.request.is_ok());
    Ok(Printed {
        text: out,
        understood,
    })
}
