// What a line of input asks for.
use book::faults::Place;
use book::kinds::Sizes;
use book::rules::Term;
use lines::calls::Call;
use typed::form::FormName;
use typed::words::{NotUnderstood, Words};

// The form of the books to come, a new book, or a call on the book that is open.
#[derive(Clone, Copy)]
pub(crate) enum Request {
    Form(FormName),
    Open(Sizes),
    Make(Call),
}

// Every reach code above 2 is refused alike, so a larger one than a byte holds is read as the largest byte.
fn reach(words: &mut Words<'_>) -> Result<u8, NotUnderstood> {
    let code: usize = words.parse()?;
    Ok(u8::try_from(code).unwrap_or(u8::MAX))
}

fn term(words: &mut Words<'_>) -> Result<Term, NotUnderstood> {
    Ok(Term {
        property: words.parse()?,
        shift: words.parse()?,
        reach: reach(words)?,
        coefficient: words.parse()?,
    })
}

impl Request {
    pub(crate) fn parse(words: &mut Words<'_>) -> Result<Self, NotUnderstood> {
        match words.next().ok_or(NotUnderstood)? {
            "form" => Ok(Request::Form(words.parse()?)),
            "open" => Ok(Request::Open(Sizes {
                properties: words.parse()?,
                rows: words.parse()?,
                columns: words.parse()?,
            })),
            "enter" => Ok(Request::Make(Call::Enter {
                at: Place {
                    property: words.parse()?,
                    row: words.parse()?,
                    column: words.parse()?,
                },
                amount: words.parse()?,
            })),
            "term" => Ok(Request::Make(Call::AddTerm {
                property: words.parse()?,
                term: term(words)?,
            })),
            "close" => Ok(Request::Make(Call::Close)),
            "factor" => Ok(Request::Make(Call::AskFactor {
                property: words.parse()?,
                column: words.parse()?,
            })),
            "reopen" => Ok(Request::Make(Call::Reopen)),
            _ => Err(NotUnderstood),
        }
    }
}
