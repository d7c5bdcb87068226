// What a line of input asks for.
use crate::stored::Numbers;
use crate::working::Operation;
use typed::form::FormName;
use typed::words::{NotUnderstood, Words};

#[derive(Clone, Copy)]
pub(crate) struct Request {
    pub(crate) form: FormName,
    pub(crate) operation: Operation,
}

fn numbers(words: &mut Words<'_>) -> Result<Numbers, NotUnderstood> {
    Ok(Numbers {
        first: words.parse()?,
        second: words.parse()?,
    })
}

// A weight is typed as any whole number, so that -0 is one as well.
fn weight(words: &mut Words<'_>) -> Result<u16, NotUnderstood> {
    let weight: i64 = words.parse()?;
    u16::try_from(weight).map_err(|_| NotUnderstood)
}

fn operation(words: &mut Words<'_>) -> Result<Operation, NotUnderstood> {
    match words.next().ok_or(NotUnderstood)? {
        "whole" => Ok(Operation::Whole(words.parse()?)),
        "plus" => Ok(Operation::Plus(numbers(words)?, numbers(words)?)),
        "times" => Ok(Operation::Times(words.parse()?, numbers(words)?)),
        "exact" => Ok(Operation::Exact(words.parse()?)),
        "ratio" => Ok(Operation::Ratio(words.parse()?, words.parse()?)),
        "mix" => Ok(Operation::Mix(weight(words)?, numbers(words)?, numbers(words)?)),
        "apply" => Ok(Operation::Apply(numbers(words)?, numbers(words)?)),
        _ => Err(NotUnderstood),
    }
}

impl Request {
    pub(crate) fn parse(words: &mut Words<'_>) -> Result<Self, NotUnderstood> {
        Ok(Request {
            form: words.parse()?,
            operation: operation(words)?,
        })
    }
}
