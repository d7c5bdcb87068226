// A whole input: each line in words, with what it came to.
use crate::parsing::Request;
use crate::working::Unanswered;
use forms::centre::CentreRadius;
use forms::two_ends::TwoEnds;
use std::alloc::Global;
use std::fmt::{self, Write};
use typed::form::FormName;
use typed::line::Line;

// What a line came to; nothing if it is skipped.
fn answer(line: Line<'_>) -> Result<Option<(i64, i64)>, Unanswered> {
    let Some(Request { form, operation }) = line.read(Request::parse)? else {
        return Ok(None);
    };
    // a form is a type, with a constant and a type of its own: no dyn can stand for it, and a closure is no plainer
    let ends = match form {
        FormName::Ends => operation.worked::<TwoEnds>()?,
        FormName::Centre => operation.worked::<CentreRadius>()?,
    };
    Ok(Some(ends))
}

// What is printed for an input. Want of memory for the words of a line, or of its answer, is an error of formatting, and else one
// of memory; `main` prints which.
pub(crate) fn answers(heap: Global, text: &str) -> anyhow::Result<String> {
    let mut out = String::new(heap);
    for line in text.lines().map(Line) {
        let Some(answer) = answer(line).transpose() else {
            continue;
        };
        write!(out, "{line}").map_err(fmt::Error::from)?;
        out.push_str(": ")?;
        match answer {
            Ok((low, high)) => write!(out, "between {low} and {high}"),
            Err(unanswered) => write!(out, "{unanswered}"),
        }
        .map_err(fmt::Error::from)?;
        out.push_str("\n")?;
    }
    Ok(out)
}
