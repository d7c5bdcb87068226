// Reads calls from standard input, one a line, and prints what each came to.
#![tactic(auto)]

mod parsing;
mod session;
#[cfg(test)]
mod tests;

use std::io::Read;
use std::process::ExitCode;

const USAGE: &str =
    "rulkhaved reads calls from standard input, one a line, and prints what each came to:
  form ends | form centre              the number form of the books to come
  open P N C                           a new book of P properties, N rows and C columns
  enter M I K AMOUNT                   an observed amount, in hundredths
  term M L SHIFT REACH COEFFICIENT     a term, last in the rule of property M
  close                                the draft is closed
  factor M K                           the factor of property M from column K to the next
  reopen                               the closed book is a draft again
Blank lines and lines that begin with # are skipped.";

// Each program reads its input itself: a library of this repository allocates nothing.
fn main(rt: HostRuntime) -> anyhow::Result<ExitCode> {
    let mut bytes = Vec::new(rt.alloc());
    let _ = rt.stdin().read_to_end(&mut bytes)?;
    if bytes.is_empty() {
        rt.println(USAGE)?;
        return Ok(ExitCode::SUCCESS);
    }
    let text = String::from_utf8_lossy(rt.alloc(), bytes.as_slice())?;
    let answers = session::answers(rt.alloc(), text.as_str())?;
    rt.print(answers.text.as_str())?;
    if answers.understood {
        Ok(ExitCode::SUCCESS)
    } else {
        Ok(ExitCode::FAILURE)
    }
}
