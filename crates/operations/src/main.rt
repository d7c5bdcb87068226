// Reads operations of the number forms from standard input, one a line, and prints what each came to.
#![tactic(auto)]

mod parsing;
mod stored;
mod wording;
mod working;

use std::io::Read;

const USAGE: &str =
    "operations reads operations of the number forms from standard input, one a line, and prints what each came to:
  FORM whole H             an exact amount, in hundredths
  FORM plus A A' B B'      the sum of two amounts
  FORM times C A A'        C times an amount, C from -100 to 100
  FORM exact F             an exact factor, in ten-millionths
  FORM ratio P Q           the factor P / Q of two exact amounts, Q above 0
  FORM mix W F F' G G'     ((1000 - W) F + W G) / 1000 of two factors, W from 0 to 1000
  FORM apply F F' A A'     a factor applied to an amount
FORM is ends or centre. An amount or a factor is two stored numbers: the lower and the upper end, or the centre and the radius.
Blank lines and lines that begin with # are skipped.";

// Each program reads its input itself: a library of this repository allocates nothing.
fn main(rt: HostRuntime) -> anyhow::Result<()> {
    let mut bytes = Vec::new(rt.alloc());
    let _ = rt.stdin().read_to_end(&mut bytes)?;
    if bytes.is_empty() {
        rt.println(USAGE)?;
        return Ok(());
    }
    let text = String::from_utf8_lossy(rt.alloc(), bytes.as_slice())?;
    let answers = wording::answers(rt.alloc(), text.as_str())?;
    rt.print(answers.as_str())?;
    Ok(())
}
