// Lines that are no calls, and the calls around them, which they do not disturb.
use crate::session::answers;
use std::test::Fail;

const LINES: &str = "open 1 99999999999999999999 3
  # a comment
enter 0 0 0
open   1 2 2
enter 0 0 18446744073709551615 5
enter 0 0 0 9223372036854775808
term 0 0 0 300 1
close now
close
factor 0 4294967296
reopened";

const ANSWERS: &str = "line 1: not understood: open 1 99999999999999999999 3
line 3: not understood: enter 0 0 0
open 1 2 2: accepted
enter 0 0 18446744073709551615 5: refused 4 0 0 0 18446744073709551615 0: no such column
line 6: not understood: enter 0 0 0 9223372036854775808
term 0 0 0 300 1: refused 8 0 0 0 0 0: a reach is 0, 1 or 2
line 8: not understood: close now
close: accepted
factor 0 4294967296: refused 4 2 0 0 4294967296 0: no such column
line 11: not understood: reopened
";

#[test]
fn not_understood(rt: HostRuntime) -> Result<(), Fail> {
    let said = answers(rt.alloc(), LINES)?;
    assert!(rt; !said.understood);
    assert!(rt; said.text.as_str() == ANSWERS, "what is printed");
    Ok(())
}

#[test]
fn nothing_to_say(rt: HostRuntime) -> Result<(), Fail> {
    let said = answers(rt.alloc(), "\n   \n# only a comment\n")?;
    assert!(rt; said.understood);
    assert!(rt; said.text.is_empty());
    Ok(())
}
