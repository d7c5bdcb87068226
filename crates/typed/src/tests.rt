// Lines as they are typed, and what is read from them.
use crate::form::FormName;
use crate::line::Line;
use crate::words::{NotUnderstood, Words};
use std::test::Fail;

fn number(words: &mut Words<'_>) -> Result<u8, NotUnderstood> {
    words.parse()
}

#[test]
fn single_blanks(rt: HostRuntime) -> Result<(), Fail> {
    let line = Line("  factor\t0   1 ").to_string(rt.alloc())?;
    assert!(rt; line.as_str() == "factor 0 1");
    Ok(())
}

#[test]
fn whole_lines(rt: HostRuntime) {
    assert!(rt; Line(" 7 ").read(number) == Ok(Some(7)));
    assert!(rt;
        Line("7 8").read(number) == Err(NotUnderstood),
        "a word is left over"
    );
    assert!(rt;
        Line("256").read(number) == Err(NotUnderstood),
        "no number of a byte"
    );
    assert!(rt; Line(" # 7").read(number) == Ok(None), "a comment");
    assert!(rt; Line("\t").read(number) == Ok(None), "a blank line");
}

#[test]
fn form_names(rt: HostRuntime) {
    assert!(rt; "ends".parse::<FormName>() == Ok(FormName::Ends));
    assert!(rt; "centre".parse::<FormName>() == Ok(FormName::Centre));
    assert!(rt; "Ends".parse::<FormName>() == Err(NotUnderstood));
}
