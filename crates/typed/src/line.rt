// A line as it was typed.
ghost use Rattle.std.specs.Prelude.{◌≡◌, Some, MatchBool};
ghost use Rattle.std.specs.Fn.{FnOnceReturnsAtMut};
ghost use Rattle.std.specs.List.{join_with_byte};
ghost use Rattle.std.specs.Str.{byte};
ghost use Rattle.typed.specs.Words.{words_of};
ghost use Rattle.typed.specs.Reading.{is_skipped, ReadsWhole};

use crate::words::{NotUnderstood, Words};
use std::fmt;

#[derive(Clone, Copy, PartialEq, Eq, Debug)]
pub struct Line<'a>(pub &'a str);

impl<'a> Line<'a> {
    pub fn words(&self) -> Words<'a>
        ensures { result ≡ words_of self.now.0.now }
    {
        Words::of(self.0)
    }

    // A blank line and a comment are skipped.
    pub fn is_skipped(&self) -> bool
        ensures { result ≡ is_skipped (words_of self.now.0.now) }
    {
        match self.words().next() {
            None => true,
            Some(word) => word.starts_with('#'),
        }
    }

    // What the words of a line come to. They have to be read to the last one.
    pub fn read<T: Drop, F>(&self, parse: F) -> Result<Option<T>, NotUnderstood>
    where
        F: FnOnce(&mut Words<'_>) -> Result<T, NotUnderstood>,
        requires { F.IsAlwaysCallable parse }
        ensures { MatchBool (is_skipped (words_of self.now.0.now)) (result ≡ Ok None)
            (ReadsWhole (FnOnceReturnsAtMut F.FnOnce parse (words_of self.now.0.now)) result) }
    {
        if self.is_skipped() {
            return Ok(None);
        }
        let mut words = self.words();
        let value = parse(&mut words)?;
        match words.next() {
            None => Ok(Some(value)),
            Some(_) => Err(NotUnderstood),
        }
    }
}

// Single blanks between the words.
impl fmt::Display for Line<'_> {
    ghost output = { λ line. Some (join_with_byte (byte " ") (words_of line.0.now)) };

    fn fmt<W: fmt::Write>(&self, f: &mut fmt::Formatter<W>) -> fmt::Result {
        let mut words = self.words();
        if let Some(first) = words.next() {
            f.write_str(first)?;
            for word in words {
                write!(f, " {word}")?;
            }
        }
        Ok(())
    }
}
