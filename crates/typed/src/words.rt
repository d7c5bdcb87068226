// The words of a text, one after the other.
ghost use Rattle.std.specs.Prelude.{◌≡◌, drop};
ghost use Rattle.std.specs.Iterator.{YieldsFirstRef, item_count};
ghost use Rattle.typed.specs.Words.{words_of};
ghost use Rattle.typed.specs.Reading.{ParsesFirst};

use std::error::Error;
use std::fmt;
use std::marker::Model;
use std::str::{FromStr, SplitWhitespace};

// A word or a line that is not understood.
#[derive(Clone, Copy, PartialEq, Eq, Debug)]
pub struct NotUnderstood;

impl fmt::Display for NotUnderstood {
    fn fmt<W: fmt::Write>(&self, f: &mut fmt::Formatter<W>) -> fmt::Result {
        f.write_str("not understood")
    }
}

impl Error for NotUnderstood {}

// The words that are left of a text, seen as the list of them.
#[derive(Drop)]
pub struct Words<'a> {
    rest: SplitWhitespace<'a>,
}

impl<'a> Model for Words<'a> {
    ghost use Rattle.std.specs.Prelude.{ℕ, List};
    ghost use Rattle.std.specs.Str.{IsUtf8};
    ghost use Rattle.std.specs.Str.Iter.{split_whitespace_rest};
    ghost use Rattle.typed.specs.Words.{words_of};

    ghost Value = { List (List ℕ) };

    ghost view = { λ words. words_of (split_whitespace_rest words.rest) };

    ghost invariant = { λ words. IsUtf8 (split_whitespace_rest words.rest) };
}

impl<'a> Words<'a> {
    pub fn of(text: &'a str) -> Self
        ensures { result ≡ words_of text.now }
    {
        Words {
            rest: text.split_whitespace(),
        }
    }

    // The next word, read as a value of the type that is wanted.
    pub fn parse<T: FromStr>(&mut self) -> Result<T, NotUnderstood>
    where
        T::Err: Drop,
        ensures parsed { ParsesFirst T.from_str_gives self.old result }
        ensures left { self.new ≡ drop 1 self.old }
    {
        let word = self.next().ok_or(NotUnderstood)?;
        word.parse().map_err(|_| NotUnderstood)
    }
}

impl<'a> Iterator for Words<'a> {
    type Item = &'a str;

    ghost next_gives = { YieldsFirstRef (λ words. words) };

    ghost remaining = { item_count (λ words. words) };

    fn next(&mut self) -> Option<&'a str> {
        self.rest.next()
    }
}
