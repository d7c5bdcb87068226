// The names of the number forms.
use crate::words::NotUnderstood;
use std::str::FromStr;

#[derive(Clone, Copy, PartialEq, Eq, Hash, Debug)]
pub enum FormName {
    Ends,
    Centre,
}

impl FromStr for FormName {
    ghost use Rattle.std.specs.Prelude.{◌≡◌};
    ghost use Rattle.typed.specs.Reading.{form_named};

    type Err = NotUnderstood;

    ghost from_str_gives = { λ word form. form ≡ form_named word };

    fn from_str(word: &str) -> Result<Self, NotUnderstood> {
        match word {
            "ends" => Ok(FormName::Ends),
            "centre" => Ok(FormName::Centre),
            _ => Err(NotUnderstood),
        }
    }
}
