// The two-ends form: a factor and an amount go in by their lower and upper ends.
ghost use Rattle.std.specs.Prelude.{◌≡◌, pos, IsTrue};
ghost use Rattle.paper.specs.EndsForm.{ends_form};
ghost use Rattle.forms_c.specs.Answered.{ratio_of, application_of, ends_amount, ends_factor, ends_answered};

use crate::apply;
use forms::two_ends::{EndPair, FactorEnds, TwoEnds};
use forms::{AMOUNT_CEILING, ProjectingForm, is_amount};

// The ends of a result. A refused one has none: both are 0. C has no Option, so a flag stands
// beside the numbers, and the functions say so: a ghost field would stand in each definition of an answer.
#[repr(C)]
#[derive(Clone, Copy, PartialEq, Eq, Debug)]
pub struct EndsAnswer {
    pub refused: bool,
    pub low: i64,
    pub high: i64,
}

impl<const CEILING: i64> From<Option<EndPair<CEILING>>> for EndsAnswer {
    ghost use Rattle.forms_c.specs.Crossing.{ends_answer};

    ghost from_gives = { λ ends a. a ≡ ends_answer ends };

    fn from(ends: Option<EndPair<CEILING>>) -> EndsAnswer {
        match ends {
            Some(ends) => EndsAnswer {
                refused: false,
                low: ends.low,
                high: ends.high,
            },
            None => EndsAnswer {
                refused: true,
                low: 0,
                high: 0,
            },
        }
    }
}

// p / q, refused past the factor ceiling, for a p or a q past the amount ceiling and for a q that is not above 0.
#[unsafe(no_mangle)]
pub extern "C" fn ends_ratio(p: i64, q: i64) -> EndsAnswer
    ensures value { ends_answered ends_factor result ≡ ratio_of ends_form p q }
    ensures blank { IsTrue result.refused → (result.low ≡ pos 0) × (result.high ≡ pos 0) }
{
    if !is_amount(p) || q <= 0 || q > AMOUNT_CEILING {
        return None::<FactorEnds>.into();
    }
    TwoEnds::ratio(p, q).ok().into()
}

// A factor applied to an amount, refused past the amount ceiling.
#[unsafe(no_mangle)]
pub extern "C" fn ends_apply(factor_low: i64, factor_high: i64, low: i64, high: i64) -> EndsAnswer
    ensures value { ends_answered ends_amount result ≡ application_of ends_form (ends_factor factor_low factor_high) (ends_amount low high) }
    ensures blank { IsTrue result.refused → (result.low ≡ pos 0) × (result.high ≡ pos 0) }
{
    let factor = FactorEnds {
        low: factor_low,
        high: factor_high,
    };
    apply(&factor, &TwoEnds { low, high }).into()
}
