// The centre form: a factor and an amount go in by their centre and radius.
ghost use Rattle.std.specs.Prelude.{◌≡◌, pos, IsTrue};
ghost use Rattle.paper.specs.CentreForm.{centre_form};
ghost use Rattle.forms_c.specs.Answered.{ratio_of, application_of, centre_amount, centre_factor, centre_answered};

use crate::apply;
use forms::centre::{CentreRadius, Centred, FactorRadius};
use forms::{AMOUNT_CEILING, ProjectingForm, is_amount};

// The centre and the radius of a result. A refused one has none: both are 0. C has no Option, so a flag stands
// beside the numbers, and the functions say so: a ghost field would stand in each definition of an answer.
#[repr(C)]
#[derive(Clone, Copy, PartialEq, Eq, Debug)]
pub struct CentreAnswer {
    pub refused: bool,
    pub centre: i64,
    pub radius: i64,
}

impl<const CEILING: i64> From<Option<Centred<CEILING>>> for CentreAnswer {
    ghost use Rattle.forms_c.specs.Crossing.{centre_answer};

    ghost from_gives = { λ centred a. a ≡ centre_answer centred };

    fn from(centred: Option<Centred<CEILING>>) -> CentreAnswer {
        match centred {
            Some(centred) => CentreAnswer {
                refused: false,
                centre: centred.centre,
                radius: centred.radius,
            },
            None => CentreAnswer {
                refused: true,
                centre: 0,
                radius: 0,
            },
        }
    }
}

// p / q, refused past the factor ceiling, for a p or a q past the amount ceiling and for a q that is not above 0.
#[unsafe(no_mangle)]
pub extern "C" fn centre_ratio(p: i64, q: i64) -> CentreAnswer
    ensures value { centre_answered centre_factor result ≡ ratio_of centre_form p q }
    ensures blank { IsTrue result.refused → (result.centre ≡ pos 0) × (result.radius ≡ pos 0) }
{
    if !is_amount(p) || q <= 0 || q > AMOUNT_CEILING {
        return None::<FactorRadius>.into();
    }
    CentreRadius::ratio(p, q).ok().into()
}

// A factor applied to an amount, refused past the amount ceiling.
#[unsafe(no_mangle)]
pub extern "C" fn centre_apply(
    factor_centre: i64,
    factor_radius: i64,
    centre: i64,
    radius: i64,
) -> CentreAnswer
    ensures value { centre_answered centre_amount result ≡ application_of centre_form (centre_factor factor_centre factor_radius) (centre_amount centre radius) }
    ensures blank { IsTrue result.refused → (result.centre ≡ pos 0) × (result.radius ≡ pos 0) }
{
    let factor = FactorRadius {
        centre: factor_centre,
        radius: factor_radius,
    };
    apply(&factor, &CentreRadius { centre, radius }).into()
}
