// Whole numbers as a summing form: a number is its own two ends.
ghost use Rattle.std.specs.Prelude.{◌≡◌};
ghost use Rattle.paper.specs.Numbers.{point, Amount};
ghost use Rattle.forms.specs.Told.{told, ceiled};
ghost use Rattle.forms.specs.Held.{whole_ends};
ghost use Rattle.std.proofs.Common.{rules};

use crate::{FormFault, SummingForm, is_amount};
use algebra::product;

// The number, unless it passes the ceiling.
fn held(value: i64) -> Result<i64, FormFault>
    ensures { told whole_ends result ≡ ceiled (point value) }
{
    if is_amount(value) {
        Ok(value)
    } else {
        Err(FormFault::AmountCeiling)
    }
}

// The number as an amount; past the ceiling it counts as zero.
pub fn read(value: &i64) -> i64
    ensures { (whole_ends value.now ≡ point result) × (Amount (point result)) }
{
    if is_amount(*value) { *value } else { 0 }
}

impl SummingForm for i64 {
    ghost ends = { whole_ends };

    ghost amount = { Prim.search rules };

    fn pair(&self) -> (i64, i64) {
        let a = read(self);
        (a, a)
    }

    fn whole(hundredths: i64) -> Result<i64, FormFault> {
        held(hundredths)
    }

    fn plus(&self, other: &i64) -> Result<i64, FormFault> {
        let a = read(self);
        let b = read(other);
        held(a + b)
    }

    fn times(&self, coefficient: i64) -> Result<i64, FormFault> {
        let a = read(self);
        held(product(coefficient, a))
    }
}
