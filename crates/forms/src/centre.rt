// The centre form: a centre and a radius, with ends a radius apart from the centre. A rounded operation rounds the centre
// down and the exact radius up, and adds 1 to the radius if the centre was not exact. Its slack is 4.
ghost use Rattle.std.specs.Prelude.{◌≡◌, pos, neg_ℤ, ◌≤ℤ◌, unsigned_abs};
ghost use Rattle.algebra.specs.Sizes.{CentreSize, Within};
ghost use Rattle.paper.specs.Numbers.{both, point};
ghost use Rattle.paper.specs.CentreForm.{centre_form};
ghost use Rattle.forms.specs.Told.{told, within_or};
ghost use Rattle.forms.specs.Centred.{around, within_ceiling, centred_within, centre_ends, factor_centre_ends};
ghost use Rattle.std.proofs.Common.{rules};
ghost use Rattle.paper.proofs.CentreForm.{centre_lawful};

use crate::{
    AMOUNT_CEILING, FACTOR_CEILING, FormFault, ProjectingForm, SCALE, SummingForm, WEIGHTS,
};
use algebra::{inexact, product, rounded_around, rounded_down, spread, weighted};

// A number by its centre and radius. A radius below 0, or an end past the ceiling, counts as zero.
#[derive(Clone, Copy, PartialEq, Eq, Debug)]
pub struct Centred<const CEILING: i64> {
    pub centre: i64,
    pub radius: i64,
}

// An amount by its centre and radius.
pub type CentreRadius = Centred<AMOUNT_CEILING>;

// A factor by its centre and radius.
pub type FactorRadius = Centred<FACTOR_CEILING>;

// Whether a centre and a radius have their ends within a ceiling. The radius is tested first, so that 64 bits hold the
// bounds of the centre.
fn within(centre: i64, radius: i64, ceiling: i64) -> bool
    requires { (pos 0 ≤ℤ ceiling) × (ceiling ≤ℤ pos 40000000000) }
    ensures { result ≡ within_ceiling centre radius ceiling }
{
    if radius < 0 || radius > ceiling {
        return false;
    }
    radius - ceiling <= centre && centre <= ceiling - radius
}

// That the const parameter is a ceiling stays a clause, and the fault a parameter: a type parameter that carried both would need a
// field of its own in each literal.
impl<const CEILING: i64> Centred<CEILING> {
    // A centre and a radius, unless an end passes the ceiling.
    fn held(centre: i64, radius: i64, fault: FormFault) -> Result<Centred<CEILING>, FormFault>
        requires sizes { (Within 4000000000000000000 centre) × ((Within 4000000000000000000 radius) × (pos 0 ≤ℤ radius)) }
        requires ceiling { (pos 0 ≤ℤ CEILING) × (CEILING ≤ℤ pos 40000000000) }
        ensures { told (centred_within CEILING) result ≡ within_or (neg_ℤ CEILING) CEILING fault (around centre radius) }
    {
        if centre - radius < -CEILING || centre + radius > CEILING {
            return Err(fault);
        }
        Ok(Centred { centre, radius })
    }

    // An exact number, unless it passes the ceiling.
    fn exactly(number: i64, fault: FormFault) -> Result<Centred<CEILING>, FormFault>
        requires { pos 0 ≤ℤ CEILING }
        ensures { told (centred_within CEILING) result ≡ within_or (neg_ℤ CEILING) CEILING fault (point number) }
    {
        if number < -CEILING || number > CEILING {
            return Err(fault);
        }
        Ok(Centred {
            centre: number,
            radius: 0,
        })
    }

    fn read(&self) -> (i64, i64)
        requires { (pos 0 ≤ℤ CEILING) × (CEILING ≤ℤ pos 40000000000) }
        ensures ends { centred_within CEILING self.now ≡ around result.0 result.1 }
        ensures size { CentreSize (unsigned_abs CEILING) result.0 result.1 }
    {
        if within(self.centre, self.radius, CEILING) {
            (self.centre, self.radius)
        } else {
            (0, 0)
        }
    }

    // The lower and the upper end.
    fn ends(&self) -> (i64, i64)
        requires { (pos 0 ≤ℤ CEILING) × (CEILING ≤ℤ pos 40000000000) }
        ensures { centred_within CEILING self.now ≡ both result.0 result.1 }
    {
        let (c, r) = self.read();
        (c - r, c + r)
    }
}

impl SummingForm for CentreRadius {
    ghost ends = { centre_ends };

    ghost amount = { Prim.search rules };

    fn pair(&self) -> (i64, i64) {
        self.ends()
    }

    fn whole(hundredths: i64) -> Result<CentreRadius, FormFault> {
        CentreRadius::exactly(hundredths, FormFault::AmountCeiling)
    }

    fn plus(&self, other: &CentreRadius) -> Result<CentreRadius, FormFault> {
        let (c, r) = self.read();
        let (e, s) = other.read();
        CentreRadius::held(c + e, r + s, FormFault::AmountCeiling)
    }

    fn times(&self, coefficient: i64) -> Result<CentreRadius, FormFault> {
        let (c, r) = self.read();
        let centre = product(coefficient, c);
        let radius = product(coefficient.abs(), r);
        CentreRadius::held(centre, radius, FormFault::AmountCeiling)
    }
}

impl ProjectingForm for CentreRadius {
    type Factor = FactorRadius;

    const SLACK: u64 = 4;

    ghost SLACK = { 4 };

    ghost form = { centre_form };

    ghost fends = { factor_centre_ends };

    ghost slack = { Prim.search rules };

    ghost lawful = { centre_lawful };

    ghost factor = { Prim.search rules };

    fn factor_pair(f: &FactorRadius) -> (i64, i64) {
        f.ends()
    }

    fn exact(ten_millionths: i64) -> Result<FactorRadius, FormFault> {
        FactorRadius::exactly(ten_millionths, FormFault::FactorCeiling)
    }

    fn ratio(p: i64, q: i64) -> Result<FactorRadius, FormFault> {
        let scaled = product(SCALE, p);
        let centre = rounded_down(scaled, q);
        let radius = inexact(scaled, q, centre);
        FactorRadius::held(centre, radius, FormFault::FactorCeiling)
    }

    fn mix(w: u16, f: &FactorRadius, g: &FactorRadius) -> Result<FactorRadius, FormFault> {
        let (c, r) = f.read();
        let (e, s) = g.read();
        let middle = weighted(w, c, e);
        let apart = weighted(w, r, s);
        let (centre, radius) = rounded_around(middle, apart, WEIGHTS);
        FactorRadius::held(centre, radius, FormFault::FactorCeiling)
    }

    fn apply(f: &FactorRadius, a: &CentreRadius) -> Result<CentreRadius, FormFault> {
        let (c, r) = f.read();
        let (e, s) = a.read();
        let middle = product(c, e);
        let apart = spread((c, r), (e, s));
        let (centre, radius) = rounded_around(middle, apart, SCALE);
        CentreRadius::held(centre, radius, FormFault::AmountCeiling)
    }
}
