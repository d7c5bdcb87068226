// The two-ends form: both ends are kept, the least exact result rounded down and the greatest up. Its slack is 2.
ghost use Rattle.std.specs.Prelude.{◌≡◌, pos, neg_ℤ, ◌≤ℤ◌};
ghost use Rattle.paper.specs.Numbers.{both, OrderedWithin};
ghost use Rattle.paper.specs.EndsForm.{ends_form};
ghost use Rattle.forms.specs.Told.{told, within_or};
ghost use Rattle.forms.specs.Held.{pair_within, two_ends, factor_ends};
ghost use Rattle.std.proofs.Common.{rules};
ghost use Rattle.paper.proofs.EndsForm.{ends_lawful};

use crate::{
    AMOUNT_CEILING, FACTOR_CEILING, FormFault, ProjectingForm, SCALE, SummingForm, WEIGHTS,
};
use algebra::{product, product_range, rounded_down, rounded_up, weighted};

// Two ends of at most a ceiling. Numbers out of order or past the ceiling count as zero.
#[derive(Clone, Copy, PartialEq, Eq, Debug)]
pub struct EndPair<const CEILING: i64> {
    pub low: i64,
    pub high: i64,
}

// An amount between two ends.
pub type TwoEnds = EndPair<AMOUNT_CEILING>;

// A factor between two ends.
pub type FactorEnds = EndPair<FACTOR_CEILING>;

// That the const parameter is a ceiling stays a clause, and the fault a parameter: a type parameter that carried both would need a
// field of its own in each literal.
impl<const CEILING: i64> EndPair<CEILING> {
    // The two numbers, unless one passes the ceiling.
    fn held(low: i64, high: i64, fault: FormFault) -> Result<EndPair<CEILING>, FormFault>
        requires order { low ≤ℤ high }
        requires ceiling { pos 0 ≤ℤ CEILING }
        ensures { told (pair_within CEILING) result ≡ within_or (neg_ℤ CEILING) CEILING fault (both low high) }
    {
        if low < -CEILING || high > CEILING {
            return Err(fault);
        }
        Ok(EndPair { low, high })
    }

    // The two ends, if they are some, and else zero.
    fn read(&self) -> (i64, i64)
        requires { pos 0 ≤ℤ CEILING }
        ensures ends { pair_within CEILING self.now ≡ both result.0 result.1 }
        ensures within { OrderedWithin (neg_ℤ CEILING) CEILING (both result.0 result.1) }
    {
        if -CEILING <= self.low && self.low <= self.high && self.high <= CEILING {
            (self.low, self.high)
        } else {
            (0, 0)
        }
    }
}

impl SummingForm for TwoEnds {
    ghost ends = { two_ends };

    ghost amount = { Prim.search rules };

    fn pair(&self) -> (i64, i64) {
        self.read()
    }

    fn whole(hundredths: i64) -> Result<TwoEnds, FormFault> {
        TwoEnds::held(hundredths, hundredths, FormFault::AmountCeiling)
    }

    fn plus(&self, other: &TwoEnds) -> Result<TwoEnds, FormFault> {
        let (a, b) = self.read();
        let (c, d) = other.read();
        TwoEnds::held(a + c, b + d, FormFault::AmountCeiling)
    }

    fn times(&self, coefficient: i64) -> Result<TwoEnds, FormFault> {
        let (a, b) = self.read();
        let at_low = product(coefficient, a);
        let at_high = product(coefficient, b);
        if coefficient >= 0 {
            TwoEnds::held(at_low, at_high, FormFault::AmountCeiling)
        } else {
            TwoEnds::held(at_high, at_low, FormFault::AmountCeiling)
        }
    }
}

impl ProjectingForm for TwoEnds {
    type Factor = FactorEnds;

    const SLACK: u64 = 2;

    ghost SLACK = { 2 };

    ghost form = { ends_form };

    ghost fends = { factor_ends };

    ghost slack = { Prim.search rules };

    ghost lawful = { ends_lawful };

    ghost factor = { Prim.search rules };

    fn factor_pair(f: &FactorEnds) -> (i64, i64) {
        f.read()
    }

    fn exact(ten_millionths: i64) -> Result<FactorEnds, FormFault> {
        FactorEnds::held(ten_millionths, ten_millionths, FormFault::FactorCeiling)
    }

    fn ratio(p: i64, q: i64) -> Result<FactorEnds, FormFault> {
        let scaled = product(SCALE, p);
        FactorEnds::held(
            rounded_down(scaled, q),
            rounded_up(scaled, q),
            FormFault::FactorCeiling,
        )
    }

    fn mix(w: u16, f: &FactorEnds, g: &FactorEnds) -> Result<FactorEnds, FormFault> {
        let (a, b) = f.read();
        let (c, d) = g.read();
        let least = weighted(w, a, c);
        let greatest = weighted(w, b, d);
        FactorEnds::held(
            rounded_down(least, WEIGHTS),
            rounded_up(greatest, WEIGHTS),
            FormFault::FactorCeiling,
        )
    }

    fn apply(f: &FactorEnds, a: &TwoEnds) -> Result<TwoEnds, FormFault> {
        let (x, y) = f.read();
        let (c, d) = a.read();
        let (least, greatest) = product_range((x, y), (c, d));
        TwoEnds::held(
            rounded_down(least, SCALE),
            rounded_up(greatest, SCALE),
            FormFault::AmountCeiling,
        )
    }
}
