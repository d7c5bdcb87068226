// Number forms: what amounts and factors are to the engine. Everything above is written once, for every form.
#![tactic(auto)]

ghost use Rattle.std.specs.Prelude.{◌≡◌, ℕ, ◌≤◌, ℤ, pos, negsuc, ◌≤ℤ◌, ◌<ℤ◌, unsigned_abs};
ghost use Rattle.algebra.specs.Interval.{Ends};
ghost use Rattle.paper.specs.Numbers.{Amount, Factor, both, inside, point};
ghost use Rattle.paper.specs.Sums.{sum_of_ends, multiple_of_ends};
ghost use Rattle.paper.specs.Forms.{Form, Lawful};
ghost use Rattle.forms.specs.Told.{told, ceiled, factor_ceiled};

pub mod centre;
pub mod two_ends;
pub mod whole;

// What a form refuses with, by the number of its ground. A form knows no place: its caller adds it.
#[derive(Clone, Copy, PartialEq, Eq, Hash, Debug)]
pub enum FormFault {
    AmountCeiling = 14,
    FactorCeiling = 15,
}

// The largest amount of either sign, in hundredths.
pub const AMOUNT_CEILING: i64 = 40_000_000_000;

// The largest factor of either sign, in ten-millionths.
pub const FACTOR_CEILING: i64 = 200_000_000;

// Ten-millionths in one.
pub(crate) const SCALE: i64 = 10_000_000;

// Parts in a whole weight.
pub(crate) const WEIGHTS: i64 = 1000;

// Whether a whole number of hundredths is an amount.
pub fn is_amount(hundredths: i64) -> bool
    ensures { result ≡ inside (point hundredths) }
{
    (-AMOUNT_CEILING..=AMOUNT_CEILING).contains(&hundredths)
}

// An amount between two ends, with sums and multiples. A result past the ceiling is refused, exactly then.
pub trait SummingForm: Copy {
    // stored numbers that break the form's meaning count as zero
    ghost ends: { Self → Ends };

    // The lower and the upper end.
    fn pair(&self) -> (i64, i64)
        ensures { ends self.now ≡ both result.0 result.1 };

    fn whole(hundredths: i64) -> Result<Self, FormFault>
        ensures { told ends result ≡ ceiled (point hundredths) };

    fn plus(&self, other: &Self) -> Result<Self, FormFault>
        ensures { told ends result ≡ ceiled (sum_of_ends (ends self.now) (ends other.now)) };

    fn times(&self, coefficient: i64) -> Result<Self, FormFault>
        requires { (negsuc 99 ≤ℤ coefficient) × (coefficient ≤ℤ pos 100) }
        ensures { told ends result ≡ ceiled (multiple_of_ends coefficient (ends self.now)) };

    ghost amount: { (x : Self) → Amount (ends x) };
}

// A summing form that has factors as well.
pub trait ProjectingForm: SummingForm {
    type Factor: Copy;

    // How far apart the ends of a ratio of exact amounts may lie.
    const SLACK: u64;

    ghost SLACK: { ℕ };

    // what the form makes of exact ends
    ghost form: { Form };

    ghost fends: { Self.Factor → Ends };

    // The lower and the upper end of a factor.
    fn factor_pair(f: &Self::Factor) -> (i64, i64)
        ensures { fends f.now ≡ both result.0 result.1 };

    fn exact(ten_millionths: i64) -> Result<Self::Factor, FormFault>
        ensures { told fends result ≡ factor_ceiled (point ten_millionths) };

    // p / q of two amounts
    fn ratio(p: i64, q: i64) -> Result<Self::Factor, FormFault>
        requires { (Amount (point p)) × ((pos 0 <ℤ q) × (Amount (point q))) }
        ensures { told fends result ≡ factor_ceiled (form.ratio p (unsigned_abs q)) };

    // ((1000 - w) f + w g) / 1000
    fn mix(w: u16, f: &Self::Factor, g: &Self::Factor) -> Result<Self::Factor, FormFault>
        requires { w ≤ 1000 }
        ensures { told fends result ≡ factor_ceiled (form.mix w (fends f.now) (fends g.now)) };

    // A factor applied to an amount: f a / 10^7
    fn apply(f: &Self::Factor, a: &Self) -> Result<Self, FormFault>
        ensures { told Self.SummingForm.ends result ≡ ceiled (form.apply (fends f.now) (Self.SummingForm.ends a.now)) };

    ghost slack: { form.slack ≡ SLACK };

    ghost lawful: { Lawful form };

    ghost factor: { (f : Self.Factor) → Factor (fends f) };
}
