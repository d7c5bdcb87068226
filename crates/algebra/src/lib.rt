// Quotients rounded down and up, and products that stay inside their width. Sizes stay clauses: a number that carried its
// size would be unwrapped wherever it is added, compared or divided.
#![tactic(auto)]

ghost use Rattle.algebra.specs.Interval.{floor_div, ceil_div, least, greatest};
ghost use Rattle.algebra.specs.Centre.{exact_radius, rest};
ghost use Rattle.algebra.specs.Sizes.{FactorSize, AmountSize, ProductSize, CentreSize, Within};
ghost use Rattle.std.specs.Prelude.{◌≡◌, ◌-◌, ◌≤◌, pos, ◌+ℤ◌, ◌*ℤ◌, ◌≤ℤ◌, ◌<ℤ◌, unsigned_abs};

// z / d, rounded down, for both signs of z.
pub fn rounded_down(z: i64, d: i64) -> i64
    requires { pos 0 <ℤ d }
    ensures { result ≡ floor_div z (unsigned_abs d) }
{
    let q = z / d;
    if z % d < 0 { q - 1 } else { q }
}

// z / d, rounded up.
pub fn rounded_up(z: i64, d: i64) -> i64
    requires { (pos 0 <ℤ d) × (ProductSize z) }
    ensures { result ≡ ceil_div z (unsigned_abs d) }
{
    let q = z / d;
    if z % d > 0 { q + 1 } else { q }
}

// A factor times an amount: both within their ceilings, so that 64 bits hold the product.
pub fn product(f: i64, a: i64) -> i64
    requires factor { FactorSize f }
    requires amount { AmountSize a }
    ensures value { result ≡ f *ℤ a }
    ensures size { ProductSize result }
{
    f * a
}

// The least and the greatest of the four products of a factor's ends and an amount's ends.
pub fn product_range(factor: (i64, i64), amount: (i64, i64)) -> (i64, i64)
    requires factors { (FactorSize factor.0) × (FactorSize factor.1) }
    requires amounts { (AmountSize amount.0) × (AmountSize amount.1) }
    ensures least { result.0 ≡ least (record { lo = factor.0; hi = factor.1 }) (record { lo = amount.0; hi = amount.1 }) }
    ensures greatest { result.1 ≡ greatest (record { lo = factor.0; hi = factor.1 }) (record { lo = amount.0; hi = amount.1 }) }
    ensures sizes { (ProductSize result.0) × (ProductSize result.1) }
{
    let (x, y) = factor;
    let (c, d) = amount;
    let p = product(x, c);
    let q = product(x, d);
    let s = product(y, c);
    let t = product(y, d);
    (p.min(q).min(s.min(t)), p.max(q).max(s.max(t)))
}

// (1000 - w) x + w y
pub fn weighted(w: u16, x: i64, y: i64) -> i64
    requires { (w ≤ 1000) × ((FactorSize x) × (FactorSize y)) }
    ensures value { result ≡ pos (1000 - w) *ℤ x +ℤ pos w *ℤ y }
    ensures size { ProductSize result }
{
    let own = product(i64::from(1000 - w), x);
    let other = product(i64::from(w), y);
    own + other
}

// 1 if z / d, of which q is the quotient rounded down, is not whole, and else 0.
pub fn inexact(z: i64, d: i64, q: i64) -> i64
    requires { (pos 0 <ℤ d) × ((AmountSize d) × ((ProductSize z) × (q ≡ floor_div z (unsigned_abs d)))) }
    ensures { result ≡ rest z (unsigned_abs d) }
{
    if z <= d * q { 0 } else { 1 }
}

// |c| s + |e| r + r s, for a factor c ± r and an amount e ± s
pub fn spread(factor: (i64, i64), amount: (i64, i64)) -> i64
    requires factor { CentreSize 200000000 factor.0 factor.1 }
    requires amount { CentreSize 40000000000 amount.0 amount.1 }
    ensures value { result ≡ exact_radius (record { mid = factor.0; rad = factor.1 }) (record { mid = amount.0; rad = amount.1 }) }
    ensures size { ProductSize result }
    ensures some { pos 0 ≤ℤ result }
{
    let (c, r) = factor;
    let (e, s) = amount;
    let p = product(c.abs(), s);
    let q = product(r, e.abs());
    let t = product(r, s);
    p + q + t
}

// A centre z / d rounded down, and a radius x / d rounded up, with 1 more if the centre is not exact.
pub fn rounded_around(z: i64, x: i64, d: i64) -> (i64, i64)
    requires divisor { (pos 1000 ≤ℤ d) × (AmountSize d) }
    requires sizes { (ProductSize z) × ((ProductSize x) × (pos 0 ≤ℤ x)) }
    ensures centre { result.0 ≡ floor_div z (unsigned_abs d) }
    ensures radius { result.1 ≡ ceil_div x (unsigned_abs d) +ℤ rest z (unsigned_abs d) }
    ensures sizes { (Within 4000000000000000000 result.0) × ((Within 4000000000000000000 result.1) × (pos 0 ≤ℤ result.1)) }
{
    let centre = rounded_down(z, d);
    let more = inexact(z, d, centre);
    let radius = rounded_up(x, d);
    (centre, radius + more)
}
