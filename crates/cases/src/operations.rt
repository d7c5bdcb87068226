// Single operations of the projecting forms.
use forms::centre::CentreRadius;
use forms::two_ends::TwoEnds;
use forms::{FormFault, ProjectingForm, SummingForm};

// An exact factor applied to a whole amount.
fn applied<F: ProjectingForm>(
    ten_millionths: i64,
    hundredths: i64,
) -> Result<(i64, i64), FormFault> {
    let factor = F::exact(ten_millionths)?;
    let amount = F::whole(hundredths)?;
    Ok(F::apply(&factor, &amount)?.pair())
}

// 61/110 and its application to 11000.
fn developed<F: ProjectingForm>() -> Result<((i64, i64), (i64, i64)), FormFault> {
    let factor = F::ratio(61, 110)?;
    let amount = F::whole(11000)?;
    Ok((F::factor_pair(&factor), F::apply(&factor, &amount)?.pair()))
}

// Half of 61/110 and half of 1/5.
fn mixed<F: ProjectingForm>() -> Result<(i64, i64), FormFault> {
    let f = F::ratio(61, 110)?;
    let g = F::ratio(1, 5)?;
    Ok(F::factor_pair(&F::mix(500, &f, &g)?))
}

#[test]
fn minus_a_half(rt: HostRuntime) {
    assert!(rt; applied::<TwoEnds>(-5_000_000, 1) == Ok((-1, 0)));
    assert!(rt; applied::<CentreRadius>(-5_000_000, 1) == Ok((-2, 0)));
}

#[test]
fn ratio_and_application(rt: HostRuntime) {
    assert!(rt; developed::<TwoEnds>() == Ok(((5545454, 5545455), (6099, 6101))));
    assert!(rt; developed::<CentreRadius>() == Ok(((5545453, 5545455), (6097, 6101))));
}

// (61/110 + 1/5)/2 = 83/220: 3772727.27.. ten-millionths
#[test]
fn halves(rt: HostRuntime) {
    assert!(rt; mixed::<TwoEnds>() == Ok((3772727, 3772728)));
    assert!(rt; mixed::<CentreRadius>() == Ok((3772726, 3772728)));
}

// One fifth of 11000 with what 61/110 of it comes to.
fn next_column<F: ProjectingForm>() -> Result<(i64, i64), FormFault> {
    let amount = F::whole(11000)?;
    let next = F::apply(&F::ratio(61, 110)?, &amount)?;
    let sum = amount.plus(&next)?;
    Ok(F::apply(&F::ratio(1, 5)?, &sum)?.pair())
}

#[test]
fn second_application(rt: HostRuntime) {
    assert!(rt; next_column::<TwoEnds>() == Ok((3419, 3421)));
    assert!(rt; next_column::<CentreRadius>() == Ok((3417, 3421)));
}
