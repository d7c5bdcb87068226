// What an operation on stored numbers comes to, written once for every form.
use crate::stored::Numbers;
use forms::{AMOUNT_CEILING, FormFault, ProjectingForm};
use std::fmt;
use typed::words::NotUnderstood;

const AMOUNT_FLOOR: i64 = -AMOUNT_CEILING;

#[derive(Clone, Copy)]
pub(crate) enum Operation {
    Whole(i64),
    Plus(Numbers, Numbers),
    Times(i64, Numbers),
    Exact(i64),
    Ratio(i64, i64),
    Mix(u16, Numbers, Numbers),
    Apply(Numbers, Numbers),
}

impl Operation {
    // The two ends of the result.
    pub(crate) fn worked<F>(self) -> Result<(i64, i64), Unanswered>
    where
        F: ProjectingForm + From<Numbers>,
        F::Factor: From<Numbers>,
    {
        match self {
            Operation::Whole(hundredths) => Ok(F::whole(hundredths)?.pair()),
            Operation::Plus(a, b) => Ok(F::from(a).plus(&F::from(b))?.pair()),
            Operation::Times(coefficient @ -100..=100, a) => {
                Ok(F::from(a).times(coefficient)?.pair())
            }
            Operation::Exact(ten_millionths) => Ok(F::factor_pair(&F::exact(ten_millionths)?)),
            Operation::Ratio(p @ AMOUNT_FLOOR..=AMOUNT_CEILING, q @ 1..=AMOUNT_CEILING) => {
                Ok(F::factor_pair(&F::ratio(p, q)?))
            }
            Operation::Mix(weight @ ..=1000, f, g) => {
                Ok(F::factor_pair(&F::mix(weight, &f.into(), &g.into())?))
            }
            Operation::Apply(f, a) => Ok(F::apply(&f.into(), &a.into())?.pair()),
            _ => Err(NotUnderstood.into()),
        }
    }
}

// Why there are no ends: the form refuses the result, or a number lies outside what the operation takes.
#[derive(Clone, Copy)]
pub(crate) enum Unanswered {
    Refused(FormFault),
    NotUnderstood(NotUnderstood),
}

impl From<FormFault> for Unanswered {
    fn from(fault: FormFault) -> Self {
        Unanswered::Refused(fault)
    }
}

impl From<NotUnderstood> for Unanswered {
    fn from(fault: NotUnderstood) -> Self {
        Unanswered::NotUnderstood(fault)
    }
}

impl fmt::Display for Unanswered {
    fn fmt<W: fmt::Write>(&self, f: &mut fmt::Formatter<W>) -> fmt::Result {
        match self {
            Unanswered::Refused(fault) => write!(f, "refused {}", *fault as u8),
            Unanswered::NotUnderstood(fault) => write!(f, "{fault}"),
        }
    }
}
