// Amounts and factors of a form, made from two stored numbers.
use forms::centre::Centred;
use forms::two_ends::EndPair;

// The lower and the upper end, or the centre and the radius, as typed.
#[derive(Clone, Copy)]
pub(crate) struct Numbers {
    pub(crate) first: i64,
    pub(crate) second: i64,
}

impl<const CEILING: i64> From<Numbers> for EndPair<CEILING> {
    fn from(numbers: Numbers) -> Self {
        EndPair {
            low: numbers.first,
            high: numbers.second,
        }
    }
}

impl<const CEILING: i64> From<Numbers> for Centred<CEILING> {
    fn from(numbers: Numbers) -> Self {
        Centred {
            centre: numbers.first,
            radius: numbers.second,
        }
    }
}
