// Places and faults as they are printed.
use crate::faults::{Fault, Ground, Place};
use forms::{AMOUNT_CEILING, FACTOR_CEILING};
use std::error::Error;
use std::fmt;

impl fmt::Display for Place {
    fn fmt<W: fmt::Write>(&self, f: &mut fmt::Formatter<W>) -> fmt::Result {
        write!(f, "{} {} {}", self.property, self.row, self.column)
    }
}

// The number of the ground, its origin, the place and the layers, and then the reason in words.
impl fmt::Display for Fault {
    fn fmt<W: fmt::Write>(&self, f: &mut fmt::Formatter<W>) -> fmt::Result {
        let ground = self.ground.number();
        let origin = self.origin.number();
        write!(f, "{ground} {origin} {} {}: ", self.place, self.layers)?;
        let Place { row, column, .. } = self.place;
        match self.ground {
            Ground::SizesOutside => f.write_str("the sizes are outside the limits of a book"),
            Ground::NoProperty => f.write_str("no such property"),
            Ground::NoRow => f.write_str("no such row"),
            Ground::NoColumn => f.write_str("no such column"),
            Ground::NotObserved => write!(f, "row {row} has no observed amount in column {column}"),
            Ground::EntryLimit => {
                f.write_str("the amount passes the limit of an entry, 1000000000")
            }
            Ground::ShiftOutside => f.write_str("a shift is 0 to 15 rows"),
            Ground::NoReach => f.write_str("a reach is 0, 1 or 2"),
            Ground::CoefficientOutside => f.write_str("a coefficient is -100 to 100 and not 0"),
            Ground::RuleFull => f.write_str("the rule has six terms already"),
            Ground::FactorOutside => { f.write_str("a selected factor is -200000000 to 200000000") }
            Ground::WeighingOutside => {
                f.write_str("a lag is 0 to 15 rows, and a weight 0 to 1000")
            }
            Ground::NegativeExposure => {
                write!(
                    f,
                    "the exposure of row {row} in column {column} is negative"
                )
            }
            Ground::AmountCeiling => write!(
                f,
                "an amount in row {row} and column {column} passes the ceiling, {AMOUNT_CEILING}"
            ),
            Ground::FactorCeiling => write!(f, "the factor passes the ceiling, {FACTOR_CEILING}"),
        }
    }
}

impl Error for Fault {}
