// Worked cases. The expected numbers were worked by hand, in fractions.
#![tactic(auto)]

#[cfg(test)]
mod exposures;
#[cfg(test)]
mod factors;
#[cfg(test)]
mod layers;
#[cfg(test)]
mod operations;
