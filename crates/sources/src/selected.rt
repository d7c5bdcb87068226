// The selected source: factors that are set one by one, in ten-millionths.
ghost use Rattle.std.specs.Prelude.{◌≡◌, ◌==◌, ℕ, ◌<◌, cond, None, Some, MatchResult, replicate};
ghost use Rattle.paper.specs.Layers.{selected};
ghost use Rattle.sources.specs.Selecting.{all_0, chosen, factor_of, selection_fault, with_choice};
ghost use Rattle.paper.proofs.Layering.{selected_sound};
ghost use Rattle.std.proofs.Common.{rules};

use crate::question::Question;
use crate::source::FactorSource;
use book::faults::{Fault, Ground, Origin, Place, Placing};
use book::kinds::Book;
use forms::{FACTOR_CEILING, ProjectingForm};

// The factors of one property, for each column that another follows.
#[derive(Clone, Copy, PartialEq, Eq, Debug)]
pub struct FactorRow {
    pub factors: [i64; 11],
}

// A row of factors for each property that a book may have.
#[derive(Clone, Copy, PartialEq, Eq, Debug)]
pub struct Selected {
    pub rows: [FactorRow; 4],
}

impl FactorRow {
    fn set(&mut self, column: usize, factor: i64)
        requires { column < 11 }
        ensures { (k : ℕ) → factor_of self.new k ≡ cond (column == k) factor (factor_of self.old k) }
    {
        self.factors[column] = factor;
    }
}

impl Selected {
    // Every factor 0.
    pub fn zero() -> Selected
        ensures { result.rows ≡ replicate 4 all_0 }
    {
        Selected {
            rows: [FactorRow { factors: [0; 11] }; 4],
        }
    }

    // Sets one factor; a refusal changes nothing.
    pub fn set(&mut self, property: usize, column: usize, factor: i64) -> Result<(), Fault>
        ensures { MatchResult result
            (λ _. (selection_fault property column factor ≡ None)
            × (chosen self.new.rows ≡ with_choice (chosen self.old.rows) property column factor))
            (λ e. (selection_fault property column factor ≡ Some e) × (self.new.rows ≡ self.old.rows)) }
    {
        let place = Place {
            property,
            row: 0,
            column,
        };
        if property >= 4 {
            return Err(Fault::new(Ground::NoProperty, Origin::OfSource, place));
        }
        if column >= 11 {
            return Err(Fault::new(Ground::NoColumn, Origin::OfSource, place));
        }
        if !(-FACTOR_CEILING..=FACTOR_CEILING).contains(&factor) {
            return Err(Fault::new(Ground::FactorOutside, Origin::OfSource, place));
        }
        self.rows[property].set(column, factor);
        Ok(())
    }
}

impl FactorSource for Selected {
    ghost depth = { λ _. 1 };

    ghost means = { λ s b m k. selected (chosen s.rows) b m k };

    ghost deep = { Prim.search rules };

    ghost sound = { λ s b m k. selected_sound (chosen s.rows) b m k };

    fn factor<F: ProjectingForm>(
        &self,
        book: &Book,
        property: usize,
        column: usize,
    ) -> Result<F::Factor, Fault> {
        let question = Question::asked_within(book, property, column)?;
        F::exact(self.rows[property].factors[column]).at(question.place(0))
    }
}
