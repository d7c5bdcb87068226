// A credibility layer over any source.
ghost use Rattle.std.specs.Prelude.{◌≡◌, ℕ, ◌+◌, None, Some, MatchResult, replicate, slice_set};
ghost use Rattle.paper.specs.Layers.{layered};
ghost use Rattle.sources.specs.Weighings.{IsWeighing, weighing, weighing_at, weighing_fault};
ghost use Rattle.paper.proofs.Layering.{layered_sound, one_deeper};

use crate::question::Question;
use crate::source::FactorSource;
use crate::weighing::Weighing;
use book::faults::{Fault, Ground, Origin, Passing, Place};
use book::kinds::Book;
use forms::ProjectingForm;

// A weighing for each column that another follows.
#[derive(Drop)]
pub struct Credibility<S> {
    pub below: S,
    pub columns: [Weighing; 11],
    pub ghost weighings: { (k : ℕ) → IsWeighing (weighing_at columns k) },
}

impl<S> Credibility<S> {
    // A layer over a source, with every lag and weight 0.
    pub fn over(below: S) -> Credibility<S>
        ensures { (result.below ≡ below) × (result.columns ≡ replicate 11 (weighing 0 0)) }
    {
        Credibility {
            below,
            columns: [Weighing { lag: 0, weight: 0 }; 11],
        }
    }

    // Sets the lag and the weight of a column; a refusal changes nothing.
    pub fn set(&mut self, column: usize, lag: usize, weight: u16) -> Result<(), Fault>
        ensures below { self.new.below ≡ self.old.below }
        ensures columns { MatchResult result
            (λ _. (weighing_fault column lag weight ≡ None) × (self.new.columns ≡ slice_set self.old.columns column (weighing lag weight)))
            (λ e. (weighing_fault column lag weight ≡ Some e) × (self.new.columns ≡ self.old.columns)) }
    {
        let place = Place {
            column,
            ..Place::default()
        };
        if column >= 11 {
            return Err(Fault::new(Ground::NoColumn, Origin::OfSource, place));
        }
        if lag > 15 || weight > 1000 {
            return Err(Fault::new(Ground::WeighingOutside, Origin::OfSource, place));
        }
        self.columns[column] = Weighing { lag, weight };
        Ok(())
    }
}

impl<S: FactorSource> FactorSource for Credibility<S> {
    ghost depth = { λ s. S.FactorSource.depth s.below + 1 };

    ghost means = { λ s b m k. layered (λ j. (weighing_at s.columns j).lag) (λ j. (weighing_at s.columns j).weight) (S.FactorSource.means s.below) b m k };

    ghost deep = { λ s. one_deeper (S.FactorSource.depth s.below) };

    ghost sound = { λ s b m k. layered_sound (λ j. (weighing_at s.columns j).lag) (λ j. (weighing_at s.columns j).weight) (S.FactorSource.means s.below)
        (S.FactorSource.depth s.below) b m k (S.FactorSource.deep s.below) (s.weighings k).weight (S.FactorSource.sound s.below b m k) };

    fn factor<F: ProjectingForm>(
        &self,
        book: &Book,
        property: usize,
        column: usize,
    ) -> Result<F::Factor, Fault> {
        let below = self.below.factor::<F>(book, property, column).above()?;
        let question = Question {
            book,
            property,
            column,
        };
        self.columns[column].weigh::<F>(&question, below)
    }
}
