// The calls of a closed book.
ghost use Rattle.std.specs.Prelude.{◌≡◌};
ghost use Rattle.forms.specs.Told.{told};
ghost use Rattle.sources.specs.Asked.{answer_in};
ghost use Rattle.engine.specs.Held.{of_draft, of_closed, pair_ends};

use crate::states::{Closed, Draft};
use book::faults::Fault;
use forms::ProjectingForm;
use sources::source::FactorSource;

impl Closed {
    // The two ends of the factor of a property from a column to the next, in ten-millionths.
    pub fn factor<F: ProjectingForm, S: FactorSource>(
        &self,
        source: &S,
        property: usize,
        column: usize,
    ) -> Result<(i64, i64), Fault>
        ensures { told pair_ends result
            ≡ answer_in F.ProjectingForm.form property column (S.FactorSource.means source.now (of_closed self.now) property column) }
    {
        let factor = source.factor::<F>(&self.book, property, column)?;
        Ok(F::factor_pair(&factor))
    }

    // The same book as a draft, with its entries and terms.
    pub fn reopen(self) -> Draft
        ensures { of_draft result ≡ of_closed self }
    {
        let Closed { book } = self;
        Draft { book }
    }
}
