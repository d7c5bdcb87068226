// The estimated source: the next amounts over the exposures, of the rows whose exposure is above 0.
ghost use Rattle.std.specs.Prelude.{◌≡◌, ◌+◌, ◌<◌, IfOk};
ghost use Rattle.paper.specs.Sources.{estimated, quotient_ends, row_cause, rows_cause, seen};
ghost use Rattle.forms.specs.Told.{told, factor_ceiled};
ghost use Rattle.book.specs.Stored.{book_of};
ghost use Rattle.sources.specs.Estimates.{HasQuotient, totals_through, unless_cause};
ghost use Rattle.paper.proofs.Estimating.{estimated_sound};
ghost use Rattle.std.proofs.Common.{rules};

use crate::exact::{not_negative, read_at};
use crate::question::Question;
use crate::source::FactorSource;
use book::faults::{Fault, Placing};
use book::kinds::Book;
use forms::{FormFault, ProjectingForm, SummingForm};

#[derive(Clone, Copy, PartialEq, Eq, Debug)]
pub struct Estimated;

// The next amounts and the exposures of the rows so far. That they have a quotient stays a clause, since definitions speak of
// totals that have none.
#[derive(Clone, Copy, Default, PartialEq, Eq, Debug)]
pub struct Totals {
    pub amounts: i64,
    pub exposures: i64,
}

impl Totals {
    // The totals of the rows that have the next column observed.
    pub fn of(question: &Question) -> Result<Totals, Fault>
        ensures value { let q = question.now in let b = book_of q.book.now in
            result ≡ unless_cause q.property q.column (rows_cause b q.property q.column) (totals_through b q.property q.column (seen b q.column)) }
        ensures kept { IfOk result HasQuotient }
    {
        // over row numbers; a `try_fold` was tried and left three goals open: the loop's invariant keeps what `with_row` asks
        let mut so_far = Totals::default();
        for row in 0..question.book.sizes.rows - (question.column + 1) {
            so_far = so_far.with_row(question, row)?;
        }
        Ok(so_far)
    }

    // The totals with one row more; a row with exposure 0 does not count, and its next amount neither.
    fn with_row(self, question: &Question, row: usize) -> Result<Totals, Fault>
        requires row { row < seen (book_of question.now.book.now) question.now.column }
        requires totals { let q = question.now in self ≡ totals_through (book_of q.book.now) q.property q.column row }
        requires kept { HasQuotient self }
        ensures value { let q = question.now in let b = book_of q.book.now in
            result ≡ unless_cause q.property q.column (row_cause b q.property q.column row) (totals_through b q.property q.column (row + 1)) }
        ensures kept { IfOk result HasQuotient }
    {
        let place = question.place(row);
        let exposure = question.exposure(row)?;
        not_negative(exposure, place)?;
        if exposure == 0 {
            return Ok(self);
        }
        let exposures = read_at(self.exposures.plus(&exposure), place)?;
        Ok(Totals {
            amounts: self.amounts + question.following(row),
            exposures,
        })
    }

    // The next amounts over the exposures, and 0 over none.
    fn quotient<F: ProjectingForm>(self) -> Result<F::Factor, FormFault>
        requires { HasQuotient self }
        ensures { told F.ProjectingForm.fends result ≡ factor_ceiled (quotient_ends F.ProjectingForm.form self.amounts self.exposures) }
    {
        if self.exposures == 0 {
            return F::exact(0);
        }
        F::ratio(self.amounts, self.exposures)
    }
}

impl FactorSource for Estimated {
    ghost depth = { λ _. 1 };

    ghost means = { λ _ b m k. estimated b m k };

    ghost deep = { Prim.search rules };

    ghost sound = { λ s b m k. estimated_sound b m k };

    fn factor<F: ProjectingForm>(
        &self,
        book: &Book,
        property: usize,
        column: usize,
    ) -> Result<F::Factor, Fault> {
        let question = Question::asked_within(book, property, column)?;
        let totals = Totals::of(&question)?;
        totals.quotient::<F>().at(question.place(0))
    }
}
