// How a credibility layer weighs a factor from below with the factor of a single row.
ghost use Rattle.std.specs.Prelude.{◌≡◌, ◌<◌, ◌≤◌, pos, ◌≤ℤ◌, Ok, List, IfOk};
ghost use Rattle.paper.specs.Numbers.{Amount, point};
ghost use Rattle.paper.specs.Sources.{Meaning, Step, factor, exact_exposure, seen};
ghost use Rattle.paper.specs.Layers.{own_cause, weighed_with, layer_on};
ghost use Rattle.forms.specs.Told.{told};
ghost use Rattle.book.specs.Stored.{book_of};
ghost use Rattle.sources.specs.Asked.{answer_in};
ghost use Rattle.sources.specs.Estimates.{unless_cause};

use crate::exact::not_negative;
use crate::question::Question;
use book::faults::{Fault, Placing};
use forms::ProjectingForm;

// The lag says which row: 0 the last that has the next column observed. The row's own factor has the weight, in thousandths.
#[derive(Clone, Copy, PartialEq, Eq, Default, Debug)]
pub struct Weighing {
    pub lag: usize,
    pub weight: u16,
}

// The exposure of a layer's row, or what is wrong with it.
fn own_exposure(question: &Question, row: usize) -> Result<i64, Fault>
    requires { row < question.now.book.now.sizes.rows }
    ensures value { let q = question.now in let b = book_of q.book.now in
        result ≡ unless_cause q.property q.column (own_cause b q.property q.column row) (exact_exposure b q.property q.column row) }
    ensures amount { IfOk result (λ v. Amount (point v)) }
    ensures not_negative { IfOk result (λ v. pos 0 ≤ℤ v) }
{
    let exposure = question.exposure(row)?;
    not_negative(exposure, question.place(row))?;
    Ok(exposure)
}

impl Weighing {
    // The factor below, weighed with that of a row; a row with exposure 0 has none.
    fn with_row<F: ProjectingForm>(
        self,
        question: &Question,
        row: usize,
        below: F::Factor,
    ) -> Result<F::Factor, Fault>
        requires row { row < seen (book_of question.now.book.now) question.now.column }
        requires weight { self.weight ≤ 1000 }
        ensures { let q = question.now in (before : List Step) (s : Step) →
            answer_in F.ProjectingForm.form q.property q.column (factor before s) ≡ Ok (F.ProjectingForm.fends below) →
            told F.ProjectingForm.fends result
            ≡ answer_in F.ProjectingForm.form q.property q.column (weighed_with (book_of q.book.now) q.property q.column row self.weight before s) }
    {
        let exposure = own_exposure(question, row)?;
        if exposure == 0 {
            return Ok(below);
        }
        let place = question.place(0);
        let own = F::ratio(question.following(row), exposure).at(place)?;
        F::mix(self.weight, &below, &own).at(place)
    }

    // What a layer makes of the factor below, whatever that means.
    pub(crate) fn weigh<F: ProjectingForm>(
        self,
        question: &Question,
        below: F::Factor,
    ) -> Result<F::Factor, Fault>
        requires { self.weight ≤ 1000 }
        ensures { let q = question.now in (M : Meaning) →
            answer_in F.ProjectingForm.form q.property q.column M ≡ Ok (F.ProjectingForm.fends below) →
            told F.ProjectingForm.fends result
            ≡ answer_in F.ProjectingForm.form q.property q.column (layer_on (book_of q.book.now) q.property q.column self.lag self.weight M) }
    {
        let rows = question.book.sizes.rows - (question.column + 1);
        if self.lag >= rows {
            return Ok(below);
        }
        self.with_row::<F>(question, rows - (self.lag + 1), below)
    }
}
