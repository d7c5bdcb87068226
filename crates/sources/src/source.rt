// What a source of factors is.
ghost use Rattle.std.specs.Prelude.{◌≡◌, ℕ, ◌≤◌};
ghost use Rattle.paper.specs.Books.{Book as PaperBook};
ghost use Rattle.paper.specs.Sources.{Meaning};
ghost use Rattle.paper.specs.Laws.{Sound};
ghost use Rattle.forms.specs.Told.{told};
ghost use Rattle.book.specs.Stored.{book_of};
ghost use Rattle.sources.specs.Asked.{answer_in};

use book::faults::Fault;
use book::kinds::Book;
use forms::ProjectingForm;

// For every book, property and column a source means one fraction with the fractions that it is made from, or one cause.
pub trait FactorSource {
    // how many slacks the ends of its factors may lie apart; it belongs to the value
    ghost depth: { Self → ℕ };

    ghost means: { Self → PaperBook → ℕ → ℕ → Meaning };

    // The factor of a property from a column to the next. A question changes nothing.
    fn factor<F: ProjectingForm>(
        &self,
        book: &Book,
        property: usize,
        column: usize,
    ) -> Result<F::Factor, Fault>
        ensures { told F.ProjectingForm.fends result
            ≡ answer_in F.ProjectingForm.form property column (means self.now (book_of book.now) property column) };

    ghost deep: { (s : Self) → 1 ≤ depth s };

    ghost sound: { (s : Self) (b : PaperBook) (m k : ℕ) → Sound (depth s) b m k (means s b m k) };
}
