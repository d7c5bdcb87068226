// The calls of a draft.
ghost use Rattle.std.specs.Prelude.{◌≡◌, Some, None, MatchResult};
ghost use Rattle.paper.specs.Books.{opened, with_entry, with_last_term};
ghost use Rattle.book.specs.Stored.{cell_of, term_of};
ghost use Rattle.book.specs.Keying.{sizes_fault, entry_fault, term_fault};
ghost use Rattle.engine.specs.Held.{of_draft, of_closed};

use crate::states::{Closed, Draft};
use book::faults::{Fault, Place};
use book::kinds::{Book, Sizes};
use book::rules::Term;

impl Draft {
    // A draft with every observed amount 0 and every rule empty.
    pub fn open(sizes: Sizes) -> Result<Draft, Fault>
        ensures { MatchResult result
            (λ d. (sizes_fault sizes ≡ None) × (of_draft d ≡ opened sizes.properties sizes.rows sizes.columns))
            (λ e. sizes_fault sizes ≡ Some e) }
    {
        let book = Book::open(sizes)?;
        Ok(Draft { book })
    }

    // Replaces the observed amount of one cell; a refusal changes nothing.
    pub fn enter(&mut self, at: Place, amount: i64) -> Result<(), Fault>
        ensures { MatchResult result
            (λ _. (entry_fault (of_draft self.old) at amount ≡ None)
            × (of_draft self.new ≡ with_entry (of_draft self.old) (cell_of at) amount))
            (λ e. (entry_fault (of_draft self.old) at amount ≡ Some e)
            × (of_draft self.new ≡ of_draft self.old)) }
    {
        self.book.enter(at, amount)
    }

    // Adds a term last in the rule of one property; a refusal changes nothing.
    pub fn add_term(&mut self, property: usize, term: Term) -> Result<(), Fault>
        ensures { MatchResult result
            (λ _. (term_fault (of_draft self.old) property term ≡ None)
            × (of_draft self.new ≡ with_last_term (of_draft self.old) property (term_of term)))
            (λ e. (term_fault (of_draft self.old) property term ≡ Some e)
            × (of_draft self.new ≡ of_draft self.old)) }
    {
        self.book.add_term(property, term)
    }

    // The same book, closed.
    pub fn close(self) -> Closed
        ensures { of_closed result ≡ of_draft self }
    {
        let Draft { book } = self;
        Closed { book }
    }
}
