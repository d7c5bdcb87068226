// A question for a factor, and what it reads of its book.
ghost use Rattle.std.specs.Prelude.{◌≡◌, ◌<◌, pos, negsuc, ◌≤ℤ◌, Err, IfOk, MatchResult};
ghost use Rattle.paper.specs.Numbers.{Amount, point};
ghost use Rattle.paper.specs.Forms.{Form};
ghost use Rattle.paper.specs.Sources.{Meaning, within, gathering_past, amount_cause, exact_exposure, next_amount};
ghost use Rattle.paper.specs.Laws.{AskedWithin};
ghost use Rattle.book.specs.Grounds.{at_place};
ghost use Rattle.book.specs.Stored.{book_of};
ghost use Rattle.sources.specs.Asked.{answer_in};
ghost use Rattle.sources.specs.Estimates.{unless_cause};

use crate::exact::gathered;
use book::faults::{Fault, Ground, Origin, Place};
use book::kinds::Book;
use gathering::Sheet;

// Asks for the factor of a property from a column to the next; the book has the property and both columns. That a row is one of
// the book's stays a clause: it is said of an argument.
#[derive(Clone, Copy)]
pub struct Question<'a> {
    pub book: &'a Book,
    pub property: usize,
    pub column: usize,
    pub ghost asked_within: { AskedWithin (book_of book.now) property column },
}

impl<'a> Question<'a> {
    // The question, if the book has the property, and a column after this one.
    pub fn asked_within(
        book: &'a Book,
        property: usize,
        column: usize,
    ) -> Result<Question<'a>, Fault>
        ensures { MatchResult result
            (λ q. (q.book.now ≡ book.now) × (q.property ≡ property) × (q.column ≡ column))
            (λ e. ((F : Form) (M : Meaning) → answer_in F property column (within (book_of book.now) property column M) ≡ Err e)) }
    {
        let place = Place {
            property,
            row: 0,
            column,
        };
        if property >= book.sizes.properties {
            return Err(Fault::new(Ground::NoProperty, Origin::OfSource, place));
        }
        if column >= book.sizes.columns - 1 {
            return Err(Fault::new(Ground::NoColumn, Origin::OfSource, place));
        }
        Ok(Question {
            book,
            property,
            column,
        })
    }

    // The place of a row.
    pub fn place(&self, row: usize) -> Place
        ensures { result ≡ at_place self.now.property row self.now.column }
    {
        Place {
            property: self.property,
            row,
            column: self.column,
        }
    }

    // The exposure of a row, or the fault of the first step past the ceiling.
    pub fn exposure(&self, row: usize) -> Result<i64, Fault>
        requires { row < self.now.book.now.sizes.rows }
        ensures value { let q = self.now in let b = book_of q.book.now in
            result ≡ unless_cause q.property q.column (amount_cause row (gathering_past b q.property row q.column)) (exact_exposure b q.property q.column row) }
        ensures amount { IfOk result (λ v. Amount (point v)) }
    {
        gathered(self.book, self.place(row))
    }

    // The observed amount of a row that follows the column.
    pub fn following(&self, row: usize) -> i64
        requires { row < self.now.book.now.sizes.rows }
        ensures value { let q = self.now in result ≡ next_amount (book_of q.book.now) q.property q.column row }
        ensures entry { (negsuc 999999999 ≤ℤ result) × (result ≤ℤ pos 1000000000) }
    {
        Sheet::from(self.book).row(self.property, row)[self.column + 1]
    }
}
