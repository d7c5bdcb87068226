// Opening a book, entering an amount and adding a term.
ghost use Rattle.std.specs.Prelude.{◌≡◌, Some, None, Err, MatchResult};
ghost use Rattle.paper.specs.Books.{opened, with_entry, with_last_term};
ghost use Rattle.book.specs.declared.faults.Origin.TheVariants.{OfBook};
ghost use Rattle.book.specs.Grounds.{fault_at};
ghost use Rattle.book.specs.Stored.{book_of, cell_of, term_of};
ghost use Rattle.book.specs.Keying.{sizes_fault, entry_fault, term_fault};

use crate::faults::{Fault, Ground, Origin, Place};
use crate::kinds::{Book, Sizes};
use crate::rules::{RuleTable, Term};

// The largest entry of either sign, in hundredths.
const ENTRY_LIMIT: i64 = 1_000_000_000;

fn declined<T>(ground: Ground, place: Place) -> Result<T, Fault>
    ensures { result ≡ Err (fault_at OfBook place 0 ground) }
{
    Err(Fault::new(ground, Origin::OfBook, place))
}

impl Book {
    // A book with every amount 0 and every rule empty.
    pub fn open(sizes: Sizes) -> Result<Book, Fault>
        ensures { MatchResult result
            (λ b. (sizes_fault sizes ≡ None) × (book_of b ≡ opened sizes.properties sizes.rows sizes.columns))
            (λ e. sizes_fault sizes ≡ Some e) }
    {
        let Sizes {
            properties,
            rows,
            columns,
        } = sizes;
        let nowhere = Place::default();
        if !(1..=4).contains(&properties) {
            return declined(Ground::SizesOutside, nowhere);
        }
        if !(1..=16).contains(&rows) {
            return declined(Ground::SizesOutside, nowhere);
        }
        if !(1..=12).contains(&columns) {
            return declined(Ground::SizesOutside, nowhere);
        }
        if rows < columns {
            return declined(Ground::SizesOutside, nowhere);
        }
        let rules = RuleTable::empty();
        Ok(Book {
            sizes,
            amounts: [0; 768],
            rules,
        })
    }

    // Replaces one observed amount.
    pub fn enter(&mut self, at: Place, amount: i64) -> Result<(), Fault>
        ensures { MatchResult result
            (λ _. (entry_fault (book_of self.old) at amount ≡ None)
            × (book_of self.new ≡ with_entry (book_of self.old) (cell_of at) amount))
            (λ e. (entry_fault (book_of self.old) at amount ≡ Some e)
            × (book_of self.new ≡ book_of self.old)) }
    {
        if at.property >= self.sizes.properties {
            return declined(Ground::NoProperty, at);
        }
        if at.row >= self.sizes.rows {
            return declined(Ground::NoRow, at);
        }
        if at.column >= self.sizes.columns {
            return declined(Ground::NoColumn, at);
        }
        if at.row + at.column >= self.sizes.rows {
            return declined(Ground::NotObserved, at);
        }
        if !(-ENTRY_LIMIT..=ENTRY_LIMIT).contains(&amount) {
            return declined(Ground::EntryLimit, at);
        }
        let place = self.sizes.row_start(at.property, at.row) + at.column;
        self.amounts[place] = amount;
        Ok(())
    }

    // Adds a term last in the rule of property m.
    pub fn add_term(&mut self, m: usize, term: Term) -> Result<(), Fault>
        ensures { MatchResult result
            (λ _. (term_fault (book_of self.old) m term ≡ None)
            × (book_of self.new ≡ with_last_term (book_of self.old) m (term_of term)))
            (λ e. (term_fault (book_of self.old) m term ≡ Some e)
            × (book_of self.new ≡ book_of self.old)) }
    {
        let at = Place {
            property: m,
            ..Place::default()
        };
        if m >= self.sizes.properties || term.property >= self.sizes.properties {
            return declined(Ground::NoProperty, at);
        }
        if term.shift > 15 {
            return declined(Ground::ShiftOutside, at);
        }
        if term.reach > 2 {
            return declined(Ground::NoReach, at);
        }
        if !(-100..=100).contains(&term.coefficient) || term.coefficient == 0 {
            return declined(Ground::CoefficientOutside, at);
        }
        if self.rules.records[m].is_full() {
            return declined(Ground::RuleFull, at);
        }
        self.rules.add(m, term);
        Ok(())
    }
}
