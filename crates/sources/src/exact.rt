// Exposures as a book holds them, in whole numbers.
ghost use Rattle.std.specs.Prelude.{◌≡◌, ◌<◌, true, false, pos, IfOk, MatchResult, int_lt};
ghost use Rattle.paper.specs.Numbers.{Amount, point};
ghost use Rattle.paper.specs.Sources.{gathering_past, amount_cause, exact_exposure};
ghost use Rattle.forms.specs.Held.{whole_ends};
ghost use Rattle.forms.specs.Told.{told};
ghost use Rattle.book.specs.declared.faults.Ground.TheVariants.{NegativeExposure};
ghost use Rattle.book.specs.declared.faults.Origin.TheVariants.{OfSource};
ghost use Rattle.book.specs.Grounds.{fault_at, placed};
ghost use Rattle.book.specs.Stored.{book_of};
ghost use Rattle.sources.specs.Estimates.{unless_cause};

use book::faults::{Fault, Ground, Origin, Place, Placing};
use book::kinds::Book;
use forms::FormFault;
use forms::whole::read;
use gathering::Sheet;

// The number that a sum stands for, or its fault at the place. That it is an amount stays a clause here and above: a number of its
// own type would be unwrapped at each sum.
pub(crate) fn read_at(sum: Result<i64, FormFault>, place: Place) -> Result<i64, Fault>
    ensures value { told point result ≡ placed place (told whole_ends sum) }
    ensures amount { IfOk result (λ v. Amount (point v)) }
{
    let sum = sum.at(place)?;
    Ok(read(&sum))
}

// The exposure at a place, or the fault of the first step past the ceiling. That the place is the book's stays a clause, since
// places are made to be refused as well.
pub fn gathered(book: &Book, place: Place) -> Result<i64, Fault>
    requires { (place.property < book.now.sizes.properties) × (place.row < book.now.sizes.rows) × (place.column < book.now.sizes.columns) }
    ensures value { let b = book_of book.now in
        result ≡ unless_cause place.property place.column (amount_cause place.row (gathering_past b place.property place.row place.column)) (exact_exposure b place.property place.column place.row) }
    ensures amount { IfOk result (λ v. Amount (point v)) }
{
    let rule = &book.rules.records[place.property];
    let sum = Sheet::from(book).exposure(rule, place.row, place.column);
    read_at(sum, place)
}

// An exposure below 0 has no factor.
pub fn not_negative(exposure: i64, place: Place) -> Result<(), Fault>
    ensures { MatchResult result (λ _. int_lt exposure (pos 0) ≡ false) (λ e. (int_lt exposure (pos 0) ≡ true) × (e ≡ fault_at OfSource place 0 NegativeExposure)) }
{
    if exposure < 0 {
        return Err(Fault::new(Ground::NegativeExposure, Origin::OfSource, place));
    }
    Ok(())
}
