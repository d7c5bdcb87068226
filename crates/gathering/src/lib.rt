// Exposures, gathered once for every summing form from lent amounts. Each addition and multiple may be refused.
#![tactic(auto)]

ghost use Rattle.std.specs.Prelude.{◌≡◌, ◌<◌, ◌≤◌, map, length};
ghost use Rattle.paper.specs.Books.{with_terms};
ghost use Rattle.paper.specs.Sums.{nothing};
ghost use Rattle.forms.specs.Told.{told, evaluated};
ghost use Rattle.book.specs.Limits.{IsRuleTerm, ReadsWithin};
ghost use Rattle.book.specs.Stored.{cells, term_of, terms_of};
ghost use Rattle.gathering.specs.Sheet.{summed, on_sheet, row_of, plus_term};

use book::kinds::{Book, Sizes};
use book::rules::{Rule, Term};
use forms::{FormFault, SummingForm};

// The sum of the cells in rising order, from zero.
pub fn sum_all<F: SummingForm>(cells: &[F]) -> Result<F, FormFault>
    ensures { told F.SummingForm.ends result ≡ summed (map F.SummingForm.ends cells.now) }
{
    let mut sum = F::whole(0)?;
    for cell in cells {
        sum = sum.plus(cell)?;
    }
    Ok(sum)
}

// Lent amounts, and the sizes of the book whose cells they are. The bounds stand here too,
// since a book keeps more of its sizes than a sheet may ask. That a row is one of them stays a clause: it is said of an argument.
#[derive(Drop)]
pub struct Sheet<'a, F> {
    pub sizes: Sizes,
    pub amounts: &'a [F],
    ghost few_properties: { sizes.properties ≤ 4 },
    ghost few_rows: { sizes.rows ≤ 16 },
    ghost few_columns: { sizes.columns ≤ 12 },
    ghost room: { cells sizes ≤ length amounts.now },
}

impl<'a, F> Sheet<'a, F> {
    // The amounts of row i of property m, by column.
    pub fn row(&self, m: usize, i: usize) -> &'a [F]
        requires { (m < self.now.sizes.properties) × (i < self.now.sizes.rows) }
        ensures { result.now ≡ row_of self.now.sizes m i self.now.amounts.now }
    {
        let start = self.sizes.row_start(m, i);
        &self.amounts[start..start + self.sizes.columns]
    }
}

impl<F: SummingForm> Sheet<'_, F> {
    // The sum so far, with what one term adds. A term that goes back before the first row adds nothing.
    fn add_term(&self, term: &Term, row: usize, column: usize, sum: F) -> Result<F, FormFault>
        requires own { term.now.property < self.now.sizes.properties }
        requires term { IsRuleTerm term.now }
        requires within { (row < self.now.sizes.rows) × (column < self.now.sizes.columns) }
        ensures { told F.SummingForm.ends result
            ≡ plus_term (on_sheet self.now.sizes (map F.SummingForm.ends self.now.amounts.now)) row column (F.SummingForm.ends sum) (term_of term.now) }
    {
        // A rule of the project: reaches are codes, and guards leave out a row before the first.
        let read = match term.reach {
            0 if term.shift <= row => {
                sum_all(&self.row(term.property, row - term.shift)[..=column])?
            },
            1 if term.shift <= row => self.row(term.property, row - term.shift)[0],
            2 if term.shift <= row => self.row(term.property, row - term.shift)[column],
            _ => return Ok(sum),
        };
        let part = read.times(term.coefficient)?;
        sum.plus(&part)
    }

    // The exposure of a rule at a row and a column: the terms in order, from zero.
    #[tactic(auto, using(crate::proofs::Rows::terms_folded))]
    pub fn exposure(&self, rule: &Rule, row: usize, column: usize) -> Result<F, FormFault>
        requires own { ReadsWithin self.now.sizes.properties rule.now }
        requires within { (row < self.now.sizes.rows) × (column < self.now.sizes.columns) }
        ensures { told F.SummingForm.ends result
            ≡ evaluated (on_sheet self.now.sizes (map F.SummingForm.ends self.now.amounts.now)) (with_terms row column nothing (terms_of rule.now)) }
    {
        let mut sum = F::whole(0)?;
        for term in rule.terms() {
            sum = self.add_term(term, row, column, sum)?;
        }
        Ok(sum)
    }
}

impl<'a> From<&'a Book> for Sheet<'a, i64> {
    ghost from_gives = { λ book sheet. (sheet.sizes ≡ book.now.sizes) × (sheet.amounts.now ≡ book.now.amounts) };

    fn from(book: &'a Book) -> Self {
        Sheet {
            sizes: book.sizes,
            amounts: &book.amounts,
        }
    }
}
