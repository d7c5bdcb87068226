// The book's own type, alone here, so that definitions of specs/ can name it.
ghost use Rattle.std.specs.Prelude.{◌≡◌, ◌+◌, ◌*◌, ◌<◌, ◌≤◌, All};
ghost use Rattle.book.specs.Limits.{ReadsWithin, IsEntry};

use crate::rules::RuleTable;

#[derive(Clone, Copy, PartialEq, Eq, Hash, Debug)]
pub struct Sizes {
    pub properties: usize,
    pub rows: usize,
    pub columns: usize,
}

impl Sizes {
    // Where row i of property m begins among a book's amounts; column k stands k places on. The bounds stay clauses: these are
    // the sizes that callers give, also to be refused, and each user asks a part of them.
    pub fn row_start(&self, m: usize, i: usize) -> usize
        requires bounds { (self.now.rows ≤ 16) × (self.now.columns ≤ 12) }
        requires place { (m < 4) × (i < 16) }
        ensures { (result ≡ (m * self.now.rows + i) * self.now.columns) × (result ≤ 756) }
    {
        (m * self.rows + i) * self.columns
    }
}

// The amounts are an array for the largest book, since a book lies in fixed memory; the sizes say which of them count. A book
// keeps more of its sizes than a sheet or `row_start` asks, so a type of kept sizes would ask more of their callers.
#[derive(Drop)]
pub struct Book {
    pub sizes: Sizes,
    pub amounts: [i64; 768],
    pub rules: RuleTable,
    ghost some_property: { 1 ≤ sizes.properties },
    ghost few_properties: { sizes.properties ≤ 4 },
    ghost few_rows: { sizes.rows ≤ 16 },
    ghost some_column: { 1 ≤ sizes.columns },
    ghost few_columns: { sizes.columns ≤ 12 },
    ghost triangle: { sizes.columns ≤ sizes.rows },
    ghost own: { All (ReadsWithin sizes.properties) rules.records },
    ghost entries: { All IsEntry amounts },
}
