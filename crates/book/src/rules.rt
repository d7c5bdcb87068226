// Rules of terms, in a table of one record for each property.
ghost use Rattle.std.specs.Prelude.{◌≡◌, ◌<◌, ◌≤◌, ◌↔◌, [], ◌∷◌, ◌++◌, All, length, replicate, slice_set, take, IsTrue};
ghost use Rattle.book.specs.Limits.{IsRuleTerm, rule_at};

use std::marker::Model;

// A term reads a row of a property, `shift` rows back, and takes a multiple of it. Reach 0 is the sum of the columns so
// far, 1 column 0, and 2 the column itself; it is a code by a rule of the project, and a book refuses any other.
#[derive(Clone, Copy, PartialEq, Eq, Debug)]
pub struct Term {
    pub property: usize,
    pub shift: usize,
    pub reach: u8,
    pub coefficient: i64,
}

// A list of at most six terms. It is an array with a length, since the engine holds books in fixed memory and allocates
// nothing, and is `Copy`, as the kit's `ArrayVec` is not; past the length stand blank terms.
#[derive(Clone, Copy, PartialEq, Eq, Debug)]
pub struct Rule {
    len: usize,
    terms: [Term; 6],
}

impl Model for Rule {
    ghost use Rattle.std.specs.Prelude.{List};
    ghost use Rattle.book.specs.declared.rules.Term.{Term};

    ghost Value = { List Term };

    ghost use Rattle.book.specs.Rule.{first_terms, IsHeld, padded};

    ghost view = { first_terms };

    ghost invariant = { IsHeld };

    ghost inverse = { padded };

    ghost inverse_ok = { λ _ h. h.filled };
}

impl Rule {
    pub fn empty() -> Rule
        ensures { result ≡ [] }
    {
        let blank = Term {
            property: 0,
            shift: 0,
            reach: 0,
            coefficient: 0,
        };
        Rule {
            len: 0,
            terms: [blank; 6],
        }
    }

    // The first `len` of an array's terms; those past them are not kept.
    pub fn of_first(len: usize, terms: &[Term; 6]) -> Rule
        requires few { len ≤ 6 }
        requires each { All IsRuleTerm (take len terms.now) }
        ensures { result ≡ take len terms.now }
    {
        let mut rule = Rule::empty();
        for term in &terms[..len] {
            rule.push(*term);
        }
        rule
    }

    pub fn terms(&self) -> &[Term]
        ensures value { result.now ≡ self.now }
        ensures few { length result.now ≤ 6 }
        ensures each { All IsRuleTerm result.now }
    {
        &self.terms[..self.len]
    }

    pub fn is_full(&self) -> bool
        ensures { IsTrue result ↔ (6 ≤ length self.now) }
    {
        self.len >= 6
    }

    // Adds a term last.
    pub fn push(&mut self, term: Term)
        requires room { length self.old < 6 }
        requires term { IsRuleTerm term }
        ensures { self.new ≡ self.old ++ term ∷ [] }
    {
        self.terms[self.len] = term;
        self.len += 1;
    }
}

// A record for each property that a book may have: a plain table by a rule of the project, in fixed memory.
#[derive(Clone, Copy, PartialEq, Eq, Debug)]
pub struct RuleTable {
    pub records: [Rule; 4],
}

impl RuleTable {
    pub(crate) fn empty() -> RuleTable
        ensures { result.records ≡ replicate 4 [] }
    {
        RuleTable {
            records: [Rule::empty(); 4],
        }
    }

    // Adds a term last in the rule of one property; every other rule stays.
    pub(crate) fn add(&mut self, m: usize, term: Term)
        requires room { (m < 4) × (length (rule_at self.old.records m) < 6) }
        requires term { IsRuleTerm term }
        ensures { self.new.records ≡ slice_set self.old.records m (rule_at self.old.records m ++ term ∷ []) }
    {
        self.records[m].push(term);
    }
}
