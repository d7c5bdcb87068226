// The paper run: books, sources and forms in exact fractions. It is all specification; the crates above state their contracts in it.
#![tactic(auto)]

ghost use Rattle.paper.specs.CentreForm.{centre_form};
ghost use Rattle.paper.specs.EndsForm.{ends_form};
ghost use Rattle.paper.specs.Forms.{Lawful};
ghost use Rattle.paper.specs.Laws.{Sound};
ghost use Rattle.paper.specs.Books.{Book};
ghost use Rattle.paper.specs.Sources.{Meaning, estimated};
ghost use Rattle.paper.specs.Layers.{selected, layered};
ghost use Rattle.std.specs.Prelude.{ℕ, ◌+◌, ◌≤◌, ℤ};

// The two-ends form keeps every law of a form, for all the ends that it can hold.
pub fn ends_form_is_lawful() -> bool
    ensures { Lawful ends_form }
{
    true
}

// The centre form likewise.
pub fn centre_form_is_lawful() -> bool
    ensures { Lawful centre_form }
{
    true
}

// The estimated source means what a source of depth 1 may mean, for every book and question.
pub fn estimates_are_sound() -> bool
    ensures { (b : Book) (m k : ℕ) → Sound 1 b m k (estimated b m k) }
{
    true
}

// A source of selected factors likewise, whatever the factors.
pub fn selections_are_sound() -> bool
    ensures { (chosen : ℕ → ℕ → ℤ) (b : Book) (m k : ℕ) → Sound 1 b m k (selected chosen b m k) }
{
    true
}

// A credibility layer, of weights up to 1000, means what a source may mean that is one deeper than the source below it.
pub fn layers_are_sound() -> bool
    ensures { (lag weight : ℕ → ℕ) (below : Book → ℕ → ℕ → Meaning) (depth : ℕ) (b : Book) (m k : ℕ) → 1 ≤ depth → weight k ≤ 1000 →
        Sound depth b m k (below b m k) → Sound (depth + 1) b m k (layered lag weight below b m k) }
{
    true
}
