// The ratio and the application of the projecting forms, for callers in C and Rust: numbers in, an answer out. C has no
// generic functions and no tuples: each form exports functions and an answer of its own, its application over one generic
// function here. A ratio is each form's own: over a generic one, refused ratios cost a third more.
#![tactic(auto)]

pub mod centre;
pub mod ends;

ghost use Rattle.std.specs.Prelude.{◌≡◌, option_map};
ghost use Rattle.forms_c.specs.Answered.{application_of};

use forms::ProjectingForm;

// A factor applied to an amount, refused past the amount ceiling.
fn apply<F: ProjectingForm>(factor: &F::Factor, amount: &F) -> Option<F>
    ensures { option_map F.SummingForm.ends result
        ≡ application_of F.ProjectingForm.form (F.ProjectingForm.fends factor.now) (F.SummingForm.ends amount.now) }
{
    F::apply(factor, amount).ok()
}
