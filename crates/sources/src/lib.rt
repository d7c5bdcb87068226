// Sources of development factors: what each means, and its answer in any projecting form.
#![tactic(auto)]

pub mod credibility;
pub mod estimated;
pub mod exact;
pub mod question;
pub mod selected;
pub mod source;
pub mod weighing;
