// One line of a patch: its label, what the rest of it says, and what a label comes to in its words.
#![tactic(auto)]

pub mod oneline;
pub mod text;
