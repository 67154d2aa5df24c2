// The test of soundness (document 01, "One pick", answer 10).
#![tactic(auto)]

pub mod groups;
mod rows;
pub mod soundness;
mod zeros;
