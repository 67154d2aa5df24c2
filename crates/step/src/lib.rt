// One pick (document 01, "One pick").
#![tactic(auto)]

pub mod machine;
pub mod sharing;
pub mod turn;
