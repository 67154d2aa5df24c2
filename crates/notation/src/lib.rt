// Nets in the planners' notation.
#![tactic(auto)]

mod lines;
pub mod reading;
