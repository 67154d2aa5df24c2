// Runs: an image or a text read, then picks made one after another.
#![tactic(auto)]

pub mod picks;
pub mod run;
