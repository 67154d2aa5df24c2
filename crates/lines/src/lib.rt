// The lines of a register (document 01, "The register").
#![tactic(auto)]

pub mod lines;
pub mod shown;
mod words;
