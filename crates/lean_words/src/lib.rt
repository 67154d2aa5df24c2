// The words of the lean engine (document 02, slip 12): items, processes and tuples as words, rows as flags, and what a step does
// with those of one node.
#![tactic(auto)]

pub mod processes;
pub mod rights;
pub mod stores;
pub mod words;
