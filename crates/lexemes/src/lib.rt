// The smallest parts of the planners' notation, read: bytes and words, numbers.
#![tactic(auto)]

pub mod numbers;
pub mod reader;
