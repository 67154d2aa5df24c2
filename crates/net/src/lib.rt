// The lowest crate: the records of a net, and what is read and changed of them.
#![tactic(auto)]

pub mod instruction;
pub mod locality;
pub mod network;
pub mod node;
pub mod policy;
pub mod process;
pub mod reading;
pub mod tuple;
