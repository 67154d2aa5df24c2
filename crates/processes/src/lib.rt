// Processes and actions of the planners' notation, read: their instructions are stored in a lent table.
#![tactic(auto)]

pub mod actions;
pub mod code;
pub mod names;
pub mod processes;
