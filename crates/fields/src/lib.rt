// Fields of the planners' notation, read: addresses, variables and readings, templates and targets, sets, tuples.
#![tactic(auto)]

pub mod scope;
pub mod sets;
pub mod templates;
pub mod tuples;
pub mod values;
