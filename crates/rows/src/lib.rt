// The policies of a text in the planners' notation, read into a net.
#![tactic(auto)]

pub mod origin_rows;
pub mod policies;
pub mod rows;
