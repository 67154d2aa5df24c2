// Instructions of the planners' notation as words of a lent table: stored, and read back.
#![tactic(auto)]

pub mod loading;
pub mod table;
