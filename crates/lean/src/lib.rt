// The lean engine (document 02, slip 12): it looks up rights only for targets in a variable, and where code is admitted that is
// sent.
#![tactic(auto)]

mod actions;
mod decoding;
pub mod engine;
mod filling;
mod loading;
mod rounds;
