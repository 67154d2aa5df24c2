// Tables of the code for the lean engine (document 02, slip 12): actions and templates as words, what they are for the words of one
// process, and the rights that code needs.
#![tactic(auto)]

pub mod fields;
pub mod heads;
pub mod needs;
