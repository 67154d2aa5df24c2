// The text writer: a net as the text that the planners' notation has for it (document 02, slip 13).
#![tactic(auto)]

mod code;
mod nodes;
mod parts;
mod policies;
pub mod whole;
