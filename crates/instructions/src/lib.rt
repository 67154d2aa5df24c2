// Instructions of an image, one by one.
#![tactic(auto)]

pub mod instruction;
mod template;
