// The bit reader, the fields that stand in several places of an image, and its end.
#![tactic(auto)]

mod bits;
pub mod ending;
pub mod fields;
pub mod reader;
