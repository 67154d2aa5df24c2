// The bits of a net in an image, written into a lent buffer of bits, part after part.
#![tactic(auto)]

mod bits;
mod code;
mod fields;
mod nodes;
mod rows;
pub mod whole;
