// The image reader: from the bytes of an image to the net that they write down, or to its first fault.
#![tactic(auto)]

mod entries;
mod header;
mod layout;
pub mod reader;
mod rows;
mod starts;
mod stores;
