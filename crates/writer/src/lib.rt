// The image writer: a net as the bytes that an image has for it.
#![tactic(auto)]

mod bytes;
pub mod pack;
