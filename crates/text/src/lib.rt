// Text written into a lent buffer: each writer takes the place to write at and gives the place after its text, or one
// past the buffer's end once the text no longer fits.
#![tactic(auto)]

pub mod decimal;
pub mod signed;
pub mod writer;
pub mod writing;
