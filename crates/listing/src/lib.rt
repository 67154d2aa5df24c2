// Checking the old host's listings (document 02, slip 5).
#![tactic(auto)]

pub mod checking;
mod comparing;
