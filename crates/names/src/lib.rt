// Station names (document 02, slip 14).
#![tactic(auto)]

pub mod entries;
pub mod lookup;
