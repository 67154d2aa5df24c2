// Reaching and rights (document 01, "Reaching and rights"). What the crates above may rest on is `KeepingPromise` of
// specs/.
#![tactic(auto)]

pub mod admission;
pub mod reaching;
pub mod rights;
