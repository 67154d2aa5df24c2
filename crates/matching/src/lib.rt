// Matching (document 01, "One pick"): templates evaluated, the oldest tuple that fits, binding. What the crates
// above may rest on is `MatchingPromise` of specs/.
#![tactic(auto)]

pub mod template;
