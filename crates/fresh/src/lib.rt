// The fresh test: whether some accepted image gives a net.
#![tactic(auto)]

pub mod freshness;
