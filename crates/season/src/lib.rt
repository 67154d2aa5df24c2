// Shares over a season (document 02, slip 7).
#![tactic(auto)]

mod counts;
pub mod figures;
pub mod fraction;
pub mod sums;
