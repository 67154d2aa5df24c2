// Demand 3, the tenant rule, about the runs of the crate `run`: a statement and its proof, no code.
#![tactic(auto)]
