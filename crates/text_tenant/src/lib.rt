// Demand 3, the tenant rule, about the nets that texts in the planners' notation give: a statement and its proof, no code.
#![tactic(auto)]
