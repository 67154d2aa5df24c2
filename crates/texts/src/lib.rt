// The claims about texts in the planners' notation stand in specs/ and proofs/: no code is here.
#![tactic(auto)]
