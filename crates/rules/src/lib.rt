// The claims about one pick (demands 1 and 2) stand in specs/ and proofs/: no code is here.
#![tactic(auto)]
