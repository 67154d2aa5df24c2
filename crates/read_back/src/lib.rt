// The source of a net, its text and the claims about it stand in specs/ and proofs/: no code is here.
#![tactic(auto)]
