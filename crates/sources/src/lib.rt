// Printed sources and the claims about them stand in specs/ and proofs/: no code is here.
#![tactic(auto)]
