// No code: the claims about the place of a refusal stand in specs/, their proofs in proofs/.
#![tactic(auto)]
