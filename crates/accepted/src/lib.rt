// The claims about images (document 01, "The image", "Numbers for an image") stand in specs/ and proofs/: no code is here.
#![tactic(auto)]
