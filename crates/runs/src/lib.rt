// What a run of an image is, apart from the code that makes it: definitions and laws, no code. The crate `run` makes runs.
#![tactic(auto)]
