// The closing total of a register (document 02, slip 1): what it equals, and the proof. No code.
#![tactic(auto)]
