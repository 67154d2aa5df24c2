// Two picks in either order (document 02, slip 9): when their order does not matter, and the proof. No code.
#![tactic(auto)]
