// A step that looks up rights for targets in a variable alone (document 02, slip 12), and that it is the step. No code.
#![tactic(auto)]
