// The origin of a process (document 02, slip 10): that no answer rests on it in format 1, and the proof. No code.
#![tactic(auto)]
