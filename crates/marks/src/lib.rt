// Who put it there (document 02, slip 8): what the mark of a tuple tells, and the proof. No code.
#![tactic(auto)]
