// The lean engine's picks are the first engine's, for every accepted image and text (document 02, slip 12): a statement and its
// proof, no code.
#![tactic(auto)]
