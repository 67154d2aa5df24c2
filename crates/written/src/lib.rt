// What an image writes down for a net, and that reading and writing agree: definitions, statements and proofs, no code.
#![tactic(auto)]
