// What a reader of bits and a reader of text share: the fault, and in specs/ the readers themselves.
#![tactic(auto)]

pub mod fault;
