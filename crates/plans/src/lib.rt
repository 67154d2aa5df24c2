// What an instruction asks for, whether a row grants it, and what a step does to the few records that it concerns
// (document 01, "One pick").
#![tactic(auto)]

pub mod answer;
pub mod plan;
pub mod request;
pub mod rows;
