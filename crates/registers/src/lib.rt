// The register of an image or a text and its picks (document 01, "The register").
#![tactic(auto)]

pub mod register;
pub mod room;
