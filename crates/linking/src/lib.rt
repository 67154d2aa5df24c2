// The net of a text once its lines are read: names settled and judged, starts resolved, code and processes put in place.
#![tactic(auto)]

pub mod names;
pub mod places;
