// Rule layers: a rule on top of any field.
#![tactic(auto)]

pub mod layer;
pub mod smoothing;
