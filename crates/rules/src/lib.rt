// The rules: what rule layers make of a square of heights.
#![tactic(auto)]

pub mod laws;
pub mod road;
pub mod settlement;
