// Grounds: the fields at the bottom of a pile.
#![tactic(auto)]

pub mod constant;
pub mod noise;
pub mod splitmix;
