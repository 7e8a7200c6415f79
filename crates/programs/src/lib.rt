// What the programs share: the tally and the course of those that measure, the count that they are given, and how all of them end.
#![tactic(auto)]

pub mod count;
pub mod course;
pub mod ending;
pub mod tally;
