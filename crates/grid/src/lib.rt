// The endless grid: cells, chunks of 8 by 8 cells, the windows that are drawn, and what a field of heights is.
#![tactic(auto)]

pub mod blank;
pub mod cell;
pub mod chunk;
pub mod field;
pub mod laws;
pub mod rule;
pub mod window;
