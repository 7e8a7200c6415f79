// Worlds and drawings: a field behind a chunk table of its own, asked cell by cell or row by row, with an account of every call.
#![tactic(auto)]

pub mod drawing;
pub mod event;
pub mod laws;
pub mod refusal;
pub mod world;
