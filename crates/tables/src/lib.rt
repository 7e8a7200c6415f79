// Chunk tables, and caches: fields that store what the field below answered.
#![tactic(auto)]

pub mod cache;
pub mod table;
pub mod through;
