// What `sheet` answers: the text of a drawing, or a refusal.
#![tactic(auto)]

pub mod answer;
mod draw;
pub mod error;
pub mod kinds;
