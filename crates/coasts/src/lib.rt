// The four kinds of coast, drawn through worlds: the text of a drawing, or a refusal.
#![tactic(auto)]

pub mod answer;
mod draw;
pub mod kinds;
pub mod laws;
pub mod plan;
pub mod refusal;
pub mod text;
