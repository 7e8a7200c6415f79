// Tracks: calls made on a world one after another, with a journal of what they told; two of them side by side.
#![tactic(auto)]

pub mod call;
pub mod compare;
pub mod replay;
mod row;
pub mod run;
mod tell;
mod turn;
