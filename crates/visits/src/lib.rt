// Visits of a closure: the distances to all others, by breadth-first search.
#![tactic(auto)]

pub mod figures;
mod search;
mod spans;
pub mod visit;
