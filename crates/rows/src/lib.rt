// Rows: adjacency lists of both directions that are handed over, and the book that is made of them.
#![tactic(auto)]

mod laying;
mod listed;
mod orderly;
pub mod rows;
mod rules;
pub mod slots;
mod stored;
