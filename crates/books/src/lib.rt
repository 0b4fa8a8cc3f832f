// Splice plans, how they are read, and how they are measured.
#![tactic(auto)]

pub mod adjacency;
pub mod book;
pub mod fault;
pub mod source;
mod stored;
pub mod theorems;
