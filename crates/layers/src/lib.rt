// Books over other books: the plan below turned, or with closures shut.
#![tactic(auto)]

mod marks;
pub mod shut;
pub mod turned;
