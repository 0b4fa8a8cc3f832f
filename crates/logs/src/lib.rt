// The chained log: its draft, its opening, and an opened log as a book.
#![tactic(auto)]

pub mod draft;
mod header;
mod index;
pub mod log;
mod opening;
mod side;
pub mod slots;
pub mod span;
mod stored;
mod words;
pub mod write;
