// The tables behind a book that holds its plan.
ghost use Rattle.std.specs.Prelude.{◌≡◌, ◌-◌, ◌≤◌, length};
ghost use Rattle.books.specs.Tables.{Ascends, cut};

use arrayvec::ArrayVec;

// The slots of all closures in one direction, closure by closure (compressed adjacency lists): those of a closure stand in
// `ends` from its start up to the next start. The last start is the end of all slots.
#[derive(Drop)]
pub struct Adjacency {
    pub(crate) starts: ArrayVec<u16, 1025>,
    pub(crate) ends: ArrayVec<u16, 4096>,
    ghost few: { (2 ≤ length starts.items) × (length starts.items ≤ 1025) },
    ghost room: { length ends.items ≤ 4096 },
    ghost ascends: { Ascends starts.items (length ends.items) },
    ghost last: { cut starts.items (length ends.items) (length starts.items - 1) ≡ length ends.items },
}
