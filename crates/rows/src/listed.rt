// One direction of rows, as it is handed over.

// The slots of the closure u are the ends from `starts[u]` up to but not including `starts[u + 1]`.
#[derive(Clone, Copy)]
pub struct Listed<'a> {
    pub starts: &'a [u16],
    pub ends: &'a [u16],
}
