// Adjacency lists that are laid out closure by closure and then answer in constant time.
ghost use Rattle.std.specs.Prelude.{◌≡◌, ◌<◌, ◌≤◌, ◌↔◌, IsOk, OnErr, OnOk, Some, length, map};
ghost use Rattle.books.specs.Adjacent.{Bare, Grown, Laid, Pushed, filled, listing};
ghost use Rattle.books.specs.Listing.{slot};

use super::source::Source;
pub use super::stored::Adjacency;
use arrayvec::ArrayVec;
use thiserror::Error;

// The lists have as many closures or slots as they can.
#[derive(Clone, Copy, PartialEq, Eq, Debug, Error)]
#[error("the lists are full")]
pub struct Full;

impl Adjacency {
    // One closure without slots.
    pub fn new() -> Adjacency
        ensures { Bare result }
    {
        let mut starts = ArrayVec::new();
        starts.push(0);
        starts.push(0);
        Adjacency {
            starts,
            ends: ArrayVec::new(),
        }
    }

    // The lists of a source, closure by closure.
    pub fn of<S: Source>(source: &S) -> Adjacency
        ensures { Laid (S.listing source.now).slots (S.listing source.now).size result }
    {
        let mut lists = Adjacency::new();
        source.fill(0, &mut lists);
        for u in 1..source.closures() {
            // there is room, since a source has at most 1,024 closures
            let _ = lists.grow();
            source.fill(u, &mut lists);
        }
        lists
    }

    // The number of closures.
    pub fn n(&self) -> u16
        ensures { result ≡ (listing self.now).size }
    {
        self.starts.len() as u16 - 1
    }

    // The number of slots of a closure.
    pub fn slots(&self, u: u16) -> u16
        ensures { result ≡ length ((listing self.now).slots u) }
    {
        self.row(u).len() as u16
    }

    // What a slot of a closure holds.
    pub fn slot(&self, u: u16, k: u16) -> Option<u16>
        ensures { result ≡ slot ((listing self.now).slots u) k }
    {
        self.row(u).get(usize::from(k)).copied()
    }

    // Adds a closure without slots, unless there are 1,024.
    pub fn grow(&mut self) -> Result<(), Full>
        ensures answer { IsOk result ↔ ((listing self.old).size < 1024) }
        ensures grows { OnOk result (Grown self.old self.new) }
        ensures keeps { OnErr result (self.new ≡ self.old) }
    {
        if self.starts.is_full() {
            return Err(Full);
        }
        let end = self.ends.len() as u16;
        self.starts.push(end);
        Ok(())
    }

    // Gives the last closure one more slot, which holds v, unless there are 4,096 slots.
    pub fn push(&mut self, v: u16) -> Result<(), Full>
        ensures answer { IsOk result ↔ (filled self.old < 4096) }
        ensures pushes { OnOk result (Pushed v self.old self.new) }
        ensures keeps { OnErr result (self.new ≡ self.old) }
    {
        if self.ends.is_full() {
            return Err(Full);
        }
        self.ends.push(v);
        // the last start moves with the end
        let last = self.starts.len() - 1;
        self.starts[last] = self.ends.len() as u16;
        Ok(())
    }

    // What the slots of a closure hold.
    fn row(&self, u: u16) -> &[u16]
        ensures row { map Some result.now ≡ (listing self.now).slots u }
        ensures few { length result.now ≤ 4096 }
    {
        let u = usize::from(u);
        let starts = self.starts.as_slice();
        if u + 1 >= starts.len() {
            return &[];
        }
        &self.ends.as_slice()[usize::from(starts[u])..usize::from(starts[u + 1])]
    }
}
