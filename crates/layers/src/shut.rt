// A plan with closures shut.
ghost use Rattle.books.specs.Listing.{slot};
ghost use Rattle.layers.specs.Layers.{LeavesBoth, Marking, emptied, kept, shuts, thinned};
ghost use Rattle.std.specs.Prelude.{◌≡◌, ℕ, true, false, length, if◌then◌else◌, None};
ghost use Rattle.layers.specs.Thinned.{thinned_sound, thinned_agree};
ghost use Rattle.std.proofs.Common.{rules};

use super::marks::Marks;
use books::book::{Outward, TwoWay};
use books::fault::Fault;

// The shut plan (the subgraph of the open vertices, with the others kept as isolated ones): the slots of a shut closure are
// empty, and so is each slot that holds one. The number of closures and the numbers of slots stay.
#[derive(Drop)]
pub struct Shut<B> {
    below: B,
    marks: Marks,
}

impl<B: TwoWay> Shut<B> {
    // The plan of a book, with no closure shut yet.
    pub fn over(below: B) -> Shut<B>
        ensures below { result.below ≡ below }
        ensures limit { ⟦<Shut<B> as Outward>⟧.LIMIT ≡ B.Outward.LIMIT }
        ensures all_open { (u : ℕ) → shuts result u ≡ false }
        ensures leaves { LeavesBoth (shuts result) (B.Outward.outgoing result.below) (B.TwoWay.incoming result.below) }
    {
        let marks = Marks::none();
        Shut { below, marks }
    }

    // Shuts a closure; one that is shut stays so. Refused where c is no closure.
    pub fn shut(&mut self, c: u16) -> Result<(), Fault>
        ensures { Marking B.Outward.outgoing B.TwoWay.incoming c true result self.old self.new }
    {
        self.mark(c, true)
    }

    // Opens a closure again; one that is open stays so. Refused where c is no closure.
    pub fn reopen(&mut self, c: u16) -> Result<(), Fault>
        ensures { Marking B.Outward.outgoing B.TwoWay.incoming c false result self.old self.new }
    {
        self.mark(c, false)
    }

    // Whether a closure is shut.
    pub fn is_shut(&self, c: u16) -> bool
        ensures { result ≡ shuts self.now c }
    {
        self.marks.has(c)
    }

    // Gives a closure its mark: shut, or open.
    fn mark(&mut self, c: u16, mark: bool) -> Result<(), Fault>
        ensures { Marking B.Outward.outgoing B.TwoWay.incoming c mark result self.old self.new }
    {
        if c >= self.below.n() {
            return Err(Fault::NoClosure);
        }
        self.marks.put(c, mark);
        Ok(())
    }

    // What a slot of u holds, given what it holds below.
    fn unless_shut(&self, u: u16, held: Option<u16>) -> Option<u16>
        ensures { result ≡ (if shuts self.now u then None else kept (shuts self.now) held) }
    {
        held.filter(|v| !self.is_shut(u) && !self.is_shut(*v))
    }
}

impl<B: TwoWay> Outward for Shut<B> {
    const LIMIT: u16 = B::LIMIT;

    ghost LIMIT = { B.Outward.LIMIT };

    ghost most = { B.Outward.most };

    ghost outgoing = { λ s. thinned (shuts s) (B.Outward.outgoing s.below) };

    ghost capped = { Prim.search rules };

    ghost sound = { λ b. thinned_sound (shuts b) (B.Outward.outgoing b.below) (B.Outward.sound b.below) };

    fn capacity() -> u16
        ensures { result ≡ B.Outward.most }
    {
        B::capacity()
    }

    fn n(&self) -> u16
        ensures { result ≡ (B.Outward.outgoing self.now.below).size }
    {
        self.below.n()
    }

    fn out_slots(&self, u: u16) -> u16
        ensures slots { result ≡ length (emptied (shuts self.now) (B.Outward.outgoing self.now.below).slots u) }
        ensures below { result ≡ length ((B.Outward.outgoing self.now.below).slots u) }
    {
        self.below.out_slots(u)
    }

    #[tactic(auto, using(crate::specs::Thinned::slot_is))]
    fn out_slot(&self, u: u16, k: u16) -> Option<u16>
        ensures { result ≡ slot (emptied (shuts self.now) (B.Outward.outgoing self.now.below).slots u) k }
    {
        self.unless_shut(u, self.below.out_slot(u, k))
    }
}

impl<B: TwoWay> TwoWay for Shut<B> {
    ghost incoming = { λ s. emptied (shuts s) (B.TwoWay.incoming s.below) };

    ghost incoming_sound = { λ b. thinned_sound (shuts b) (record { size = (B.Outward.outgoing b.below).size; slots = B.TwoWay.incoming b.below }) (B.TwoWay.incoming_sound b.below) };

    ghost agrees = { λ b. thinned_agree (shuts b) (B.Outward.outgoing b.below).slots (B.TwoWay.incoming b.below) (B.TwoWay.agrees b.below) };

    fn in_slots(&self, v: u16) -> u16
        ensures slots { result ≡ length (emptied (shuts self.now) (B.TwoWay.incoming self.now.below) v) }
        ensures below { result ≡ length (B.TwoWay.incoming self.now.below v) }
    {
        self.below.in_slots(v)
    }

    #[tactic(auto, using(crate::specs::Thinned::slot_is))]
    fn in_slot(&self, v: u16, k: u16) -> Option<u16>
        ensures { result ≡ slot (emptied (shuts self.now) (B.TwoWay.incoming self.now.below) v) k }
    {
        self.unless_shut(v, self.below.in_slot(v, k))
    }
}
