// A plan read from the other end of its spans.
ghost use Rattle.books.specs.Listing.{plan, slot, with_slots};
ghost use Rattle.books.specs.Plan.{Same, turned};
ghost use Rattle.std.specs.Prelude.{◌≡◌, length};
ghost use Rattle.std.proofs.Common.{rules};

use books::book::{Outward, TwoWay};

// The turned plan (the transpose): outgoing slots are the incoming ones of the book below, and the other way round.
#[derive(Drop)]
pub struct Turned<B> {
    below: B,
}

impl<B: TwoWay> Turned<B> {
    // Turns the plan of a book.
    pub fn over(below: B) -> Turned<B>
        ensures below { result.below ≡ below }
        ensures limit { ⟦<Turned<B> as Outward>⟧.LIMIT ≡ B.Outward.LIMIT }
        ensures plan { Same (plan (with_slots (B.Outward.outgoing result.below) (B.TwoWay.incoming result.below))) (turned (plan (B.Outward.outgoing below))) }
    {
        Turned { below }
    }
}

impl<B: TwoWay> Outward for Turned<B> {
    const LIMIT: u16 = B::LIMIT;

    ghost LIMIT = { B.Outward.LIMIT };

    ghost most = { B.Outward.most };

    ghost outgoing = { λ t. with_slots (B.Outward.outgoing t.below) (B.TwoWay.incoming t.below) };

    ghost capped = { Prim.search rules };

    ghost sound = { λ b. B.TwoWay.incoming_sound b.below };

    fn capacity() -> u16
        ensures { result ≡ B.Outward.most }
    {
        B::capacity()
    }

    fn n(&self) -> u16
        ensures { result ≡ (B.Outward.outgoing self.now.below).size }
    {
        self.below.n()
    }

    fn out_slots(&self, u: u16) -> u16
        ensures { result ≡ length (B.TwoWay.incoming self.now.below u) }
    {
        self.below.in_slots(u)
    }

    fn out_slot(&self, u: u16, k: u16) -> Option<u16>
        ensures { result ≡ slot (B.TwoWay.incoming self.now.below u) k }
    {
        self.below.in_slot(u, k)
    }
}

impl<B: TwoWay> TwoWay for Turned<B> {
    ghost incoming = { λ t. (B.Outward.outgoing t.below).slots };

    ghost incoming_sound = { Prim.search rules };

    ghost agrees = { Prim.search rules };

    fn in_slots(&self, v: u16) -> u16
        ensures { result ≡ length ((B.Outward.outgoing self.now.below).slots v) }
    {
        self.below.out_slots(v)
    }

    fn in_slot(&self, v: u16, k: u16) -> Option<u16>
        ensures { result ≡ slot ((B.Outward.outgoing self.now.below).slots v) k }
    {
        self.below.out_slot(v, k)
    }
}
