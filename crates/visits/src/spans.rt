// The spans of a plan, read from one of their ends.
ghost use Rattle.std.specs.Prelude.{◌≡◌, length};
ghost use Rattle.books.specs.Listing.{Listing, Sound, slot};
ghost use Rattle.visits.specs.Within.{widened};

use books::book::{Outward, TwoWay};

pub trait Spans {
    ghost listing: { Self → Listing };

    fn size(&self) -> u16
        ensures { result ≡ (listing self.now).size };

    fn slots(&self, u: u16) -> u16
        ensures { result ≡ length ((listing self.now).slots u) };

    fn slot_at(&self, u: u16, k: u16) -> Option<u16>
        ensures { result ≡ slot ((listing self.now).slots u) k };

    // As in every book, there are 1 to 1,024 closures, and each span goes to one of them.
    ghost sound: { (s : Self) → Sound 1024 (listing s) };
}

// The spans that leave a closure.
#[derive(Drop)]
pub struct Outgoing<'a, B>(pub &'a B);

impl<'a, B: Outward> Spans for Outgoing<'a, B> {
    ghost listing = { λ s. B.Outward.outgoing s.0.now };

    ghost sound = { λ s. widened B.Outward.capped (B.Outward.sound s.0.now) };

    fn size(&self) -> u16 {
        self.0.n()
    }

    fn slots(&self, u: u16) -> u16 {
        self.0.out_slots(u)
    }

    fn slot_at(&self, u: u16, k: u16) -> Option<u16> {
        self.0.out_slot(u, k)
    }
}

// The spans that arrive at a closure.
#[derive(Drop)]
pub struct Incoming<'a, B>(pub &'a B);

impl<'a, B: TwoWay> Spans for Incoming<'a, B> {
    ghost listing = { λ s. record { size = (B.Outward.outgoing s.0.now).size; slots = B.TwoWay.incoming s.0.now } };

    ghost sound = { λ s. widened B.Outward.capped (B.TwoWay.incoming_sound s.0.now) };

    fn size(&self) -> u16 {
        self.0.n()
    }

    fn slots(&self, u: u16) -> u16 {
        self.0.in_slots(u)
    }

    fn slot_at(&self, u: u16, k: u16) -> Option<u16> {
        self.0.in_slot(u, k)
    }
}
