// A book is the interface through which a plan (a directed graph) is read.
ghost use Rattle.std.specs.Prelude.{◌≡◌, ℕ, ◌≤◌, List, length, Option};
ghost use Rattle.books.specs.Listing.{Agree, Listing, Sound, slot};

// A plan read by its outgoing slots (adjacency lists with gaps). `outgoing` is what the book means.
pub trait Outward {
    // The most closures that a book of this kind can have.
    const LIMIT: u16;

    // The same, as contracts name it.
    ghost LIMIT: { ℕ };

    ghost most: { ℕ };

    ghost outgoing: { Self → Listing };

    // LIMIT, as a call.
    fn capacity() -> u16
        ensures { result ≡ most };

    // The number of closures.
    fn n(&self) -> u16
        ensures { result ≡ (outgoing self.now).size };

    // The number of outgoing slots of a closure.
    fn out_slots(&self, u: u16) -> u16
        ensures { result ≡ length ((outgoing self.now).slots u) };

    // What an outgoing slot holds: the closure that a span leads to, or nothing.
    fn out_slot(&self, u: u16, k: u16) -> Option<u16>
        ensures { result ≡ slot ((outgoing self.now).slots u) k };

    ghost capped: { most ≤ 1024 };

    ghost sound: { (b : Self) → Sound most (outgoing b) };
}

// A plan read from both ends of its spans.
pub trait TwoWay: Outward {
    ghost incoming: { Self → ℕ → List (Option ℕ) };

    // The number of incoming slots of a closure.
    fn in_slots(&self, v: u16) -> u16
        ensures { result ≡ length (incoming self.now v) };

    // What an incoming slot holds: the closure that a span comes from, or nothing.
    fn in_slot(&self, v: u16, k: u16) -> Option<u16>
        ensures { result ≡ slot (incoming self.now v) k };

    ghost incoming_sound: { (b : Self) → Sound Self.Outward.most (record { size = (Self.Outward.outgoing b).size; slots = incoming b }) };

    ghost agrees: { (b : Self) → Agree (Self.Outward.outgoing b).slots (incoming b) };
}
