// Opened rows as a book.
ghost use Rattle.std.specs.Prelude.{◌≡◌, T, length};
ghost use Rattle.std.proofs.Common.{sym, subst, rules};
ghost use Rattle.books.specs.Adjacent.{listing};
ghost use Rattle.books.specs.Listing.{slot, Sound};
ghost use Rattle.rows.specs.Holding.{turned_sound};

use super::stored::Rows;
use books::book::{Outward, TwoWay};

impl Outward for Rows {
    const LIMIT: u16 = 1024;

    ghost LIMIT = { 1024 };

    ghost most = { 1024 };

    ghost outgoing = { λ b. listing b.out };

    ghost capped = { Prim.search rules };

    ghost sound = { λ b. turned_sound b.out b.into (sym b.level) (λ u v. subst T (sym (b.agrees u v))) };

    fn capacity() -> u16
        ensures { result ≡ 1024 }
    {
        Self::LIMIT
    }

    fn n(&self) -> u16
        ensures { result ≡ (listing self.now.out).size }
    {
        self.out.n()
    }

    fn out_slots(&self, u: u16) -> u16
        ensures { result ≡ length ((listing self.now.out).slots u) }
    {
        self.out.slots(u)
    }

    fn out_slot(&self, u: u16, k: u16) -> Option<u16>
        ensures { result ≡ slot ((listing self.now.out).slots u) k }
    {
        self.out.slot(u, k)
    }
}

impl TwoWay for Rows {
    ghost incoming = { λ b. (listing b.into).slots };

    ghost incoming_sound = { λ b.
        subst (λ n. Sound 1024 (record { size = n; slots = (listing b.into).slots })) b.level
        (turned_sound b.into b.out b.level (λ v u. subst T (b.agrees u v))) };

    ghost agrees = { Prim.search rules };

    fn in_slots(&self, v: u16) -> u16
        ensures { result ≡ length ((listing self.now.into).slots v) }
    {
        self.into.slots(v)
    }

    fn in_slot(&self, v: u16, k: u16) -> Option<u16>
        ensures { result ≡ slot ((listing self.now.into).slots v) k }
    {
        self.into.slot(v, k)
    }
}
