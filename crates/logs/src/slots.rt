// An opened log as a book.
ghost use Rattle.logs.specs.History.{arriving, leaving};
ghost use Rattle.logs.specs.Logs.{closures, history};
ghost use Rattle.std.proofs.Common.{arith, rules};
ghost use Rattle.std.proofs.lemmas.List.{«length-reverse»};
ghost use Rattle.logs.specs.declared.side.Side.TheVariants.{Leaving, Arriving};
ghost use Rattle.logs.specs.Showing.{agree};
ghost use Rattle.logs.specs.Showing;

use super::stored::Log;
use books::book::{Outward, TwoWay};

impl Outward for Log {
    const LIMIT: u16 = 1024;

    ghost LIMIT = { 1024 };

    ghost most = { 1024 };

    ghost outgoing = { λ b. record { size = closures b; slots = leaving (history b) } };

    ghost capped = { Prim.search rules };

    ghost sound = { λ b.
        let f = b.few in
        let l = length-reverse b.spans.items in
        Showing.sound Leaving (closures b) (history b) f.0 f.1 (omega (arith, f.2)) b.within };

    fn capacity() -> u16 {
        Self::LIMIT
    }

    fn n(&self) -> u16 {
        self.out.n()
    }

    fn out_slots(&self, u: u16) -> u16 {
        self.out.slots(u)
    }

    fn out_slot(&self, u: u16, k: u16) -> Option<u16> {
        self.out.slot(u, k)
    }
}

impl TwoWay for Log {
    ghost incoming = { λ b. arriving (history b) };

    ghost incoming_sound = { λ b.
        let f = b.few in
        let l = length-reverse b.spans.items in
        Showing.sound Arriving (closures b) (history b) f.0 f.1 (omega (arith, f.2)) b.within };

    ghost agrees = { λ b. agree (history b) };

    fn in_slots(&self, v: u16) -> u16 {
        self.into.slots(v)
    }

    fn in_slot(&self, v: u16, k: u16) -> Option<u16> {
        self.into.slot(v, k)
    }
}
