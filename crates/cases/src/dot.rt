// A book of a caller's own under layers, with a limit of its own.
ghost use Rattle.std.specs.Prelude.{[]};
ghost use Rattle.std.proofs.Common.{rules};

use books::book::{Outward, TwoWay};
use layers::shut::Shut;
use layers::turned::Turned;
use visits::figures::measure;

// One closure without slots.
#[derive(Drop)]
struct Dot {}

impl Outward for Dot {
    const LIMIT: u16 = 1;

    ghost LIMIT = { 1 };

    ghost most = { 1 };

    ghost outgoing = { λ _. record { size = 1; slots = λ _. [] } };

    ghost capped = { Prim.search rules };

    ghost sound = { Prim.search rules };

    fn capacity() -> u16 {
        Self::LIMIT
    }

    fn n(&self) -> u16 {
        1
    }

    fn out_slots(&self, _u: u16) -> u16 {
        0
    }

    fn out_slot(&self, _u: u16, _k: u16) -> Option<u16> {
        None
    }
}

impl TwoWay for Dot {
    ghost incoming = { λ _. λ _. [] };

    ghost incoming_sound = { Prim.search rules };

    ghost agrees = { Prim.search rules };

    fn in_slots(&self, _v: u16) -> u16 {
        0
    }

    fn in_slot(&self, _v: u16, _k: u16) -> Option<u16> {
        None
    }
}

#[test]
fn layers_forward_the_limit(rt: HostRuntime) {
    assert_eq!(rt; Turned::<Dot>::LIMIT, 1);
    assert_eq!(rt; Shut::<Dot>::LIMIT, 1);
    assert_eq!(rt; Shut::<Turned<Shut<Dot>>>::LIMIT, 1);
    assert_eq!(rt; Turned::<Shut<Turned<Dot>>>::capacity(), 1);
    let plan = Turned::over(Shut::over(Turned::over(Dot {})));
    assert_eq!(rt; plan.n(), 1);
    assert_eq!(rt; measure(&plan).longest.length, 0);
}
