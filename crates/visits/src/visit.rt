// Visits of one closure, from and to it.
ghost use Rattle.std.specs.Prelude.{◌≡◌, IfOk, nat_eq, slice_index};
ghost use Rattle.books.specs.Listing.{Listing, plan};
ghost use Rattle.books.specs.Measures.{first};
ghost use Rattle.books.specs.Plan.{Distance, Same, turned};
ghost use Rattle.visits.specs.Visited.{Tells, approached, visited};

use super::search::visit;
use super::spans::{Incoming, Outgoing};
use books::book::{Outward, TwoWay};
use books::fault::Fault;

// What stands for the distance of a closure that is out of reach, or of a number that is no closure.
// The format of a visit fixes it, so distances are no Options.
pub const FAR: u16 = 65535;

// What a visit (a breadth-first search) finds: the distances by closure, and the depth (the eccentricity), which is the greatest
// distance of a closure within reach.
#[derive(Clone, Copy, PartialEq, Eq, Debug)]
pub struct Visit {
    pub distances: [u16; 1024],
    pub depth: u16,
}

// The distance from `start` to each closure. Refused where `start` is no closure.
pub fn out_visit<B: Outward>(book: &B, start: u16) -> Result<Visit, Fault>
    ensures answer { result ≡ visited (plan (B.Outward.outgoing book.now)) start }
    ensures tells { IfOk result (Tells (λ v d. Distance (plan (B.Outward.outgoing book.now)) start v d)) }
{
    visit(&Outgoing(book), start)
}

// The distance from each closure to `start`: the out-visit over any book of the turned plan. Refused where `start` is no closure.
pub fn in_visit<B: TwoWay>(book: &B, start: u16) -> Result<Visit, Fault>
    ensures answer { result ≡ approached (plan (B.Outward.outgoing book.now)) start }
    ensures turns { result ≡ visited (turned (plan (B.Outward.outgoing book.now))) start }
    ensures turns_listed { (l : Listing) → Same (plan l) (turned (plan (B.Outward.outgoing book.now))) → result ≡ visited (plan l) start }
    ensures tells { IfOk result (Tells (λ v d. Distance (plan (B.Outward.outgoing book.now)) v start d)) }
{
    visit(&Incoming(book), start)
}

impl Visit {
    // The lowest number whose distance is the depth.
    pub fn farthest(&self) -> Option<u16>
        ensures { result ≡ first 1024 (λ v. nat_eq (slice_index self.now.distances v) self.now.depth) }
    {
        // a plain loop: the compiler turns it into vector instructions, which it does not do for `find`
        for v in 0..1024 {
            if self.distances[usize::from(v)] == self.depth {
                return Some(v);
            }
        }
        None
    }
}
