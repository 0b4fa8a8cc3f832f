// The measures of a whole plan, by a visit of every closure both ways.
ghost use Rattle.std.specs.Prelude.{◌+◌, ◌<◌, ◌≤◌};
ghost use Rattle.books.specs.Listing.{plan};
ghost use Rattle.books.specs.Plan.{Closed, Distance, Plan};
ghost use Rattle.visits.specs.Figured.{Figured, Sofar};
ghost use Rattle.visits.specs.Visited.{Tells};

use super::visit::{Visit, in_visit, out_visit};
use books::book::TwoWay;

// The ends and the length of a longest run so far.
#[derive(Clone, Copy, PartialEq, Eq, Debug)]
pub struct LongestRun {
    pub length: u16,
    pub from: u16,
    pub to: u16,
}

// The out-depth and the in-depth of a closure.
#[derive(Clone, Copy, PartialEq, Eq, Debug)]
pub struct Depths {
    pub out: u16,
    pub into: u16,
}

// The depths of each closure, and the longest run, whose length is the diameter.
#[derive(Clone, Copy)]
pub struct Figures {
    pub depths: [Depths; 1024],
    pub longest: LongestRun,
}

impl Figures {
    // No closure is measured yet.
    fn blank() -> Figures
        ensures { (p : Plan) → 0 < p.size → Sofar p 0 result }
    {
        Figures {
            depths: [Depths { out: 0, into: 0 }; 1024],
            longest: LongestRun {
                length: 0,
                from: 0,
                to: 0,
            },
        }
    }

    // Notes what the visits of u found.
    fn note(&mut self, u: u16, out: &Visit, into: &Visit)
        requires { u < 1024 }
        ensures { (p : Plan) → Closed p → u < p.size → p.size ≤ 1024 → Tells (λ v d. Distance p u v d) out.now → Tells (λ v d. Distance p v u d) into.now → Sofar p u self.old → Sofar p (u + 1) self.new }
    {
        self.depths[usize::from(u)] = Depths {
            out: out.depth,
            into: into.depth,
        };
        if out.depth > self.longest.length {
            if let Some(to) = out.farthest() {
                self.longest = LongestRun {
                    length: out.depth,
                    from: u,
                    to,
                };
            }
        }
    }
}

// The depths of every closure, and the longest run with the lowest first closure, and from there the lowest last one.
pub fn measure<B: TwoWay>(book: &B) -> Figures
    ensures { Figured (plan (B.Outward.outgoing book.now)) result }
{
    let mut figures = Figures::blank();
    for u in 0..book.n() {
        // neither visit refuses a closure of the plan
        let Ok(out) = out_visit(book, u) else {
            continue;
        };
        let Ok(into) = in_visit(book, u) else {
            continue;
        };
        figures.note(u, &out, &into);
    }
    figures
}
