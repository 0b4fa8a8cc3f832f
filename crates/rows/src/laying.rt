// Listings that keep the rules, as sources of adjacency lists.
ghost use Rattle.rows.specs.Slots.{row_of};
ghost use Rattle.rows.specs.Starts.{slots_few};
ghost use Rattle.std.proofs.Common.{arith};

use super::orderly::Orderly;
use books::adjacency::Adjacency;
use books::source::Source;

impl<'a> Source for Orderly<'a> {
    ghost listing = { λ o. record { size = o.n; slots = row_of o.listed } };

    ghost some = { λ o. o.some };

    ghost few = { λ o. o.most };

    ghost room = { λ o. slots_few o.n o.listed o.ordered o.n (omega arith) };

    fn closures(&self) -> u16 {
        self.n
    }

    fn fill(&self, u: u16, lists: &mut Adjacency) {
        for v in self.slots(u) {
            // there is room, since at most 4,096 ends are in use
            let _ = lists.push(*v);
        }
    }
}
