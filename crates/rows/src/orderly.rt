// Listings that keep the rules.
ghost use Rattle.std.specs.Prelude.{◌≡◌, ◌≤◌, []};
ghost use Rattle.rows.specs.Rules.{Ordered};
ghost use Rattle.rows.specs.Slots.{Mirrors, slots_of};

use super::listed::Listed;

// One listing of n closures that keeps the rules by itself.
#[derive(Clone, Copy)]
pub(crate) struct Orderly<'a> {
    pub(crate) n: u16,
    pub(crate) listed: Listed<'a>,
    ghost some: { 1 ≤ n },
    ghost most: { n ≤ 1024 },
    ghost ordered: { Ordered n listed.starts.now listed.ends.now },
}

impl<'a> Orderly<'a> {
    // The ends of the slots of a closure: none past the last closure.
    pub(crate) fn slots(self, u: u16) -> &'a [u16]
        ensures slots { result.now ≡ slots_of self.entry.listed u }
        ensures none { self.entry.n ≤ u → result.now ≡ [] }
    {
        if u >= self.n {
            return &[];
        }
        let Listed { starts, ends } = self.listed;
        let u = usize::from(u);
        &ends[usize::from(starts[u])..usize::from(starts[u + 1])]
    }
}

// Two listings of as many closures that show the same spans.
#[derive(Clone, Copy)]
pub(crate) struct Matched<'a> {
    pub(crate) out: Orderly<'a>,
    pub(crate) into: Orderly<'a>,
    ghost level: { into.n ≡ out.n },
    ghost shown: { Mirrors out.listed into.listed },
    ghost shown_back: { Mirrors into.listed out.listed },
}
