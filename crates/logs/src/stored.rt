// The tables behind an opened log.
ghost use Rattle.std.specs.Prelude.{◌≡◌, ℕ, ◌≤◌, true, length, reverse};
ghost use Rattle.books.specs.Adjacent.{listing};
ghost use Rattle.logs.specs.History.{arriving, inside, leaving};

use super::span::Span;
use arrayvec::ArrayVec;
use books::adjacency::Adjacency;

// The spans of the records in their order, and the slots of the closures in both directions.
#[derive(Drop)]
pub struct Log {
    pub(crate) spans: ArrayVec<Span, 4096>,
    pub(crate) out: Adjacency,
    pub(crate) into: Adjacency,
    ghost few: { (1 ≤ (listing out).size) × ((listing out).size ≤ 1024) × (length spans.items ≤ 4096) },
    ghost level: { (listing into).size ≡ (listing out).size },
    ghost within: { inside (listing out).size (reverse spans.items) ≡ true },
    ghost leaves: { (u : ℕ) → (listing out).slots u ≡ leaving (reverse spans.items) u },
    ghost arrives: { (v : ℕ) → (listing into).slots v ≡ arriving (reverse spans.items) v },
}
