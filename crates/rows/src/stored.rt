// The tables behind opened rows.
ghost use Rattle.std.specs.Prelude.{◌≡◌, ℕ};
ghost use Rattle.books.specs.Adjacent.{listing};
ghost use Rattle.books.specs.Listing.{holds};

use books::adjacency::Adjacency;

// The slots of the closures in both directions, which show the same spans.
#[derive(Drop)]
pub struct Rows {
    pub(crate) out: Adjacency,
    pub(crate) into: Adjacency,
    ghost level: { (listing into).size ≡ (listing out).size },
    ghost agrees: { (u v : ℕ) → holds ((listing into).slots v) u ≡ holds ((listing out).slots u) v },
}
