// What adjacency lists are laid out from.
ghost use Rattle.std.specs.Prelude.{◌≡◌, suc, ◌<◌, ◌≤◌};
ghost use Rattle.books.specs.Adjacent.{Beside, Lacking, Laid, slots_below};
ghost use Rattle.books.specs.Listing.{Listing};

use super::stored::Adjacency;

// The slots of a plan in one direction, that are read closure by closure.
pub trait Source {
    ghost listing: { Self → Listing };

    // The number of closures.
    fn closures(&self) -> u16
        ensures { result ≡ (listing self.now).size };

    // Gives the last closure of the lists the slots of u; where u is no closure, they stay.
    fn fill(&self, u: u16, lists: &mut Adjacency)
        ensures outside { (listing self.now).size ≤ u → lists.new ≡ lists.old }
        ensures others { Beside lists.old lists.new }
        ensures fills { u < (listing self.now).size → Lacking (listing self.now).slots u ((listing self.now).slots u) lists.old → Laid (listing self.now).slots (suc u) lists.new };

    ghost some: { (s : Self) → 1 ≤ (listing s).size };

    ghost few: { (s : Self) → (listing s).size ≤ 1024 };

    ghost room: { (s : Self) → slots_below (listing s).slots (listing s).size ≤ 4096 };
}
