// Rows that were opened.
ghost use Rattle.std.specs.Prelude.{◌≡◌, ℕ, []};
ghost use Rattle.books.specs.Adjacent.{listing};
ghost use Rattle.rows.specs.Opening.{Opens, Spans, Verdict};

pub use super::listed::Listed;
use super::rules::judge;
pub use super::stored::Rows;
use books::adjacency::Adjacency;
use books::fault::Fault;

impl Rows {
    // One closure without spans.
    pub fn new() -> Rows
        ensures closures { (listing result.out).size ≡ 1 }
        ensures out { (u : ℕ) → (listing result.out).slots u ≡ [] }
        ensures into { (v : ℕ) → (listing result.into).slots v ≡ [] }
    {
        Rows {
            out: Adjacency::new(),
            into: Adjacency::new(),
        }
    }

    // Takes the plan that the two listings show. Where they break a rule, the rows stay as they were.
    pub fn open(&mut self, out: Listed<'_>, into: Listed<'_>) -> Result<(), Fault>
        ensures opens { Opens out.entry.starts.now out.entry.ends.now into.entry.starts.now into.entry.ends.now result }
        ensures verdict { Verdict out.entry.starts.now out.entry.ends.now into.entry.starts.now into.entry.ends.now result self.old self.new }
        ensures spans { Spans out.entry.starts.now out.entry.ends.now result self.new }
    {
        let matched = judge(out, into).ok_or(Fault::BrokenRows)?;
        *self = Rows {
            out: Adjacency::of(&matched.out),
            into: Adjacency::of(&matched.into),
        };
        Ok(())
    }
}
