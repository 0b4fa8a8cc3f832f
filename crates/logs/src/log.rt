// A log that was opened, and its records.
ghost use Rattle.std.specs.Prelude.{◌≡◌, [], length};
ghost use Rattle.logs.specs.History.{recorded};
ghost use Rattle.logs.specs.Logs.{Follows, Opens, Verdict, closures, history};
ghost use Rattle.logs.specs.Opening.{Decided};

use super::opening::Tested;
use super::side::Side;
use super::span::Span;
pub use super::stored::Log;
use arrayvec::ArrayVec;
use books::adjacency::Adjacency;
use books::fault::Fault;

impl Log {
    // One closure without spans.
    pub fn new() -> Log
        ensures closures { closures result ≡ 1 }
        ensures history { history result ≡ [] }
    {
        Log {
            spans: ArrayVec::new(),
            out: Adjacency::new(),
            into: Adjacency::new(),
        }
    }

    // Takes the log that the bytes are. Where they are none, it stays as it was.
    pub fn open(&mut self, bytes: &[u8]) -> Result<(), Fault>
        ensures opens { Opens bytes.now result self.new }
        ensures verdict { Verdict bytes.now result self.old self.new }
        ensures chains { Follows bytes.now result self.new }
        ensures decided { Decided bytes.now }
    {
        let tested = Tested::judge(bytes)?;
        // one by one, so that the tables do not lie on the stack a second time
        self.spans = tested.read_spans();
        self.out = Adjacency::of(&tested.on(Side::Leaving));
        self.into = Adjacency::of(&tested.on(Side::Arriving));
        Ok(())
    }

    // The number of records.
    pub fn m(&self) -> u16
        ensures { result ≡ length (history self.now) }
    {
        self.spans.len() as u16
    }

    // The span of a record; the oldest record has the number 1.
    pub fn record(&self, number: u16) -> Option<Span>
        ensures { result ≡ recorded (history self.now) number }
    {
        let at = usize::from(number.checked_sub(1)?);
        self.spans.get(at).copied()
    }
}
