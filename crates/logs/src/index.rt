// An accepted log laid out by closure and by record.
ghost use Rattle.std.specs.Prelude.{◌≡◌, ◌≤◌, length, reverse};
ghost use Rattle.books.specs.Adjacent.{slots_below};
ghost use Rattle.logs.specs.History.{slots_on};
ghost use Rattle.logs.specs.Opening.{spans_at};

use super::opening::{Measured, Tested};
use super::side::Side;
use super::span::Span;
use super::words::word_at;
use arrayvec::ArrayVec;
use books::adjacency::Adjacency;
use books::source::Source;

impl<'a> Tested<'a> {
    // Reads the spans of the records in their order.
    pub(crate) fn read_spans(self) -> ArrayVec<Span, 4096>
        ensures few { length result.items ≤ 4096 }
        ensures history { let log = self.entry.log in reverse result.items ≡ spans_at log.bytes.now log.header.n log.header.m }
    {
        let Measured { bytes, header } = self.log;
        let mut spans = ArrayVec::new();
        for j in 0..header.m {
            spans.push(Span {
                from: word_at(bytes, header.end_place(Side::Leaving, j)),
                to: word_at(bytes, header.end_place(Side::Arriving, j)),
            });
        }
        spans
    }

    // The slots of its closures on one side.
    pub(crate) fn on(self, side: Side) -> LogSide<'a>
        ensures log { result.tested ≡ self.entry }
        ensures side { result.side ≡ side }
    {
        LogSide { tested: self, side }
    }
}

// One side of a log: the slots of a closure are the other ends of the records of its chain.
#[derive(Clone, Copy)]
pub(crate) struct LogSide<'a> {
    tested: Tested<'a>,
    side: Side,
    ghost room: { slots_below (slots_on side (spans_at tested.log.bytes.now tested.log.header.n tested.log.header.m)) tested.log.header.n ≤ 4096 },
}

impl<'a> Source for LogSide<'a> {
    ghost listing = { λ s. let log = s.tested.log in record { size = log.header.n; slots = slots_on s.side (spans_at log.bytes.now log.header.n log.header.m) } };

    ghost some = { λ s. s.tested.log.some };

    ghost few = { λ s. s.tested.log.few };

    ghost room = { λ s. s.room };

    fn closures(&self) -> u16 {
        self.tested.log.header.n
    }

    // Follows the chain of u.
    fn fill(&self, u: u16, lists: &mut Adjacency) {
        let log = self.tested.log;
        let Measured { bytes, header } = log;
        if u >= header.n {
            return;
        }
        let mut place = self.side.head_place(u);
        while let Some(j) = log.link(place) {
            let far = word_at(bytes, header.end_place(self.side.other(), j));
            // there is room, since no record is met twice
            let _ = lists.push(far);
            place = header.next_place(self.side, j);
        }
    }
}
