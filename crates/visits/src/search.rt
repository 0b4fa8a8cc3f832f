// Breadth-first search, once for both directions.
ghost use Rattle.std.specs.Prelude.{◌≡◌, ℕ, ◌+◌, ◌<◌};
ghost use Rattle.books.specs.Listing.{plan};
ghost use Rattle.visits.specs.Going.{Going, far, finished, found, noted, opened, place};
ghost use Rattle.visits.specs.Visited.{visited};

use super::spans::Spans;
use super::visit::{FAR, Visit};
use arrayvec::ArrayVec;
use books::fault::Fault;

// A search on its way: the distances so far, and the closures found, in the order in which they were found.
#[derive(Drop)]
struct Search {
    distances: [u16; 1024],
    queue: ArrayVec<u16, 1024>,
}

impl Search {
    // Only `start` is found, at distance 0.
    fn at(start: u16) -> Search
        requires { start < 1024 }
        ensures { result ≡ opened start }
    {
        let mut distances = [FAR; 1024];
        distances[usize::from(start)] = 0;
        let mut queue = ArrayVec::new();
        queue.push(start);
        Search { distances, queue }
    }

    // Notes that `v` lies at distance `d`, unless its distance is known.
    fn note(&mut self, v: u16, d: u16)
        requires closure { v < 1024 }
        requires room { far self.old v ≡ 65535 → found self.old < 1024 }
        ensures { self.new ≡ noted self.old v d }
    {
        let distance = &mut self.distances[usize::from(v)];
        if *distance == FAR {
            *distance = d;
            self.queue.push(v);
        }
    }

    // Notes the closures that a span leads to from the one at place `head` of the queue.
    fn look<S: Spans>(&mut self, spans: &S, head: usize)
        requires early { head < found self.old }
        requires going { Going (plan (S.Spans.listing spans.now)) head self.old }
        ensures going { Going (plan (S.Spans.listing spans.now)) (head + 1) self.new }
        ensures start { place self.new 0 ≡ place self.old 0 }
    {
        let u = self.queue[head];
        let d = self.distances[usize::from(u)] + 1;
        for k in 0..spans.slots(u) {
            if let Some(v) = spans.slot_at(u, k) {
                self.note(v, d);
            }
        }
    }

    // What the search found. The closure found last is the farthest.
    fn finish(&self) -> Visit
        requires some { 0 < found self.now }
        requires closures { (i : ℕ) → i < found self.now → place self.now i < 1024 }
        ensures { result ≡ finished self.now }
    {
        let last = self.queue[self.queue.len() - 1];
        Visit {
            distances: self.distances,
            depth: self.distances[usize::from(last)],
        }
    }
}

// The distances from `start` along the spans.
pub(crate) fn visit<S: Spans>(spans: &S, start: u16) -> Result<Visit, Fault>
    ensures { result ≡ visited (plan (S.Spans.listing spans.now)) start }
{
    if start >= spans.size() {
        return Err(Fault::NoClosure);
    }
    let mut search = Search::at(start);
    // a local variable: as a field beside the arrays it would lie in memory, and a visit would take longer
    let mut head = 0;
    while head < search.queue.len() {
        search.look(spans, head);
        head += 1;
    }
    Ok(search.finish())
}
