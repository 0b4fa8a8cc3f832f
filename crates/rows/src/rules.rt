// The rules that rows keep.
ghost use Rattle.std.specs.Prelude.{◌≡◌, ℕ, ◌<◌, ◌≤◌, ◌↔◌, IsTrue, MatchOption, length, slice_index};
ghost use Rattle.rows.specs.Rules.{Broken, Ordered, Rising};
ghost use Rattle.rows.specs.Slots.{Mirrors};

use super::listed::Listed;
use super::orderly::{Matched, Orderly};

// Whether there are n + 1 starts that begin at 0 and never fall, the last at most 4,096 and at most the number of ends.
fn starts_rise(n: u16, starts: &[u16], end_count: usize) -> bool
    ensures { IsTrue result ↔ Rising n end_count starts.now }
{
    if starts.len() != usize::from(n) + 1 || starts[0] != 0 {
        return false;
    }
    if !starts.is_sorted() {
        return false;
    }
    let last = starts[usize::from(n)];
    last <= 4096 && usize::from(last) <= end_count
}

// Whether ends are closures.
fn ends_below(n: u16, ends: &[u16]) -> bool
    ensures { IsTrue result ↔ ((k : ℕ) → k < length ends.now → slice_index ends.now k < n) }
{
    ends.iter().all(|v| *v < n)
}

// The listing, where it keeps the rules by itself.
fn ordered(n: u16, listed: Listed<'_>) -> Option<Orderly<'_>>
    requires some { 1 ≤ n }
    requires most { n ≤ 1024 }
    ensures { MatchOption result (Ordered n listed.entry.starts.now listed.entry.ends.now → ⊥) (λ o. (o.n ≡ n) × (o.listed ≡ listed.entry)) }
{
    let Listed { starts, ends } = listed;
    if !starts_rise(n, starts, ends.len()) {
        return None;
    }
    let used = usize::from(starts[usize::from(n)]);
    if !ends_below(n, &ends[..used]) {
        return None;
    }
    Some(Orderly { n, listed })
}

// Whether each span of one listing stands in the other.
fn shown(here: Orderly<'_>, there: Orderly<'_>) -> bool
    ensures { IsTrue result ↔ Mirrors here.entry.listed there.entry.listed }
{
    for u in 0..here.n {
        'slots: for v in here.slots(u) {
            for w in there.slots(*v) {
                if *w == u {
                    continue 'slots;
                }
            }
            return false;
        }
    }
    true
}

// Both listings, where they keep the rules.
pub(crate) fn judge<'a>(out: Listed<'a>, into: Listed<'a>) -> Option<Matched<'a>>
    ensures { MatchOption result (Broken out.entry.starts.now out.entry.ends.now into.entry.starts.now into.entry.ends.now) (λ m. (m.out.listed ≡ out.entry) × (m.into.listed ≡ into.entry)) }
{
    let n = u16::try_from(out.starts.len().checked_sub(1)?).ok()?;
    if n == 0 || n > 1024 {
        return None;
    }
    let out = ordered(n, out)?;
    let into = ordered(n, into)?;
    if shown(out, into) && shown(into, out) {
        Some(Matched { out, into })
    } else {
        None
    }
}
