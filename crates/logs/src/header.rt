// The first two words of a log, and what they say of the others.
ghost use Rattle.std.specs.Prelude.{◌≡◌, ◌+◌, ◌*◌, IfOk};
ghost use Rattle.books.specs.Faults.{told};
ghost use Rattle.logs.specs.History.{size};
ghost use Rattle.logs.specs.Opening.{bound, counted, end_at, next_at};

use super::side::Side;
use books::fault::Fault;

// How many closures and how many records a log has.
#[derive(Clone, Copy)]
pub(crate) struct Header {
    pub(crate) n: u16,
    pub(crate) m: u16,
}

impl Header {
    // The counts n and m, where a log can have them.
    pub(crate) fn new(n: u16, m: u16) -> Result<Header, Fault>
        ensures answer { told result ≡ counted n m }
        ensures counts { IfOk result (λ header. (header.n ≡ n) × (header.m ≡ m)) }
    {
        if n == 0 || n > 1024 {
            return Err(Fault::ClosureCount);
        }
        if m > 4096 {
            return Err(Fault::RecordCount);
        }
        Ok(Header { n, m })
    }

    // The place of the record j, counted from 0.
    pub(crate) fn record_place(self, j: u16) -> usize
        ensures { result ≡ size self.n j }
    {
        4 + 4 * usize::from(self.n) + 8 * usize::from(j)
    }

    // The place of an end of the record j.
    pub(crate) fn end_place(self, side: Side, j: u16) -> usize
        ensures { result ≡ end_at self.n side j }
    {
        self.record_place(j) + 2 * side.column()
    }

    // The place of the link from the record j to the next record of its chain on a side.
    pub(crate) fn next_place(self, side: Side, j: u16) -> usize
        ensures { result ≡ next_at self.n side j }
    {
        self.end_place(side, j) + 4
    }

    // The length in bytes of the log.
    pub(crate) fn log_size(self) -> usize
        ensures { result ≡ size self.n self.m }
    {
        self.record_place(self.m)
    }

    // The number of words after the first two.
    pub(crate) fn words(self) -> usize
        ensures { result ≡ 2 * self.n + 4 * self.m }
    {
        2 * usize::from(self.n) + 4 * usize::from(self.m)
    }

    // The least value that the word k after the first two may not have.
    pub(crate) fn limit(self, k: usize) -> usize
        ensures { result ≡ bound self.n self.m k }
    {
        let heads = 2 * usize::from(self.n);
        if k < heads {
            usize::from(self.m) + 1
        } else if (k - heads) % 4 < 2 {
            usize::from(self.n)
        } else {
            (k - heads) / 4 + 1
        }
    }
}
