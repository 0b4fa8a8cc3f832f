// The tests that bytes pass before they are a log. What passes a test has a type of its own, which keeps what the test found.
ghost use Rattle.std.specs.Prelude.{◌≡◌, ℕ, nat_lt, IsTrue, ◌+◌, ◌*◌, ◌<◌, ◌≤◌, true, suc, List, length, IfOk, MatchOption, MatchResult};
ghost use Rattle.books.specs.Faults.{numbered, placed, told};
ghost use Rattle.logs.specs.History.{encode, inside, size};
ghost use Rattle.logs.specs.Opening.{Accepted, Below, Chain, Chains, Judged, Outside, Ranged, Refused, Strayed, Strays, bound, head_at, headed, spans_at};
ghost use Rattle.logs.specs.Words.{word};

use super::header::Header;
use super::side::Side;
use super::words::word_at;
use books::fault::Fault;

// Bytes whose first two words are within their limits, and whose length is what these words say.
#[derive(Clone, Copy)]
pub(crate) struct Measured<'a> {
    pub(crate) bytes: &'a [u8],
    pub(crate) header: Header,
    ghost first: { header.n ≡ word bytes.now 0 },
    ghost second: { header.m ≡ word bytes.now 2 },
    ghost some: { 1 ≤ header.n },
    ghost few: { header.n ≤ 1024 },
    ghost short: { header.m ≤ 4096 },
    ghost len: { length bytes.now ≡ size header.n header.m },
}

// Measured bytes each of whose other words is below its limit.
#[derive(Clone, Copy)]
pub(crate) struct Bounded<'a> {
    log: Measured<'a>,
    ghost ranged: { Ranged log.bytes.now log.header.n log.header.m },
}

// Measured bytes that are the log of their spans.
#[derive(Clone, Copy)]
pub(crate) struct Tested<'a> {
    pub(crate) log: Measured<'a>,
    ghost written: { log.bytes.now ≡ encode log.header.n (spans_at log.bytes.now log.header.n log.header.m) },
    ghost within: { inside log.header.n (spans_at log.bytes.now log.header.n log.header.m) ≡ true },
}

impl<'a> Measured<'a> {
    // Reads the first two words.
    fn read_header(bytes: &'a [u8]) -> Result<Measured<'a>, Fault>
        ensures answer { told result ≡ headed bytes.now }
        ensures same { IfOk result (λ log. log.bytes.now ≡ bytes.now) }
    {
        if bytes.len() < 4 {
            return Err(Fault::ShortLog);
        }
        let header = Header::new(word_at(bytes, 0), word_at(bytes, 2))?;
        if bytes.len() != header.log_size() {
            return Err(Fault::LogLength);
        }
        Ok(Measured { bytes, header })
    }

    // The record, counted from 0, to which the link at a place leads.
    pub(crate) fn link(self, place: usize) -> Option<u16>
        requires { place + 1 < length self.bytes.now }
        ensures { MatchOption result (word self.entry.bytes.now place ≡ 0) (λ j. word self.entry.bytes.now place ≡ suc j) }
    {
        word_at(self.bytes, place).checked_sub(1)
    }

    // Tells whether the word k after the first two is below its limit.
    fn below_limit(self, k: usize) -> bool
        requires { k < 2 * self.header.n + 4 * self.header.m }
        ensures { let log = self.entry in result ≡ nat_lt (word log.bytes.now (4 + 2 * k)) (bound log.header.n log.header.m k) }
    {
        usize::from(word_at(self.bytes, 4 + 2 * k)) < self.header.limit(k)
    }

    // Tells whether the four words of the record j are below their limits.
    fn holds_record(self, j: u16) -> bool
        requires { j < self.header.m }
        ensures { let log = self.entry in IsTrue result → Below log.bytes.now log.header.n log.header.m (2 * log.header.n + 4 * j) (2 * log.header.n + 4 * j + 4) }
    {
        let Measured { bytes, header } = self;
        let place = header.record_place(j);
        word_at(bytes, place) < header.n
            && word_at(bytes, place + 2) < header.n
            && word_at(bytes, place + 4) <= j
            && word_at(bytes, place + 6) <= j
    }

    // How many records, from the first on, have all words below their limits.
    fn records_held(self) -> u16
        ensures few { result ≤ self.entry.header.m }
        ensures held { let log = self.entry in Below log.bytes.now log.header.n log.header.m (2 * log.header.n) (2 * log.header.n + 4 * result) }
    {
        for j in 0..self.header.m {
            if !self.holds_record(j) {
                return j;
            }
        }
        self.header.m
    }

    // The first word after the first two that is not below its limit. Records are passed whole, as long as they hold.
    fn first_outside(self) -> Option<usize>
        ensures { let log = self.entry in MatchOption result (Ranged log.bytes.now log.header.n log.header.m)
            (λ k. Outside log.bytes.now log.header.n log.header.m (4 + 2 * k)) }
    {
        let heads = 2 * usize::from(self.header.n);
        match (0..heads).find(|k| !self.below_limit(*k)) {
            Some(k) => Some(k),
            None => {
                let held = heads + 4 * usize::from(self.records_held());
                (held..self.header.words()).find(|k| !self.below_limit(*k))
            }
        }
    }

    // Finds the first word that is out of its range.
    fn ranges(self) -> Result<Bounded<'a>, Fault>
        ensures { let log = self.entry in MatchResult result (λ bounded. bounded.log ≡ log)
            (λ e. (numbered e ≡ 5) × Outside log.bytes.now log.header.n log.header.m (placed e)) }
    {
        match self.first_outside() {
            Some(k) => Err(Fault::WordRange { place: 4 + 2 * k }),
            None => Ok(Bounded { log: self }),
        }
    }
}

impl<'a> Bounded<'a> {
    // Follows the chain of a closure on one side, and counts its records.
    fn walk(self, side: Side, u: u16) -> Result<usize, Fault>
        requires { u < self.log.header.n }
        ensures few { IfOk result (λ count. count ≤ self.entry.log.header.m) }
        ensures follows { let log = self.entry.log in MatchResult result
            (λ count. (js : List ℕ) × (Chain log.bytes.now log.header.n side u (head_at side u) js × (length js ≡ count)))
            (λ e. (numbered e ≡ 6) × Strays log.bytes.now log.header.n side u (head_at side u) (placed e)) }
    {
        let Measured { bytes, header } = self.log;
        let mut place = side.head_place(u);
        let mut count = 0;
        while let Some(j) = self.log.link(place) {
            let end = header.end_place(side, j);
            if word_at(bytes, end) != u {
                return Err(Fault::ForeignLink { place });
            }
            place = header.next_place(side, j);
            count += 1;
        }
        Ok(count)
    }

    // Follows the chains of all closures on one side, and counts their records.
    fn chains(self, side: Side) -> Result<usize, Fault>
        ensures { let log = self.entry.log in MatchResult result (λ total. Chains log.bytes.now log.header.n side log.header.n total)
            (λ e. (numbered e ≡ 6) × Strayed log.bytes.now log.header.n side (placed e)) }
    {
        let mut total = 0;
        for u in 0..self.log.header.n {
            total += self.walk(side, u)?;
        }
        Ok(total)
    }
}

impl<'a> Tested<'a> {
    // Tests whether bytes are a log.
    pub(crate) fn judge(bytes: &'a [u8]) -> Result<Tested<'a>, Fault>
        ensures same { IfOk result (λ tested. tested.log.bytes.now ≡ bytes.now) }
        ensures judged { IfOk result (λ tested. Judged bytes.now tested.log.header.n tested.log.header.m) }
        ensures verdict { MatchResult result
            (λ tested. Accepted bytes.now tested.log.header.n (spans_at bytes.now tested.log.header.n tested.log.header.m))
            (λ e. Refused bytes.now (numbered e) (placed e)) }
    {
        let bounded = Measured::read_header(bytes)?.ranges()?;
        let leaving = bounded.chains(Side::Leaving)?;
        let arriving = bounded.chains(Side::Arriving)?;
        let log = bounded.log;
        let m = usize::from(log.header.m);
        if leaving != m || arriving != m {
            let place = log.header.record_place(0);
            return Err(Fault::LostRecord { place });
        }
        Ok(Tested { log })
    }
}
