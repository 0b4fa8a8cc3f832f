// A draft writes a log into the caller's buffer, span by span.
ghost use Rattle.std.specs.Prelude.{◌≡◌, ◌+◌, ◌<◌, [], ◌∷◌, length, None, ◌≢◌};
ghost use Rattle.books.specs.Faults.{told};
ghost use Rattle.logs.specs.Drafts.{Added, DraftOf, Grows, Seals, Void, fitting, refuses, sealed, sealed_length};
ghost use Rattle.logs.specs.Words.{spread, word};

use super::header::Header;
use super::side::Side;
use super::span::Span;
use super::words::{put_word, word_at};
use books::fault::Fault;

// A log of n closures and the m records so far, at the front of the buffer; its first two words are yet to be written.
#[derive(Drop)]
pub struct Draft<'a> {
    buffer: &'a mut [u8],
    header: Header,
}

// Tells whether a draft of n closures can start in the buffer.
pub fn fits(n: u16, buffer: &[u8]) -> Result<(), Fault>
    ensures { told result ≡ fitting n (length buffer.now) }
{
    let empty = Header::new(n, 0)?;
    if buffer.len() < empty.log_size() {
        return Err(Fault::NoRoom);
    }
    Ok(())
}

// Writes the four words of a record.
fn write_record(part: &mut [u8], span: Span, out: u16, into: u16)
    requires { length part.old ≡ 8 }
    ensures { part.new ≡ spread (span.from ∷ span.to ∷ out ∷ into ∷ []) }
{
    put_word(part, 0, span.from);
    put_word(part, 2, span.to);
    put_word(part, 4, out);
    put_word(part, 6, into);
}

impl<'a> Draft<'a> {
    // Starts a draft of n closures. Where `fits` refuses, the draft has no closures and writes nothing.
    pub fn start(n: u16, buffer: &'a mut [u8]) -> Draft<'a>
        ensures named { result.buffer.ghost_name ≡ buffer.entry.ghost_name }
        ensures starts { fitting n (length buffer.old) ≡ None → (result.header.n ≡ n) × DraftOf buffer.old [] result }
        ensures refused { (fitting n (length buffer.old) ≢ None) → Void buffer.old result }
    {
        if fits(n, buffer).is_err() {
            return Draft {
                buffer,
                header: Header { n: 0, m: 0 },
            };
        }
        let header = Header { n, m: 0 };
        buffer[0..header.log_size()].fill(0);
        Draft { buffer, header }
    }

    // The word at a place of the buffer.
    fn word(&self, place: usize) -> u16
        requires { place + 1 < length self.now.buffer.now }
        ensures { result ≡ word self.now.buffer.now place }
    {
        word_at(self.buffer, place)
    }

    // Adds a span as the next record, at the head of both its chains.
    pub fn add(&mut self, span: Span) -> Result<(), Fault>
        ensures named { self.new.buffer.ghost_name ≡ self.old.buffer.ghost_name }
        ensures answer { told result ≡ refuses self.old.header.n self.old.header.m (length self.old.buffer.now) span }
        ensures size { self.new.header.n ≡ self.old.header.n }
        ensures kept { (told result ≢ None) → self.new ≡ self.old }
        ensures adds { told result ≡ None → Added span self.old self.new }
        ensures grows { told result ≡ None → Grows span self.old self.new }
    {
        let Header { n, m } = self.header;
        if span.from >= n || span.to >= n {
            return Err(Fault::NoClosure);
        }
        let end = self.header.log_size();
        if m >= 4096 || self.buffer.len() < end + 8 {
            return Err(Fault::NoRoom);
        }
        let leaving = Side::Leaving.head_place(span.from);
        let arriving = Side::Arriving.head_place(span.to);
        let out = self.word(leaving);
        let into = self.word(arriving);
        write_record(&mut self.buffer[end..end + 8], span, out, into);
        let number = m + 1;
        put_word(self.buffer, leaving, number);
        put_word(self.buffer, arriving, number);
        self.header.m = number;
        Ok(())
    }

    // Writes the first two words, and gives the length of the log.
    pub fn seal(self) -> usize
        ensures gives { result ≡ sealed_length self.entry.header.n self.entry.header.m self.entry.buffer.now }
        ensures leaves { self.exit.0.now ≡ sealed self.entry.header.n self.entry.header.m self.entry.buffer.now }
        ensures seals { Seals self.entry result self.exit.0.now }
    {
        let Draft { buffer, header } = self;
        if header.n == 0 || buffer.len() < 4 {
            return 0;
        }
        put_word(buffer, 0, header.n);
        put_word(buffer, 2, header.m);
        header.log_size()
    }
}
