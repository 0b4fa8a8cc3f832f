// A log written from start to seal.
ghost use Rattle.std.specs.Prelude.{◌≡◌, ℕ, List, reverse, MatchResult};
ghost use Rattle.logs.specs.History.{encode};
ghost use Rattle.logs.specs.Logs.{LogOf, Reads, closures, history};
ghost use Rattle.logs.specs.Writing.{Rewritten, Written};

use super::draft::{Draft, fits};
use super::span::Span;
use super::stored::Log;
use books::fault::Fault;

// Writes a log of n closures with the spans, the oldest first, and gives its length.
pub fn write_log(n: u16, spans: &[Span], buffer: &mut [u8]) -> Result<usize, Fault>
    ensures { Written n spans.now buffer.old result buffer.new }
{
    fits(n, buffer)?;
    let mut draft = Draft::start(n, buffer);
    for span in spans {
        draft.add(*span)?;
    }
    Ok(draft.seal())
}

// Writes an opened log afresh, and gives its length.
pub fn rewrite(log: &Log, buffer: &mut [u8]) -> Result<usize, Fault>
    ensures writes { Written (closures log.now) (reverse (history log.now)) buffer.old result buffer.new }
    ensures log { LogOf (encode (closures log.now) (history log.now)) log.now }
    ensures round { (bytes : List ℕ) → LogOf bytes log.now → Rewritten bytes log.now buffer.old result buffer.new }
{
    write_log(log.out.n(), log.spans.as_slice(), buffer)
}

// Writes a log and opens it, and gives its length.
pub fn write_and_open(
    log: &mut Log,
    n: u16,
    spans: &[Span],
    buffer: &mut [u8],
) -> Result<usize, Fault>
    ensures writes { Written n spans.now buffer.old result buffer.new }
    ensures log { MatchResult result (λ _. Reads log.new n (reverse spans.now)) (λ _. log.new ≡ log.old) }
{
    let len = write_log(n, spans, buffer)?;
    log.open(&buffer[0..len])?;
    Ok(len)
}
