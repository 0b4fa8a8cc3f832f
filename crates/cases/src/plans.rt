// Plans that several tests use.
use logs::log::Log;
use logs::span::Span;
use logs::write::write_and_open;
use std::process::Abort;
use visits::figures::Figures;

// The log with 2 closures and the span 0→1.
pub(crate) const ONE_SPAN: &[u8] = b"\x02\0\x01\0\x01\0\0\0\0\0\x01\0\0\0\x01\0\0\0\0\0";

// The plan 0→1→2→0 and 2→3.
pub(crate) fn ring(rt: &impl Abort) -> Log {
    let mut log = Log::new();
    let spans = [
        Span::new(0, 1),
        Span::new(1, 2),
        Span::new(2, 0),
        Span::new(2, 3),
    ];
    assert_eq!(rt; write_and_open(&mut log, 4, &spans, &mut [0; 64]), Ok(52));
    log
}

// The depths of the first four closures, out-depths first.
pub(crate) fn four_depths(figures: &Figures) -> ([u16; 4], [u16; 4]) {
    let [a, b, c, d, ..] = figures.depths;
    (
        [a.out, b.out, c.out, d.out],
        [a.into, b.into, c.into, d.into],
    )
}
