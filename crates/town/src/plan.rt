// The splice plan of a small town, the sample of this repository.
use logs::span::Span;

// Closure 0 is the head end, 1 to 8 the main ring, 9 to 31 the branches, 32 a standby feed.
pub(crate) const CLOSURES: u16 = 33;

pub(crate) fn spans() -> [Span; 47] {
    [
        // the head end feeds the ring at two closures, and hears from one
        Span::new(0, 1),
        Span::new(0, 5),
        Span::new(1, 0),
        // the ring, clockwise
        Span::new(1, 2),
        Span::new(2, 3),
        Span::new(3, 4),
        Span::new(4, 5),
        Span::new(5, 6),
        Span::new(6, 7),
        Span::new(7, 8),
        Span::new(8, 1),
        // its spare fibre back from the school to the north
        Span::new(4, 3),
        Span::new(3, 2),
        // north street
        Span::new(2, 9),
        Span::new(9, 10),
        Span::new(10, 11),
        Span::new(10, 12),
        // market
        Span::new(3, 13),
        Span::new(13, 14),
        Span::new(14, 15),
        Span::new(15, 16),
        Span::new(16, 13),
        // school, lit both ways
        Span::new(4, 17),
        Span::new(17, 18),
        Span::new(18, 17),
        Span::new(17, 4),
        // mill lane, with a doubled first span
        Span::new(6, 19),
        Span::new(6, 19),
        Span::new(19, 20),
        Span::new(20, 21),
        Span::new(21, 22),
        Span::new(22, 23),
        // quay
        Span::new(7, 24),
        Span::new(24, 25),
        Span::new(25, 26),
        Span::new(24, 27),
        Span::new(27, 7),
        // hill, a ring of its own
        Span::new(8, 28),
        Span::new(28, 29),
        Span::new(29, 30),
        Span::new(30, 31),
        Span::new(31, 28),
        // the standby feed: nothing arrives there but its own test loop
        Span::new(32, 5),
        Span::new(32, 32),
        Span::new(32, 28),
        // two short cuts
        Span::new(9, 13),
        Span::new(5, 4),
    ]
}
