// A span (an arc) leads one way from a closure to a closure.
ghost use Rattle.std.specs.Prelude.{◌≡◌};

#[derive(Clone, Copy, Default, PartialEq, Eq, Debug)]
pub struct Span {
    pub from: u16,
    pub to: u16,
}

impl Span {
    // The span that leads from the first of two closures to the second.
    pub const fn new(from: u16, to: u16) -> Span
        ensures { result ≡ record { from = from; to = to } }
    {
        Span { from, to }
    }
}
