// The two sides of a span: it leaves a closure, and it arrives at one.
ghost use Rattle.std.specs.Prelude.{◌≡◌};
ghost use Rattle.logs.specs.Opening.{head_at};
ghost use Rattle.logs.specs.Sides.{column, other};

#[derive(Clone, Copy)]
pub enum Side {
    Leaving,
    Arriving,
}

impl Side {
    // The word of this side among two.
    pub(crate) fn column(self) -> usize
        ensures { result ≡ column self }
    {
        match self {
            Side::Leaving => 0,
            Side::Arriving => 1,
        }
    }

    pub(crate) fn other(self) -> Side
        ensures { result ≡ other self }
    {
        match self {
            Side::Leaving => Side::Arriving,
            Side::Arriving => Side::Leaving,
        }
    }

    // The place of the head of a closure.
    pub(crate) fn head_place(self, u: u16) -> usize
        ensures { result ≡ head_at self u }
    {
        4 + 4 * usize::from(u) + 2 * self.column()
    }
}
