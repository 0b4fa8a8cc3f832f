// A mark for each number that a closure can have.
ghost use Rattle.std.specs.Prelude.{◌≡◌, ℕ, false, slice_index_or, slice_set};

#[derive(Drop)]
pub struct Marks {
    set: [bool; 1024],
}

impl Marks {
    // No number is marked.
    pub(crate) fn none() -> Marks
        ensures { (u : ℕ) → slice_index_or result.set u false ≡ false }
    {
        Marks { set: [false; 1024] }
    }

    // Whether a number is marked.
    pub(crate) fn has(&self, u: u16) -> bool
        ensures { result ≡ slice_index_or self.now.set u false }
    {
        self.set.get(usize::from(u)).copied().unwrap_or(false)
    }

    // Sets or clears the mark of a number below 1,024.
    pub(crate) fn put(&mut self, c: u16, mark: bool)
        ensures { self.new.set ≡ slice_set self.old.set c mark }
    {
        if c < 1024 {
            self.set[usize::from(c)] = mark;
        }
    }
}
