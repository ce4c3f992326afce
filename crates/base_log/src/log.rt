//! A history that contracts alone read.
ghost use Rattle.std.specs.Prelude.{◌≡◌, ℕ, List, [], ◌∷◌, ◌++◌};
ghost use Rattle.std.specs.Borrow.{ftrue};

use std::marker::Model;

/// What was noted so far, in order. It takes no memory, and its methods do nothing at run time.
#[derive(Drop)]
pub struct Log {
    pub ghost items: { List ℕ },
}

impl Model for Log {
    ghost also_owns = { λ _. ftrue };
}

// It owns nothing.
unsafe impl Send for Log {}

impl Log {
    /// Nothing was noted yet.
    pub fn new() -> Log
        ensures { result.items ≡ [] }
    {
        Log {}
    }

    /// Notes a number behind what was noted before.
    #[inline(always)]
    pub fn note_number(&mut self, _number: u64)
        ensures { self.new.items ≡ self.old.items ++ _number ∷ [] }
    {}

    /// Notes bytes behind those that were noted before.
    #[inline(always)]
    pub fn note(&mut self, _bytes: &[u8])
        ensures { self.new.items ≡ self.old.items ++ _bytes.now }
    {}
}
