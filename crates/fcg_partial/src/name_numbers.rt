//! The numbers of names, in the order of the names.
ghost use Rattle.std.specs.Prelude.{◌≡◌, ℕ, List, ◌∷◌, drop};

use std::marker::Model;

// Numbers that are still to be taken.
#[derive(Drop)]
pub(crate) struct NameNumbers<'a> {
    rest: &'a [u32],
}

impl<'a> Model for NameNumbers<'a> {
    ghost use Rattle.std.specs.Prelude.{ℕ, List};

    ghost Value = { List ℕ };

    ghost view = { λ n. n.rest.now };
}

impl<'a> NameNumbers<'a> {
    pub(crate) fn new(numbers: &'a [u32]) -> NameNumbers<'a>
        ensures { result ≡ numbers.now }
    {
        NameNumbers { rest: numbers }
    }

    // Takes the next number; where there is none, it is 0.
    pub(crate) fn next(&mut self) -> u32
        ensures { (n : ℕ) (more : List ℕ) → self.old ≡ n ∷ more → (result ≡ n) × (self.new ≡ more) }
    {
        match self.rest.split_first() {
            Some((first, rest)) => {
                self.rest = rest;
                *first
            }
            None => 0,
        }
    }

    // Passes so many over.
    pub(crate) fn skip(&mut self, count: usize)
        ensures { self.new ≡ drop count self.old }
    {
        let (_, rest) = self.rest.split_at(count.min(self.rest.len()));
        self.rest = rest;
    }
}
