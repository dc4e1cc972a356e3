ghost use Rattle.std.specs.Prelude.{◌≡◌, [], ◌∷◌, MatchOption, slice_get};

use std::alloc::Global;
use std::marker::Model;

/// Numbers that are taken one after another.
#[derive(Drop)]
pub struct Numbers {
    numbers: Vec<u64>,
    taken: usize,
}

impl Model for Numbers {
    ghost use Rattle.std.specs.Prelude.{ℕ, List, drop};

    ghost Value = { List ℕ };

    ghost view = { λ n. drop n.taken n.numbers.items };
}

impl Numbers {
    /// None. It takes no memory.
    pub fn none(alloc: Global) -> Numbers
        ensures { result ≡ [] }
    {
        Numbers {
            numbers: Vec::new(alloc),
            taken: 0,
        }
    }

    /// These.
    pub fn of(numbers: Vec<u64>) -> Numbers
        ensures { result ≡ numbers.items }
    {
        Numbers { numbers, taken: 0 }
    }

    /// Takes the next of them; none where none is left. It takes no memory.
    pub fn take_next(&mut self) -> Option<u64>
        ensures { MatchOption result ((self.old ≡ []) × (self.new ≡ [])) (λ number. self.old ≡ number ∷ self.new) }
    {
        let number = *self.numbers.get(self.taken)?;
        self.taken += 1;
        Some(number)
    }

    /// The next of them, which stays; none where none is left. It takes no memory.
    pub fn next(&self) -> Option<u64>
        ensures { result ≡ slice_get self.now 0 }
    {
        self.numbers.get(self.taken).copied()
    }
}
