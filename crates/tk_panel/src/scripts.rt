ghost use Rattle.std.specs.Prelude.{◌≡◌, [], ◌∷◌, MatchOption, slice_get};
ghost use Rattle.std.specs.Option.{option_copied};

use std::alloc::Global;
use std::collections::VecDeque;
use std::marker::Model;
use tcl_text::Text;

/// Texts that are taken one after another: scripts, or paths.
#[derive(Drop)]
pub struct Scripts {
    texts: VecDeque<Text>,
}

impl Model for Scripts {
    ghost use Rattle.std.specs.Prelude.{ℕ, List};

    ghost Value = { List (List ℕ) };

    ghost view = { λ s. s.texts.items };
}

impl Scripts {
    /// None. It takes no memory.
    pub fn none(alloc: Global) -> Scripts
        ensures { result ≡ [] }
    {
        Scripts {
            texts: VecDeque::new(alloc),
        }
    }

    /// These. It takes no memory.
    pub fn of(texts: Vec<Text>) -> Scripts
        ensures { result ≡ texts.items }
    {
        Scripts {
            texts: VecDeque::from(texts),
        }
    }

    /// Takes the next of them; none where none is left. It takes no memory.
    pub fn take_next(&mut self) -> Option<Text>
        ensures { MatchOption result ((self.old ≡ []) × (self.new ≡ [])) (λ text. self.old ≡ text ∷ self.new) }
    {
        self.texts.pop_front()
    }

    /// The next of them, which stays; none where none is left. It takes no memory.
    pub fn next(&self) -> Option<&Text>
        ensures { option_copied result ≡ slice_get self.now 0 }
    {
        self.texts.front()
    }
}
