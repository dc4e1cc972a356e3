//! Steps of keys in a listbox (listbox(n)).
ghost use Rattle.std.specs.Prelude.{◌≡◌};
ghost use Rattle.tk_widgets.specs.ListboxKeys as spec;

/// A step from the active item.
#[derive(Clone, Copy, Debug, PartialEq, Eq)]
pub enum RowStep {
    Up,
    Down,
}

impl RowStep {
    /// The step that a word is: `-1`, up, or `1`, down. It takes no memory.
    #[tactic(auto, unfolding(crate::specs::ListboxKeys::step_named))]
    pub fn named(word: &str) -> Option<RowStep>
        ensures { result ≡ spec.step_named word.now }
    {
        match word {
            "-1" => Some(RowStep::Up),
            "1" => Some(RowStep::Down),
            _ => None,
        }
    }
}
