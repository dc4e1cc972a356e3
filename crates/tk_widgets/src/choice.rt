ghost use Rattle.std.specs.Prelude.{◌≡◌};
ghost use Rattle.tk_widgets.specs.Listboxes.{choice};

/// How the selection is changed. Places count from 0.
#[derive(Clone, Copy, Debug, PartialEq, Eq)]
pub enum Choice {
    /// The items from a place on and before another are selected too.
    Set { from: usize, to: usize },
    /// These are no longer.
    Clear { from: usize, to: usize },
    /// The item at a place alone is selected.
    Alone { place: usize },
    /// The item at a place is selected if it wasn't, and no longer if it was.
    Toggle { place: usize },
}

impl Choice {
    /// Whether the item at a place is selected then, where it was or wasn't.
    pub fn after(self, place: usize, selected: bool) -> bool
        ensures { result ≡ choice self place selected }
    {
        match self {
            Choice::Set { from, to } => (from <= place && place < to) || selected,
            Choice::Clear { from, to } => !(from <= place && place < to) && selected,
            Choice::Alone { place: only } => place == only,
            Choice::Toggle { place: only } => { if place == only { !selected } else { selected } }
        }
    }
}
