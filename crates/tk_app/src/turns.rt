ghost use Rattle.std.specs.Prelude.{◌≡◌};
ghost use Rattle.tk_app.specs.Stages.{earlier as earlier_of};

/// A slice that was run: the slot of the part that it was of, and how many steps it took, at least 1.
#[derive(Clone, Copy, Debug, PartialEq, Eq)]
pub struct Turn {
    pub slot: usize,
    pub steps: u64,
}

/// The earlier of two moments, in milliseconds; `None` is no moment.
pub fn earlier(a: Option<u64>, b: Option<u64>) -> Option<u64>
    ensures { result ≡ earlier_of a b }
{
    match (a, b) {
        (None, _) => b,
        (Some(_), None) => a,
        (Some(x), Some(y)) => Some(x.min(y)),
    }
}
