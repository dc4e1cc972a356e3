ghost use Rattle.std.specs.Prelude.{◌≡◌};

use tcl_text::Text;

/// A timer or an idle script that waits.
#[derive(Drop)]
pub struct WaitingScript {
    /// Its number among those of its application: `after#N` to scripts.
    pub id: u64,
    /// The moment at which it is due, in milliseconds; none for an idle script.
    pub due: Option<u64>,
    /// What it runs.
    pub script: Text,
}

impl WaitingScript {
    ghost use Rattle.std.specs.Str.{bytes_eq};

    /// Whether these characters are its script.
    pub(crate) fn has_script(&self, characters: &str) -> bool
        ensures { result ≡ bytes_eq self.now.script characters.now }
    {
        self.script.as_str() == characters
    }
}
