ghost use Rattle.std.specs.Prelude.{◌≡◌};
ghost use Rattle.tk_sequences.specs.Types.{type_name, type_named, type_number, is_key_type, is_button_type};

/// The types of events that patterns name (bind(n), EVENT TYPES).
#[derive(Clone, Copy, Debug, PartialEq, Eq, Hash)]
pub enum EventType {
    Key,
    KeyRelease,
    Button,
    ButtonRelease,
    Motion,
    Enter,
    Leave,
    FocusIn,
    FocusOut,
    Configure,
    Map,
    Unmap,
    Destroy,
}

impl EventType {
    /// The name that stands in canonical sequences.
    pub fn name(self) -> &'static str
        ensures { result.now ≡ type_name self }
    {
        match self {
            EventType::Key => "Key",
            EventType::KeyRelease => "KeyRelease",
            EventType::Button => "Button",
            EventType::ButtonRelease => "ButtonRelease",
            EventType::Motion => "Motion",
            EventType::Enter => "Enter",
            EventType::Leave => "Leave",
            EventType::FocusIn => "FocusIn",
            EventType::FocusOut => "FocusOut",
            EventType::Configure => "Configure",
            EventType::Map => "Map",
            EventType::Unmap => "Unmap",
            EventType::Destroy => "Destroy",
        }
    }

    /// The type that a word names, if it names one: `KeyPress` and `ButtonPress` are names too.
    pub fn named(word: &str) -> Option<EventType>
        ensures { result ≡ type_named word.now }
    {
        match word {
            "Key" | "KeyPress" => Some(EventType::Key),
            "KeyRelease" => Some(EventType::KeyRelease),
            "Button" | "ButtonPress" => Some(EventType::Button),
            "ButtonRelease" => Some(EventType::ButtonRelease),
            "Motion" => Some(EventType::Motion),
            "Enter" => Some(EventType::Enter),
            "Leave" => Some(EventType::Leave),
            "FocusIn" => Some(EventType::FocusIn),
            "FocusOut" => Some(EventType::FocusOut),
            "Configure" => Some(EventType::Configure),
            "Map" => Some(EventType::Map),
            "Unmap" => Some(EventType::Unmap),
            "Destroy" => Some(EventType::Destroy),
            _ => None,
        }
    }

    /// The number of the type, as `%T` tells it.
    pub fn number(self) -> u32
        ensures { result ≡ type_number self }
    {
        match self {
            EventType::Key => 2,
            EventType::KeyRelease => 3,
            EventType::Button => 4,
            EventType::ButtonRelease => 5,
            EventType::Motion => 6,
            EventType::Enter => 7,
            EventType::Leave => 8,
            EventType::FocusIn => 9,
            EventType::FocusOut => 10,
            EventType::Configure => 22,
            EventType::Map => 19,
            EventType::Unmap => 18,
            EventType::Destroy => 17,
        }
    }

    /// Whether a key is its detail.
    pub fn is_key(self) -> bool
        ensures { result ≡ is_key_type self }
    {
        matches!(self, EventType::Key | EventType::KeyRelease)
    }

    /// Whether a button is its detail.
    pub fn is_button(self) -> bool
        ensures { result ≡ is_button_type self }
    {
        matches!(self, EventType::Button | EventType::ButtonRelease)
    }
}
