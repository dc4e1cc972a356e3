use tk_base::Keysym;

/// Which key or which button an event or a pattern is about (bind(n), EVENT DETAILS).
#[derive(Clone, Copy, Debug, PartialEq, Eq, Hash)]
pub enum Detail {
    Key(Keysym),
    /// A mouse button, from 1 to 5.
    Button(u8),
}
