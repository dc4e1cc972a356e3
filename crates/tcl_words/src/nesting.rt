use crate::kind::{BytePlace, Mode, Opener};
use crate::open::Open;

/// Where and how the reading of a script or an index begins: at a place of the whole source, and past so many
/// bytes of what follows there.
#[derive(Clone, Copy, Drop)]
pub struct Origin {
    pub base: usize,
    /// Whether a bracket or a parenthesis ends it.
    pub inside: bool,
    /// How many brackets and indices may be opened in it, one within the other.
    pub room: usize,
    pub skip: usize,
    pub place: BytePlace,
}

/// A script or an index that waits for what was opened in it, at a place counted from its base.
#[derive(Drop)]
pub struct Waiting {
    pub origin: Origin,
    pub parts: Open,
    pub at: usize,
    pub opener: Opener,
    pub mode: Mode,
}

/// The script or index that is being read, the place of it from where reading goes on, and those that wait for it.
#[derive(Drop)]
pub struct Reader {
    /// How the outermost of them began.
    pub first: Origin,
    pub waiting: Vec<Waiting>,
    pub origin: Origin,
    pub parts: Open,
    pub place: BytePlace,
    pub next: usize,
}
