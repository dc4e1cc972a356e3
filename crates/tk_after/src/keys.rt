//! By what the entries of all applications are put in order.

/// A timer's place among those of all applications: by the moment at which it is due, then the application, then the number.
#[derive(Clone, Copy, PartialEq, Eq, PartialOrd, Ord)]
pub struct DueKey {
    pub due: u64,
    pub owner: usize,
    pub id: u64,
}

/// An entry's place among those of all applications: by the application, then the number.
#[derive(Clone, Copy, PartialEq, Eq, PartialOrd, Ord)]
pub struct Name {
    pub owner: usize,
    pub id: u64,
}
