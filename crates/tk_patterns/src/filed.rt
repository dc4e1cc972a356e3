/// The numbers that a binding is filed under.
#[derive(Clone, Copy, Debug, PartialEq, Eq)]
pub struct Numbers {
    /// That of its tag and its sequence's class.
    pub class: u64,
    /// That of its tag and its whole sequence.
    pub whole: u64,
}

/// What stands at a place of the list.
#[derive(Clone, Copy, Debug, PartialEq, Eq)]
pub struct Filed {
    /// It rises from place to place, and stays when other places go.
    pub stamp: u64,
    /// The numbers that are filed there.
    pub numbers: Numbers,
}
