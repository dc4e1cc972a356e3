//! What isn't as it has to be.

use crate::bench::Answer;
use crate::pane::Miss;

/// What isn't as it has to be in an entry.
#[derive(Clone, Copy, Debug, PartialEq, Eq)]
pub enum Found {
    /// Its gesture hits nothing.
    Missed(Miss),
    /// The look of this number, from 0 on, isn't told.
    Unseen(usize),
}

/// What isn't as it has to be, in which entry of the bench, from 0 on.
#[derive(Drop)]
pub struct Finding {
    pub entry: usize,
    pub found: Found,
    /// The section of the panel at that moment.
    pub section: Vec<u8>,
    /// What it answered then; nothing where nothing was asked.
    pub answer: Answer,
}
