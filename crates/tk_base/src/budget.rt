//! Budgets of steps.

/// How many steps the scripts of an application may take.
#[derive(Clone, Copy, Debug, PartialEq, Eq)]
pub struct Budget {
    /// How many it has at first, and at most at any time.
    pub total: u64,
    /// How many each event that is routed to it grants; 0 in a session of format 1.
    pub refill: u64,
}
