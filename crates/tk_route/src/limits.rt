/// How many applications there are at most.
pub const MAX_APPLICATIONS: usize = 16;

/// How many bytes the name of an application has at most.
pub const MAX_NAME: usize = 32;

/// How many steps an application is given at most, be it at first or with an event.
pub const MAX_BUDGET: u64 = 10_000_000;
