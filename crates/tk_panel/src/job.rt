use crate::{Numbers, Scripts};

/// What is left to do of what runs one script after another.
#[derive(Drop)]
pub struct Job {
    /// The scripts of the event under way that are still to run; none where a timer, an idle script or the application's own runs.
    pub event: Option<Scripts>,
    pub rest: Rest,
}

/// What is to be done behind the scripts of an event.
#[derive(Drop)]
pub enum Rest {
    /// Nothing, as by `event generate` (event(n)).
    Ends,
    /// Windows are destroyed (destroy(n)).
    Destroys {
        /// The window whose Destroy event is under way. It is removed then.
        window: Option<u64>,
        /// Windows that are being destroyed, too, in the order in which they are taken.
        doomed: Numbers,
        /// Paths that are looked up behind them.
        paths: Scripts,
    },
    /// Idle scripts run, by their numbers, and what comes at a moment.
    Rounds {
        round: Numbers,
        home: Home,
    },
}

/// What comes behind a round of idle scripts.
#[derive(Clone, Copy, Debug, PartialEq, Eq)]
pub enum Home {
    /// What is to be done at the moment, unless the application's main window is gone.
    Settle,
    /// What is to be done at the moment, for `update` (update(n)).
    Update,
    /// Layout, a round of idle scripts and layout, for `update idletasks` (update(n)).
    IdleTasks,
    /// Layout, and nothing more.
    LastLayout,
}
