ghost use Rattle.std.specs.Prelude.{◌≡◌};
ghost use Rattle.tk_app.specs.Section.{state_name};

/// What has become of an application.
#[derive(Clone, Copy, Debug, PartialEq, Eq)]
pub enum AppState {
    /// It does whatever comes.
    Running,
    /// It needed a step when none was left, and does nothing more.
    Exhausted,
    /// Its main window is gone, and it does nothing more.
    Closed,
}

impl AppState {
    /// The word that a section has for it.
    pub fn as_str(self) -> &'static str
        ensures { result.now ≡ state_name self }
    {
        match self {
            AppState::Running => "running",
            AppState::Exhausted => "exhausted",
            AppState::Closed => "closed",
        }
    }
}

/// How a turn ended.
#[derive(Clone, Copy, Debug, PartialEq, Eq)]
pub enum AppEnd {
    /// All that was to be done at the moment is done.
    Settled,
    /// The turn's steps are taken, and there is more to do.
    More,
    /// The application no longer runs.
    Stopped,
}
