ghost use Rattle.std.specs.Prelude.{◌≡◌, ◌≤◌};
ghost use Rattle.tk_base.specs.Limits.{last_moment};

use std::marker::Model;

/// The moment that all applications are at, in milliseconds.
#[derive(Drop)]
pub struct Clock {
    moment: u64,
}

impl Model for Clock {
    ghost use Rattle.std.specs.Prelude.{ℕ, ◌≤◌};
    ghost use Rattle.tk_base.specs.Limits.{last_moment};

    ghost Value = { ℕ };

    ghost view = { λ c. c.moment };

    ghost invariant = { λ c. c.moment ≤ last_moment };
}

impl Clock {
    /// At moment 0.
    pub fn new() -> Clock
        ensures { result ≡ 0 }
    {
        Clock { moment: 0 }
    }

    /// The moment, which is no later than the last one.
    pub fn moment(&self) -> u64
        ensures moment { result ≡ self.now }
        ensures in_time { result ≤ last_moment }
    {
        self.moment
    }

    /// Goes on to a moment.
    pub fn set(&mut self, moment: u64)
        requires { moment ≤ last_moment }
        ensures { self.new ≡ moment }
    {
        self.moment = moment;
    }
}
