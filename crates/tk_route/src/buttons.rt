ghost use Rattle.std.specs.Prelude.{◌≡◌};

/// The buttons of the pointer: each is held or free.
#[derive(Clone, Copy, Debug, PartialEq, Eq)]
pub struct Buttons {
    pub first: bool,
    pub second: bool,
    pub third: bool,
    pub fourth: bool,
    pub fifth: bool,
}

impl Buttons {
    ghost use Rattle.tk_route.specs.Buttons.{has, is_any_held, with_pressed, with_released};

    /// Whether this button, from 1 to 5, is held.
    pub fn has(self, button: u32) -> bool
        ensures { result ≡ has button self }
    {
        match button {
            1 => self.first,
            2 => self.second,
            3 => self.third,
            4 => self.fourth,
            5 => self.fifth,
            _ => false,
        }
    }

    /// Whether some button is held.
    pub fn is_any_held(self) -> bool
        ensures { result ≡ is_any_held self }
    {
        self.first || self.second || self.third || self.fourth || self.fifth
    }

    /// The same with one button held.
    pub fn with_pressed(self, button: u32) -> Buttons
        ensures { result ≡ with_pressed button self }
    {
        Buttons {
            first: self.first || button == 1,
            second: self.second || button == 2,
            third: self.third || button == 3,
            fourth: self.fourth || button == 4,
            fifth: self.fifth || button == 5,
        }
    }

    /// The same with one button free.
    pub fn with_released(self, button: u32) -> Buttons
        ensures { result ≡ with_released button self }
    {
        Buttons {
            first: self.first && button != 1,
            second: self.second && button != 2,
            third: self.third && button != 3,
            fourth: self.fourth && button != 4,
            fifth: self.fifth && button != 5,
        }
    }
}
