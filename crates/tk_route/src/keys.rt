ghost use Rattle.std.specs.Prelude.{◌≡◌, ◌≤◌};
ghost use Rattle.tk_route.specs.Values.{bit, state_of};

use crate::buttons::Buttons;
use tk_base::Keysym;

/// The keys that count in the state of an event: which of them are down, and whether capitals are locked.
#[derive(Clone, Copy, Debug, PartialEq, Eq)]
pub struct ModifierKeys {
    pub shift_left: bool,
    pub shift_right: bool,
    pub control_left: bool,
    pub control_right: bool,
    pub alt_left: bool,
    pub alt_right: bool,
    pub lock: bool,
}

impl ModifierKeys {
    ghost use Rattle.tk_route.specs.Changes.{with_key_down, with_key_up};

    /// The same with a key down. `Caps_Lock` locks capitals or frees them.
    pub fn with_key_down(self, key: Keysym) -> ModifierKeys
        ensures { result ≡ with_key_down key self }
    {
        ModifierKeys {
            shift_left: self.shift_left || key == Keysym::SHIFT_L,
            shift_right: self.shift_right || key == Keysym::SHIFT_R,
            control_left: self.control_left || key == Keysym::CONTROL_L,
            control_right: self.control_right || key == Keysym::CONTROL_R,
            alt_left: self.alt_left || key == Keysym::ALT_L,
            alt_right: self.alt_right || key == Keysym::ALT_R,
            lock: if key == Keysym::CAPS_LOCK {
                !self.lock
            } else {
                self.lock
            },
        }
    }

    /// The same with a key up.
    pub fn with_key_up(self, key: Keysym) -> ModifierKeys
        ensures { result ≡ with_key_up key self }
    {
        ModifierKeys {
            shift_left: self.shift_left && key != Keysym::SHIFT_L,
            shift_right: self.shift_right && key != Keysym::SHIFT_R,
            control_left: self.control_left && key != Keysym::CONTROL_L,
            control_right: self.control_right && key != Keysym::CONTROL_R,
            alt_left: self.alt_left && key != Keysym::ALT_L,
            alt_right: self.alt_right && key != Keysym::ALT_R,
            lock: self.lock,
        }
    }
}

/// One bit of a state.
fn bit(is_set: bool, value: u16) -> u16
    ensures value { result ≡ bit is_set value }
    ensures bound { result ≤ value }
{
    if is_set { value } else { 0 }
}

/// The state of events, as `%s` of bind(n) tells it.
pub(crate) fn state_of(keys: ModifierKeys, buttons: Buttons) -> u16
    ensures { result ≡ state_of keys buttons }
{
    bit(keys.shift_left || keys.shift_right, 1)
        + bit(keys.lock, 2)
        + bit(keys.control_left || keys.control_right, 4)
        + bit(keys.alt_left || keys.alt_right, 8)
        + bit(buttons.first, 256)
        + bit(buttons.second, 512)
        + bit(buttons.third, 1024)
        + bit(buttons.fourth, 2048)
        + bit(buttons.fifth, 4096)
}
