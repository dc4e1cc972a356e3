use crate::Keysym;

/// What a line of a session is to an application that it concerns.
#[derive(Clone, Copy, Debug, PartialEq, Eq)]
pub struct LocalEvent {
    /// The line's moment, in milliseconds.
    pub moment: u64,
    /// The modifiers and buttons that were held before the line, as `%s` of bind(n) tells them: Shift 1, Lock 2, Control 4, Mod1 8, and
    /// Button1 256 to Button5 4096.
    pub state: u16,
    pub kind: LocalKind,
}

/// The kinds of these events. Points are in pixels from the upper left corner of the application's rectangle, and may lie outside it.
#[derive(Clone, Copy, Debug, PartialEq, Eq)]
pub enum LocalKind {
    /// The pointer is here.
    Position { x: i32, y: i32 },
    /// A button, from 1 to 5, is pressed, with the pointer here.
    Press { button: u32, x: i32, y: i32 },
    /// A button, from 1 to 5, is released, with the pointer here.
    Release { button: u32, x: i32, y: i32 },
    Keydown(Keysym),
    Keyup(Keysym),
    /// The application has the keys from now on.
    FocusIn,
    /// The application has the keys no longer.
    FocusOut,
    /// The application's rectangle has this size, in pixels.
    Size { width: u32, height: u32 },
}
