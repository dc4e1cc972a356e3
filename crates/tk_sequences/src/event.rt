use crate::event_type::EventType;
use crate::virtual_name::VirtualName;
use std::alloc::AllocError;
use tcl_text::Text;
use tk_base::Keysym;

/// What happens.
#[derive(Drop)]
pub enum EventKind {
    /// An event of the keyboard, of the pointer or of a window.
    Physical(EventType),
    /// A virtual event (event(n)).
    Virtual(VirtualName),
}

/// An event of a window. The fields behind `moment` are what bind(n) lets a script substitute; one that an event lacks is none.
pub struct Event {
    pub kind: EventKind,
    /// The window's number in its application.
    pub number: u64,
    /// The window's path name when the event came, `%W`.
    pub path: Text,
    /// In milliseconds, `%t`.
    pub moment: u64,
    /// The modifiers and buttons that were held before the event, `%s`: Shift 1, Lock 2, Control 4, Mod1 8 to Mod5 128, Button1 256 to
    /// Button5 4096.
    pub state: Option<u16>,
    /// Where it happened, in pixels from the window's upper left corner, `%x` and `%y`; of a Configure event the window's place in its parent.
    pub x: Option<i32>,
    pub y: Option<i32>,
    /// The same from the upper left corner of the application's rectangle, `%X` and `%Y`. They may lie past 32 bits, since a generated event
    /// has any `x` and `y` of 32 bits.
    pub root_x: Option<i64>,
    pub root_y: Option<i64>,
    /// The button, from 1 to 5, `%b`.
    pub button: Option<u8>,
    /// The key, `%K`.
    pub key: Option<Keysym>,
    /// The window's new size in pixels, `%w` and `%h`.
    pub width: Option<u32>,
    pub height: Option<u32>,
    /// The detail of a crossing event, as `NotifyAncestor`, or the data of a generated event, `%d`.
    pub detail: Option<Text>,
}

impl EventKind {
    ghost use Rattle.std.specs.Prelude.{◌≡◌, IfOk};
    ghost use Rattle.tk_sequences.specs.Event.{is_input};

    /// Whether a key or a button is pressed or released: only such events enter a history.
    pub fn is_input(&self) -> bool
        ensures { result ≡ is_input self.now }
    {
        match self {
            EventKind::Physical(kind) => matches!(
                kind,
                EventType::Key
                    | EventType::KeyRelease
                    | EventType::Button
                    | EventType::ButtonRelease
            ),
            EventKind::Virtual(_) => false,
        }
    }

    /// The same kind.
    pub fn copy(&self) -> Result<EventKind, AllocError>
        ensures { IfOk result (λ kind. kind ≡ self.now) }
    {
        match self {
            EventKind::Physical(kind) => Ok(EventKind::Physical(*kind)),
            EventKind::Virtual(name) => Ok(EventKind::Virtual(name.copy()?)),
        }
    }
}

impl Event {
    ghost use Rattle.std.specs.Prelude.{◌≡◌, IfOk};
    ghost use Rattle.tk_sequences.specs.Event.{bare_event};

    /// An event of a window, which has no fields yet.
    pub fn new(kind: EventKind, number: u64, path: Text, moment: u64) -> Event
        ensures { result ≡ bare_event kind number path moment }
    {
        Event {
            kind,
            number,
            path,
            moment,
            state: None,
            x: None,
            y: None,
            root_x: None,
            root_y: None,
            button: None,
            key: None,
            width: None,
            height: None,
            detail: None,
        }
    }

    /// The same event.
    pub fn copy(&self) -> Result<Event, AllocError>
        ensures { IfOk result (λ event. event ≡ self.now) }
    {
        let detail = match &self.detail {
            Some(detail) => Some(detail.copy()?),
            None => None,
        };
        Ok(Event {
            kind: self.kind.copy()?,
            number: self.number,
            path: self.path.copy()?,
            moment: self.moment,
            state: self.state,
            x: self.x,
            y: self.y,
            root_x: self.root_x,
            root_y: self.root_y,
            button: self.button,
            key: self.key,
            width: self.width,
            height: self.height,
            detail,
        })
    }
}

/// By hand: a proof sees one call where it is dropped, and not its parts.
impl Drop for Event {
    fn drop(self) {
        let Event {
            kind: _,
            number: _,
            path: _,
            moment: _,
            state: _,
            x: _,
            y: _,
            root_x: _,
            root_y: _,
            button: _,
            key: _,
            width: _,
            height: _,
            detail: _,
        } = self;
    }
}
