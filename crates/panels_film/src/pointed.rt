//! Who gets the presses and the keys of a person.

ghost use Rattle.std.specs.Prelude.{◌≡◌, List, codes, map, option_map, IfOk};
ghost use Rattle.std.specs.String.{string_bytes};
ghost use Rattle.panels.specs.Panes.{has_point};
ghost use Rattle.panels.specs.Shapes.{shown};
ghost use Rattle.tk_route.specs.Screen.{is_within};
ghost use Rattle.panels.specs.Course.{section_at};
ghost use Rattle.tk_host.specs.Held.{Call, held_after};
ghost use Rattle.panels_film.specs.Getters.{at_window, came_to, focus_in, getter_of, has, highest, slot_at, slot_of, told, under_pointer, with_keys, words};
ghost use Rattle.panels_film.specs.Screens.{known};

use crate::playing::section_of;
use panels::{Answer, Live, Question, Screen, Shape, Spot, shapes};
use panels_text::{as_text, name_at};
use std::alloc::{AllocError, Global};
use tk_base::Rect;
use tk_host::AliasService;
use tk_session::{AppBlock, HostLine};

/// Who gets a press or a key.
#[derive(Drop)]
pub enum Getter {
    /// The pointer has come nowhere.
    NoPointer,
    /// The pointer is in no panel.
    NoPanel,
    /// No panel has the keyboard.
    NoKeyboard,
    /// The window under the pointer, by its path as a section writes it, of the panel in a slot.
    Pointed { slot: usize, path: Vec<u8> },
    /// The window with the focus of the panel in a slot, which has the keyboard; no path where that window is gone.
    Focused { slot: usize, path: Vec<u8> },
}

impl Getter {
    /// The slot of the panel that gets it, where a panel does.
    pub fn slot(&self) -> Option<usize>
        ensures { result ≡ slot_of (told self.now) }
    {
        match self {
            Getter::NoPointer | Getter::NoPanel | Getter::NoKeyboard => None,
            Getter::Pointed { slot, path: _ } => Some(*slot),
            Getter::Focused { slot, path: _ } => Some(*slot),
        }
    }

    /// In words, of these panels. An error where memory is refused.
    pub fn words(&self, alloc: Global, panels: &[AppBlock]) -> Result<String, AllocError>
        ensures { IfOk result (λ text. string_bytes text ≡ words panels.now (told self.now)) }
    {
        match self {
            Getter::NoPointer => String::from_str(alloc, "the pointer has come nowhere"),
            Getter::NoPanel => String::from_str(alloc, "it came to no panel"),
            Getter::NoKeyboard => String::from_str(alloc, "no panel has the keyboard"),
            Getter::Pointed { slot, path } => came_to(alloc, panels, *slot, path.as_slice()),
            Getter::Focused { slot, path } => {
                let mut words = came_to(alloc, panels, *slot, path.as_slice())?;
                words.push_str(", which has the keyboard")?;
                Ok(words)
            }
        }
    }
}

/// That something came to a window of the panel in a slot, in words.
fn came_to(
    alloc: Global,
    panels: &[AppBlock],
    slot: usize,
    path: &[u8],
) -> Result<String, AllocError>
    ensures { IfOk result (λ text. string_bytes text ≡ came_to panels.now slot path.now) }
{
    let (path, name) = (as_text(path), name_at(panels, slot));
    format!(in alloc; "it came to {path} of {name}")
}

/// Whether a span holds a place.
fn is_within(start: u32, length: u32, place: u32) -> bool
    ensures { result ≡ is_within start length place }
{
    let end = u64::from(start) + u64::from(length);
    start <= place && u64::from(place) < end
}

/// Whether a rectangle of the screen has a point.
fn has(rect: &Rect, spot: Spot) -> bool
    ensures { result ≡ has spot rect.now }
{
    is_within(rect.x, rect.width, spot.x) && is_within(rect.y, rect.height, spot.y)
}

/// The slot of the panel that has a point of the screen.
fn slot_at(rects: &[Rect], spot: Spot) -> Option<usize>
    ensures { result ≡ slot_at rects.now spot }
{
    rects.iter().position(|rect| has(rect, spot))
}

/// Whether a point of a panel lies in what is shown of a window.
fn is_shown_at(window: &Shape, x: u64, y: u64) -> bool
    ensures { result ≡ has_point x y (shown window.now).pane }
{
    window.left <= x && x < window.right && window.top <= y && y < window.bottom
}

/// The path of the highest window that has a point of its panel; the main window's where none has.
fn highest(windows: &[Shape], x: u64, y: u64) -> &[u8]
    ensures { result.now ≡ highest x y (codes ".") (map shown windows.now) }
{
    let mut path: &[u8] = b".";
    for window in windows {
        if is_shown_at(window, x, y) {
            path = window.path.as_slice();
        }
    }
    path
}

/// What the pointer came to in a panel that has it.
fn at_window<M: AliasService>(
    alloc: Global,
    live: &Live<M>,
    slot: usize,
    rect: Rect,
    spot: Spot,
) -> Result<Getter, AllocError>
    ensures { (calls : List (Call M)) → live.now.held ≡ held_after M.answer calls →
        IfOk result (λ getter. told getter ≡ at_window (section_at M.answer calls slot) slot rect spot) }
{
    let x = u64::from(spot.x.saturating_sub(rect.x));
    let y = u64::from(spot.y.saturating_sub(rect.y));
    let section = section_of(live, slot)?;
    let windows = shapes(alloc, section.as_slice())?;
    let path = Vec::from_slice(alloc, highest(windows.as_slice(), x, y))?;
    Ok(Getter::Pointed { slot, path })
}

/// The window under the pointer, and its panel.
fn under_pointer<M: AliasService>(
    alloc: Global,
    live: &Live<M>,
    screen: &Screen,
) -> Result<Getter, AllocError>
    ensures { (calls : List (Call M)) → live.now.held ≡ held_after M.answer calls →
        IfOk result (λ getter. told getter ≡ under_pointer (section_at M.answer calls) (known screen.now)) }
{
    let Some(spot) = screen.pointer else {
        return Ok(Getter::NoPointer);
    };
    let rects = screen.rects.as_slice();
    let Some(slot) = slot_at(rects, spot) else {
        return Ok(Getter::NoPanel);
    };
    match rects.get(slot) {
        Some(rect) => at_window(alloc, live, slot, *rect, spot),
        None => Ok(Getter::NoPanel),
    }
}

/// The path of the window with the focus of the panel in a slot; an empty one where that window is gone.
fn focus_of<M: AliasService>(
    alloc: Global,
    live: &Live<M>,
    slot: usize,
) -> Result<Vec<u8>, AllocError>
    ensures { IfOk result (λ path. path.items ≡ focus_in slot live.now.held) }
{
    match live.ask(alloc, slot, &Question::Focus)? {
        Answer::Text(path) => Vec::from_slice(alloc, path.as_str().as_bytes()),
        Answer::Nothing | Answer::Number(_) | Answer::Rows(_) => Ok(Vec::new(alloc)),
    }
}

/// The window that gets keys, and its panel.
fn with_keys<M: AliasService>(
    alloc: Global,
    live: &Live<M>,
    screen: &Screen,
) -> Result<Getter, AllocError>
    ensures { IfOk result (λ getter. told getter ≡ with_keys live.now.held (known screen.now)) }
{
    match screen.keys {
        Some(slot) => {
            let path = focus_of(alloc, live, slot)?;
            Ok(Getter::Focused { slot, path })
        }
        None => Ok(Getter::NoKeyboard),
    }
}

/// Who gets a line, where it is a press or a key that goes down, on a screen of which this is known. An error where memory is refused.
pub(crate) fn getter_of<M: AliasService>(
    alloc: Global,
    live: &Live<M>,
    screen: &Screen,
    line: HostLine,
) -> Result<Option<Getter>, AllocError>
    ensures { (calls : List (Call M)) → live.now.held ≡ held_after M.answer calls →
        IfOk result (λ getter. option_map told getter ≡ getter_of M.answer calls (known screen.now) line) }
{
    match line {
        HostLine::Press(_) => Ok(Some(under_pointer(alloc, live, screen)?)),
        HostLine::Keydown(_) => Ok(Some(with_keys(alloc, live, screen)?)),
        HostLine::Move { .. }
        | HostLine::Release(_)
        | HostLine::Keyup(_)
        | HostLine::Focus(_)
        | HostLine::Rect { .. } => Ok(None),
    }
}
