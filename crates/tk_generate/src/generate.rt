//! `event generate` (event(n)).
ghost use Rattle.std.specs.Prelude.{◌≡◌, ◌<◌, ◌^◌, ℕ, IfOk, length};
ghost use Rattle.std.specs.Option.{option_copied};
ghost use Rattle.tcl_text.specs.Answers.{Gives, fails, wrong_args as wrong_args_of};
ghost use Rattle.tk_generate.specs.Generate as spec;
ghost use Rattle.tk_generate.specs.Told.{is_by_pointer, tells_place};
ghost use Rattle.tk_tree.specs.Corners.{corner};
ghost use Rattle.tk_tree.specs.Own.{at_path, window_at};
ghost use Rattle.tk_tree.specs.Shared.{own_of};

use crate::asked::{EventRequest, asked_in};
use crate::fields::{
    button_for, detail_for, from_corner, is_of_pointer, key_for, place_for, root_for, state_for,
};
use crate::given::{Given, When, given_in};
use std::alloc::{AllocError, Global};
use tcl_text::Text;
use tcl_text::answers::{Refusal, error, wrong_args};
use tk_base::Win;
use tk_sequences::{Event, EventKind, Pattern, VirtualName};
use tk_tree::{Corner, Windows, bad_path};

const USAGE: &str = "event generate path pattern ?option value ..?";

/// How many events wait at most when one more is put among them.
const MOST_WAITING: usize = 1024;

/// An event that a script makes, and when it comes.
#[derive(Drop)]
pub struct Generated {
    pub event: Event,
    pub when: When,
}

/// The window that gets an event.
#[derive(Drop)]
pub struct Receiver {
    /// Its number in its application.
    pub number: u64,
    pub path: Text,
}

/// The command `event generate` (event(n)), called with the words behind `generate`: the event that is to come, and when. Nothing is queued
/// and nothing dispatched. `focus` is the number of the application's focus window, which gets the events of keys, `waiting` how many events
/// wait for the application, and `moment` in milliseconds.
///
/// Errors, of which the first in this order is told: a wrong number of words (no number), a path that names no window (24), a bad pattern (29,
/// 30), options from left to right, an unknown one (20), one without a value (23), a bad value (22; 30 of `-keysym`), then an event of a key or
/// a button that has none, and 1,024 events that wait where one is to be put among them (no numbers).
pub fn generate_command(
    alloc: Global,
    windows: &Windows,
    slot: usize,
    focus: u64,
    waiting: usize,
    moment: u64,
    words: &[Text],
) -> Result<Result<Generated, Text>, AllocError>
    ensures { IfOk result (λ answer. answer ≡ spec.generate_words words.now focus waiting moment (own_of slot windows.now)) }
{
    match made_event(alloc, windows, slot, focus, waiting, moment, words) {
        Ok(generated) => Ok(Ok(generated)),
        Err(Refusal::Error(text)) => Ok(Err(text)),
        Err(Refusal::NoMemory) => Err(AllocError),
    }
}

#[tactic(auto, unfolding(crate::specs::Generate::generate_words))]
fn made_event(
    alloc: Global,
    windows: &Windows,
    slot: usize,
    focus: u64,
    waiting: usize,
    moment: u64,
    words: &[Text],
) -> Result<Generated, Refusal>
    ensures { Gives result (spec.generate_words words.now focus waiting moment (own_of slot windows.now)) }
{
    let [path, pattern, options @ ..] = words else {
        return wrong_args(alloc, USAGE);
    };
    let named = receiver_named(alloc, windows, slot, path)?;
    let asked = asked_in(alloc, pattern)?;
    let given = given_in(alloc, options)?;
    let when = given.when;
    let receiver = receiver_of(&asked, windows, slot, focus, named)?;
    let event = event_for(alloc, windows, slot, asked, given, receiver, moment)?;
    let when = in_room(alloc, waiting, when)?;
    Ok(Generated { event, when })
}

/// The window of a path.
fn receiver_named(
    alloc: Global,
    windows: &Windows,
    slot: usize,
    path: &Text,
) -> Result<Receiver, Refusal>
    ensures { Gives result (spec.receiver_named path.now (own_of slot windows.now)) }
{
    match windows.find(slot, path.as_str()) {
        Some(win) => Ok(Receiver {
            number: win.number,
            path: path.copy()?,
        }),
        None => bad_path(alloc, path),
    }
}

/// The window that gets the event: of a key the focus window, if it is there, and else the one named.
fn receiver_of(
    asked: &EventRequest,
    windows: &Windows,
    slot: usize,
    focus: u64,
    named: Receiver,
) -> Result<Receiver, AllocError>
    ensures { IfOk result (λ receiver. receiver ≡ spec.receiver_of asked.now (window_at focus (own_of slot windows.now)) named) }
{
    if !asked.is_for_keys() {
        return Ok(named);
    }
    match windows.window(Win {
        owner: slot,
        number: focus,
    }) {
        Some(window) => Ok(Receiver {
            number: window.number,
            path: window.path.copy()?,
        }),
        None => Ok(named),
    }
}

/// The event for a window.
fn event_for(
    alloc: Global,
    windows: &Windows,
    slot: usize,
    asked: EventRequest,
    given: Given,
    receiver: Receiver,
    moment: u64,
) -> Result<Event, Refusal>
    ensures { Gives result (spec.event_for asked given receiver moment (own_of slot windows.now)) }
{
    let win = Win {
        owner: slot,
        number: receiver.number,
    };
    let corner = corner_told(windows, win, &asked, &given);
    match asked {
        EventRequest::Physical(pattern) => physical_event(
            alloc, &pattern, given, receiver, corner, moment,
        ),
        EventRequest::Virtual(name) => Ok(virtual_event(name, given, receiver, corner, moment)),
    }
}

/// The corner of an event's window, where the event tells a place; else any, since no field is told from it.
fn corner_told(windows: &Windows, win: Win, asked: &EventRequest, given: &Given) -> Corner
    ensures near { (result.x < 2 ^ 41) × (result.y < 2 ^ 41) }
    ensures told { (receiver : Receiver) (moment : ℕ) → spec.event_in asked.now given.now receiver result moment
        ≡ spec.event_in asked.now given.now receiver (corner win.number (own_of win.owner windows.now)) moment }
{
    if tells_place(asked, given) {
        windows.corner(win)
    } else {
        Corner { x: 0, y: 0 }
    }
}

/// Whether an event tells a place: one that is given, or the one that each event of the pointer has.
fn tells_place(asked: &EventRequest, given: &Given) -> bool
    ensures { result ≡ tells_place asked.now given.now }
{
    given.x.is_some() || given.y.is_some() || is_by_pointer(asked)
}

/// Whether the pointer makes the event.
fn is_by_pointer(asked: &EventRequest) -> bool
    ensures { result ≡ is_by_pointer asked.now }
{
    match asked {
        EventRequest::Physical(pattern) => is_of_pointer(pattern.kind),
        EventRequest::Virtual(_) => false,
    }
}

/// The event that a pattern describes.
fn physical_event(
    alloc: Global,
    pattern: &Pattern,
    given: Given,
    receiver: Receiver,
    corner: Corner,
    moment: u64,
) -> Result<Event, Refusal>
    requires { (corner.x < 2 ^ 41) × (corner.y < 2 ^ 41) }
    ensures { Gives result (spec.physical_event pattern.now given receiver corner moment) }
{
    let key = key_for(alloc, pattern, given.keysym)?;
    let button = button_for(alloc, pattern, given.button)?;
    let kind = pattern.kind;
    let Receiver { number, path } = receiver;
    let mut event = Event::new(EventKind::Physical(kind), number, path, moment);
    event.state = state_for(pattern, given.state);
    event.x = place_for(kind, given.x);
    event.y = place_for(kind, given.y);
    event.root_x = root_for(kind, given.x, corner.x);
    event.root_y = root_for(kind, given.y, corner.y);
    event.button = button;
    event.key = key;
    event.detail = detail_for(kind, given.detail);
    Ok(event)
}

/// A virtual event.
fn virtual_event(
    name: VirtualName,
    given: Given,
    receiver: Receiver,
    corner: Corner,
    moment: u64,
) -> Event
    requires { (corner.x < 2 ^ 41) × (corner.y < 2 ^ 41) }
    ensures { result ≡ spec.virtual_event name given receiver corner moment }
{
    let mut event = Event::new(
        EventKind::Virtual(name),
        receiver.number,
        receiver.path,
        moment,
    );
    event.state = given.state;
    event.x = given.x;
    event.y = given.y;
    event.root_x = from_corner(given.x, corner.x);
    event.root_y = from_corner(given.y, corner.y);
    event.detail = given.detail;
    event
}

/// Whether the event is to wait among others.
fn is_to_wait(when: When) -> bool
    ensures { result ≡ spec.is_to_wait when }
{
    matches!(when, When::Tail | When::Head)
}

/// When the event comes, unless it is to wait where too many wait.
fn in_room(alloc: Global, waiting: usize, when: When) -> Result<When, Refusal>
    ensures { Gives result (spec.in_room waiting when) }
{
    if is_to_wait(when) && waiting >= MOST_WAITING {
        Err(error(alloc, "limit reached: events"))
    } else {
        Ok(when)
    }
}
