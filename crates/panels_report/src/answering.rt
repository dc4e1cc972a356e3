//! What the lines of a session that comes line by line are answered.

ghost use Rattle.std.specs.Prelude.{◌≡◌, ◌++◌, ◌∷◌, [], List, IfOk, OnOk, option_map};
ghost use Rattle.panels_report.specs.Answers.{IsRefusal, IsTold, named, section_told, told, turn_text, turns_told, window_line, window_told};
ghost use Rattle.panels.specs.Course.{section_at};
ghost use Rattle.tk_host.specs.Held.{Call, LineAt, held_after};

use panels::Live;
use panels_text::name_at;
use std::alloc::{AllocError, Global};
use tk_host::{AliasService, HostFault, Turn};
use tk_session::{AppBlock, EventLine, LineFault, read_end, read_event};

/// What a line is answered.
#[derive(Drop)]
pub enum Reply {
    /// What is told, in whole lines; the panels go on.
    Told(Vec<u8>),
    /// The sections of all panels: the session has ended.
    Ended(Vec<u8>),
    /// Why it is refused, in words.
    Refused(&'static str),
}

const NO_PANEL: &str = "no panel has this name";

const NO_LINE: &str =
    "this is no line: here stand MOMENT and one of move X Y, press BUTTON, release BUTTON, keydown KEY, keyup KEY, focus NAME, focus -, \
rect NAME X Y WIDTH HEIGHT, end; or section NAME, window NAME PATH, turns, advance MOMENT";

/// A fault of a line in words.
fn fault_words(fault: LineFault) -> &'static str {
    match fault {
        LineFault::TimeBack => "its moment is before that of a line above",
        LineFault::NoApp => NO_PANEL,
        LineFault::RectOverlap => "the new rectangle shares a pixel with another panel",
        LineFault::Ended => "the session has ended",
        _ => "the host refuses it",
    }
}

/// The slot of a panel.
fn slot_of(panels: &[AppBlock], name: &str) -> Option<usize>
    ensures { result ≡ named name.now panels.now }
{
    panels.iter().position(|panel| panel.name.as_str() == name)
}

/// The section of the panel in a slot.
fn section_of<M: AliasService>(live: &Live<M>, slot: usize) -> Result<Vec<u8>, AllocError>
    ensures { (calls : List (Call M)) → live.now.held ≡ held_after M.answer calls →
        IfOk result (λ section. section.items ≡ section_at M.answer calls slot) }
{
    match live.section(slot) {
        Ok(section) => Ok(section),
        Err(_) => Err(AllocError),
    }
}

/// The section of a panel.
fn section<M: AliasService>(
    live: &Live<M>,
    panels: &[AppBlock],
    name: &str,
) -> Result<Reply, AllocError>
    ensures { (calls : List (Call M)) → live.now.held ≡ held_after M.answer calls →
        IfOk result (λ reply. told reply ≡ section_told (section_at M.answer calls) (named name.now panels.now)) }
{
    match slot_of(panels, name) {
        Some(slot) => Ok(Reply::Told(section_of(live, slot)?)),
        None => Ok(Reply::Refused(NO_PANEL)),
    }
}

/// The first line of a section that begins so.
fn line_with<'a>(section: &'a [u8], front: &[u8]) -> Option<&'a [u8]>
    ensures { option_map (λ line. line.now) result ≡ window_line front.now section.now }
{
    section
        .split(|byte| *byte == b'\n')
        .find(|line| line.starts_with(front))
}

/// The line of a window.
fn window<M: AliasService>(
    alloc: Global,
    live: &Live<M>,
    panels: &[AppBlock],
    name: &str,
    path: &str,
) -> Result<Reply, AllocError>
    ensures { (calls : List (Call M)) → live.now.held ≡ held_after M.answer calls →
        IfOk result (λ reply. told reply ≡ window_told (section_at M.answer calls) path.now (named name.now panels.now)) }
{
    let Some(slot) = slot_of(panels, name) else {
        return Ok(Reply::Refused(NO_PANEL));
    };
    let section = section_of(live, slot)?;
    let front = format!(in alloc; "win {path} ")?;
    match line_with(section.as_slice(), front.as_str().as_bytes()) {
        Some(line) => {
            let mut text = Vec::from_slice(alloc, line)?;
            text.push(b'\n')?;
            Ok(Reply::Told(text))
        }
        None => Ok(Reply::Refused("the panel has no window of this path")),
    }
}

/// Adds the line of a turn.
fn push_turn(
    alloc: Global,
    text: &mut Vec<u8>,
    panels: &[AppBlock],
    turn: &Turn,
) -> Result<(), AllocError>
    ensures { OnOk result (text.new.items ≡ text.old.items ++ turn_text panels.now turn.now) }
{
    let name = name_at(panels, turn.slot);
    let line = format!(in alloc; "turn {name} {}\n", turn.steps)?;
    text.extend_from_slice(line.as_str().as_bytes())
}

/// The turns that took steps at the last line.
fn turns<M: AliasService>(
    alloc: Global,
    live: &Live<M>,
    panels: &[AppBlock],
) -> Result<Reply, AllocError>
    ensures { IfOk result (λ reply. told reply ≡ turns_told panels.now live.now.turns) }
{
    let mut text = Vec::new(alloc);
    let turns = live.turns();
    for turn in turns {
        push_turn(alloc, &mut text, panels, turn)?;
    }
    Ok(Reply::Told(text))
}

/// The sections of so many panels, one behind another.
fn sections<M: AliasService>(
    alloc: Global,
    live: &Live<M>,
    panels: usize,
) -> Result<Vec<u8>, AllocError> {
    let mut text = Vec::new(alloc);
    for slot in 0..panels {
        let section = section_of(live, slot)?;
        text.extend_from_slice(section.as_slice())?;
    }
    Ok(text)
}

/// Comes to the end, and tells all sections.
fn end<M: AliasService>(
    alloc: Global,
    live: &mut Live<M>,
    panels: usize,
    moment: u64,
) -> Result<Reply, AllocError>
    ensures unchanged { IfOk result (λ reply. IsRefusal reply → live.new ≡ live.old) }
{
    match live.advance_to(moment) {
        Ok(()) => Ok(Reply::Ended(sections(alloc, live, panels)?)),
        Err(HostFault::NoMemory) => Err(AllocError),
        Err(HostFault::Refused(_)) => Ok(Reply::Refused(fault_words(LineFault::TimeBack))),
    }
}

/// Hands on a line of what happens.
fn event<M: AliasService>(
    alloc: Global,
    live: &mut Live<M>,
    event: EventLine,
) -> Result<Reply, AllocError>
    ensures unchanged { IfOk result (λ reply. IsRefusal reply → live.new ≡ live.old) }
    ensures history { (calls : List (Call M)) → live.old.held ≡ held_after M.answer calls →
        IfOk result (λ reply. IsTold reply → live.new.held ≡ held_after M.answer (calls ++ LineAt event.moment event.line ∷ [])) }
{
    match live.line(event) {
        Ok(()) => Ok(Reply::Told(Vec::new(alloc))),
        Err(HostFault::NoMemory) => Err(AllocError),
        Err(HostFault::Refused(fault)) => Ok(Reply::Refused(fault_words(fault))),
    }
}

/// Goes on to a moment.
fn advance<M: AliasService>(
    alloc: Global,
    live: &mut Live<M>,
    word: &str,
) -> Result<Reply, AllocError>
    ensures unchanged { IfOk result (λ reply. IsRefusal reply → live.new ≡ live.old) }
{
    match word.parse::<u64>() {
        Ok(moment) => match live.advance_to(moment) {
            Ok(()) => Ok(Reply::Told(Vec::new(alloc))),
            Err(HostFault::NoMemory) => Err(AllocError),
            Err(HostFault::Refused(why)) => Ok(Reply::Refused(fault_words(why))),
        },
        Err(_) => Ok(Reply::Refused("advance wants a moment in milliseconds")),
    }
}

/// A line of what happens, or the end.
fn happen<M: AliasService>(
    alloc: Global,
    live: &mut Live<M>,
    panels: &[AppBlock],
    line: &str,
) -> Result<Reply, AllocError>
    ensures unchanged { IfOk result (λ reply. IsRefusal reply → live.new ≡ live.old) }
{
    if let Some(moment) = read_end(line.as_bytes()) {
        return end(alloc, live, panels.len(), moment);
    }
    match read_event(panels, line.as_bytes()) {
        Some(read) => event(alloc, live, read),
        None => Ok(Reply::Refused(NO_LINE)),
    }
}

/// Does what a line asks of panels whose scripts have run, and answers it; a line that is refused changes nothing. An error where memory is refused.
pub fn answered<M: AliasService>(
    alloc: Global,
    live: &mut Live<M>,
    panels: &[AppBlock],
    line: &str,
) -> Result<Reply, AllocError>
    ensures unchanged { IfOk result (λ reply. IsRefusal reply → live.new ≡ live.old) }
{
    let (word, rest) = line.split_once(' ').unwrap_or((line, ""));
    match word {
        "section" => section(live, panels, rest),
        "window" => {
            let (name, path) = rest.split_once(' ').unwrap_or((rest, ""));
            window(alloc, live, panels, name, path)
        }
        "turns" if rest.is_empty() => turns(alloc, live, panels),
        "advance" => advance(alloc, live, rest),
        _ => happen(alloc, live, panels, line),
    }
}
