//! Which bindings run: the panels are played again, and their scripts note it in the transcript.
ghost use Rattle.std.specs.Prelude.{◌≡◌, ◌≤◌, ◌++◌, ◌∷◌, [], List, drop, length, map, option_map, IfNone, IfOk, IfSome, OnOk};
ghost use Rattle.tk_host.specs.Held.{Call, held_after};
ghost use Rattle.panels.specs.Course.{section_at};
ghost use Rattle.panels_film.specs.Bindings.{IsNone, IsRan, cut, known_at, known_by, none_known, note_in, noted, notes_among, noting, noting_plan, noting_script, ran_at, ran_by, ran_from, ran_of, ran_since, told};
ghost use Rattle.panels_film.specs.Films.{handed};
ghost use Rattle.panels_film.specs.Numbers.{number_in};
ghost use Rattle.std.specs.Option.{unwrap_or};
ghost use Rattle.panels_text.specs.Texts.{behind};
ghost use Rattle.tk_session.specs.Session.{IsSession};
ghost use Rattle.tk_session.specs.Writing.{text_of};

use crate::copying::copies;
use crate::numbers::number_in;
use crate::playing::{begun, hand_line, reach, section_of};
use panels::{Live, live_panels};
use panels_text::as_text;
use std::alloc::{AllocError, Global};
use tcl_text::{Text, TextFault};
use tk_base::Budget;
use tk_host::AliasService;
use tk_session::{AppBlock, EventLine, Session, WritingFault, write_session};

/// A binding that ran.
#[derive(Drop)]
pub struct Ran {
    /// The panel's slot.
    pub slot: usize,
    pub moment: u64,
    /// How many lines had come.
    pub count: usize,
    /// Its window or tag, and its sequence.
    pub words: String,
}

/// What comes before a script: `bind` puts a note before each script that it is given, and before those of the classes; it begins with a character that
/// no script writes by chance.
const NOTING: &str = "\
rename bind panels_bind
proc bind args {
    if {[llength $args] == 3} {return [panels_note [lindex $args 0] [lindex $args 1] [lindex $args 2]]}
    panels_bind {*}$args
}
proc panels_note {tag sequence script} {
    set more [string match +* $script]
    if {$script eq \"\" || $more && [panels_bind $tag $sequence] ne \"\"} {return [panels_bind $tag $sequence $script]}
    if {$more} {set script [string range $script 1 end]}
    panels_bind $tag $sequence \"puts [list [join [split \"\u{1}$sequence of $tag\" %] %%]]\\n$script\"
}
foreach panels_tag {Frame Label Button Entry Listbox all} {
    foreach panels_sequence [bind $panels_tag] {bind $panels_tag $panels_sequence [bind $panels_tag $panels_sequence]}
}
unset -nocomplain panels_tag panels_sequence
";

/// How a line of a transcript begins that is a note.
const NOTE: &str = "\u{1}";

/// The script that notes which bindings run; the same where it has no room for that.
fn noting_script(alloc: Global, script: &Text) -> Result<Text, AllocError>
    ensures { IfOk result (λ noting. noting ≡ noting_script script.now) }
{
    let noting = format!(in alloc; "{NOTING}{}", script.as_str())?;
    match Text::new(alloc, noting.as_str()) {
        Ok(noting) => Ok(noting),
        Err(TextFault::TooLong) => script.copy(),
        Err(TextFault::NoMemory) => Err(AllocError),
    }
}

/// The panel, whose script notes which bindings run, and runs on: the notes take steps.
fn noting(alloc: Global, mut panel: AppBlock) -> Result<AppBlock, AllocError>
    ensures { IfOk result (λ other. other ≡ noting panel) }
{
    panel.budget = Budget {
        total: 10_000_000,
        refill: 0,
    };
    panel.script = noting_script(alloc, &panel.script)?;
    Ok(panel)
}

/// What stands before and behind the first blank of a text.
fn cut(text: &str) -> Option<(&str, &str)>
    ensures { option_map (λ parts. (parts.0.now, parts.1.now)) result ≡ cut text.now }
{
    match text.split_once(' ') {
        Some((before, behind)) => Some((before, behind)),
        None => None,
    }
}

/// What stands behind the beginning of a note.
fn behind_note(text: &str) -> Option<&str>
    ensures { option_map (λ words. words.now) result ≡ behind NOTE.now text.now }
{
    text.strip_prefix(NOTE)
}

/// A number, or 0.
fn number_or_zero(text: &str) -> u64
    ensures { result ≡ unwrap_or (number_in text.now) 0 }
{
    match number_in(text) {
        Some(number) => number,
        None => 0,
    }
}

/// The moment of a note and its words, where a line of a transcript is one.
fn note_in(line: &str) -> Option<(u64, &str)>
    ensures { option_map (λ note. noted note.0 note.1.now) result ≡ note_in line.now }
{
    let (_, rest) = cut(line)?;
    let (moment, text) = cut(rest)?;
    let words = behind_note(text)?;
    Some((number_or_zero(moment), words))
}

/// The notes of a transcript.
fn notes_among(alloc: Global, section: &str) -> Result<Vec<(u64, &str)>, AllocError>
    ensures { IfOk result (λ notes. map (λ note. noted note.0 note.1.now) notes.items ≡ notes_among section.now) }
{
    let mut notes = Vec::new(alloc);
    for line in section.split('\n') {
        match note_in(line) {
            Some(note) => notes.push(note)?,
            None => {}
        }
    }
    Ok(notes)
}

/// Adds what notes of a panel tell, after so many lines.
fn push_notes(
    alloc: Global,
    ran: &mut Vec<Ran>,
    slot: usize,
    count: usize,
    notes: &[(u64, &str)],
) -> Result<(), AllocError>
    ensures { OnOk result (map told ran.new.items ≡ map told ran.old.items ++ map (ran_by slot count) (map (λ note. noted note.0 note.1.now) notes.now)) }
{
    for (moment, words) in notes {
        ran.push(Ran {
            slot,
            moment: *moment,
            count,
            words: String::from_str(alloc, *words)?,
        })?;
    }
    Ok(())
}

/// The notes behind the first so many.
fn behind_first<'a>(notes: &'a [(u64, &'a str)], count: usize) -> &'a [(u64, &'a str)]
    ensures { result.now ≡ drop count notes.now }
{
    notes.get(count..).unwrap_or(&[])
}

/// Adds the notes of a panel's transcript behind the first so many, and answers how many there are.
fn push_new(
    alloc: Global,
    ran: &mut Vec<Ran>,
    slot: usize,
    count: usize,
    section: &str,
    known: usize,
) -> Result<usize, AllocError>
    ensures ran { OnOk result (map told ran.new.items ≡ map told ran.old.items ++ map (ran_by slot count) (drop known (notes_among section.now))) }
    ensures known { IfOk result (λ found. found ≡ length (notes_among section.now)) }
{
    let notes = notes_among(alloc, section)?;
    let new = behind_first(notes.as_slice(), known);
    push_notes(alloc, ran, slot, count, new)?;
    Ok(notes.len())
}

/// Adds what the panels have noted since each had noted so many, after so many lines, and answers how many each has noted.
fn push_ran<M: AliasService>(
    alloc: Global,
    live: &Live<M>,
    known: &[usize],
    count: usize,
    ran: &mut Vec<Ran>,
) -> Result<Vec<usize>, AllocError>
    ensures ran { (calls : List (Call M)) → live.now.held ≡ held_after M.answer calls →
        OnOk result (map told ran.new.items ≡ map told ran.old.items ++ ran_since (section_at M.answer calls) count 0 known.now) }
    ensures known { (calls : List (Call M)) → live.now.held ≡ held_after M.answer calls →
        IfOk result (λ found. found.items ≡ known_by (section_at M.answer calls) 0 known.now) }
{
    let mut found = Vec::new(alloc);
    for (slot, known) in known.iter().enumerate() {
        let section = section_of(live, slot)?;
        let text = as_text(section.as_slice());
        found.push(push_new(alloc, ran, slot, count, text, *known)?)?;
    }
    Ok(found)
}

/// That none of these panels has noted anything.
fn none_known(alloc: Global, panels: &[AppBlock]) -> Result<Vec<usize>, AllocError>
    ensures { IfOk result (λ known. known.items ≡ none_known panels.now) }
{
    let mut known = Vec::new(alloc);
    'panels: for _panel in panels {
        known.push(0)?;
    }
    Ok(known)
}

/// Hands on a line, and adds what ran on the way to its moment and at it, where so many lines had come before it and behind it; answers how many each panel has
/// noted.
fn push_ran_at<M: AliasService>(
    alloc: Global,
    live: &mut Live<M>,
    known: &[usize],
    counts: (usize, usize),
    event: EventLine,
    ran: &mut Vec<Ran>,
) -> Result<Vec<usize>, AllocError>
    ensures history { (calls : List (Call M)) → live.old.held ≡ held_after M.answer calls → OnOk result (live.new.held ≡ held_after M.answer (handed calls event)) }
    ensures ran { (calls : List (Call M)) → live.old.held ≡ held_after M.answer calls →
        OnOk result (map told ran.new.items ≡ map told ran.old.items ++ ran_at M.answer calls counts.0 counts.1 known.now event) }
    ensures known { (calls : List (Call M)) → live.old.held ≡ held_after M.answer calls →
        IfOk result (λ found. found.items ≡ known_at M.answer calls known.now event) }
{
    reach(live, event.moment)?;
    let found = push_ran(alloc, live, known, counts.0, ran)?;
    hand_line(live, event)?;
    push_ran(alloc, live, found.as_slice(), counts.1, ran)
}

/// The bindings that run while panels are handed lines, up to the end.
fn ran_of<M: AliasService>(
    alloc: Global,
    mut live: Live<M>,
    session: &Session,
) -> Result<Vec<Ran>, AllocError>
    ensures { (calls : List (Call M)) → live.held ≡ held_after M.answer calls →
        IfOk result (λ ran. map told ran.items ≡ ran_from M.answer calls 0 (none_known session.now.apps) session.now.events session.now.end) }
{
    let mut ran = Vec::new(alloc);
    let mut known = none_known(alloc, session.apps())?;
    let events = session.events();
    for (number, event) in events.iter().enumerate() {
        let counts = (number, number + 1);
        known = push_ran_at(alloc, &mut live, known.as_slice(), counts, *event, &mut ran)?;
    }
    reach(&mut live, session.end())?;
    push_ran(alloc, &live, known.as_slice(), events.len(), &mut ran)?;
    Ok(ran)
}

/// The same of the panels of a session, with the program's own services.
fn ran_in(alloc: Global, session: &Session) -> Result<Vec<Ran>, AllocError>
    ensures { IfOk result (λ ran. map told ran.items ≡ ran_of session.now) }
{
    let live = begun(live_panels(alloc, session, 64))?;
    ran_of(alloc, live, session)
}

/// The panels, whose scripts note which bindings run.
fn noting_panels(alloc: Global, panels: &[AppBlock]) -> Result<Vec<AppBlock>, AllocError>
    ensures { IfOk result (λ others. others.items ≡ map noting panels.now) }
{
    let mut others = Vec::new(alloc);
    for panel in copies(alloc, panels)? {
        others.push(noting(alloc, panel)?)?;
    }
    Ok(others)
}

/// The session in which the panels of another note which bindings run; nothing where it would be none.
fn noting_session(alloc: Global, session: &Session) -> Result<Option<Session>, AllocError>
    ensures session { IfOk result (λ found. IfSome found (λ other. (other ≡ noting_plan session.now) × IsSession (text_of (noting_plan session.now)) (noting_plan session.now))) }
    ensures none { IfOk result (λ found. IfNone found (IsNone (noting_plan session.now))) }
{
    let panels = noting_panels(alloc, session.apps())?;
    match write_session(alloc, panels.as_slice(), session.events(), session.end()) {
        Ok((_, session)) => Ok(Some(session)),
        Err(WritingFault::NoMemory) => Err(AllocError),
        Err(WritingFault::Unlike) => Ok(None),
        Err(WritingFault::Refused { fault: _, line: _ }) => Ok(None),
    }
}

/// The bindings that run in a session, in their order: its panels are played once more, and note them. None where its panels have no room for that. An error
/// where memory is refused.
pub fn bindings_of(alloc: Global, session: &Session) -> Result<Vec<Ran>, AllocError>
    ensures { IfOk result (λ ran. IsRan session.now (map told ran.items)) }
{
    match noting_session(alloc, session)? {
        None => Ok(Vec::new(alloc)),
        Some(session) => ran_in(alloc, &session),
    }
}
