//! What came of the lines of gestures.

ghost use Rattle.std.specs.Prelude.{◌≡◌, List, length, map, IfOk};
ghost use Rattle.tk_alias.specs.Services.{answer_of};
ghost use Rattle.tk_alias.specs.declared.service.Service.{Service as ServiceOf};
ghost use Rattle.tk_host.specs.Held.{Call, held_after};
ghost use Rattle.tkhost.specs.Play.{services_in};
ghost use Rattle.panels_film.specs.Films.{begun, handed, reached};
ghost use Rattle.panels_film.specs.Getters.{getter_of};
ghost use Rattle.panels_film.specs.Notes.{are_others, changes, getter_told, notes_from, told};
ghost use Rattle.panels_film.specs.Screens.{at_first, known};

use crate::playing::{begun, hand_line, reach, sections_now};
use crate::pointed::{Getter, getter_of};
use panels::{Live, Screen, live_panels};
use std::alloc::{AllocError, Global};
use tk_host::AliasService;
use tk_session::{EventLine, Session};

/// What came of a line of a session.
#[derive(Drop)]
pub struct Note {
    /// Who got it, where it is a press or a key that goes down.
    pub getter: Option<Getter>,
    /// Whether a script took steps.
    pub ran: bool,
    /// Whether a panel showed something else than before.
    pub changed: bool,
}

/// Whether sections are others than before.
fn are_others(before: &[Vec<u8>], after: &[Vec<u8>]) -> bool
    ensures { result ≡ are_others (map (λ section. section.items) before.now) (map (λ section. section.items) after.now) }
{
    !(before == after)
}

/// Hands on a line to so many panels, and tells what came of it.
fn noted<M: AliasService>(
    alloc: Global,
    live: &mut Live<M>,
    panels: usize,
    screen: &Screen,
    event: EventLine,
) -> Result<Note, AllocError>
    ensures getter { (calls : List (Call M)) → live.old.held ≡ held_after M.answer calls →
        IfOk result (λ note. getter_told note ≡ getter_of M.answer (reached calls event.moment) (known screen.now) event.line) }
    ensures changed { (calls : List (Call M)) → live.old.held ≡ held_after M.answer calls → IfOk result (λ note. note.changed ≡ changes M.answer panels calls event) }
    ensures history { (calls : List (Call M)) → live.old.held ≡ held_after M.answer calls →
        IfOk result (λ note. live.new.held ≡ held_after M.answer (handed calls event)) }
{
    reach(live, event.moment)?;
    let getter = getter_of(alloc, live, screen, event.line)?;
    let before = sections_now(alloc, live, panels)?;
    hand_line(live, event)?;
    let after = sections_now(alloc, live, panels)?;
    Ok(Note {
        getter,
        ran: !live.turns().is_empty(),
        changed: are_others(before.as_slice(), after.as_slice()),
    })
}

/// Hands on the lines of a session, and tells what came of each.
fn follow<M: AliasService>(
    alloc: Global,
    mut live: Live<M>,
    session: &Session,
) -> Result<Vec<Note>, AllocError>
    ensures { (calls : List (Call M)) → live.held ≡ held_after M.answer calls →
        IfOk result (λ notes. map told notes.items ≡ notes_from M.answer (length session.now.apps) calls (at_first session.now.apps) session.now.events) }
{
    let mut notes = Vec::new(alloc);
    let mut screen = Screen::new(alloc, session.apps())?;
    let panels = session.apps().len();
    for event in session.events() {
        notes.push(noted(alloc, &mut live, panels, &screen, *event)?)?;
        screen.take(event.line);
    }
    Ok(notes)
}

/// What came of each line of a session, whose panels are played with the program's own services. An error where memory is refused.
pub fn notes_of(alloc: Global, session: &Session) -> Result<Vec<Note>, AllocError>
    ensures { IfOk result (λ notes. map told notes.items ≡ notes_from (λ (service : ServiceOf). answer_of service.kind service.config) (length session.now.apps) (begun session.now (map services_in session.now.apps)) (at_first session.now.apps) session.now.events) }
{
    let live = begun(live_panels(alloc, session, 64))?;
    follow(alloc, live, session)
}
