//! Panels of a bench that was played, which are played once more: what the host took before it refuses only for want of memory.

ghost use Rattle.std.specs.Prelude.{◌≡◌, ◌∷◌, ◌++◌, [], List, Ok, Some, map, slice_get, take, IfOk, OnOk};
ghost use Rattle.tk_host.specs.Held.{AdvanceTo, Call, LineAt, held_after};
ghost use Rattle.tk_host.specs.Sections.{sections_after};
ghost use Rattle.tk_session.specs.Session.{IsSession};
ghost use Rattle.tkhost.specs.Calls.{lining};

use panels::{BenchFault, Live, Played};
use std::alloc::{AllocError, Global};
use tk_host::AliasService;
use tk_session::{EventLine, Session, read_session};

/// The session that a bench was played as. An error where memory is refused: what is written as a session is one.
pub fn session_of(alloc: Global, played: &Played) -> Result<Session, AllocError>
    ensures { IfOk result (λ session. IsSession played.now.session.items session) }
{
    match read_session(alloc, played.session.as_slice()) {
        Ok(session) => Ok(session),
        Err(_) => Err(AllocError),
    }
}

/// Panels whose scripts have run.
pub(crate) fn begun<M: AliasService>(
    answer: Result<Live<M>, BenchFault>,
) -> Result<Live<M>, AllocError>
    ensures { IfOk result (λ live. answer ≡ Ok live) }
{
    match answer {
        Ok(live) => Ok(live),
        Err(_) => Err(AllocError),
    }
}

/// Comes to a moment.
pub(crate) fn reach<M: AliasService>(live: &mut Live<M>, moment: u64) -> Result<(), AllocError>
    ensures history { (calls : List (Call M)) → live.old.held ≡ held_after M.answer calls →
        OnOk result (live.new.held ≡ held_after M.answer (calls ++ AdvanceTo moment ∷ [])) }
{
    match live.advance_to(moment) {
        Ok(()) => Ok(()),
        Err(_) => Err(AllocError),
    }
}

/// Hands on a line.
pub(crate) fn hand_line<M: AliasService>(
    live: &mut Live<M>,
    event: EventLine,
) -> Result<(), AllocError>
    ensures history { (calls : List (Call M)) → live.old.held ≡ held_after M.answer calls →
        OnOk result (live.new.held ≡ held_after M.answer (calls ++ LineAt event.moment event.line ∷ [])) }
{
    match live.line(event) {
        Ok(()) => Ok(()),
        Err(_) => Err(AllocError),
    }
}

/// The section of the panel in a slot.
pub(crate) fn section_of<M: AliasService>(
    live: &Live<M>,
    slot: usize,
) -> Result<Vec<u8>, AllocError>
    ensures history { (calls : List (Call M)) → live.now.held ≡ held_after M.answer calls →
        IfOk result (λ section. slice_get (sections_after M.answer calls) slot ≡ Some section.items) }
{
    match live.section(slot) {
        Ok(section) => Ok(section),
        Err(_) => Err(AllocError),
    }
}

/// Hands on lines, one after another.
pub(crate) fn hand<M: AliasService>(
    live: &mut Live<M>,
    events: &[EventLine],
) -> Result<(), AllocError>
    ensures history { (calls : List (Call M)) → live.old.held ≡ held_after M.answer calls →
        OnOk result (live.new.held ≡ held_after M.answer (calls ++ lining events.now)) }
{
    for event in events {
        hand_line(live, *event)?;
    }
    Ok(())
}

/// The sections of so many panels.
pub(crate) fn sections_now<M: AliasService>(
    alloc: Global,
    live: &Live<M>,
    panels: usize,
) -> Result<Vec<Vec<u8>>, AllocError>
    ensures history { (calls : List (Call M)) → live.now.held ≡ held_after M.answer calls →
        IfOk result (λ sections. map (λ section. section.items) sections.items ≡ take panels (sections_after M.answer calls)) }
{
    let mut sections = Vec::new(alloc);
    for slot in 0..panels {
        sections.push(section_of(live, slot)?)?;
    }
    Ok(sections)
}
