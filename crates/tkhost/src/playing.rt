ghost use Rattle.std.specs.Prelude.{◌≡◌, ◌≢◌, ◌≤◌, ℕ, List, [], ◌∷◌, ◌++◌, flat_map, length, Option, IfOk, IfErr, OnOk, OnErr, IsErr};
ghost use Rattle.std.specs.Io.KnownBytes.{Appends};
ghost use Rattle.tk_app.specs.Section.{section};
ghost use Rattle.tk_route.specs.Lines.{values};
ghost use Rattle.tk_host.specs.declared.phase.Phase.TheVariants.{Reached as reached_at, Lost as lost};
ghost use Rattle.tk_host.specs.Held.{Call, AddApp, Start, End, held_after};
ghost use Rattle.tk_route.specs.Refusals.{NoneApplies};
ghost use Rattle.tk_host.specs.Refusals.{RefusesApp, add_faults};
ghost use Rattle.tk_session.specs.Session.{AreAllowed, rects_of};
ghost use Rattle.tkhost.specs.Output.{AppendsFront};
ghost use Rattle.tkhost.specs.Calls.{adding, given_of, lining};
ghost use Rattle.tk_app.specs.Commands.{Update};
ghost use Rattle.tk_app.specs.Dispatch.{Action};
ghost use Rattle.tk_app.specs.Settle.{IsSettle, IsUpdate};
ghost use Rattle.tkhost.specs.Play.{Serve, sections_by};
ghost use Rattle.tkhost.specs.Sections.{sections_of};

use crate::output::write_whole;
use std::alloc::{AllocError, Global};
use std::io::Write;
use thiserror::Error;
use tk_host::{AliasService, Aliases, Host, HostFault};
use tk_session::{AppBlock, EventLine, Session};

/// Why a session was not played to its end, or its sections not written.
#[derive(Clone, Copy, Debug, PartialEq, Eq, Drop, Error)]
pub enum PlayFault {
    /// The writer failed or took nothing.
    #[error("write fault")]
    Write,
    /// Memory was refused.
    #[error("out of memory")]
    NoMemory,
}

impl From<AllocError> for PlayFault {
    ghost use Rattle.tkhost.specs.declared.playing.PlayFault.{PlayFault};

    ghost from_gives = { λ _ e. e ≡ PlayFault.NoMemory };

    fn from(_refused: AllocError) -> PlayFault {
        PlayFault::NoMemory
    }
}

/// The same, with the slot of the application that asked for the memory, if one did.
#[derive(Clone, Copy, Debug, PartialEq, Eq)]
pub enum Unplayed {
    Write,
    NoMemory(Option<usize>),
}

impl From<PlayFault> for Unplayed {
    ghost use Rattle.std.specs.Prelude.{◌≡◌};
    ghost use Rattle.tkhost.specs.Output.{unasked};

    ghost from_gives = { λ fault e. e ≡ unasked fault };

    fn from(fault: PlayFault) -> Unplayed {
        match fault {
            PlayFault::Write => Unplayed::Write,
            PlayFault::NoMemory => Unplayed::NoMemory(None),
        }
    }
}

/// What a host answered that refuses only for want of memory.
fn unless_memory<T: Drop>(answer: Result<T, HostFault>) -> Result<T, PlayFault>
    requires { IfErr answer (λ fault. fault ≡ HostFault.NoMemory) }
    ensures ok { IfOk result (λ value. answer ≡ Ok value) }
    ensures memory { IfErr result (λ fault. fault ≡ PlayFault.NoMemory) }
    ensures refused { OnErr result (IsErr answer) }
{
    match answer {
        Ok(value) => Ok(value),
        Err(HostFault::NoMemory) => Err(PlayFault::NoMemory),
        Err(_) => unreachable!(),
    }
}

/// Adds an application that the host takes, with these aliases.
fn add<M: AliasService>(
    host: &mut Host<M>,
    app: &AppBlock,
    aliases: Aliases<M>,
) -> Result<(), PlayFault>
    requires { NoneApplies (RefusesApp host.old.held (given_of app.now aliases)) add_faults }
    ensures history { (calls : List (Call M)) → host.old.held ≡ held_after M.answer calls
        → OnOk result (host.new.held ≡ held_after M.answer (calls ++ AddApp (given_of app.now aliases) ∷ [])) }
    ensures memory { IfErr result (λ fault. fault ≡ PlayFault.NoMemory) }
{
    let name = app.name.copy()?;
    let script = app.script.copy()?;
    unless_memory(host.add_app(name, app.rect, script, app.budget, aliases))
}

/// Adds applications that may stand side by side, each with its aliases.
fn add_all<M: AliasService>(
    host: &mut Host<M>,
    apps: &[AppBlock],
    aliases: Vec<Aliases<M>>,
) -> Result<(), PlayFault>
    requires empty { host.old.held ≡ held_after M.answer [] }
    requires allowed { AreAllowed [] apps.now }
    requires serve { Serve apps.now aliases.items }
    ensures added { OnOk result (host.new.held ≡ held_after M.answer (adding apps.now aliases.items)) }
    ensures memory { IfErr result (λ fault. fault ≡ PlayFault.NoMemory) }
{
    let mut lists = aliases.into_iter();
    for app in apps {
        let Some(list) = lists.next() else {
            unreachable!();
        };
        add(host, app, list)?;
    }
    Ok(())
}

/// Hands the events of a session to a host whose applications have these rectangles and have just been started. They were tested where the
/// session was read.
fn line_all<M: AliasService>(host: &mut Host<M>, session: &Session) -> Result<(), PlayFault>
    requires phase { host.old.held.phase ≡ reached_at 0 }
    requires known { host.old.held.known ≡ values (rects_of session.now.apps) [] }
    ensures history { (calls : List (Call M)) → host.old.held ≡ held_after M.answer calls
        → OnOk result (host.new.held ≡ held_after M.answer (calls ++ lining session.now.events)) }
    ensures memory { IfErr result (λ fault. fault ≡ PlayFault.NoMemory) }
{
    for event in session.events() {
        host.tested_line(event.moment, event.line)?;
    }
    Ok(())
}

/// A host to which the applications of a session were added, each with its aliases, and which has still to start. It is refused for want of memory alone.
pub fn filled<M: AliasService>(
    alloc: Global,
    session: &Session,
    aliases: Vec<Aliases<M>>,
    slice: u64,
) -> Result<Host<M>, PlayFault>
    requires slice { 1 ≤ slice }
    requires serve { Serve session.now.apps aliases.items }
    ensures host { IfOk result (λ host. host.held ≡ held_after M.answer (adding session.now.apps aliases.items)) }
    ensures memory { IfErr result (λ fault. fault ≡ PlayFault.NoMemory) }
{
    let mut host = Host::new(alloc, slice)?;
    add_all(&mut host, session.apps(), aliases)?;
    Ok(host)
}

/// The host runs the applications of a session that were added to it, hands them its events, and comes to its end. It is refused for want of memory alone.
pub fn run_through<M: AliasService>(host: &mut Host<M>, session: &Session) -> Result<(), PlayFault>
    requires { (lists : List (List (List ℕ × M))) × Serve session.now.apps lists × (host.old.held ≡ held_after M.answer (adding session.now.apps lists)) }
    ensures history { (calls : List (Call M)) → host.old.held ≡ held_after M.answer calls
        → OnOk result (host.new.held ≡ held_after M.answer (calls ++ Start ∷ (lining session.now.events ++ End session.now.end ∷ []))) }
    ensures memory { IfErr result (λ fault. fault ≡ PlayFault.NoMemory) }
{
    unless_memory(host.start())?;
    line_all(host, session)?;
    unless_memory(host.end(session.end()))
}

/// The sections of all applications of a host, one after another.
fn sections<M: AliasService>(
    alloc: Global,
    host: &Host<M>,
    count: usize,
) -> Result<Vec<u8>, PlayFault>
    requires whole { host.now.held.phase ≢ lost }
    requires count { count ≡ length host.now.held.parts }
    ensures text { IfOk result (λ text. text.items ≡ flat_map (λ part. section part.application) host.now.held.parts) }
    ensures memory { IfErr result (λ fault. fault ≡ PlayFault.NoMemory) }
{
    let mut text = Vec::new(alloc);
    for slot in 0..count {
        let section = unless_memory(host.section(slot))?;
        text.extend_from_slice(section.as_slice())?;
    }
    Ok(text)
}

/// Runs a session's applications in a host that they were added to. Where memory is refused it tells to whom.
fn run_or_tell<M: AliasService>(host: &mut Host<M>, session: &Session) -> Result<(), Unplayed>
    requires { (lists : List (List (List ℕ × M))) × Serve session.now.apps lists × (host.old.held ≡ held_after M.answer (adding session.now.apps lists)) }
    ensures history { (calls : List (Call M)) → host.old.held ≡ held_after M.answer calls
        → OnOk result (host.new.held ≡ held_after M.answer (calls ++ Start ∷ (lining session.now.events ++ End session.now.end ∷ []))) }
    ensures memory { IfErr result (λ why. why ≡ Unplayed.NoMemory host.new.asker) }
{
    match run_through(host, session) {
        Ok(()) => Ok(()),
        Err(_) => Err(Unplayed::NoMemory(host.asker())),
    }
}

fn text_of<M: AliasService>(
    alloc: Global,
    session: &Session,
    aliases: Vec<Aliases<M>>,
    slice: u64,
) -> Result<Vec<u8>, Unplayed>
    requires slice { 1 ≤ slice }
    requires serve { Serve session.now.apps aliases.items }
    ensures text { IfOk result (λ text. text.items ≡ sections_of M.answer session.now aliases.items) }
    ensures memory { IfErr result (λ why. why ≢ Unplayed.Write) }
{
    let mut host = filled(alloc, session, aliases, slice)?;
    run_or_tell(&mut host, session)?;
    let text = sections(alloc, &host, session.apps().len())?;
    Ok(text)
}

/// Plays a session as [`play`] does, and where memory was refused while applications ran tells the slot of the one that asked for it.
pub fn play_or_tell<M: AliasService, W: Write>(
    alloc: Global,
    session: &Session,
    aliases: Vec<Aliases<M>>,
    slice: u64,
    writer: &mut W,
) -> Result<(), Unplayed>
    requires slice { 1 ≤ slice }
    requires serve { Serve session.now.apps aliases.items }
    ensures sections { OnOk result (Appends (W.contents writer.old) (W.contents writer.new) (sections_of M.answer session.now aliases.items)) }
    ensures write { result ≡ Err Unplayed.Write
        → AppendsFront (W.contents writer.old) (W.contents writer.new) (sections_of M.answer session.now aliases.items) }
    ensures no_memory { (asker : Option ℕ) → result ≡ Err (Unplayed.NoMemory asker) → writer.new ≡ writer.old }
{
    let text = text_of(alloc, session, aliases, slice)?;
    match write_whole(writer, text.as_slice()) {
        Ok(()) => Ok(()),
        Err(_) => Err(Unplayed::Write),
    }
}

/// Plays a session, each application at most `slice` steps at a time, and writes their sections once all have come to the end. The lists of
/// aliases are those of the applications, in their order: each has the names of its application's alias lines. `NoMemory` comes before a
/// byte went out, and `Write` where the writer fails or takes nothing; neither has a number.
///
/// What each application's section is rests on its own name, size, script, budget and aliases, on the events that are routed to it, and on
/// the moment of the end: on nothing that another does. What is done at a moment is what *Settle*'s equation says, the first item that exists of a
/// queued event, a due timer, a layout that changes something and a round of idle scripts, again and again; `update` in a script is the same without
/// the test for the main window. Whatever meets these two equations gives these sections.
pub fn play<M: AliasService, W: Write>(
    alloc: Global,
    session: &Session,
    aliases: Vec<Aliases<M>>,
    slice: u64,
    writer: &mut W,
) -> Result<(), PlayFault>
    requires slice { 1 ≤ slice }
    requires serve { Serve session.now.apps aliases.items }
    ensures sections { (update : Update) → IsUpdate update → (settle : Action) → IsSettle update settle
        → OnOk result (Appends (W.contents writer.old) (W.contents writer.new) (sections_by M.answer update settle session.now aliases.items)) }
    ensures by_job { OnOk result (Appends (W.contents writer.old) (W.contents writer.new) (sections_of M.answer session.now aliases.items)) }
    ensures write { result ≡ Err PlayFault.Write
        → AppendsFront (W.contents writer.old) (W.contents writer.new) (sections_of M.answer session.now aliases.items) }
    ensures no_memory { result ≡ Err PlayFault.NoMemory → writer.new ≡ writer.old }
{
    match play_or_tell(alloc, session, aliases, slice, writer) {
        Ok(()) => Ok(()),
        Err(Unplayed::Write) => Err(PlayFault::Write),
        Err(Unplayed::NoMemory(_)) => Err(PlayFault::NoMemory),
    }
}
