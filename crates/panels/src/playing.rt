//! A bench becomes a session, which is played.

ghost use Rattle.std.specs.Prelude.{◌≡◌, ◌≢◌, ◌≤◌, ◌∷◌, ◌++◌, [], ℕ, List, map, IfOk, IfErr, OnOk};
ghost use Rattle.tk_host.specs.declared.phase.Phase.{Phase};
ghost use Rattle.tk_session.specs.Session.{IsSession};
ghost use Rattle.tkhost.specs.Sections.{program_sections};
ghost use Rattle.tk_host.specs.Held.{Call, Start, held_after};
ghost use Rattle.tk_host.specs.Refusals.{RefusesLine, line_faults};
ghost use Rattle.tk_route.specs.Refusals.{IsFirst, NoneApplies};
ghost use Rattle.tk_alias.specs.Services.{answer_of};
ghost use Rattle.tk_alias.specs.declared.service.Service.{Service};
ghost use Rattle.tkhost.specs.Calls.{adding};
ghost use Rattle.tkhost.specs.Play.{Serve, services_in};
ghost use Rattle.panels.specs.Course.{Ends, IsAt, Way, acted, advanced, begun, course_of, entered, handed, handed_all, performed, section_at, slot_of, went};
ghost use Rattle.panels.specs.Gestures.{outcome_of};
ghost use Rattle.panels.specs.Looks.{told};
ghost use Rattle.panels.specs.Played.{plan_of};
ghost use Rattle.panels.specs.Refusals.{IsRefused, IsSayable, IsWantOfMemory, OfEntry, RefusedAmong, RefusesAct, RefusesEntry, RefusesLines, TakesAct, TakesAll, TakesEntry, TakesLines, UnsaidBy, fault_in, unserved};
ghost use Rattle.panels.specs.Verdict.{sections_in};

use crate::bench::{Act, Answer, Bench, Entry, Gesture};
use crate::course::Course;
use crate::ending::{Ending, endings_of};
use crate::finding::{Finding, Found};
use crate::gesture::{Outcome, outcome_of};
use crate::look::push_unseen;
use crate::screen::Screen;
use crate::verdict::sections_of;
use std::alloc::{AllocError, AllocFailed, Global};
use tk_host::{AliasService, Aliases, Host, HostFault};
use tk_session::{AppBlock, EventLine, HostLine, LineFault, Session, WritingFault, write_session};
use tkhost::{PlayFault, Unplayed, filled, own_services, play_or_tell};

/// Why a bench isn't played to its end.
#[derive(Drop)]
pub enum BenchFault {
    /// Its panels and its lines are no session.
    NoSession(WritingFault),
    /// The host refuses what this entry does, from 0 on.
    Refused { entry: usize, fault: LineFault },
    /// Memory was refused to the panel in a slot, while panels ran.
    Unserved { slot: usize },
    /// Memory was refused.
    NoMemory,
}

impl From<AllocError> for BenchFault {
    ghost use Rattle.panels.specs.declared.playing.BenchFault.{BenchFault};

    ghost from_gives = { λ _ e. e ≡ BenchFault.NoMemory };

    fn from(_refused: AllocError) -> BenchFault {
        BenchFault::NoMemory
    }
}

impl From<PlayFault> for BenchFault {
    ghost use Rattle.panels.specs.declared.playing.BenchFault.{BenchFault};

    ghost from_gives = { λ _ e. e ≡ BenchFault.NoMemory };

    /// A text in memory takes all that is written to it.
    fn from(_refused: PlayFault) -> BenchFault {
        BenchFault::NoMemory
    }
}

impl<T: Drop> From<AllocFailed<T>> for BenchFault {
    ghost use Rattle.panels.specs.declared.playing.BenchFault.{BenchFault};

    ghost from_gives = { λ _ e. e ≡ BenchFault.NoMemory };

    fn from(_refused: AllocFailed<T>) -> BenchFault {
        BenchFault::NoMemory
    }
}

/// What came of a bench.
#[derive(Drop)]
pub struct Played {
    /// The lines that its gestures became.
    pub events: Vec<EventLine>,
    /// What wasn't as it had to be, in the order of the entries.
    pub findings: Vec<Finding>,
    /// The session that it is.
    pub session: Vec<u8>,
    /// All that this session writes.
    pub output: Vec<u8>,
    /// The section of each panel at the end, cut out of that.
    pub sections: Vec<Vec<u8>>,
    /// How each panel ended, by its slot.
    pub endings: Vec<Ending>,
}

/// Memory was refused, to the panel in this slot where it is known.
fn unserved(asker: Option<usize>) -> BenchFault
    ensures who { result ≡ unserved asker }
    ensures memory { IsWantOfMemory result }
{
    match asker {
        Some(slot) => BenchFault::Unserved { slot },
        None => BenchFault::NoMemory,
    }
}

/// What the host refuses in an entry. `asker` is the panel that asked for memory, where it is want of memory.
fn refused(entry: usize, asker: Option<usize>, fault: HostFault) -> BenchFault
    ensures { result ≡ fault_in entry asker fault }
{
    match fault {
        HostFault::NoMemory => unserved(asker),
        HostFault::Refused(fault) => BenchFault::Refused { entry, fault },
    }
}

/// The section of the panel in a slot; nothing where the slot has none. Else a host refuses it only once memory was refused.
fn section_at<M: AliasService>(
    alloc: Global,
    host: &Host<M>,
    slot: usize,
) -> Result<Vec<u8>, BenchFault>
    ensures memory { IfErr result (λ fault. fault ≡ BenchFault.NoMemory) }
    ensures section { (calls : List (Call M)) → host.now.held ≡ held_after M.answer calls → IfOk result (λ section. section.items ≡ section_at M.answer calls slot) }
{
    match host.section(slot) {
        Ok(section) => Ok(section),
        Err(HostFault::Refused(LineFault::NoApp)) => Ok(Vec::new(alloc)),
        Err(_) => Err(BenchFault::NoMemory),
    }
}

/// Hands the host a line of an entry.
fn hand<M: AliasService>(
    host: &mut Host<M>,
    course: &mut Course,
    entry: usize,
    event: EventLine,
) -> Result<(), BenchFault>
    requires begun { host.old.held.phase ≢ Phase.Adding }
    ensures begun { OnOk result (host.new.held.phase ≢ Phase.Adding) }
    ensures course { (way : Way M) → IsAt M.answer way host.old.held course.old → OnOk result (IsAt M.answer (handed event way) host.new.held course.new) }
    ensures taken { OnOk result (NoneApplies (RefusesLine host.old.held event.moment event.line) line_faults) }
    ensures refused { IfErr result (OfEntry (IsFirst (RefusesLine host.old.held event.moment event.line) line_faults) entry) }
{
    if let Err(fault) = host.line(event.moment, event.line) {
        return Err(refused(entry, host.asker(), fault));
    }
    course.screen.take(event.line);
    Ok(course.events.push(event)?)
}

/// Hands the host the lines of an entry, one after another.
fn hand_all<M: AliasService>(
    host: &mut Host<M>,
    course: &mut Course,
    entry: usize,
    moment: u64,
    lines: &[HostLine],
) -> Result<(), BenchFault>
    requires begun { host.old.held.phase ≢ Phase.Adding }
    ensures begun { OnOk result (host.new.held.phase ≢ Phase.Adding) }
    ensures course { (way : Way M) → IsAt M.answer way host.old.held course.old → OnOk result (IsAt M.answer (handed_all moment lines.now way) host.new.held course.new) }
    ensures taken { (way : Way M) → IsAt M.answer way host.old.held course.old → OnOk result (TakesLines M.answer moment lines.now way) }
    ensures refused { (way : Way M) → IsAt M.answer way host.old.held course.old → IfErr result (OfEntry (RefusesLines M.answer moment lines.now way) entry) }
{
    for line in lines {
        let event = EventLine {
            moment,
            line: *line,
        };
        hand(host, course, entry, event)?;
    }
    Ok(())
}

/// The slot of the panel that a gesture is for; the first where it is for none.
fn slot_of(gesture: &Gesture) -> usize
    ensures { result ≡ slot_of gesture.now }
{
    match gesture {
        Gesture::Pointer(pointing) => pointing.target.slot,
        Gesture::Keys(_) | Gesture::Lines(_) => 0,
    }
}

/// Does a gesture.
fn perform<M: AliasService>(
    alloc: Global,
    host: &mut Host<M>,
    course: &mut Course,
    entry: usize,
    moment: u64,
    gesture: &Gesture,
) -> Result<(), BenchFault>
    requires begun { host.old.held.phase ≢ Phase.Adding }
    ensures begun { OnOk result (host.new.held.phase ≢ Phase.Adding) }
    ensures course { (way : Way M) → IsAt M.answer way host.old.held course.old → OnOk result (IsAt M.answer (let section = section_at M.answer way.calls (slot_of gesture.now) in performed entry moment section (outcome_of gesture.now way.rects way.keys way.pointer section) way) host.new.held course.new) }
    ensures taken { (way : Way M) → IsAt M.answer way host.old.held course.old → OnOk result (TakesAct M.answer moment (Act.Do gesture.now) way) }
    ensures refused { (way : Way M) → IsAt M.answer way host.old.held course.old → IfErr result (OfEntry (RefusesAct M.answer moment (Act.Do gesture.now) way) entry) }
{
    let section = section_at(alloc, host, slot_of(gesture))?;
    match outcome_of(alloc, gesture, &course.screen, section.as_slice())? {
        Outcome::Lines(lines) => hand_all(host, course, entry, moment, lines.as_slice()),
        Outcome::Missed(miss) => Ok(
            course.findings.push(Finding {
                entry,
                found: Found::Missed(miss),
                section,
                answer: Answer::Nothing,
            })?,
        ),
    }
}

/// Comes to the moment of an entry, and does what it says.
fn enter<M: AliasService>(
    alloc: Global,
    host: &mut Host<M>,
    course: &mut Course,
    number: usize,
    entry: &Entry,
) -> Result<(), BenchFault>
    requires begun { host.old.held.phase ≢ Phase.Adding }
    ensures begun { OnOk result (host.new.held.phase ≢ Phase.Adding) }
    ensures course { (way : Way M) → IsAt M.answer way host.old.held course.old → OnOk result (IsAt M.answer (entered M.answer number entry.now way) host.new.held course.new) }
    ensures taken { (way : Way M) → IsAt M.answer way host.old.held course.old → OnOk result (TakesEntry M.answer entry.now way) }
    ensures refused { (way : Way M) → IsAt M.answer way host.old.held course.old → IfErr result (OfEntry (RefusesEntry M.answer entry.now way) number) }
{
    if let Err(fault) = host.advance_to(entry.moment) {
        return Err(refused(number, host.asker(), fault));
    }
    match &entry.act {
        Act::Do(gesture) => perform(alloc, host, course, number, entry.moment, gesture),
        Act::See { slot, looks } => {
            let section = section_at(alloc, host, *slot)?;
            let findings = &mut course.findings;
            Ok(push_unseen(
                alloc,
                host,
                *slot,
                number,
                looks.as_slice(),
                section.as_slice(),
                findings,
            )?)
        }
    }
}

/// Goes through the entries of a bench.
fn go_through<M: AliasService>(
    alloc: Global,
    host: &mut Host<M>,
    course: &mut Course,
    entries: &[Entry],
) -> Result<(), BenchFault>
    requires begun { host.old.held.phase ≢ Phase.Adding }
    ensures begun { OnOk result (host.new.held.phase ≢ Phase.Adding) }
    ensures course { (way : Way M) → IsAt M.answer way host.old.held course.old → OnOk result (IsAt M.answer (went M.answer 0 entries.now way) host.new.held course.new) }
    ensures taken { (way : Way M) → IsAt M.answer way host.old.held course.old → OnOk result (TakesAll M.answer 0 entries.now way) }
    ensures refused { (way : Way M) → IsAt M.answer way host.old.held course.old → IfErr result (RefusedAmong M.answer 0 entries.now way) }
{
    for (number, entry) in entries.iter().enumerate() {
        enter(alloc, host, course, number, entry)?;
    }
    Ok(())
}

/// A host that has run the scripts of the panels of a session.
pub(crate) fn started<M: AliasService>(
    alloc: Global,
    session: &Session,
    aliases: Vec<Aliases<M>>,
    slice: u64,
) -> Result<Host<M>, BenchFault>
    requires slice { 1 ≤ slice }
    requires serve { Serve session.now.apps aliases.items }
    ensures begun { IfOk result (λ host. host.held.phase ≢ Phase.Adding) }
    ensures host { IfOk result (λ host. host.held ≡ held_after M.answer (adding session.now.apps aliases.items ++ Start ∷ [])) }
    ensures memory { IfErr result IsWantOfMemory }
{
    let mut host = filled(alloc, session, aliases, slice)?;
    match host.start() {
        Ok(()) => Ok(host),
        // before it has started a host refuses its start for nothing else
        Err(_) => Err(unserved(host.asker())),
    }
}

/// Comes to the end of a bench. An end before the last line is refused where the session is written.
fn come_to_end<M: AliasService>(host: &mut Host<M>, end: u64) -> Result<(), BenchFault>
    requires begun { host.old.held.phase ≢ Phase.Adding }
    ensures memory { IfErr result IsWantOfMemory }
{
    match host.advance_to(end) {
        Ok(()) | Err(HostFault::Refused(_)) => Ok(()),
        Err(HostFault::NoMemory) => Err(unserved(host.asker())),
    }
}

/// What happens on a bench, whose panels are those of a session.
fn course_of<M: AliasService>(
    alloc: Global,
    bench: &Bench,
    session: &Session,
    aliases: Vec<Aliases<M>>,
    slice: u64,
) -> Result<Course, BenchFault>
    requires slice { 1 ≤ slice }
    requires serve { Serve session.now.apps aliases.items }
    ensures ends { IfOk result (λ course. Ends (went M.answer 0 bench.now.entries.items (begun session.now.apps aliases.items)) course) }
    ensures taken { OnOk result (TakesAll M.answer 0 bench.now.entries.items (begun session.now.apps aliases.items)) }
    ensures refused { IfErr result (RefusedAmong M.answer 0 bench.now.entries.items (begun session.now.apps aliases.items)) }
{
    let mut course = Course {
        screen: Screen::new(alloc, session.apps())?,
        events: Vec::new(alloc),
        findings: Vec::new(alloc),
        endings: Vec::new(alloc),
    };
    let mut host = started(alloc, session, aliases, slice)?;
    go_through(alloc, &mut host, &mut course, bench.entries.as_slice())?;
    come_to_end(&mut host, bench.end)?;
    course.endings = endings_of(alloc, &host, session.apps().len())?;
    Ok(course)
}

/// The session of a bench whose gestures became these lines, with its text.
#[tactic(auto, using(crate::proofs::Refused::unsaid))]
pub(crate) fn written(
    alloc: Global,
    bench: &Bench,
    events: &[EventLine],
) -> Result<(Vec<u8>, Session), BenchFault>
    ensures said { IfOk result (λ written. IsSession written.0.items (plan_of bench.now events.now)) }
    ensures read { IfOk result (λ written. written.1 ≡ plan_of bench.now events.now) }
    ensures sayable { OnOk result (IsSayable (plan_of bench.now events.now)) }
    ensures refused { IfErr result (UnsaidBy (plan_of bench.now events.now)) }
{
    match write_session(alloc, bench.panels.as_slice(), events, bench.end) {
        Ok(written) => Ok(written),
        Err(fault) => Err(BenchFault::NoSession(fault)),
    }
}

/// All that a session writes.
fn output_of(alloc: Global, session: &Session, slice: u64) -> Result<Vec<u8>, BenchFault>
    requires slice { 1 ≤ slice }
    ensures output { IfOk result (λ output. output.items ≡ program_sections session.now) }
    ensures memory { IfErr result IsWantOfMemory }
{
    let aliases = own_services(alloc, session)?;
    let mut output = Vec::new(alloc);
    match play_or_tell(alloc, session, aliases, slice, &mut output) {
        Ok(()) => Ok(output),
        // a text in memory takes all that is written to it
        Err(Unplayed::Write) => Err(BenchFault::NoMemory),
        Err(Unplayed::NoMemory(asker)) => Err(unserved(asker)),
    }
}

/// The section of each panel of a bench at its end, where its gestures became these lines. Refused are, in this order: panels that can't stand side by side
/// in a session, the first line that may not stand in it, and an end before the last of them.
pub fn sections_with(
    alloc: Global,
    bench: &Bench,
    events: &[EventLine],
    slice: u64,
) -> Result<Vec<Vec<u8>>, BenchFault>
    requires slice { 1 ≤ slice }
    ensures sections { IfOk result (λ sections. map (λ section. section.items) sections.items ≡ sections_in (program_sections (plan_of bench.now events.now))) }
    ensures refused { IfErr result (UnsaidBy (plan_of bench.now events.now)) }
{
    let (_, plan) = written(alloc, bench, events)?;
    let output = output_of(alloc, &plan, slice)?;
    Ok(sections_of(alloc, output.as_slice())?)
}

/// Plays a bench, each panel at most `slice` steps at a time, with the program's own services: entry by entry, where a gesture becomes the
/// lines of a session that lead to where its window lies at that moment. These lines and the panels are a session, which is written, read again and played.
///
/// How its panels ended is noted by the host that took these entries, once it has come to the end.
///
/// Refused are, in this order: panels that can't stand side by side in a session, the first entry that the host refuses, and an end before the last of them.
#[tactic(auto, using(crate::proofs::Refused::refused_first, crate::proofs::Refused::refused_among, crate::proofs::Refused::refused_last))]
pub fn play(alloc: Global, bench: &Bench, slice: u64) -> Result<Played, BenchFault>
    requires slice { 1 ≤ slice }
    ensures session { IfOk result (λ played. IsSession played.session.items (plan_of bench.now played.events.items)) }
    ensures output { IfOk result (λ played. played.output.items ≡ program_sections (plan_of bench.now played.events.items)) }
    ensures course { IfOk result (λ played. let way = course_of (λ (service : Service). answer_of service.kind service.config) bench.now (map services_in bench.now.panels.items) in
        (played.events.items ≡ way.events) × (map told played.findings.items ≡ way.found)) }
    ensures sections { IfOk result (λ played. map (λ section. section.items) played.sections.items ≡ sections_in played.output.items) }
    ensures refused { IfErr result (IsRefused (λ (service : Service). answer_of service.kind service.config) bench.now (map services_in bench.now.panels.items)) }
{
    let (_, begun) = written(alloc, bench, &[])?;
    let aliases = own_services(alloc, &begun)?;
    let course = course_of(alloc, bench, &begun, aliases, slice)?;
    let (text, session) = written(alloc, bench, course.events.as_slice())?;
    let output = output_of(alloc, &session, slice)?;
    let sections = sections_of(alloc, output.as_slice())?;
    Ok(Played {
        events: course.events,
        findings: course.findings,
        session: text,
        output,
        sections,
        endings: course.endings,
    })
}
