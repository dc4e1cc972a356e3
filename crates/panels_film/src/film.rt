//! What a bench shows from moment to moment.

ghost use Rattle.std.specs.Prelude.{◌≡◌, ◌+◌, ◌≤◌, All, List, length, map, take, IfOk, OnOk};
ghost use Rattle.tk_session.specs.declared.session.EventLine.{EventLine as Event};
ghost use Rattle.tk_alias.specs.Services.{answer_of};
ghost use Rattle.tk_alias.specs.declared.service.Service.{Service as ServiceOf};
ghost use Rattle.tk_host.specs.Held.{Call, held_after};
ghost use Rattle.tk_host.specs.Sections.{sections_after};
ghost use Rattle.tkhost.specs.Play.{services_in};
ghost use Rattle.std.specs.Option.{option_copied};
ghost use Rattle.panels_film.specs.Films.{IsCounted, IsFilm, begun as begun_calls, calls_until, come, earlier, is_alike, is_repeated, later_than, line_behind, moment_behind, shown, shown_at, timer_behind, up_to, with_frame};
ghost use Rattle.panels_film.specs.Looks.{looks_from, told_all};
ghost use Rattle.panels_film.specs.Moments.{count_until};

use crate::looks::{WindowLook, looks_of};
use crate::moments::{between, count_until};
use crate::playing::{begun, hand, reach, sections_now};
use panels::{Live, live_panels, next_due};
use std::alloc::{AllocError, Global};
use tk_host::AliasService;
use tk_session::{EventLine, Session};

/// How many moments are looked at.
const MOST_FRAMES: usize = 500;

/// What the panels show at a moment, when all of it has happened.
#[derive(Drop)]
pub struct Frame {
    /// In milliseconds.
    pub moment: u64,
    /// How many lines of gestures came up to it.
    pub count: usize,
    /// The section of each panel.
    pub sections: Vec<Vec<u8>>,
    /// How the windows of each look, in the order of its section.
    pub looks: Vec<Vec<WindowLook>>,
}

/// What a bench shows from moment to moment.
#[derive(Drop)]
pub struct Film {
    pub frames: Vec<Frame>,
    /// Whether the moments up to the end are in it.
    pub is_whole: bool,
}

/// The earlier of two moments, where they are there.
fn earlier(one: Option<u64>, other: Option<u64>) -> Option<u64>
    ensures { result ≡ earlier one other }
{
    match (one, other) {
        (Some(one), Some(other)) => Some(one.min(other)),
        (Some(one), None) => Some(one),
        (None, other) => other,
    }
}

/// A moment, where it isn't behind the end.
fn up_to(end: u64, moment: Option<u64>) -> Option<u64>
    ensures { result ≡ up_to end moment }
{
    match moment {
        Some(moment) if moment <= end => Some(moment),
        _ => None,
    }
}

/// The first moment after a frame at which a timer is due, up to the end.
fn next_timer(alloc: Global, frame: &Frame, end: u64) -> Result<Option<u64>, AllocError>
    ensures { IfOk result (λ next. next ≡ timer_behind end (shown frame.now)) }
{
    let mut next = None;
    for section in &frame.sections {
        next = earlier(next, next_due(alloc, frame.moment, section.as_slice())?);
    }
    Ok(up_to(end, next))
}

/// Whether two frames show the same.
fn is_alike(one: &Frame, other: &Frame) -> bool
    ensures { result ≡ is_alike one.now other.now }
{
    one.sections.as_slice() == other.sections.as_slice()
        && one.looks.as_slice() == other.looks.as_slice()
}

/// Whether a frame shows the same as one before it, and no line came since.
fn is_repeated(last: Option<&Frame>, frame: &Frame) -> bool
    ensures { result ≡ is_repeated (option_copied last.entry) frame.now }
{
    match last {
        Some(last) => last.count == frame.count && is_alike(last, frame),
        None => false,
    }
}

/// Adds a frame where it shows something else than the last one, or lines came since.
fn push_changed(frames: &mut Vec<Frame>, frame: Frame) -> Result<(), AllocError>
    ensures most { OnOk result (length frames.new.items ≤ length frames.old.items + 1) }
    ensures counted { (events : List Event) → IsCounted events frame → All (IsCounted events) frames.old.items → OnOk result (All (IsCounted events) frames.new.items) }
    ensures frames { OnOk result (frames.new.items ≡ with_frame frames.old.items frame) }
{
    if is_repeated(frames.last(), &frame) {
        return Ok(());
    }
    Ok(frames.push(frame)?)
}

/// How the windows of these sections look, one for each panel.
fn looks_now<M: AliasService>(
    alloc: Global,
    live: &Live<M>,
    sections: &[Vec<u8>],
) -> Result<Vec<Vec<WindowLook>>, AllocError>
    ensures { IfOk result (λ looks. told_all looks.items ≡ looks_from live.now.held 0 (map (λ section. section.items) sections.now)) }
{
    let mut looks = Vec::new(alloc);
    for (slot, section) in sections.iter().enumerate() {
        looks.push(looks_of(alloc, live, slot, section.as_slice())?)?;
    }
    Ok(looks)
}

/// What so many panels show at a moment that they have come to, after so many lines.
fn frame_now<M: AliasService>(
    alloc: Global,
    live: &Live<M>,
    panels: usize,
    moment: u64,
    count: usize,
) -> Result<Frame, AllocError>
    ensures moment { IfOk result (λ frame. frame.moment ≡ moment) }
    ensures count { IfOk result (λ frame. frame.count ≡ count) }
    ensures history { (calls : List (Call M)) → live.now.held ≡ held_after M.answer calls →
        IfOk result (λ frame. map (λ section. section.items) frame.sections.items ≡ take panels (sections_after M.answer calls)) }
    ensures looks { IfOk result (λ frame. told_all frame.looks.items ≡ looks_from live.now.held 0 (map (λ section. section.items) frame.sections.items)) }
{
    let sections = sections_now(alloc, live, panels)?;
    let looks = looks_now(alloc, live, sections.as_slice())?;
    Ok(Frame {
        moment,
        count,
        sections,
        looks,
    })
}

/// Hands on the lines of a session behind so many that come up to a moment, comes to the moment, and tells what its panels show then.
fn frame_next<M: AliasService>(
    alloc: Global,
    live: &mut Live<M>,
    session: &Session,
    before: usize,
    moment: u64,
) -> Result<Frame, AllocError>
    ensures moment { IfOk result (λ frame. frame.moment ≡ moment) }
    ensures count { IfOk result (λ frame. frame.count ≡ count_until moment session.now.events) }
    ensures history { (calls : List (Call M)) → live.old.held ≡ held_after M.answer calls → OnOk result (live.new.held ≡ held_after M.answer (come session.now calls before moment)) }
    ensures shown { (calls : List (Call M)) → live.old.held ≡ held_after M.answer calls →
        IfOk result (λ frame. shown frame ≡ shown_at M.answer session.now (come session.now calls before moment) moment) }
{
    let events = session.events();
    let count = count_until(events, moment);
    hand(live, between(events, before, count))?;
    reach(live, moment)?;
    let frame = frame_now(alloc, live, session.apps().len(), moment, count)?;
    Ok(frame)
}

/// The moment of the first line that hasn't come by a frame.
fn next_line(events: &[EventLine], frame: &Frame) -> Option<u64>
    ensures { result ≡ line_behind events.now (shown frame.now) }
{
    match events.get(frame.count) {
        Some(event) => Some(event.moment),
        None => None,
    }
}

/// A moment, where it is later than another.
fn later_than(moment: u64, other: Option<u64>) -> Option<u64>
    ensures { result ≡ later_than moment other }
{
    match other {
        Some(other) if moment < other => Some(other),
        _ => None,
    }
}

/// The next moment after a frame at which a line of a session comes or a timer is due.
fn next_moment(alloc: Global, session: &Session, frame: &Frame) -> Result<Option<u64>, AllocError>
    ensures { IfOk result (λ next. next ≡ moment_behind session.now (shown frame.now)) }
{
    let timer = next_timer(alloc, frame, session.end())?;
    let next = earlier(timer, next_line(session.events(), frame));
    Ok(later_than(frame.moment, next))
}

/// What the panels of a session show from moment to moment, up to the end, while they are handed its lines.
fn film_of<M: AliasService>(
    alloc: Global,
    mut live: Live<M>,
    session: &Session,
) -> Result<Film, AllocError>
    ensures most { IfOk result (λ film. length film.frames.items ≤ 500) }
    ensures counted { IfOk result (λ film. All (IsCounted session.now.events) film.frames.items) }
    ensures moments { (calls : List (Call M)) → live.held ≡ held_after M.answer calls → IfOk result (IsFilm M.answer session.now calls) }
{
    let mut frames: Vec<Frame> = Vec::new(alloc);
    let (mut moment, mut count) = (0, 0);
    'frames: for _number in 0..MOST_FRAMES {
        let frame = frame_next(alloc, &mut live, session, count, moment)?;
        count = frame.count;
        let next = next_moment(alloc, session, &frame)?;
        push_changed(&mut frames, frame)?;
        match next {
            Some(later) => moment = later,
            None => {
                return Ok(Film {
                    frames,
                    is_whole: true,
                });
            }
        }
    }
    Ok(Film {
        frames,
        is_whole: false,
    })
}

/// What panels show at a moment, while they are handed the lines up to it.
fn frame_of<M: AliasService>(
    alloc: Global,
    mut live: Live<M>,
    session: &Session,
    moment: u64,
) -> Result<Frame, AllocError>
    ensures moment { IfOk result (λ frame. frame.moment ≡ moment) }
    ensures count { IfOk result (λ frame. frame.count ≡ count_until moment session.now.events) }
    ensures shown { (calls : List (Call M)) → live.held ≡ held_after M.answer calls →
        IfOk result (λ frame. shown frame ≡ shown_at M.answer session.now (come session.now calls 0 moment) moment) }
{
    let frame = frame_next(alloc, &mut live, session, 0, moment)?;
    Ok(frame)
}

/// What the panels of a session show at a moment: their scripts have run, the lines up to it were handed on, and what is due by then is done. An error where
/// memory is refused.
pub fn frame_at(
    alloc: Global,
    session: &Session,
    slice: u64,
    moment: u64,
) -> Result<Frame, AllocError>
    ensures moment { IfOk result (λ frame. frame.moment ≡ moment) }
    ensures count { IfOk result (λ frame. frame.count ≡ count_until moment session.now.events) }
    ensures shown { IfOk result (λ frame. shown frame ≡ shown_at (λ (service : ServiceOf). answer_of service.kind service.config) session.now (calls_until session.now moment (map services_in session.now.apps)) moment) }
{
    let live = begun(live_panels(alloc, session, slice.max(1)))?;
    frame_of(alloc, live, session, moment)
}

/// The moments at which something changes on a bench that was played, of which this is the session: the first, those of the lines that its gestures became,
/// and those at which timers are due, of the first so many of these. The panels are played once. An error where memory is refused.
pub fn filmed(alloc: Global, session: &Session, slice: u64) -> Result<Film, AllocError>
    ensures most { IfOk result (λ film. length film.frames.items ≤ 500) }
    ensures counted { IfOk result (λ film. All (IsCounted session.now.events) film.frames.items) }
    ensures moments { IfOk result (IsFilm (λ (service : ServiceOf). answer_of service.kind service.config) session.now (begun_calls session.now (map services_in session.now.apps))) }
{
    let live = begun(live_panels(alloc, session, slice.max(1)))?;
    film_of(alloc, live, session)
}
