//! What comes next at a moment: a queued event, a timer that is due, layout, or an idle script (after(n), update(n)).
ghost use Rattle.std.specs.Prelude.{◌≡◌, IfOk};
ghost use Rattle.tk_panel.specs.Shared.{LeavesOthers, panel_of};
ghost use Rattle.tk_panel.specs.Settle.{after_layout, after_round, at_home, drained, idle_round, is_closed, is_due, queue_or_round, rounds_next, still_waiting, tasks, turn};

use crate::changes::lay_out;
use crate::choice::choose;
use crate::job::{Home, Job, Rest};
use crate::tables::Tables;
use crate::{Numbers, Scripts};
use std::alloc::AllocError;
use tcl_vars::Scopes;

/// Takes queued events, one after another, up to one that has scripts, and answers these; none where no event has any.
#[tactic(auto, unfolding(crate::specs::Settle::drained))]
fn drain(tables: &mut Tables, slot: usize) -> Result<Scripts, AllocError>
    ensures own { IfOk result (λ scripts. (panel_of slot tables.new, scripts) ≡ drained (panel_of slot tables.old).queue (panel_of slot tables.old)) }
    ensures others { LeavesOthers slot tables.old tables.new }
{
    loop {
        let scripts = match tables.queue.pop(slot) {
            Ok(Some(event)) => choose(tables, slot, event)?,
            Ok(None) => return Ok(Scripts::none(tables.alloc)),
            Err(refused) => return Err(refused),
        };
        if scripts.next().is_some() {
            return Ok(scripts);
        }
    }
}

/// Whether a timer is due by the moment.
fn is_due(tables: &Tables, slot: usize) -> bool
    ensures { result ≡ is_due (panel_of slot tables.now).moment (panel_of slot tables.now).timers.entries }
{
    match tables.timers.next_due_of(slot) {
        Some(due) => due <= tables.clock.moment(),
        None => false,
    }
}

/// What is left of a round, from the first idle script on that still waits.
#[tactic(auto, unfolding(crate::specs::Settle::still_waiting))]
fn still_waiting(tables: &Tables, slot: usize, round: Numbers) -> Numbers
    ensures { result ≡ still_waiting round (panel_of slot tables.now).timers.entries }
{
    let mut round = round;
    while let Some(id) = round.next() {
        if tables.timers.entry(slot, id).is_some() {
            return round;
        }
        round.take_next();
    }
    round
}

/// The scripts of an event are next.
fn on_event(scripts: Scripts, round: Numbers, home: Home) -> Option<Job>
    ensures { result ≡ Some (record { event = Some scripts; rest = Rest.Rounds round home }) }
{
    Some(Job {
        event: Some(scripts),
        rest: Rest::Rounds { round, home },
    })
}

/// What a round has next: its first idle script, or a timer where no round is under way.
fn on_round(round: Numbers, home: Home) -> Option<Job>
    ensures { result ≡ Some (record { event = None; rest = Rest.Rounds round home }) }
{
    Some(Job {
        event: None,
        rest: Rest::Rounds { round, home },
    })
}

/// A round of the idle scripts that wait; nothing where none does.
fn idle_round(tables: &Tables, slot: usize, home: Home) -> Result<Option<Job>, AllocError>
    ensures { IfOk result (λ job. (panel_of slot tables.now, job) ≡ idle_round home (panel_of slot tables.now)) }
{
    let round = Numbers::of(tables.timers.idle_round(slot)?);
    if round.next().is_none() {
        return Ok(None);
    }
    Ok(on_round(round, home))
}

/// The scripts of a queued event, or else a round of idle scripts.
#[tactic(auto, unfolding(crate::specs::Settle::queue_or_round))]
fn queue_or_round(tables: &mut Tables, slot: usize, home: Home) -> Result<Option<Job>, AllocError>
    ensures own { IfOk result (λ job. (panel_of slot tables.new, job) ≡ queue_or_round home (panel_of slot tables.old)) }
    ensures others { LeavesOthers slot tables.old tables.new }
{
    let scripts = drain(tables, slot)?;
    if scripts.next().is_some() {
        return Ok(on_event(scripts, Numbers::none(tables.alloc), home));
    }
    idle_round(tables, slot, home)
}

/// Layout, and then the events that it has queued, or a round of idle scripts.
fn after_layout(
    tables: &mut Tables,
    slot: usize,
    scopes: &Scopes,
    home: Home,
) -> Result<Option<Job>, AllocError>
    ensures own { IfOk result (λ job. (panel_of slot tables.new, job) ≡ after_layout home scopes.now (panel_of slot tables.old)) }
    ensures others { LeavesOthers slot tables.old tables.new }
{
    lay_out(tables, slot, scopes)?;
    queue_or_round(tables, slot, home)
}

/// What comes next where no round is under way.
#[tactic(auto, unfolding(crate::specs::Settle::turn))]
fn turn(
    tables: &mut Tables,
    slot: usize,
    scopes: &Scopes,
    home: Home,
) -> Result<Option<Job>, AllocError>
    ensures own { IfOk result (λ job. (panel_of slot tables.new, job) ≡ turn home scopes.now (panel_of slot tables.old)) }
    ensures others { LeavesOthers slot tables.old tables.new }
{
    let scripts = drain(tables, slot)?;
    if scripts.next().is_some() {
        return Ok(on_event(scripts, Numbers::none(tables.alloc), home));
    }
    if is_due(tables, slot) {
        return Ok(on_round(Numbers::none(tables.alloc), home));
    }
    after_layout(tables, slot, scopes, home)
}

/// Whether the application has no main window any more.
pub fn is_closed(tables: &Tables, slot: usize) -> bool
    ensures { result ≡ is_closed (panel_of slot tables.now) }
{
    tables.screen.shown().windows.find(slot, ".").is_none()
}

/// The round of `update idletasks`, or layout where no idle script waits.
fn tasks(tables: &mut Tables, slot: usize, scopes: &Scopes) -> Result<Option<Job>, AllocError>
    ensures own { IfOk result (λ job. (panel_of slot tables.new, job) ≡ tasks scopes.now (panel_of slot tables.old)) }
    ensures others { LeavesOthers slot tables.old tables.new }
{
    let round = Numbers::of(tables.timers.idle_round(slot)?);
    if round.next().is_none() {
        lay_out(tables, slot, scopes)?;
        return Ok(None);
    }
    Ok(on_round(round, Home::LastLayout))
}

/// What comes next behind a round.
fn at_home(
    tables: &mut Tables,
    slot: usize,
    scopes: &Scopes,
    home: Home,
) -> Result<Option<Job>, AllocError>
    ensures own { IfOk result (λ job. (panel_of slot tables.new, job) ≡ at_home home scopes.now (panel_of slot tables.old)) }
    ensures others { LeavesOthers slot tables.old tables.new }
{
    match home {
        Home::Settle => {
            if is_closed(tables, slot) {
                return Ok(None);
            }
            turn(tables, slot, scopes, Home::Settle)
        }
        Home::Update => turn(tables, slot, scopes, Home::Update),
        Home::IdleTasks => {
            lay_out(tables, slot, scopes)?;
            tasks(tables, slot, scopes)
        }
        Home::LastLayout => {
            lay_out(tables, slot, scopes)?;
            Ok(None)
        }
    }
}

/// What comes next of a round of idle scripts, and behind it.
pub fn rounds_next(
    tables: &mut Tables,
    slot: usize,
    scopes: &Scopes,
    round: Numbers,
    home: Home,
) -> Result<Option<Job>, AllocError>
    ensures own { IfOk result (λ job. (panel_of slot tables.new, job) ≡ rounds_next round home scopes.now (panel_of slot tables.old)) }
    ensures others { LeavesOthers slot tables.old tables.new }
{
    let round = still_waiting(tables, slot, round);
    if round.next().is_none() {
        return at_home(tables, slot, scopes, home);
    }
    Ok(on_round(round, home))
}
