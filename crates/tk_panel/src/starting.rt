//! What starts once its step is taken.
ghost use Rattle.std.specs.Prelude.{◌≡◌, IfOk};
ghost use Rattle.tk_panel.specs.Shared.{LeavesOthers, panel_of};
ghost use Rattle.tk_panel.specs.Start.{idle_taken, start, start_rest, timer_taken, without_event};
ghost use Rattle.tk_after.specs.Timers.{entry_with, first_due};

use crate::Numbers;
use crate::job::{Home, Job, Rest};
use crate::tables::Tables;
use std::alloc::AllocError;
use tcl_text::Text;

/// A script that is no event's, and the job behind it.
fn without_event(script: Text, rest: Rest) -> (Text, Job)
    ensures { result ≡ (script, without_event rest) }
{
    (script, Job { event: None, rest })
}

/// The timer that is due leaves the table.
fn start_timer(
    tables: &mut Tables,
    slot: usize,
    round: Numbers,
    home: Home,
) -> Result<(Text, Job), AllocError>
    ensures own { IfOk result (λ started. (panel_of slot tables.new, started)
        ≡ timer_taken (Rest.Rounds round home) (panel_of slot tables.old)
        (first_due (panel_of slot tables.old).moment (panel_of slot tables.old).timers.entries)) }
    ensures others { LeavesOthers slot tables.old tables.new }
{
    let moment = tables.clock.moment();
    let rest = Rest::Rounds { round, home };
    match tables.timers.take_due(slot, moment) {
        Some((_id, script)) => Ok(without_event(script, rest)),
        None => Ok(without_event(Text::empty(), rest)),
    }
}

/// An idle script leaves the table.
fn start_idle(
    tables: &mut Tables,
    slot: usize,
    id: u64,
    round: Numbers,
    home: Home,
) -> Result<(Text, Job), AllocError>
    ensures own { IfOk result (λ started. (panel_of slot tables.new, started)
        ≡ idle_taken id (Rest.Rounds round home) (panel_of slot tables.old) (entry_with id (panel_of slot tables.old).timers.entries)) }
    ensures others { LeavesOthers slot tables.old tables.new }
{
    let rest = Rest::Rounds { round, home };
    match tables.timers.cancel(slot, id) {
        Some(script) => Ok(without_event(script, rest)),
        None => Ok(without_event(Text::empty(), rest)),
    }
}

/// Where no event is under way: the timer that is due, or the first idle script of the round.
fn start_rest(tables: &mut Tables, slot: usize, rest: Rest) -> Result<(Text, Job), AllocError>
    ensures own { IfOk result (λ started. (panel_of slot tables.new, started) ≡ start_rest rest (panel_of slot tables.old)) }
    ensures others { LeavesOthers slot tables.old tables.new }
{
    match rest {
        Rest::Rounds { round, home } => {
            let mut round = round;
            match round.take_next() {
                Some(id) => start_idle(tables, slot, id, round, home),
                None => start_timer(tables, slot, round, home),
            }
        }
        other => Ok(without_event(Text::empty(), other)),
    }
}

/// What a job waited for starts, its step being taken: the script that runs, and the job behind it. A timer or an idle script leaves its table now.
pub fn start(tables: &mut Tables, slot: usize, job: Job) -> Result<(Text, Job), AllocError>
    ensures own { IfOk result (λ started. (panel_of slot tables.new, started) ≡ start job (panel_of slot tables.old)) }
    ensures others { LeavesOthers slot tables.old tables.new }
{
    let Job { event, rest } = job;
    if let Some(scripts) = event {
        let mut scripts = scripts;
        if let Some(script) = scripts.take_next() {
            return Ok((
                script,
                Job {
                    event: Some(scripts),
                    rest,
                },
            ));
        }
    }
    start_rest(tables, slot, rest)
}
