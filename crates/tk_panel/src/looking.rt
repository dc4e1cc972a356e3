//! What comes next of a job.
ghost use Rattle.std.specs.Prelude.{◌≡◌, IfOk};
ghost use Rattle.tk_panel.specs.Next.{next, next_rest};
ghost use Rattle.tk_panel.specs.Shared.{LeavesOthers, panel_of};

use crate::destroy::destroy_next;
use crate::job::{Job, Rest};
use crate::settle::rounds_next;
use crate::tables::Tables;
use std::alloc::AllocError;
use tcl_vars::Scopes;

/// What comes next where no event is under way.
fn next_rest(
    tables: &mut Tables,
    slot: usize,
    scopes: &Scopes,
    rest: Rest,
) -> Result<Option<Job>, AllocError>
    ensures own { IfOk result (λ job. (panel_of slot tables.new, job) ≡ next_rest rest scopes.now (panel_of slot tables.old)) }
    ensures others { LeavesOthers slot tables.old tables.new }
{
    match rest {
        Rest::Ends => Ok(None),
        Rest::Destroys {
            window,
            doomed,
            paths,
        } => destroy_next(tables, slot, window, doomed, paths),
        Rest::Rounds { round, home } => rounds_next(tables, slot, scopes, round, home),
    }
}

/// What comes next of a job: the job whose next script waits for its step, or none where it has ended. What takes no step is done: events without
/// scripts, windows that are removed, layout.
pub fn next(
    tables: &mut Tables,
    slot: usize,
    scopes: &Scopes,
    job: Job,
) -> Result<Option<Job>, AllocError>
    ensures own { IfOk result (λ job'. (panel_of slot tables.new, job') ≡ next job scopes.now (panel_of slot tables.old)) }
    ensures others { LeavesOthers slot tables.old tables.new }
{
    let Job { event, rest } = job;
    if let Some(scripts) = event {
        if scripts.next().is_some() {
            return Ok(Some(Job {
                event: Some(scripts),
                rest,
            }));
        }
    }
    next_rest(tables, slot, scopes, rest)
}
