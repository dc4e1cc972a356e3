//! The course of an application's jobs.
ghost use Rattle.std.specs.Prelude.{◌≡◌, IfOk, OnOk};
ghost use Rattle.tcl_vars.specs.Store.{Store};
ghost use Rattle.tk_panel.specs.Shared.{LeavesOthers, panel_of};
ghost use Rattle.tk_panel.specs.Reports.{with_line};
ghost use Rattle.tk_commands.specs.Calls.{goes_on};
ghost use Rattle.tk_commands.specs.Course.{
  bound_ended,
  destroying,
  ended,
  event_job,
  job_of,
  job_started,
  look,
  looked_of,
  settling,
  with_end,
};

use crate::outcome::Begun;
use std::alloc::{AllocError, Global};
use tcl_control::{STRAY_BREAK, STRAY_CONTINUE};
use tcl_interp::{Act, Code, Looked, Started, Task, act_for};
use tcl_text::Text;
use tcl_text::message::short_text;
use tcl_vars::Scopes;
use tk_panel::{Home, Job, Numbers, Rest, Scripts, Stream, Tables, choose, next, write};

/// The job whose next script waits for its step; a job that has nothing more ends with the empty text.
fn looked_of(job: Option<Job>) -> Looked<Job>
    ensures { result ≡ looked_of job }
{
    match job {
        Some(job) => Looked::Wants(job),
        None => Looked::Ends(Code::Normal, Text::empty()),
    }
}

/// Looks for what comes next of a job.
pub fn look(
    tables: &mut Tables,
    slot: usize,
    scopes: &Scopes,
    job: Job,
) -> Result<Looked<Job>, AllocError>
    ensures own { IfOk result (λ looked. (panel_of slot tables.new, looked) ≡ look (panel_of slot tables.old) scopes.now job) }
    ensures others { LeavesOthers slot tables.old tables.new }
{
    let job = next(tables, slot, scopes, job)?;
    Ok(looked_of(job))
}

/// Starts what a job waited for, whose step is taken.
pub fn start(tables: &mut Tables, slot: usize, job: Job) -> Result<Started<Job>, AllocError>
    ensures own { IfOk result (λ started'. (store : Store) → (panel_of slot tables.new, started') ≡ job_started (panel_of slot tables.old) store job) }
    ensures others { LeavesOthers slot tables.old tables.new }
{
    let (script, job) = tk_panel::start(tables, slot, job)?;
    Ok(Started { script, job })
}

/// The scripts of an event that are still to run, and what comes behind them.
fn event_job(scripts: Scripts, rest: Rest) -> Job
    ensures { result ≡ event_job scripts rest }
{
    Job {
        event: Some(scripts),
        rest,
    }
}

/// A bound script has ended: a break ends the event, and so does an error, which is told.
fn bound_ended(
    tables: &mut Tables,
    slot: usize,
    scripts: Scripts,
    rest: Rest,
    code: Code,
    text: Text,
) -> Result<Job, AllocError>
    ensures own { IfOk result (λ job. (panel_of slot tables.new, job) ≡ bound_ended code text scripts rest (panel_of slot tables.old)) }
    ensures others { LeavesOthers slot tables.old tables.new }
{
    let none = Scripts::none(tables.alloc);
    match code {
        Code::Normal | Code::Return(_) | Code::Continue => Ok(event_job(scripts, rest)),
        Code::Break => Ok(event_job(none, rest)),
        Code::Error => {
            write(tables, slot, Stream::Err, text)?;
            Ok(event_job(none, rest))
        }
    }
}

/// Tells a fault.
fn tell_fault(tables: &mut Tables, slot: usize, fault: &str) -> Result<(), AllocError>
    ensures own { OnOk result (panel_of slot tables.new ≡ with_line Stream.Err fault.now (panel_of slot tables.old)) }
    ensures others { LeavesOthers slot tables.old tables.new }
{
    let text = short_text(tables.alloc, fault)?;
    write(tables, slot, Stream::Err, text)
}

/// Tells how a timer's script, an idle one or the application's own has ended, where it tells of a fault.
fn tell_end(tables: &mut Tables, slot: usize, code: Code, text: Text) -> Result<(), AllocError>
    ensures own { OnOk result (panel_of slot tables.new ≡ with_end code text (panel_of slot tables.old)) }
    ensures others { LeavesOthers slot tables.old tables.new }
{
    match code {
        Code::Normal | Code::Return(_) => Ok(()),
        Code::Error => write(tables, slot, Stream::Err, text),
        Code::Break => tell_fault(tables, slot, STRAY_BREAK),
        Code::Continue => tell_fault(tables, slot, STRAY_CONTINUE),
    }
}

/// Goes on behind a script of a job.
pub fn ended(
    tables: &mut Tables,
    slot: usize,
    job: Job,
    code: Code,
    text: Text,
) -> Result<Job, AllocError>
    ensures own { IfOk result (λ next. (panel_of slot tables.new, next) ≡ ended code text (panel_of slot tables.old) job) }
    ensures others { LeavesOthers slot tables.old tables.new }
{
    let Job { event, rest } = job;
    match event {
        Some(scripts) => bound_ended(tables, slot, scripts, rest, code, text),
        None => {
            tell_end(tables, slot, code, text)?;
            Ok(Job { event: None, rest })
        }
    }
}

/// What is to be done at a moment, where nothing is under way.
pub fn settling(alloc: Global, home: Home) -> Job
    ensures { result ≡ settling home }
{
    Job {
        event: None,
        rest: Rest::Rounds {
            round: Numbers::none(alloc),
            home,
        },
    }
}

/// The windows of these paths are to be destroyed.
fn destroying(alloc: Global, paths: Scripts) -> Job
    ensures { result ≡ destroying paths }
{
    Job {
        event: None,
        rest: Rest::Destroys {
            window: None,
            doomed: Numbers::none(alloc),
            paths,
        },
    }
}

/// The job of what a command begins: the scripts of an event are chosen then.
fn job_of(tables: &mut Tables, slot: usize, begun: Begun) -> Result<Job, AllocError>
    ensures own { IfOk result (λ job. (panel_of slot tables.new, job) ≡ job_of begun (panel_of slot tables.old)) }
    ensures others { LeavesOthers slot tables.old tables.new }
{
    match begun {
        Begun::Updates => Ok(settling(tables.alloc, Home::Update)),
        Begun::UpdatesIdleTasks => Ok(settling(tables.alloc, Home::IdleTasks)),
        Begun::Destroys(paths) => Ok(destroying(tables.alloc, paths)),
        Begun::Dispatches(event) => {
            let scripts = choose(tables, slot, event)?;
            Ok(event_job(scripts, Rest::Ends))
        }
    }
}

/// A command begins something, and goes on with its job.
pub fn begin(
    tables: &mut Tables,
    slot: usize,
    scopes: &Scopes,
    begun: Begun,
) -> Result<Act<Task<Job>>, AllocError>
    ensures own { IfOk result (λ act. record { shows = panel_of slot tables.new; store = scopes.now; act = act }
        ≡ goes_on begun (panel_of slot tables.old) scopes.now) }
    ensures others { LeavesOthers slot tables.old tables.new }
{
    let job = job_of(tables, slot, begun)?;
    let looked = look(tables, slot, scopes, job)?;
    Ok(act_for(looked))
}
