ghost use Rattle.std.specs.Prelude.{◌≡◌};
ghost use Rattle.tk_panel.specs.Shared.{panel_of};
ghost use Rattle.tk_app.specs.Moments.{state_after};
ghost use Rattle.tk_app.specs.Turns.{end_as, end_of};

use crate::aliases::command_names;
use crate::state::{AppEnd, AppState};
use crate::turn::run;
use std::alloc::{AllocError, Global};
use std::marker::Model;
use tcl_interp::{CommandPlace, ErrorNote, Interp, SliceEnd, Task};
use tcl_text::Text;
use tcl_vars::Scopes;
use tk_alias::{AliasService, Aliases};
use tk_base::Budget;
use tk_commands::settling;
use tk_panel::{Home, Job, Tables, is_closed};

/// Whether something is under way.
#[derive(Clone, Copy, Debug, PartialEq, Eq)]
pub enum Progress {
    /// Nothing is.
    Resting,
    /// It has more to do.
    Going,
    /// Memory was refused in it.
    Lost,
}

/// What of an application isn't in the tables: its name, its aliases, its variables, and its interpreter with what it still has to do.
pub struct Runner<M: AliasService> {
    name: Text,
    aliases: Aliases<M>,
    budget: Budget,
    scopes: Scopes,
    interp: Interp<Task<Job>>,
    state: AppState,
    progress: Progress,
    stopped: Option<u64>,
}

impl<M: AliasService> Model for Runner<M> {
    ghost use Rattle.std.specs.Prelude.{◌≡◌};
    ghost use Rattle.tcl_interp.specs.Interp.{budget_of, rest_of};
    ghost use Rattle.tk_app.specs.Turns.{IsAsFar, Program, program_with};

    ghost Value = { Program M };

    ghost view = { λ r. program_with r.name r.aliases r.budget r.scopes r.interp r.state };

    ghost invariant = { λ r. IsAsFar r.progress r.state (rest_of r.interp) × (budget_of r.interp ≡ r.budget.total) };
}

/// What has become of an application that ran, once nothing is under way: it is closed where its main window is gone.
fn state_after(tables: &Tables, slot: usize) -> AppState
    ensures { result ≡ state_after (panel_of slot tables.now) }
{
    if is_closed(tables, slot) {
        AppState::Closed
    } else {
        AppState::Running
    }
}

/// How a turn ends, by how the interpreter's slice does, where the main window is still there.
fn end_of(end: SliceEnd) -> AppEnd
    ensures { result ≡ end_of end }
{
    match end {
        SliceEnd::Done(_code, _text) => AppEnd::Settled,
        SliceEnd::More => AppEnd::More,
        SliceEnd::Exhausted => AppEnd::Stopped,
    }
}

/// How a turn ends once nothing is under way.
fn end_as(state: AppState) -> AppEnd
    ensures { result ≡ end_as state }
{
    match state {
        AppState::Running => AppEnd::Settled,
        AppState::Exhausted | AppState::Closed => AppEnd::Stopped,
    }
}

impl<M: AliasService> Runner<M> {
    ghost use Rattle.std.specs.Prelude.{◌≡◌, ◌≢◌, ◌<◌, ◌≤◌, ◌+◌, ◌↔◌, ◌⊎◌, IfOk, IsTrue, OnErr, OnOk};
    ghost use Rattle.tk_panel.specs.Others.{others_of};
    ghost use Rattle.tk_panel.specs.Shared.{panel_of};
    ghost use Rattle.tk_app.specs.declared.state.AppState.TheVariants.{Running};
    ghost use Rattle.tk_app.specs.Moments.{granted};
    ghost use Rattle.tk_app.specs.Part.{Rests, is_under_way, settling_as};
    ghost use Rattle.tk_app.specs.Turns.{TakesTurn, beginning, part_of};

    /// An application before its script, with the script as what it has to do.
    pub fn new(
        alloc: Global,
        name: Text,
        script: Text,
        budget: Budget,
        aliases: Aliases<M>,
    ) -> Result<Runner<M>, AllocError>
        ensures { IfOk result (λ runner. runner ≡ beginning name script budget aliases) }
    {
        let commands = command_names(alloc, &aliases)?;
        let mut interp = Interp::new(alloc, budget.total, commands.as_slice())?;
        interp.begin_task(Task::Begins {
            script,
            job: settling(alloc, Home::Settle),
        })?;
        Ok(Runner {
            name,
            aliases,
            budget,
            scopes: Scopes::new(alloc)?,
            interp,
            state: AppState::Running,
            progress: Progress::Going,
            stopped: None,
        })
    }

    /// Its name.
    pub fn name(&self) -> &Text
        ensures { result.now ≡ self.now.name }
    {
        &self.name
    }

    /// Whether this is its name.
    pub fn has_name(&self, name: &Text) -> bool
        ensures { IsTrue result ↔ (self.now.name ≡ name.now) }
    {
        self.name.as_str() == name.as_str()
    }

    /// Its variables.
    pub fn scopes(&self) -> &Scopes
        ensures { result.now ≡ self.now.store }
    {
        &self.scopes
    }

    /// What has become of it. Nothing is under way in one that doesn't run.
    pub fn state(&self) -> AppState
        ensures state { result ≡ self.now.state }
        ensures stops { result ≢ Running → self.now.work ≡ Rests }
    {
        self.state
    }

    /// How many steps are left.
    pub fn steps_left(&self) -> u64
        ensures { result ≡ self.now.steps }
    {
        self.interp.steps_left()
    }

    /// The commands in which it stood as it ran out of steps last, the innermost first.
    pub fn stopped_at(&self) -> &[CommandPlace] {
        self.interp.stopped_at()
    }

    /// The errors that its interpreter noted, notes for people.
    pub fn error_notes(&self) -> &[ErrorNote] {
        self.interp.error_notes()
    }

    /// The moment at which it ran out of steps last, a note for people.
    pub fn stopped_moment(&self) -> Option<u64> {
        self.stopped
    }

    /// Whether it has something to do that has begun.
    pub fn is_under_way(&self) -> bool
        ensures { result ≡ is_under_way self.now.work }
    {
        match (self.state, self.progress) {
            (AppState::Running, Progress::Going) => true,
            _ => false,
        }
    }

    /// Begins to settle, where nothing is under way and it runs.
    pub fn begin(&mut self, alloc: Global) -> Result<(), AllocError>
        ensures ok { OnOk result (self.new ≡ record self.old { work = settling_as self.old.state self.old.work }) }
        ensures err { OnErr result (self.new ≡ self.old) }
    {
        match (self.state, self.progress) {
            (AppState::Running, Progress::Resting) => {
                self.interp
                    .begin_task(Task::Runs(settling(alloc, Home::Settle)))?;
                self.progress = Progress::Going;
                Ok(())
            }
            (AppState::Running, Progress::Lost) => Err(AllocError),
            _ => Ok(()),
        }
    }

    /// Grants the steps of an event, where it runs: what it has of them, it has at most as many as at first. Nothing is under way, or it has all.
    pub fn grant(&mut self) -> Result<(), AllocError>
        requires rests { (self.old.work ≡ Rests) ⊎ (self.old.steps ≡ self.old.budget.total) }
        requires running { self.old.state ≡ Running }
        ensures ok { OnOk result (self.new ≡ record self.old { steps = granted self.old.budget self.old.steps }) }
        ensures err { OnErr result (self.new ≡ self.old) }
    {
        match self.progress {
            Progress::Resting => {
                self.interp.grant(self.budget.refill);
                Ok(())
            }
            Progress::Going => Ok(()),
            Progress::Lost => Err(AllocError),
        }
    }

    /// Goes on with what is under way, for at most so many steps.
    pub fn go_on(
        &mut self,
        tables: &mut Tables,
        slot: usize,
        steps: u64,
    ) -> Result<AppEnd, AllocError>
        requires positive { 0 < steps }
        requires running { self.old.state ≡ Running }
        requires going { self.old.work ≢ Rests }
        ensures turn { IfOk result (λ end. TakesTurn M.answer tables.old.clock steps end (part_of (panel_of slot tables.old) self.old)
            (part_of (panel_of slot tables.new) self.new)) }
        ensures budget { self.new.budget ≡ self.old.budget }
        ensures fewer { self.new.steps ≤ self.old.steps }
        ensures most { self.old.steps ≤ self.new.steps + steps }
        ensures clock { tables.new.clock ≡ tables.old.clock }
        ensures others { others_of slot tables.new ≡ others_of slot tables.old }
    {
        self.progress = Progress::Lost;
        let end = run(
            tables,
            slot,
            &self.aliases,
            &mut self.interp,
            &mut self.scopes,
            steps,
        )?;
        let ended = end_of(end);
        match ended {
            AppEnd::Settled => {
                let state = state_after(tables, slot);
                self.progress = Progress::Resting;
                self.state = state;
                Ok(end_as(state))
            }
            AppEnd::More => {
                self.progress = Progress::Going;
                Ok(AppEnd::More)
            }
            AppEnd::Stopped => {
                self.progress = Progress::Resting;
                self.state = AppState::Exhausted;
                self.stopped = Some(tables.clock.moment());
                Ok(AppEnd::Stopped)
            }
        }
    }
}

/// By hand: a proof sees one call where it is dropped, and not its parts.
impl<M: AliasService> Drop for Runner<M> {
    fn drop(self) {
        let Runner {
            name: _,
            aliases: _,
            budget: _,
            scopes: _,
            interp: _,
            state: _,
            progress: _,
            stopped: _,
        } = self;
    }
}
