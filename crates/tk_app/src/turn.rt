//! What an application's turn and an event make of what it has.
ghost use Rattle.std.specs.Prelude.{◌≡◌, ◌≢◌, ◌<◌, ◌≤◌, ◌+◌, ◌-◌, ◌++◌, ◌⊎◌, IfOk, OnErr, OnOk, Ok};
ghost use Rattle.std.specs.Vec.{vec_capacity, vec_len};
ghost use Rattle.tcl_interp.specs.Finish.{Broken, Idle, finish};
ghost use Rattle.tcl_interp.specs.Interp.{LeavesRest, Reaches, budget_of, left_of, rest_of, state_of};
ghost use Rattle.tk_panel.specs.Others.{others_of};
ghost use Rattle.tk_panel.specs.Shared.{panel_of};
ghost use Rattle.tk_app.specs.Rounds.{one_turn};
ghost use Rattle.tk_app.specs.Outside.{outside};
ghost use Rattle.tk_app.specs.Moments.{delivered, granted};
ghost use Rattle.tk_app.specs.Part.{settling_begun};
ghost use Rattle.tk_app.specs.Seen.{meanings};
ghost use Rattle.tk_app.specs.Turns.{MayGet, TakesTurn, part_of};

use crate::Turn;
use crate::jobs::{AppTables, tables_of};
use crate::runner::Runner;
use crate::state::{AppEnd, AppState};
use std::alloc::AllocError;
use tcl_interp::{Interp, SliceEnd, Task};
use tcl_vars::Scopes;
use tk_alias::{AliasService, Aliases};
use tk_base::LocalEvent;
use tk_panel::{Job, Tables};

/// Does what an interpreter still has to do, through the view of its application.
fn run_view<M: AliasService>(
    view: &mut AppTables<'_, M>,
    interp: &mut Interp<Task<Job>>,
    scopes: &mut Scopes,
    steps: u64,
) -> Result<SliceEnd, AllocError>
    requires positive { 0 < steps }
    requires begun { rest_of interp.old ≢ Idle }
    ensures reached { IfOk result (λ end. Reaches end
        (finish outside (rest_of interp.old)
        (state_of interp.old (record { serves = meanings M.answer view.old.aliases.now; panel = panel_of view.old.slot view.old.tables.now }) scopes.old))
        (state_of interp.new (record { serves = meanings M.answer view.old.aliases.now; panel = panel_of view.old.slot view.new.tables.now }) scopes.new)
        (finish outside (rest_of interp.new)
        (state_of interp.new (record { serves = meanings M.answer view.old.aliases.now; panel = panel_of view.old.slot view.new.tables.now }) scopes.new))) }
    ensures rest { IfOk result (λ end. LeavesRest end (rest_of interp.new)) }
    ensures more { result ≡ Ok SliceEnd.More → left_of interp.new + steps ≡ left_of interp.old }
    ensures exhausted { result ≡ Ok SliceEnd.Exhausted → left_of interp.new ≡ 0 }
    ensures most { left_of interp.old ≤ left_of interp.new + steps }
    ensures taken { left_of interp.new ≤ left_of interp.old }
    ensures budget { budget_of interp.new ≡ budget_of interp.old }
    ensures refused { OnErr result (rest_of interp.new ≡ Broken) }
    ensures slot { view.new.slot ≡ view.old.slot }
    ensures same_reference { view.new.tables.ghost_name ≡ view.old.tables.ghost_name }
    ensures clock { view.new.tables.now.clock ≡ view.old.tables.now.clock }
    ensures others { others_of view.old.slot view.new.tables.now ≡ others_of view.old.slot view.old.tables.now }
{
    let end = interp.run_slice(view, scopes, steps)?;
    Ok(end)
}

/// Does what the interpreter of an application still has to do, over the tables.
pub fn run<M: AliasService>(
    tables: &mut Tables,
    slot: usize,
    aliases: &Aliases<M>,
    interp: &mut Interp<Task<Job>>,
    scopes: &mut Scopes,
    steps: u64,
) -> Result<SliceEnd, AllocError>
    requires positive { 0 < steps }
    requires begun { rest_of interp.old ≢ Idle }
    ensures reached { IfOk result (λ end. Reaches end
        (finish outside (rest_of interp.old)
        (state_of interp.old (record { serves = meanings M.answer aliases.now; panel = panel_of slot tables.old }) scopes.old))
        (state_of interp.new (record { serves = meanings M.answer aliases.now; panel = panel_of slot tables.new }) scopes.new)
        (finish outside (rest_of interp.new)
        (state_of interp.new (record { serves = meanings M.answer aliases.now; panel = panel_of slot tables.new }) scopes.new))) }
    ensures rest { IfOk result (λ end. LeavesRest end (rest_of interp.new)) }
    ensures more { result ≡ Ok SliceEnd.More → left_of interp.new + steps ≡ left_of interp.old }
    ensures exhausted { result ≡ Ok SliceEnd.Exhausted → left_of interp.new ≡ 0 }
    ensures most { left_of interp.old ≤ left_of interp.new + steps }
    ensures taken { left_of interp.new ≤ left_of interp.old }
    ensures budget { budget_of interp.new ≡ budget_of interp.old }
    ensures refused { OnErr result (rest_of interp.new ≡ Broken) }
    ensures clock { tables.new.clock ≡ tables.old.clock }
    ensures others { others_of slot tables.new ≡ others_of slot tables.old }
{
    let mut view = tables_of(tables, slot, aliases);
    run_view(&mut view, interp, scopes, steps)
}

/// Adds a turn, for which there is room, if it took steps.
fn push_turn(turns: &mut Vec<Turn>, slot: usize, steps: u64)
    requires { vec_len turns.old + 1 ≤ vec_capacity turns.old }
    ensures { turns.new.items ≡ turns.old.items ++ one_turn slot steps }
{
    if steps > 0 {
        match turns.push(Turn { slot, steps }) {
            Ok(()) => {}
            Err(_) => unreachable!(),
        }
    }
}

/// An application's turn: it settles, by at most so many steps, which are told.
pub fn take_turn<M: AliasService>(
    tables: &mut Tables,
    slot: usize,
    runner: &mut Runner<M>,
    steps: u64,
    turns: &mut Vec<Turn>,
) -> Result<AppEnd, AllocError>
    requires { 0 < steps }
    ensures turn { IfOk result (λ end. TakesTurn M.answer tables.old.clock steps end (settling_begun (part_of (panel_of slot tables.old) runner.old))
        (part_of (panel_of slot tables.new) runner.new)) }
    ensures told { turns.new.items ≡ turns.old.items ++ one_turn slot (runner.old.steps - runner.new.steps) }
    ensures budget { runner.new.budget ≡ runner.old.budget }
    ensures fewer { runner.new.steps ≤ runner.old.steps }
    ensures most { runner.old.steps ≤ runner.new.steps + steps }
    ensures clock { tables.new.clock ≡ tables.old.clock }
    ensures others { others_of slot tables.new ≡ others_of slot tables.old }
{
    match runner.state() {
        AppState::Running => {}
        _ => return Ok(AppEnd::Stopped),
    }
    turns.reserve(1)?;
    runner.begin(tables.alloc)?;
    let before = runner.steps_left();
    let end = runner.go_on(tables, slot, steps);
    push_turn(turns, slot, before - runner.steps_left());
    end
}

/// Gives an application that runs an event: it is granted steps, and the event is added to what it has to do.
fn deliver_running<M: AliasService>(
    tables: &mut Tables,
    slot: usize,
    runner: &mut Runner<M>,
    event: LocalEvent,
) -> Result<(), AllocError>
    requires moment { event.moment ≡ tables.old.clock }
    requires may { MayGet (part_of (panel_of slot tables.old) runner.old) }
    requires runs { runner.old.state ≡ AppState.Running }
    ensures own { OnOk result (part_of (panel_of slot tables.new) runner.new
        ≡ record (part_of (panel_of slot tables.old) runner.old) {
          application = delivered event
              (part_of (panel_of slot tables.old) runner.old).application;
        }) }
    ensures budget { runner.new.budget ≡ runner.old.budget }
    ensures steps { (runner.new.steps ≡ runner.old.steps) ⊎ (runner.new.steps ≡ granted runner.old.budget runner.old.steps) }
    ensures clock { tables.new.clock ≡ tables.old.clock }
    ensures others { others_of slot tables.new ≡ others_of slot tables.old }
{
    runner.grant()?;
    tk_panel::deliver(tables, slot, event)?;
    Ok(())
}

/// Gives an application an event. One that doesn't run gets nothing.
pub fn deliver<M: AliasService>(
    tables: &mut Tables,
    slot: usize,
    runner: &mut Runner<M>,
    event: LocalEvent,
) -> Result<(), AllocError>
    requires moment { event.moment ≡ tables.old.clock }
    requires may { MayGet (part_of (panel_of slot tables.old) runner.old) }
    ensures own { OnOk result (part_of (panel_of slot tables.new) runner.new
        ≡ record (part_of (panel_of slot tables.old) runner.old) {
          application = delivered event
              (part_of (panel_of slot tables.old) runner.old).application;
        }) }
    ensures budget { runner.new.budget ≡ runner.old.budget }
    ensures steps { (runner.new.steps ≡ runner.old.steps) ⊎ (runner.new.steps ≡ granted runner.old.budget runner.old.steps) }
    ensures clock { tables.new.clock ≡ tables.old.clock }
    ensures others { others_of slot tables.new ≡ others_of slot tables.old }
{
    match runner.state() {
        AppState::Running => deliver_running(tables, slot, runner, event),
        _ => Ok(()),
    }
}
