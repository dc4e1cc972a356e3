//! What a part comes to, by what is done at a moment. The functions do nothing: their contracts are the laws.
ghost use Rattle.tk_app.specs.Behind.{DispatchThen, RoundThen, WindowsThen};
ghost use Rattle.tk_app.specs.Begun.{
  DestroyBegins,
  GenerateBegins,
  IdleTasksAre,
  InvokeRuns,
  SelectBegins,
  UpdateBegins,
  UpdateIs,
};
ghost use Rattle.tk_app.specs.Dues.{DueTakesAStep, SettledIsPast, StartedIsPast};
ghost use Rattle.tk_app.specs.Gone.{DestroysAll, DestroysUntested};
ghost use Rattle.tk_app.specs.Part.{BeginsWithScript, SettlesFromRest};
ghost use Rattle.tk_app.specs.Jobs.{GoesByNext};
ghost use Rattle.tk_app.specs.JobLaws.{
  CommandsAreCalled,
  Destroys,
  Dispatches,
  ScriptsAreRun,
  UpdateGoes,
  UpdatesIdleTasks,
};
ghost use Rattle.tk_app.specs.SettleJob.{
  EndsLaidOut,
  OneUpdate,
  OnlySettle,
  OnlyUpdate,
  Settles,
  SettlesTwice,
  Updates,
};
ghost use Rattle.tk_app.specs.Settle.{EquationsAreMet, OneSettle};
ghost use Rattle.tk_app.specs.LaidOut.{LeavesLaidOut, LeavesSettled};
ghost use Rattle.tk_app.specs.Loops.{LoopsGoRound, OnlyLoops};
ghost use Rattle.tk_app.specs.Sound.{ItemsKeepSound, ScriptsKeepSound, ScriptsTakeNoSteps, StaysSound};
ghost use Rattle.tk_app.specs.SoundByJob.{BySettle, KeepsSound};
ghost use Rattle.tk_app.specs.Stores.{LinksStay, ScriptsStand, StandingLeads};

use tk_alias::AliasMeaning;

/// An application that is settled from rest is settled.
pub fn settles_from_rest<M: AliasMeaning>()
    ensures { SettlesFromRest M.answer }
{}

/// An application begins with its script: it runs, an error of it is told, and what is to be done then is done.
pub fn begins_with_script<M: AliasMeaning>()
    ensures { BeginsWithScript M.answer }
{}

/// *Settle* is the first item that exists of a queued event, a due timer, a layout that changes something and a round of the idle scripts that
/// wait, and *Settle* again; nothing more is done where the main window is gone (after(n); the order is this host's own). Nothing else meets that
/// equation, by whatever `update` that meets its own. So something meets the two equations, and all that meets them is one.
pub fn settles()
    ensures equation { Settles }
    ensures only { OnlySettle }
    ensures met { EquationsAreMet }
    ensures one { OneSettle }
{}

/// Whatever meets the equations of `update` and *Settle* makes the same of an application as their jobs do: of one whose script runs, and of one that
/// has something to do at a moment. So what becomes of an application may be read by the equations alone.
pub fn comes_by_settle<M: AliasMeaning>()
    ensures { BySettle M.answer }
{}

/// `update`, which the job that it begins comes to, is the same, without the test for the main window (update(n)). Nothing else meets that equation.
pub fn updates()
    ensures job { UpdateGoes }
    ensures equation { Updates }
    ensures only { OnlyUpdate }
{}

/// `update idletasks` is a layout, a round of the idle scripts that wait then, and a layout (update(n)).
pub fn updates_idle_tasks()
    ensures { UpdatesIdleTasks }
{}

/// *Dispatch*: once the scripts of an event are chosen, they run in order, a step before each. A break ends the event, and so does an error,
/// which is told (bind(n)).
pub fn dispatches()
    ensures { Dispatches }
{}

/// What comes behind *Dispatch*, a round of idle scripts and the windows of *Destroy* is done once they have ended, which they do normally, with the
/// empty text. So what these definitions are given as behind them may be read as what is done then.
pub fn behind_is_then()
    ensures dispatch { DispatchThen }
    ensures round { RoundThen }
    ensures windows { WindowsThen }
{}

/// *Destroy*: of each path the window and all below it, in post-order. Each that is still there has its Destroy event dispatched, and then goes
/// with its bindings, if it is there still (destroy(n)). Once that has ended none of them is there: each had no children left when its turn came,
/// whatever the scripts did; so a removal that doesn't test that comes to the same, also where the steps give out.
pub fn destroys()
    ensures job { Destroys }
    ensures gone { DestroysAll }
    ensures untested { DestroysUntested }
{}

/// Whatever scripts, jobs and each item of what is to be done at a moment do, the windows stay numbered as they were made, each behind its parent, as these
/// equations want it.
pub fn keeps_sound()
    ensures scripts { ScriptsKeepSound }
    ensures items { ItemsKeepSound }
    ensures jobs { KeepsSound }
{}

/// So they are in an application from its beginning on, as long as it runs.
pub fn stays_sound<M: AliasMeaning>()
    ensures { StaysSound M.answer }
{}

/// Whatever scripts do, each link of their variables leads to an earlier frame, and each level is that of a frame that is there; a script leaves the levels
/// that it began at, and as many frames. So it is in an application from its beginning on. In each such state a place leads where its equation says, and
/// the frame that is seen is that of the last level.
pub fn keeps_links<M: AliasMeaning>()
    ensures leads { StandingLeads }
    ensures scripts { ScriptsStand }
    ensures stays { LinksStay M.answer }
{}

/// What the commands of an application come to by the equations, and by the job of `update`, is what its interpreter makes of them, by jobs and their
/// tasks; so scripts are, with any room for scripts in one another. By whatever else meets the equation of `update` they come to the same;
/// where a script has ended by it, no more steps are left than before, as the equation of a loop wants it.
pub fn scripts_by_equations()
    ensures commands { CommandsAreCalled }
    ensures scripts { ScriptsAreRun }
    ensures update { OneUpdate }
    ensures steps { ScriptsTakeNoSteps }
{}

/// A loop in a script of an application is a step, its test, its body with what `for` runs behind it, and the loop again (while(n), for(n), foreach(n)), by
/// whatever meets the equation of `update`. Nothing else meets that equation.
pub fn loops_go_round()
    ensures equation { LoopsGoRound }
    ensures only { OnlyLoops }
{}

/// Where no alias serves their names, commands do what these equations say, by whatever name they are called: `update` and `update idletasks`, `destroy`, an
/// `event generate` that comes at once, a class command that selects in a listbox, and those that invoke a widget's command.
pub fn commands_begin_jobs()
    ensures update { UpdateBegins }
    ensures update_is { UpdateIs }
    ensures idle_tasks_are { IdleTasksAre }
    ensures destroy { DestroyBegins }
    ensures generate { GenerateBegins }
    ensures select { SelectBegins }
    ensures invoke { InvokeRuns }
{}

/// Where *Settle* has ended and there is a main window, the windows lie where a layout from nothing puts them (pack(n)).
pub fn ends_laid_out()
    ensures by_settle { LeavesLaidOut }
    ensures by_job { EndsLaidOut }
{}

/// Where *Settle* has ended, *Settle* at the same moment does nothing: there is no main window, or nothing waits and no layout changes anything.
pub fn settles_twice()
    ensures by_settle { LeavesSettled }
    ensures by_job { SettlesTwice }
{}

/// What a job comes to is what comes next of it: a step is taken, what is next starts, and its script runs at global level.
pub fn goes_by_next()
    ensures { GoesByNext }
{}

/// What is due of an application by a moment takes a step, or stops it.
pub fn due_takes_a_step<M: AliasMeaning>()
    ensures { DueTakesAStep M.answer }
{}

/// An application that has settled at a moment has nothing due by it: by itself it does nothing more then.
pub fn settled_is_past<M: AliasMeaning>()
    ensures { SettledIsPast M.answer }
{}

/// Nor has one whose script has run.
pub fn started_is_past<M: AliasMeaning>()
    ensures { StartedIsPast M.answer }
{}
