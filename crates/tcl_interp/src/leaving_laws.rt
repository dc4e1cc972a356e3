//! What the calls and the tasks of outside commands leave as it is, scripts do. The functions do nothing: their contracts are the laws.
ghost use Rattle.tcl_interp.specs.Leaves.{ScriptsLeave, TasksLeave};

/// What of an object that serves outside commands is changed by none of its calls and tasks, is changed by no script: where it has ended, it is as
/// it was.
pub fn scripts_leave<S, K, T>()
    ensures { ScriptsLeave S K T }
{}

/// Nor is it by a task, whatever scripts that runs.
pub fn tasks_leave<S, K, T>()
    ensures { TasksLeave S K T }
{}
