//! What holds of all jobs, whatever they do.

ghost use Rattle.tcl_interp.specs.JobLaws.{Determined, EndsLooked, TasksGoOn, Invoking, StepsFall, Unrolls};

/// A job is what its look says: either it ends so; or a step is taken, what is next starts, its script runs at global level, and then comes, in
/// the state that the script leaves, the job that its end makes of it. Nothing else meets that equation: what a job comes to is given by it.
pub fn unrolls<S, J>()
    ensures equation { Unrolls S J }
    ensures determined { Determined S J }
{}

/// A task that is resumed behind a script goes on with the job; so does one that begins with a script. A script whose end is the answer ends as a
/// script at global level does.
pub fn goes_on<S, J>()
    ensures job { TasksGoOn S J }
    ensures invoked { Invoking S J }
{}

/// A job leaves at most the steps that it had, and fewer where something came next.
pub fn steps_fall<S, J>()
    ensures { StepsFall S J }
{}

/// A job that has ended has nothing left to do in the state that it leaves: its last look left that state and found nothing. What holds of a
/// job, and of what each look, start and end make of it, holds of the one that was looked at last.
pub fn ends_looked<S, J>()
    ensures { EndsLooked S J }
{}
