//! How the tasks of an interpreter do jobs.

ghost use Rattle.std.specs.Prelude.{◌≡◌, IfOk};
ghost use Rattle.tcl_interp.specs.Tasks.{act_of, ended_told, global_act, looked_told, resumes_of, started_told};

use crate::job::{Looked, Started, Task};
use crate::{Act, Code};
use std::alloc::{AllocError, Global};
use tcl_control::{STRAY_BREAK, STRAY_CONTINUE};
use tcl_text::Text;
use tcl_vars::Scopes;

/// Says of its jobs what comes next, what that starts, and what the end of its script makes of them. None of the three runs a script or takes a
/// step, so none calls itself through a script: an interpreter does that, by the tasks of the jobs.
pub trait Jobs {
    /// What is left to do of a job.
    type Job: Drop;

    ghost use Rattle.std.specs.Prelude.{ℕ};
    ghost use Rattle.tcl_interp.specs.Course.{Course};

    /// The type of what scripts can learn of it.
    ghost Shows: { Type 0 };

    /// What scripts can learn of it.
    ghost shows: { Self → Shows };

    /// What the three calls answer and show.
    ghost course: { Course Shows Self.Job };

    /// The type of what the three calls leave alone.
    ghost Left: { Type 0 };

    /// What the three calls leave alone, whatever they answer.
    ghost left_alone: { Self → Left };

    /// Looks for what comes next of a job, and does by itself what comes before that and takes no step.
    fn look(&mut self, scopes: &Scopes, job: Self::Job) -> Result<Looked<Self::Job>, AllocError>
        ensures ok { IfOk result (λ looked. (shows self.new, looked) ≡ course.look (shows self.old) scopes.now job) }
        ensures left { left_alone self.new ≡ left_alone self.old };

    /// Starts what was looked for, whose step is taken.
    fn start(&mut self, scopes: &Scopes, job: Self::Job) -> Result<Started<Self::Job>, AllocError>
        ensures ok { IfOk result (λ started. (shows self.new, started) ≡ course.start (shows self.old) scopes.now job) }
        ensures left { left_alone self.new ≡ left_alone self.old };

    /// Goes on behind a script, which has ended with a code and a text. A return has become its `-code` (return(n)); what a break or a continue
    /// means, and where an error is told, is the job's to say.
    fn ended(&mut self, job: Self::Job, code: Code, text: Text) -> Result<Self::Job, AllocError>
        ensures ok { IfOk result (λ next. (shows self.new, next) ≡ course.ended code text (shows self.old) job) }
        ensures left { left_alone self.new ≡ left_alone self.old };
}

/// What a job, or a task of it, does next, unless memory is refused.
pub type Acted<J> = Result<Act<Task<J>>, AllocError>;

/// What a task of the job does then.
pub fn act_for<J: Drop>(looked: Looked<J>) -> Act<Task<J>>
    ensures { result ≡ act_of looked }
{
    match looked {
        Looked::Wants(job) => Act::Step(Task::Waits(job)),
        Looked::Ends(code, text) => Act::Done(code, text),
    }
}

/// A command that begins a job, or a task of it, goes on with the job: it waits for a step, or has ended.
pub fn look_at<T: Jobs>(jobs: &mut T, scopes: &Scopes, job: T::Job) -> Acted<T::Job>
    ensures ok { IfOk result (λ act. record { shows = T.shows jobs.new; store = scopes.now; act = act }
        ≡ looked_told T.course (T.shows jobs.old) scopes.now job) }
    ensures left { T.left_alone jobs.new ≡ T.left_alone jobs.old }
{
    let looked = jobs.look(scopes, job)?;
    Ok(act_for(looked))
}

/// What a job waited for starts, its step being taken.
fn start<T: Jobs>(jobs: &mut T, scopes: &Scopes, job: T::Job) -> Acted<T::Job>
    ensures ok { IfOk result (λ act. record { shows = T.shows jobs.new; store = scopes.now; act = act }
        ≡ started_told T.course (T.shows jobs.old) scopes.now job) }
    ensures left { T.left_alone jobs.new ≡ T.left_alone jobs.old }
{
    let Started { script, job } = jobs.start(scopes, job)?;
    Ok(Act::Run {
        script,
        task: Task::Runs(job),
    })
}

/// A script of a job has ended.
fn go_on<T: Jobs>(
    jobs: &mut T,
    scopes: &Scopes,
    job: T::Job,
    code: Code,
    text: Text,
) -> Acted<T::Job>
    ensures ok { IfOk result (λ act. record { shows = T.shows jobs.new; store = scopes.now; act = act }
        ≡ ended_told T.course code text (T.shows jobs.old) scopes.now job) }
    ensures left { T.left_alone jobs.new ≡ T.left_alone jobs.old }
{
    let next = jobs.ended(job, code, text)?;
    look_at(jobs, scopes, next)
}

/// The answer of a script at global level, where there is no loop that a break or a continue could act on.
fn end_at_global<J: Drop>(alloc: Global, code: Code, text: Text) -> Acted<J>
    ensures { IfOk result (λ act. act ≡ global_act code text) }
{
    match code {
        Code::Break => {
            let fault = Text::of_short(alloc, STRAY_BREAK)?;
            Ok(Act::Done(Code::Error, fault))
        }
        Code::Continue => {
            let fault = Text::of_short(alloc, STRAY_CONTINUE)?;
            Ok(Act::Done(Code::Error, fault))
        }
        other => Ok(Act::Done(other, text)),
    }
}

/// Resumes a task of a job, with the code and the text of the script that has ended.
pub fn resume<T: Jobs>(
    alloc: Global,
    jobs: &mut T,
    scopes: &Scopes,
    task: Task<T::Job>,
    code: Code,
    text: Text,
) -> Acted<T::Job>
    ensures ok { IfOk result (λ act. record { shows = T.shows jobs.new; store = scopes.now; act = act }
        ≡ resumes_of T.course (T.shows jobs.old) scopes.now task code text) }
    ensures left { T.left_alone jobs.new ≡ T.left_alone jobs.old }
{
    match task {
        Task::Begins { script, job } => Ok(Act::Run {
            script,
            task: Task::Runs(job),
        }),
        Task::Waits(job) => start(jobs, scopes, job),
        Task::Runs(job) => go_on(jobs, scopes, job, code, text),
        Task::Invoked => end_at_global(alloc, code, text),
    }
}
