ghost use Rattle.std.specs.Prelude.{◌≡◌, ◌≤◌};
ghost use Rattle.tcl_interp.specs.declared.machine.Machine.TheVariants.{Spent as MachineSpent, Broken as MachineBroken};

use crate::machine::{Frame, Machine, Now};
use crate::slices::{Ran, run};
use crate::stopped::{note_end, places};
use crate::tasks::Tasks;
use std::alloc::{AllocError, Global};
use std::mem::replace;
use tcl_control::{Code, Context};
use tcl_table::{CommandPlace, ErrorNote, Levels, Source, first_commands};
use tcl_text::Text;
use tcl_vars::Scopes;

/// How many scripts run in one another at most.
const MAX_RUNNING: u64 = 200;

/// How a slice ended.
#[derive(Drop)]
pub enum SliceEnd {
    /// All is done, with a code and a result or an error's text.
    Done(Code, Text),
    /// The slice's steps are taken, and there is more to do.
    More,
    /// A step is needed, and none of the budget is left.
    Exhausted,
}

/// An interpreter of Tcl scripts (Tcl(n)), with a budget of steps and tasks of the type `K`.
pub struct Interp<K> {
    alloc: Global,
    context: Context,
    budget: u64,
    left: u64,
    machine: Machine<K>,
    frames: Vec<Frame<K>>,
    stopped: Vec<CommandPlace>,
    ghost within: { left ≤ budget },
    ghost spent: { machine ≡ MachineSpent → left ≡ 0 },
}

impl<K: Drop> Interp<K> {
    ghost use Rattle.std.specs.Prelude.{◌≡◌, ◌≢◌, ◌⊎◌, ◌<◌, ◌≤◌, ◌+◌, Ok, IfOk, OnOk, OnErr, IsErr};
    ghost use Rattle.tcl_interp.specs.Finish.{finish, Idle, Running, Spent, Broken, rest_of_script, rest_of_task};
    ghost use Rattle.tcl_interp.specs.Rests.{doing_of, waits_of};
    ghost use Rattle.tcl_interp.specs.Interp.{rest_of, left_of, budget_of, context_of, first_context, at_top, granted, state_of, LeavesRest, Reaches};

    /// An interpreter that takes at most `budget` steps in all, where outside commands have these names and replace others of theirs. A
    /// name that begins with a dot is an outside command's without being given.
    pub fn new(alloc: Global, budget: u64, outside_names: &[Text]) -> Result<Interp<K>, AllocError>
        ensures rest { IfOk result (λ interp. rest_of interp ≡ Idle) }
        ensures left { IfOk result (λ interp. left_of interp ≡ budget) }
        ensures budget { IfOk result (λ interp. budget_of interp ≡ budget) }
        ensures context { IfOk result (λ interp. context_of interp ≡ first_context outside_names.now) }
    {
        Ok(Interp {
            alloc,
            context: Context {
                levels: Levels::global(alloc)?,
                commands: first_commands(alloc, outside_names)?,
            },
            budget,
            left: budget,
            machine: Machine::Idle,
            frames: Vec::new(alloc),
            stopped: Vec::new(alloc),
        })
    }

    /// Begins a script at global level, where nothing runs: nothing has begun, all has ended, or the steps are spent. It takes no step, and
    /// is read in the first slice. At most 200 scripts are begun and not ended in it, itself and those in brackets among them; one more
    /// fails. A return that leaves it becomes its `-code` (return(n)); a break or a continue that does is an error.
    #[tactic(auto, unfolding(crate::specs::Rests::waits_of))]
    pub fn begin(&mut self, script: Text) -> Result<(), AllocError>
        requires { (rest_of self.old ≡ Idle) ⊎ (rest_of self.old ≡ Spent) }
        ensures ok { OnOk result (rest_of self.new ≡ rest_of_script script) }
        ensures err { OnErr result (rest_of self.new ≡ rest_of self.old) }
        ensures left { left_of self.new ≡ left_of self.old }
        ensures context { OnOk result (context_of self.new ≡ at_top (context_of self.old)) }
        ensures kept { OnErr result (context_of self.new ≡ context_of self.old) }
        ensures budget { budget_of self.new ≡ budget_of self.old }
    {
        let levels = Levels::global(self.alloc)?;
        let mut frames = Vec::new(self.alloc);
        frames.push(Frame::ForAll)?;
        self.frames = frames;
        self.context.levels = levels;
        self.machine = Machine::Running(Now::Begins {
            room: MAX_RUNNING,
            script: Source::of_text(script),
        });
        Ok(())
    }

    /// Begins a task, where nothing runs. It is resumed in the first slice, with the normal code and the empty text, and takes no step for
    /// that.
    #[tactic(auto, unfolding(crate::specs::Rests::waits_of))]
    pub fn begin_task(&mut self, task: K) -> Result<(), AllocError>
        requires { (rest_of self.old ≡ Idle) ⊎ (rest_of self.old ≡ Spent) }
        ensures ok { OnOk result (rest_of self.new ≡ rest_of_task task) }
        ensures err { OnErr result (rest_of self.new ≡ rest_of self.old) }
        ensures left { left_of self.new ≡ left_of self.old }
        ensures context { OnOk result (context_of self.new ≡ at_top (context_of self.old)) }
        ensures kept { OnErr result (context_of self.new ≡ context_of self.old) }
        ensures budget { budget_of self.new ≡ budget_of self.old }
    {
        let text = Text::empty();
        let task = Box::new(self.alloc, task)?;
        let levels = Levels::global(self.alloc)?;
        self.frames.clear();
        self.context.levels = levels;
        self.machine = Machine::Running(Now::Resumes {
            room: MAX_RUNNING,
            task,
            code: Code::Normal,
            text,
        });
        Ok(())
    }

    /// How many steps of the budget are left. It takes no memory.
    pub fn steps_left(&self) -> u64
        ensures { result ≡ left_of self.now }
    {
        self.left
    }

    /// Grants steps, where nothing runs: so many more are left, at most as many as the budget. Once a slice has answered `Exhausted`, and until
    /// something else begins, none is granted. It takes no memory.
    pub fn grant(&mut self, steps: u64)
        requires { (rest_of self.old ≡ Idle) ⊎ (rest_of self.old ≡ Spent) }
        ensures left { left_of self.new ≡ granted (rest_of self.old) steps (budget_of self.old) (left_of self.old) }
        ensures rest { rest_of self.new ≡ rest_of self.old }
        ensures context { context_of self.new ≡ context_of self.old }
        ensures budget { budget_of self.new ≡ budget_of self.old }
    {
        match self.machine {
            Machine::Spent => {}
            _ => self.left += steps.min(self.budget - self.left),
        }
    }

    /// How many steps of the budget aren't left: those that were taken and weren't granted again. It takes no memory.
    pub fn steps_used(&self) -> u64
        ensures { result + left_of self.now ≡ budget_of self.now }
    {
        self.budget - self.left
    }

    /// The commands in which it stood as a slice answered `Exhausted` last, the innermost first: what tells people where a script ran out of its
    /// steps. No script sees them, and nothing that runs hangs on them. There are none before. It takes no memory.
    pub fn stopped_at(&self) -> &[CommandPlace] {
        self.stopped.as_slice()
    }

    /// The errors that ended scripts at global level, in the order in which they came: the first 64. They tell people where an error came from; no
    /// script sees them, and nothing that runs hangs on them. An error that is caught leaves none. It takes no memory.
    pub fn error_notes(&self) -> &[ErrorNote] {
        self.context.commands.error_notes()
    }

    /// Goes on with what is to be done now, for at most so many steps.
    fn run_on<T: Tasks<Task = K>>(
        &mut self,
        tasks: &mut T,
        scopes: &mut Scopes,
        now: Now<K>,
        steps: u64,
    ) -> Result<SliceEnd, AllocError>
        requires { self.old.machine ≡ MachineBroken }
        ensures reached { IfOk result (λ end. Reaches end
            (finish T.outside (Running (doing_of now) (waits_of self.old.frames.items)) (state_of self.old (T.shows tasks.old) scopes.old))
            (state_of self.new (T.shows tasks.new) scopes.new) (finish T.outside (rest_of self.new) (state_of self.new (T.shows tasks.new) scopes.new))) }
        ensures rest { IfOk result (λ end. LeavesRest end (rest_of self.new)) }
        ensures more { result ≡ Ok SliceEnd.More → left_of self.new + steps ≡ left_of self.old }
        ensures exhausted { result ≡ Ok SliceEnd.Exhausted → left_of self.new ≡ 0 }
        ensures most { left_of self.old ≤ left_of self.new + steps }
        ensures taken { left_of self.new ≤ left_of self.old }
        ensures budget { budget_of self.new ≡ budget_of self.old }
        ensures refused { OnErr result (rest_of self.new ≡ Broken) }
        ensures left_alone { T.left_alone tasks.new ≡ T.left_alone tasks.old }
    {
        let ran = run(
            self.alloc,
            tasks,
            scopes,
            &mut self.context,
            &mut self.frames,
            &mut self.left,
            now,
            steps,
        )?;
        match ran {
            Ran::Ended(code, text) => {
                note_end(&mut self.context.commands, code, &text)?;
                self.machine = Machine::Idle;
                Ok(SliceEnd::Done(code, text))
            }
            Ran::Paused(now) => {
                self.machine = Machine::Running(now);
                Ok(SliceEnd::More)
            }
            Ran::Spent => {
                self.stopped = places(self.alloc, self.frames.as_slice())?;
                self.machine = Machine::Spent;
                self.frames.clear();
                Ok(SliceEnd::Exhausted)
            }
        }
    }

    /// Does what is to be done, for at most so many steps. A step is taken for each command that is called, each test of a loop and each
    /// step of a task. After `Exhausted` what was to be done is dropped, and each slice answers that again until something begins. After
    /// refused memory every further slice is refused too.
    pub fn run_slice<T: Tasks<Task = K>>(
        &mut self,
        tasks: &mut T,
        scopes: &mut Scopes,
        steps: u64,
    ) -> Result<SliceEnd, AllocError>
        requires positive { 0 < steps }
        requires begun { rest_of self.old ≢ Idle }
        ensures reached { IfOk result (λ end. Reaches end (finish T.outside (rest_of self.old) (state_of self.old (T.shows tasks.old) scopes.old))
            (state_of self.new (T.shows tasks.new) scopes.new) (finish T.outside (rest_of self.new) (state_of self.new (T.shows tasks.new) scopes.new))) }
        ensures rest { IfOk result (λ end. LeavesRest end (rest_of self.new)) }
        ensures more { result ≡ Ok SliceEnd.More → left_of self.new + steps ≡ left_of self.old }
        ensures exhausted { result ≡ Ok SliceEnd.Exhausted → left_of self.new ≡ 0 }
        ensures most { left_of self.old ≤ left_of self.new + steps }
        ensures taken { left_of self.new ≤ left_of self.old }
        ensures budget { budget_of self.new ≡ budget_of self.old }
        ensures refused { OnErr result (rest_of self.new ≡ Broken) }
        ensures broken { rest_of self.old ≡ Broken → IsErr result }
        ensures left_alone { T.left_alone tasks.new ≡ T.left_alone tasks.old }
    {
        match replace(&mut self.machine, Machine::Broken) {
            Machine::Running(now) => self.run_on(tasks, scopes, now, steps),
            Machine::Spent => {
                self.machine = Machine::Spent;
                Ok(SliceEnd::Exhausted)
            }
            Machine::Broken => Err(AllocError),
            Machine::Idle => unreachable!(),
        }
    }
}

/// By hand: a proof sees one call where it is dropped, and not its parts.
impl<K: Drop> Drop for Interp<K> {
    fn drop(self) {
        let Interp {
            alloc: _,
            context: _,
            budget: _,
            left: _,
            machine: _,
            frames: _,
            stopped: _,
        } = self;
    }
}
