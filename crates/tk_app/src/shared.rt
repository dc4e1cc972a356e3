ghost use Rattle.std.specs.Prelude.{◌≡◌, ◌↔◌, Any, IsTrue};
ghost use Rattle.tk_panel.specs.Shared.{panel_of};
ghost use Rattle.tk_app.specs.Application.{next_due_as};

use crate::Turn;
use crate::runner::Runner;
use crate::section::section;
use crate::size::Size;
use crate::state::AppState;
use crate::view::AppView;
use std::alloc::{AllocError, Global};
use std::marker::Model;
use tcl_interp::{CommandPlace, ErrorNote};
use tcl_text::Text;
use tk_alias::{AliasService, Aliases};
use tk_base::Budget;
use tk_panel::Tables;

/// All applications, at one moment, in milliseconds: the tables that they have in common, and what each has by itself. An application is known by its
/// slot, from 0 on, and each call on one goes through its view.
pub struct Shared<M: AliasService> {
    pub(crate) tables: Tables,
    pub(crate) runners: Vec<Runner<M>>,
    pub(crate) turns: Vec<Turn>,
    pub(crate) refused: bool,
}

impl<M: AliasService> Model for Shared<M> {
    ghost use Rattle.std.specs.Prelude.{◌≡◌, ◌≤◌, length};
    ghost use Rattle.tk_app.specs.Turns.{Applications, IsVacantFrom, parts_from};
    ghost use Rattle.tk_route.specs.Limits.{most_applications};

    ghost Value = { Applications M };

    ghost view = { λ s. record { moment = s.tables.clock; parts = parts_from 0 s.tables s.runners.items; turns = s.turns.items; refused = s.refused } };

    ghost invariant = { λ s. (length s.runners.items ≤ most_applications) × IsVacantFrom (length s.runners.items) s.tables };
}

impl<M: AliasService> Shared<M> {
    ghost use Rattle.std.specs.Prelude.{◌≡◌, ◌<◌, ◌≤◌, ◌↔◌, [], ◌∷◌, ◌++◌, Any, IfOk, IsTrue, OnErr, OnOk, Some, false, length, option_map, slice_get};
    ghost use Rattle.tk_app.specs.Application.{next_due};
    ghost use Rattle.tk_app.specs.Part.{added, is_under_way};
    ghost use Rattle.tk_app.specs.Section.{section};
    ghost use Rattle.tk_base.specs.Limits.{last_moment};
    ghost use Rattle.tk_route.specs.Limits.{most_applications};

    /// No application, at moment 0.
    #[tactic(auto, unfolding(crate::specs::Turns::parts_from))]
    pub fn new(alloc: Global) -> Result<Shared<M>, AllocError>
        ensures { IfOk result (λ shared. shared ≡ record { moment = 0; parts = []; turns = []; refused = false }) }
    {
        Ok(Shared {
            tables: Tables::new(alloc)?,
            runners: Vec::new(alloc),
            turns: Vec::new(alloc),
            refused: false,
        })
    }

    /// How many applications there are. It takes no memory.
    pub fn len(&self) -> usize
        ensures { result ≡ length self.now.parts }
    {
        self.runners.len()
    }

    /// Adds an application, in the next slot, which it answers: its name, the size of its rectangle in pixels, its steps, its script,
    /// which is the first that it does when it settles, and its aliases, each of which replaces a command of its name (interp(n)).
    pub fn add(
        &mut self,
        name: Text,
        size: Size,
        budget: Budget,
        script: Text,
        aliases: Aliases<M>,
    ) -> Result<usize, AllocError>
        requires { length self.old.parts < most_applications }
        ensures slot { IfOk result (λ slot. slot ≡ length self.old.parts) }
        ensures added { OnOk result (self.new ≡ record self.old {
          parts = self.old.parts
              ++ added (record { name = name; width = size.width; height = size.height; script = script; budget = budget; aliases = aliases }) ∷ [];
        }) }
        ensures unchanged { OnErr result (self.new ≡ self.old) }
    {
        let slot = self.runners.len();
        let runner = Runner::new(self.tables.alloc, name, script, budget, aliases)?;
        self.runners.reserve(1)?;
        tk_panel::add(
            &mut self.tables,
            slot,
            runner.name(),
            (size.width, size.height),
        )?;
        match self.runners.push(runner) {
            Ok(()) => Ok(slot),
            Err(_) => unreachable!(),
        }
    }

    /// All go on to a moment, in milliseconds, at which nothing has been done yet. It takes no memory.
    pub fn set_moment(&mut self, moment: u64)
        requires later { self.old.moment ≤ moment }
        requires in_time { moment ≤ last_moment }
        ensures { self.new ≡ record self.old { moment = moment } }
    {
        self.tables.clock.set(moment);
    }

    /// The view of an application.
    pub fn view(&mut self, slot: usize) -> AppView<'_, M>
        requires { slot < length self.old.parts }
        ensures slot { result.slot ≡ slot }
        ensures same_reference { result.shared.ghost_name ≡ self.entry.ghost_name }
        ensures now { result.shared.now ≡ self.old }
    {
        AppView { slot, shared: self }
    }

    /// Whether an application has this name.
    pub fn has_name(&self, name: &Text) -> bool
        ensures { IsTrue result ↔ Any (λ part. part.application.name ≡ name.now) self.now.parts }
    {
        have_name(self.runners.as_slice(), name)
    }

    /// Whether an application has something to do that has begun. It takes no memory.
    pub fn is_under_way(&self, slot: usize) -> bool
        requires { slot < length self.now.parts }
        ensures { option_map (λ part. is_under_way part.work) (slice_get self.now.parts slot) ≡ Some result }
    {
        let runner = &self.runners[slot];
        runner.is_under_way()
    }

    /// What has become of an application. It takes no memory.
    pub fn state(&self, slot: usize) -> AppState
        requires { slot < length self.now.parts }
        ensures { option_map (λ part. part.application.state) (slice_get self.now.parts slot) ≡ Some result }
    {
        let runner = &self.runners[slot];
        runner.state()
    }

    /// The moment at which the earliest timer of an application is due, while it runs. It takes no memory.
    pub fn next_due(&self, slot: usize) -> Option<u64>
        requires { slot < length self.now.parts }
        ensures { option_map (λ part. next_due part.application) (slice_get self.now.parts slot) ≡ Some result }
    {
        let runner = &self.runners[slot];
        next_due(&self.tables, slot, runner.state())
    }

    /// How many steps an application has left. It takes no memory.
    pub fn steps_left(&self, slot: usize) -> u64
        requires { slot < length self.now.parts }
        ensures { option_map (λ part. part.application.steps) (slice_get self.now.parts slot) ≡ Some result }
    {
        let runner = &self.runners[slot];
        runner.steps_left()
    }

    /// The commands in which the application in a slot stood as it ran out of steps last, the innermost first. It takes no memory.
    pub fn stopped_at(&self, slot: usize) -> Option<&[CommandPlace]> {
        match self.runners.get(slot) {
            Some(runner) => Some(runner.stopped_at()),
            None => None,
        }
    }

    /// The errors that the interpreter of the application in a slot noted, each with the commands in which it came about; `None` where the slot has no application.
    /// Notes for people, on which nothing that runs hangs. It takes no memory.
    pub fn error_notes(&self, slot: usize) -> Option<&[ErrorNote]> {
        match self.runners.get(slot) {
            Some(runner) => Some(runner.error_notes()),
            None => None,
        }
    }

    /// The moment, in milliseconds, at which the application in a slot ran out of steps last; `None` where it never did, and where the slot has none. A note for
    /// people, on which nothing that runs hangs. It takes no memory.
    pub fn stopped_moment(&self, slot: usize) -> Option<u64> {
        self.runners.get(slot)?.stopped_moment()
    }

    /// The section of an application, in bytes: what it wrote, its windows, and what it has waiting.
    pub fn section(&self, alloc: Global, slot: usize) -> Result<Vec<u8>, AllocError>
        requires { slot < length self.now.parts }
        ensures { IfOk result (λ bytes. option_map (λ part. section part.application) (slice_get self.now.parts slot) ≡ Some bytes.items) }
    {
        let runner = &self.runners[slot];
        let bytes = section(alloc, &self.tables, slot, runner)?;
        Ok(bytes)
    }

    /// The turns that took steps, since they were cleared. It takes no memory.
    pub fn turns(&self) -> &[Turn]
        ensures { result.now ≡ self.now.turns }
    {
        self.turns.as_slice()
    }

    /// No turn is told any more. It takes no memory.
    pub fn clear_turns(&mut self)
        ensures { self.new ≡ record self.old { turns = [] } }
    {
        self.turns.clear();
    }
}

/// The moment at which the earliest of an application's timers is due, while it runs.
fn next_due(tables: &Tables, slot: usize, state: AppState) -> Option<u64>
    ensures { result ≡ next_due_as state (panel_of slot tables.now).timers }
{
    match state {
        AppState::Running => tables.timers.next_due_of(slot),
        AppState::Exhausted | AppState::Closed => None,
    }
}

/// Whether one of them has this name.
fn have_name<M: AliasService>(runners: &[Runner<M>], name: &Text) -> bool
    ensures { IsTrue result ↔ Any (λ program. program.name ≡ name.now) runners.now }
{
    runners.iter().any(|runner| runner.has_name(name))
}

/// By hand: a proof sees one call where it is dropped, and not its parts.
impl<M: AliasService> Drop for Shared<M> {
    fn drop(self) {
        let Shared {
            tables: _,
            runners: _,
            turns: _,
            refused: _,
        } = self;
    }
}
