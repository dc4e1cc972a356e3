ghost use Rattle.std.specs.Prelude.{◌≡◌, ◌<◌, length};

use crate::shared::Shared;
use crate::state::{AppEnd, AppState};
use crate::turn::{deliver, take_turn};
use std::alloc::{AllocError, Global};
use tk_alias::AliasService;
use tk_base::LocalEvent;

/// All applications, as one of them is called.
#[derive(Drop)]
pub struct AppView<'a, M: AliasService> {
    pub(crate) slot: usize,
    pub(crate) shared: &'a mut Shared<M>,
    ghost held: { slot < length shared.now.parts },
}

impl<M: AliasService> AppView<'_, M> {
    ghost use Rattle.std.specs.Prelude.{◌≡◌, ◌<◌, IfOk, IsErr, OnErr, OnOk, Some, false, length, option_map, slice_get, true};
    ghost use Rattle.tk_app.specs.Application.{next_due};
    ghost use Rattle.tk_app.specs.Part.{is_under_way};
    ghost use Rattle.tk_app.specs.Section.{section};
    ghost use Rattle.tk_app.specs.Turns.{BeginsIn, ChangesOnly, ChangesPart, DeliversIn, MayGetIn, SettlesSlot};

    /// Does what is to be done at the moment, for at most so many steps: what is under way, or else queued events, the timers that are due, layout and
    /// the idle scripts. An application's own script is under way from the first. The steps that it takes are told as a turn.
    ///
    /// Once memory was refused in it, for whatever application, it is refused in every further call.
    pub fn settle(&mut self, steps: u64) -> Result<AppEnd, AllocError>
        requires { 0 < steps }
        ensures slot { self.new.slot ≡ self.old.slot }
        ensures same_reference { self.new.shared.ghost_name ≡ self.old.shared.ghost_name }
        ensures settled { IfOk result (λ end. SettlesSlot M.answer steps self.old.slot end self.old.shared.now self.new.shared.now) }
        ensures only { ChangesOnly steps self.old.slot self.old.shared.now self.new.shared.now }
        ensures kept { OnOk result (self.new.shared.now.refused ≡ false) }
        ensures refused { OnErr result (self.new.shared.now.refused ≡ true) }
        ensures again { self.old.shared.now.refused ≡ true → IsErr result }
    {
        let slot = self.slot;
        let shared = &mut *self.shared;
        if shared.refused {
            return Err(AllocError);
        }
        shared.refused = true;
        let runner = &mut shared.runners[slot];
        let end = take_turn(&mut shared.tables, slot, runner, steps, &mut shared.turns)?;
        shared.refused = false;
        Ok(end)
    }

    /// Gives the application an event of the moment: while it runs it is granted the steps of its budget for an event, and the event is added to what
    /// it has to do, which settling then does. Its last `settle`, if any, didn't answer `More`.
    ///
    /// Once memory was refused in it, for whatever application, it is refused in every further call.
    pub fn deliver(&mut self, event: LocalEvent) -> Result<(), AllocError>
        requires moment { event.moment ≡ self.old.shared.now.moment }
        requires may { MayGetIn self.old.slot self.old.shared.now.parts }
        ensures slot { self.new.slot ≡ self.old.slot }
        ensures same_reference { self.new.shared.ghost_name ≡ self.old.shared.ghost_name }
        ensures delivered { OnOk result (DeliversIn self.old.slot event self.old.shared.now self.new.shared.now) }
        ensures only { ChangesPart self.old.slot self.old.shared.now self.new.shared.now }
        ensures kept { OnOk result (self.new.shared.now.refused ≡ false) }
        ensures refused { OnErr result (self.new.shared.now.refused ≡ true) }
        ensures again { self.old.shared.now.refused ≡ true → IsErr result }
    {
        let slot = self.slot;
        let shared = &mut *self.shared;
        if shared.refused {
            return Err(AllocError);
        }
        shared.refused = true;
        let runner = &mut shared.runners[slot];
        deliver(&mut shared.tables, slot, runner, event)?;
        shared.refused = false;
        Ok(())
    }

    /// Begins to do what is to be done at the moment, where nothing is under way and the application runs; no step of it is taken.
    pub fn begin_settling(&mut self) -> Result<(), AllocError>
        ensures slot { self.new.slot ≡ self.old.slot }
        ensures same_reference { self.new.shared.ghost_name ≡ self.old.shared.ghost_name }
        ensures begun { OnOk result (BeginsIn self.old.slot self.old.shared.now self.new.shared.now) }
        ensures unchanged { OnErr result (self.new.shared.now ≡ self.old.shared.now) }
    {
        let slot = self.slot;
        let shared = &mut *self.shared;
        let alloc = shared.tables.alloc;
        let runner = &mut shared.runners[slot];
        runner.begin(alloc)?;
        Ok(())
    }

    /// Whether it has something to do that has begun. It takes no memory.
    pub fn is_under_way(&self) -> bool
        ensures { option_map (λ part. is_under_way part.work) (slice_get self.now.shared.now.parts self.now.slot) ≡ Some result }
    {
        self.shared.is_under_way(self.slot)
    }

    /// What has become of the application. It takes no memory.
    pub fn state(&self) -> AppState
        ensures { option_map (λ part. part.application.state) (slice_get self.now.shared.now.parts self.now.slot) ≡ Some result }
    {
        self.shared.state(self.slot)
    }

    /// The moment at which the earliest of its timers is due, while it runs. It takes no memory.
    pub fn next_due(&self) -> Option<u64>
        ensures { option_map (λ part. next_due part.application) (slice_get self.now.shared.now.parts self.now.slot) ≡ Some result }
    {
        self.shared.next_due(self.slot)
    }

    /// How many steps it has left. It takes no memory.
    pub fn steps_left(&self) -> u64
        ensures { option_map (λ part. part.application.steps) (slice_get self.now.shared.now.parts self.now.slot) ≡ Some result }
    {
        self.shared.steps_left(self.slot)
    }

    /// Its section, in bytes: what it wrote, its windows, and what it has waiting.
    pub fn section(&self, alloc: Global) -> Result<Vec<u8>, AllocError>
        ensures { IfOk result (λ bytes. option_map (λ part. section part.application) (slice_get self.now.shared.now.parts self.now.slot) ≡ Some bytes.items) }
    {
        let bytes = self.shared.section(alloc, self.slot)?;
        Ok(bytes)
    }
}
