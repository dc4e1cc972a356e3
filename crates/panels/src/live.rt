//! Panels that are played line by line.

ghost use Rattle.std.specs.Prelude.{◌≡◌, ◌≤◌, ◌∷◌, ◌++◌, [], List, map, IfOk, IfErr, OnOk};
ghost use Rattle.tk_alias.specs.Services.{answer_of};
ghost use Rattle.tk_alias.specs.declared.service.Service.{Service as ServiceOf};
ghost use Rattle.tk_host.specs.Held.{AdvanceTo, Call, LineAt, Start, held_after};
ghost use Rattle.tk_host.specs.Refusals.{LeftBy};
ghost use Rattle.tk_host.specs.Sections.{sections_after};
ghost use Rattle.tkhost.specs.Calls.{adding};
ghost use Rattle.tkhost.specs.Play.{Serve, services_in};

use crate::asking::asked;
use crate::bench::{Answer, Question};
use crate::playing::{BenchFault, started};
use std::alloc::{AllocError, Global};
use std::marker::Model;
use tk_host::{AliasService, Host, HostFault, Turn};
use tk_session::{EventLine, Session};
use tkhost::{Served, own_services};

/// Panels whose scripts have run, on a host that takes lines one after another. Contracts see the host.
pub struct Live<M: AliasService> {
    host: Host<M>,
}

impl<M: AliasService> Model for Live<M> {
    ghost use Rattle.std.specs.Prelude.{◌≢◌};
    ghost use Rattle.tk_host.specs.Held.{Hosted};
    ghost use Rattle.tk_host.specs.declared.phase.Phase.{Phase};

    ghost Value = { Hosted M };

    ghost view = { λ l. l.host };

    ghost invariant = { λ l. l.host.held.phase ≢ Phase.Adding };
}

impl<M: AliasService> Live<M> {
    ghost use Rattle.std.specs.Prelude.{◌≡◌, ◌∷◌, ◌++◌, [], List, slice_get, Some, IfOk, IfErr, OnOk};
    ghost use Rattle.tk_host.specs.Held.{AdvanceTo, Call, LineAt, held_after};
    ghost use Rattle.tk_host.specs.Refusals.{LeftBy};
    ghost use Rattle.panels.specs.Asked.{asked, told_by};
    ghost use Rattle.tk_host.specs.Sections.{sections_after};

    /// A line at its moment, in milliseconds: the panels come to the moment and do what is due on the way, and then what the line gives them. Refused as
    /// `Host::line` refuses it, and then nothing changes; after a want of memory nothing is taken any more.
    pub fn line(&mut self, event: EventLine) -> Result<(), HostFault>
        ensures history { (calls : List (Call M)) → self.old.held ≡ held_after M.answer calls →
            OnOk result (self.new.held ≡ held_after M.answer (calls ++ LineAt event.moment event.line ∷ [])) }
        ensures left { IfErr result (λ fault. LeftBy fault self.old self.new) }
    {
        self.host.line(event.moment, event.line)
    }

    /// Goes on to a moment, in milliseconds: what is due by then is done. Refused as `Host::advance_to` refuses it, and then nothing changes.
    pub fn advance_to(&mut self, moment: u64) -> Result<(), HostFault>
        ensures history { (calls : List (Call M)) → self.old.held ≡ held_after M.answer calls →
            OnOk result (self.new.held ≡ held_after M.answer (calls ++ AdvanceTo moment ∷ [])) }
        ensures left { IfErr result (λ fault. LeftBy fault self.old self.new) }
    {
        self.host.advance_to(moment)
    }

    /// What the panel in a slot shows: its section, in bytes. Refused as `Host::section` refuses it.
    pub fn section(&self, slot: usize) -> Result<Vec<u8>, HostFault>
        ensures history { (calls : List (Call M)) → self.now.held ≡ held_after M.answer calls →
            IfOk result (λ bytes. slice_get (sections_after M.answer calls) slot ≡ Some bytes.items) }
    {
        self.host.section(slot)
    }

    /// What the panel in a slot answers to a question, by its application's record. An error where memory is refused.
    pub fn ask(&self, alloc: Global, slot: usize, question: &Question) -> Result<Answer, AllocError>
        ensures { IfOk result (λ answer. told_by answer ≡ asked slot self.now.held question.now) }
    {
        asked(alloc, &self.host, slot, question)
    }

    /// The turns that took steps in the last call that wasn't refused, one after another. It takes no memory.
    pub fn turns(&self) -> &[Turn]
        ensures { result.now ≡ self.now.turns }
    {
        self.host.turns()
    }

    /// The slot of the panel that asked for the memory that was refused, as `Host::asker` tells it. It takes no memory.
    pub fn asker(&self) -> Option<usize>
        ensures { result ≡ self.now.asker }
    {
        self.host.asker()
    }
}

/// The panels of a session, whose scripts have run, each at most `slice` steps at a time, with the program's own services.
pub fn live_panels(alloc: Global, session: &Session, slice: u64) -> Result<Live<Served>, BenchFault>
    requires slice { 1 ≤ slice }
    ensures { IfOk result (λ live. live.held ≡ held_after (λ (service : ServiceOf). answer_of service.kind service.config) (adding session.now.apps (map services_in session.now.apps) ++ Start ∷ [])) }
{
    let aliases = own_services(alloc, session)?;
    Ok(Live {
        host: started(alloc, session, aliases, slice)?,
    })
}

/// By hand: a proof sees one call where it is dropped.
impl<M: AliasService> Drop for Live<M> {
    fn drop(self) {
        let Live { host: _ } = self;
    }
}
