ghost use Rattle.std.specs.Prelude.{◌≡◌, ◌≤◌, ◌↔◌, ℕ, true, List, [], length, IsTrue, Any, MatchResult};
ghost use Rattle.tk_base.specs.Rect.{SharePixel};
ghost use Rattle.tk_route.specs.Lines.{values};
ghost use Rattle.tk_route.specs.Screen.{are_apart};
ghost use Rattle.tk_route.specs.Limits.{most_applications};
ghost use Rattle.tk_route.specs.Refusals.{IsFirst, NoneApplies};
ghost use Rattle.tk_host.specs.Refusals.{PartsRefuse, app_faults};
ghost use Rattle.tk_host.specs.Spec.{given, have_one_name, is_served};

use crate::events::deliver_all;
use crate::phase::Phase;
use crate::spec::may_be_given;
use crate::stages::{advance, stage};
use std::alloc::{AllocError, Global};
use std::marker::Model;
use tcl_text::Text;
use tk_app::{Alias, AliasService, Aliases, Budget, CommandPlace, ErrorNote, Shared, Size, Turn};
use tk_base::{MAX_MOMENT, Rect};
use tk_route::{HostFault, HostLine, LineFault, MAX_APPLICATIONS, Router, test_line};

/// Applications side by side with one clock, in milliseconds from 0. What becomes of each rests on itself alone; those that have something to
/// do at a moment take turns, in the order of their slots, each at most a slice of steps.
pub struct Host<M: AliasService> {
    alloc: Global,
    slice: u64,
    pub(crate) phase: Phase,
    rects: Vec<Rect>,
    router: Router,
    pub(crate) shared: Shared<M>,
    /// To whose application memory was refused, once the host is broken.
    asker: Option<usize>,
}

impl<M: AliasService> Model for Host<M> {
    ghost use Rattle.std.specs.Prelude.{◌≤◌};
    ghost use Rattle.tk_host.specs.Held.{Hosted, asker_in, known_by};
    ghost use Rattle.tk_host.specs.Ready.{IsReady, IsRouted};

    ghost Value = { Hosted M };

    ghost view = { λ h. record {
      held = record { phase = h.phase; known = known_by h.phase h.rects.items h.router; parts = h.shared.parts };
      slice = h.slice;
      turns = h.shared.turns;
      asker = asker_in h.phase h.asker;
    } };

    ghost invariant = { λ h. (1 ≤ h.slice) × IsReady M.answer h.phase h.shared.moment h.shared.parts × IsRouted h.phase h.rects.items h.router h.shared.parts };
}

impl<M: AliasService> Host<M> {
    ghost use Rattle.std.specs.Prelude.{◌≡◌, ◌≢◌, ◌≤◌, ℕ, List, [], ◌∷◌, ◌++◌, map, slice_get, Some, None, IfOk, IfErr, OnOk, OnErr, MatchResult};
    ghost use Rattle.tk_app.specs.Section.{section};
    ghost use Rattle.tk_base.specs.declared.rect.Rect.{Rect};
    ghost use Rattle.tk_host.specs.Cut.{CutBy, CutByLine, CutShortBy, IsBrokenOff, TellsAtLeast};
    ghost use Rattle.tk_route.specs.Lines.{Line, at, values};
    ghost use Rattle.tk_host.specs.Held.{AddApp, AdvanceTo, Call, End, LineAt, Start, after_advance, after_end, after_line, after_start, gone_to, held_after, turns_after, with_app};
    ghost use Rattle.tk_host.specs.Ready.{IsAt};
    ghost use Rattle.tk_app.specs.Commands.{Update};
    ghost use Rattle.tk_app.specs.Dispatch.{Action};
    ghost use Rattle.tk_app.specs.Settle.{IsSettle, IsUpdate};
    ghost use Rattle.tk_host.specs.Sections.{sections_after, sections_by};
    ghost use Rattle.tk_host.specs.Spec.{given};
    ghost use Rattle.tk_route.specs.Refusals.{IsFirst, NoneApplies};
    ghost use Rattle.tk_host.specs.Refusals.{IsRefusal, LeftBy, PhaseRefuses, RefusesApp, RefusesLine, RefusesMoment, RefusesSection, add_faults, line_faults, moment_faults, section_faults, start_faults};

    /// A host without applications. Each takes at most `slice` steps in a turn; what comes of it doesn't depend on that.
    pub fn new(alloc: Global, slice: u64) -> Result<Host<M>, AllocError>
        requires { 1 ≤ slice }
        ensures { IfOk result (λ host. host ≡ record { held = held_after M.answer []; slice = slice; turns = []; asker = None }) }
    {
        Ok(Host {
            alloc,
            slice,
            phase: Phase::Adding,
            rects: Vec::new(alloc),
            router: router_of(&[]),
            shared: Shared::new(alloc)?,
            asker: None,
        })
    }

    /// Adds an application in the next slot, from 0 on: its rectangle on the screen in pixels, the steps that its scripts may take: how
    /// many at first, and how many each event grants that is routed to it, up to that number again; and its aliases, each of which replaces a
    /// command of its name (interp(n)). Refused are, in this order: `Broken` (42), `Ended` (41), `Started` (40), `BadLine` (36; also more than
    /// 64 aliases, or one by a name that `is_command_name` refuses), `TooManyApps` (38), `NameTaken` (39; also where two of the aliases have one
    /// name) and `Overlap` (34).
    pub fn add_app(
        &mut self,
        name: Text,
        rect: Rect,
        script: Text,
        budget: Budget,
        aliases: Aliases<M>,
    ) -> Result<(), HostFault>
        ensures added { OnOk result (self.new ≡ with_app (given name rect script budget aliases) self.old) }
        ensures unless { OnOk result (NoneApplies (RefusesApp self.old.held (given name rect script budget aliases)) add_faults) }
        ensures refused { IfErr result (IsRefusal (RefusesApp self.old.held (given name rect script budget aliases)) add_faults) }
        ensures unchanged { OnErr result (self.new ≡ self.old) }
        ensures history { (calls : List (Call M)) → self.old.held ≡ held_after M.answer calls
            → OnOk result (self.new.held ≡ held_after M.answer (calls ++ AddApp (given name rect script budget aliases) ∷ [])) }
    {
        self.may_add(&name, rect, budget, &aliases)?;
        self.rects.reserve(1)?;
        let size = Size {
            width: rect.width,
            height: rect.height,
        };
        self.shared.add(name, size, budget, script, aliases)?;
        match self.rects.push(rect) {
            Ok(()) => Ok(()),
            Err(_) => unreachable!(),
        }
    }

    /// Runs each application's script at moment 0, and does what is due then, in turns. Refused are, in this order: `Broken` (42), `Ended`
    /// (41) and `Started` (40). After a want of memory the host is broken.
    pub fn start(&mut self) -> Result<(), HostFault>
        ensures started { OnOk result (self.new ≡ after_start M.answer self.old) }
        ensures unless { OnOk result (NoneApplies (PhaseRefuses self.old.held.phase) start_faults) }
        ensures refused { IfErr result (IsRefusal (PhaseRefuses self.old.held.phase) start_faults) }
        ensures left { IfErr result (λ fault. LeftBy fault self.old self.new) }
        ensures history { (calls : List (Call M)) → self.old.held ≡ held_after M.answer calls →
            OnOk result (self.new.held ≡ held_after M.answer (calls ++ Start ∷ [])) }
        ensures turns { (calls : List (Call M)) → self.old.held ≡ held_after M.answer calls →
            OnOk result (self.new.turns ≡ turns_after M.answer self.old.slice calls Start) }
        ensures cut { (calls : List (Call M)) → self.old.held ≡ held_after M.answer calls →
            IfErr result (λ fault. CutBy fault (turns_after M.answer self.old.slice calls Start) self.old self.new) }
        ensures cut_short { IfErr result (λ fault. CutBy fault (after_start M.answer self.old).turns self.old self.new) }
    {
        match self.phase {
            Phase::Adding => {}
            Phase::Reached(_) => return Err(HostFault::Refused(LineFault::Started)),
            Phase::Finished(_) => return Err(HostFault::Refused(LineFault::Ended)),
            Phase::Lost => return Err(HostFault::Refused(LineFault::Broken)),
        }
        self.router = router_of(self.rects.as_slice());
        self.phase = Phase::Lost;
        self.shared.clear_turns();
        match stage(&mut self.shared, self.slice) {
            Ok(()) => {}
            Err(unserved) => {
                self.asker = Some(unserved.slot);
                return Err(HostFault::NoMemory);
            }
        }
        self.phase = Phase::Reached(0);
        Ok(())
    }

    /// A line of the pointer, of a key, of who has the keys, or of a rectangle, at a moment, in milliseconds: the applications come to the
    /// moment, each doing what is due of its own on the way, and then those that the line gives an event do what comes of it, in turns. Refused
    /// are, in this order: `Broken` (42), `Ended` (41), `BadLine` (36) outside the ranges of a session, `TimeBack` (35), `NoApp` (37) and
    /// `RectOverlap` (43). After a want of memory the host is broken.
    pub fn line(&mut self, moment: u64, line: HostLine) -> Result<(), HostFault>
        requires { self.old.held.phase ≢ Phase.Adding }
        ensures lined { (first : List Rect) (earlier : List Line) → self.old.held.known ≡ values first earlier
            → OnOk result (self.new ≡ after_line M.answer first earlier (at moment line) self.old) }
        ensures reached { OnOk result (self.new.held.phase ≡ Phase.Reached moment) }
        ensures unless { OnOk result (NoneApplies (RefusesLine self.old.held moment line) line_faults) }
        ensures refused { IfErr result (IsRefusal (RefusesLine self.old.held moment line) line_faults) }
        ensures left { IfErr result (λ fault. LeftBy fault self.old self.new) }
        ensures history { (calls : List (Call M)) → self.old.held ≡ held_after M.answer calls →
            OnOk result (self.new.held ≡ held_after M.answer (calls ++ LineAt moment line ∷ [])) }
        ensures turns { (calls : List (Call M)) → self.old.held ≡ held_after M.answer calls →
            OnOk result (self.new.turns ≡ turns_after M.answer self.old.slice calls (LineAt moment line)) }
        ensures cut { (calls : List (Call M)) → self.old.held ≡ held_after M.answer calls →
            IfErr result (λ fault. CutByLine fault (turns_after M.answer self.old.slice calls (LineAt moment line)) self.old self.new) }
        ensures cut_short { (first : List Rect) (earlier : List Line) → self.old.held.known ≡ values first earlier →
            IfErr result (λ fault. CutShortBy fault (after_line M.answer first earlier (at moment line) self.old).turns self.old self.new) }
    {
        self.may_take(moment, &line)?;
        self.tested_line(moment, line)?;
        Ok(())
    }

    /// Takes a line as `line` does, where it was tested already that `line` isn't refused it. After a want of memory, which alone is answered, the
    /// host is broken.
    pub fn tested_line(&mut self, moment: u64, line: HostLine) -> Result<(), AllocError>
        requires begun { self.old.held.phase ≢ Phase.Adding }
        requires tested { NoneApplies (RefusesLine self.old.held moment line) line_faults }
        ensures lined { (first : List Rect) (earlier : List Line) → self.old.held.known ≡ values first earlier
            → OnOk result (self.new ≡ after_line M.answer first earlier (at moment line) self.old) }
        ensures reached { OnOk result (self.new.held.phase ≡ Phase.Reached moment) }
        ensures lost { OnErr result (self.new.held.phase ≡ Phase.Lost) }
        ensures history { (calls : List (Call M)) → self.old.held ≡ held_after M.answer calls →
            OnOk result (self.new.held ≡ held_after M.answer (calls ++ LineAt moment line ∷ [])) }
        ensures turns { (calls : List (Call M)) → self.old.held ≡ held_after M.answer calls →
            OnOk result (self.new.turns ≡ turns_after M.answer self.old.slice calls (LineAt moment line)) }
        ensures cut { (calls : List (Call M)) → self.old.held ≡ held_after M.answer calls →
            OnErr result (IsBrokenOff (turns_after M.answer self.old.slice calls (LineAt moment line)) self.old self.new
            × TellsAtLeast self.new.turns self.old.held.parts self.new.held.parts) }
        ensures cut_short { (first : List Rect) (earlier : List Line) → self.old.held.known ≡ values first earlier →
            OnErr result (IsBrokenOff (after_line M.answer first earlier (at moment line) self.old).turns self.old self.new) }
    {
        let routed = self.router.tested_line(moment, line);
        self.phase = Phase::Lost;
        let shared = &mut self.shared;
        shared.clear_turns();
        match advance(shared, moment, self.slice) {
            Ok(()) => {}
            Err(unserved) => {
                self.asker = Some(unserved.slot);
                return Err(AllocError);
            }
        }
        shared.set_moment(moment);
        match deliver_all(shared, routed, self.slice) {
            Ok(()) => {}
            Err(unserved) => {
                self.asker = Some(unserved.slot);
                return Err(AllocError);
            }
        }
        self.phase = Phase::Reached(moment);
        Ok(())
    }

    /// Goes on to a moment, in milliseconds: what is due by then is done, each at its moment: timers, and the idle scripts that come of
    /// them (after(n)). Refused are, in this order: `Broken` (42), `Ended` (41), `BadLine` (36) past 10^12 and `TimeBack` (35). After a
    /// want of memory the host is broken.
    pub fn advance_to(&mut self, moment: u64) -> Result<(), HostFault>
        requires { self.old.held.phase ≢ Phase.Adding }
        ensures advanced { OnOk result (self.new ≡ after_advance M.answer moment self.old) }
        ensures unless { OnOk result (NoneApplies (RefusesMoment self.old.held moment) moment_faults) }
        ensures refused { IfErr result (IsRefusal (RefusesMoment self.old.held moment) moment_faults) }
        ensures left { IfErr result (λ fault. LeftBy fault self.old self.new) }
        ensures history { (calls : List (Call M)) → self.old.held ≡ held_after M.answer calls →
            OnOk result (self.new.held ≡ held_after M.answer (calls ++ AdvanceTo moment ∷ [])) }
        ensures turns { (calls : List (Call M)) → self.old.held ≡ held_after M.answer calls →
            OnOk result (self.new.turns ≡ turns_after M.answer self.old.slice calls (AdvanceTo moment)) }
        ensures cut { (calls : List (Call M)) → self.old.held ≡ held_after M.answer calls →
            IfErr result (λ fault. CutBy fault (turns_after M.answer self.old.slice calls (AdvanceTo moment)) self.old self.new) }
        ensures cut_short { IfErr result (λ fault. CutBy fault (after_advance M.answer moment self.old).turns self.old self.new) }
    {
        self.go_to(moment, Phase::Reached(moment))
    }

    /// Goes on to the last moment, in milliseconds, as `advance_to` does, and is refused as that is (42, 41, 36, 35). After a want of
    /// memory the host is broken.
    pub fn end(&mut self, moment: u64) -> Result<(), HostFault>
        requires { self.old.held.phase ≢ Phase.Adding }
        ensures ended { OnOk result (self.new ≡ after_end M.answer moment self.old) }
        ensures unless { OnOk result (NoneApplies (RefusesMoment self.old.held moment) moment_faults) }
        ensures refused { IfErr result (IsRefusal (RefusesMoment self.old.held moment) moment_faults) }
        ensures left { IfErr result (λ fault. LeftBy fault self.old self.new) }
        ensures history { (calls : List (Call M)) → self.old.held ≡ held_after M.answer calls →
            OnOk result (self.new.held ≡ held_after M.answer (calls ++ End moment ∷ [])) }
        ensures turns { (calls : List (Call M)) → self.old.held ≡ held_after M.answer calls →
            OnOk result (self.new.turns ≡ turns_after M.answer self.old.slice calls (End moment)) }
        ensures cut { (calls : List (Call M)) → self.old.held ≡ held_after M.answer calls →
            IfErr result (λ fault. CutBy fault (turns_after M.answer self.old.slice calls (End moment)) self.old self.new) }
        ensures cut_short { IfErr result (λ fault. CutBy fault (after_end M.answer moment self.old).turns self.old self.new) }
    {
        self.go_to(moment, Phase::Finished(moment))
    }

    /// The section of the application in a slot, in bytes: its state and the steps left, what it wrote and its errors by their moments in
    /// milliseconds, its window in pixels, and its timers and idle scripts. `Broken` (42), or `NoApp` (37) where the slot has none. After any list of
    /// calls that weren't refused it is that of the application by itself, by whatever meets the equations of `update` and *Settle*.
    pub fn section(&self, slot: usize) -> Result<Vec<u8>, HostFault>
        ensures section { IfOk result (λ bytes. slice_get (map (λ part. section part.application) self.now.held.parts) slot ≡ Some bytes.items) }
        ensures unless { OnOk result (NoneApplies (RefusesSection self.now.held slot) section_faults) }
        ensures refused { IfErr result (IsRefusal (RefusesSection self.now.held slot) section_faults) }
        ensures history { (calls : List (Call M)) → self.now.held ≡ held_after M.answer calls →
            IfOk result (λ bytes. slice_get (sections_after M.answer calls) slot ≡ Some bytes.items) }
        ensures sections { (calls : List (Call M)) → self.now.held ≡ held_after M.answer calls
            → (update : Update) → IsUpdate update → (settle : Action) → IsSettle update settle →
            IfOk result (λ bytes. slice_get (sections_by M.answer update settle calls) slot ≡ Some bytes.items) }
    {
        if let Phase::Lost = self.phase {
            return Err(HostFault::Refused(LineFault::Broken));
        }
        if slot >= self.shared.len() {
            return Err(HostFault::Refused(LineFault::NoApp));
        }
        Ok(self.shared.section(self.alloc, slot)?)
    }

    /// The turns that took steps in the last `start`, `line`, `advance_to` or `end` that wasn't refused with a number, one after another: whose each
    /// was, and how many steps it took. Before the first of these calls there are none. After a want of memory it is those of the call that met it:
    /// the first of those that there would have been, and at most one turn more, which the want of memory broke off. It takes no memory.
    pub fn turns(&self) -> &[Turn]
        ensures { result.now ≡ self.now.turns }
    {
        self.shared.turns()
    }

    /// The slot of the application that asked for the memory that was refused, once the host is broken (42): the one whose turn it was, or which was
    /// about to do what comes of an event or is due. Before, none. It takes no memory.
    pub fn asker(&self) -> Option<usize>
        ensures asker { result ≡ self.now.asker }
        ensures none { self.now.held.phase ≢ Phase.Lost → result ≡ None }
    {
        match self.phase {
            Phase::Lost => self.asker,
            _ => None,
        }
    }

    /// The commands in which the application in a slot stood as it ran out of steps last, the innermost first; none where it never did. `None` where
    /// the slot has no application. It takes no memory.
    pub fn stopped_at(&self, slot: usize) -> Option<&[CommandPlace]> {
        self.shared.stopped_at(slot)
    }

    /// The errors that the interpreter of the application in a slot noted, each with the commands in which it came about; `None` where the slot has no application.
    /// They are notes for people, as `stopped_at` is: nothing that runs hangs on them. It takes no memory.
    pub fn error_notes(&self, slot: usize) -> Option<&[ErrorNote]> {
        self.shared.error_notes(slot)
    }

    /// The moment, in milliseconds, at which the application in a slot ran out of steps last; `None` where it never did, and where the slot has none. It is a
    /// note for people, as `stopped_at` is: nothing that runs hangs on it. It takes no memory.
    pub fn stopped_moment(&self, slot: usize) -> Option<u64> {
        self.shared.stopped_moment(slot)
    }

    /// Goes on to a moment, and to a phase there.
    fn go_to(&mut self, moment: u64, phase: Phase) -> Result<(), HostFault>
        requires begun { self.old.held.phase ≢ Phase.Adding }
        requires there { IsAt moment phase }
        ensures gone { OnOk result (self.new ≡ gone_to M.answer phase moment self.old) }
        ensures cut { IfErr result (λ fault. CutBy fault (gone_to M.answer phase moment self.old).turns self.old self.new) }
        ensures unless { OnOk result (NoneApplies (RefusesMoment self.old.held moment) moment_faults) }
        ensures refused { IfErr result (IsRefusal (RefusesMoment self.old.held moment) moment_faults) }
        ensures left { IfErr result (λ fault. LeftBy fault self.old self.new) }
    {
        self.may_go_to(moment)?;
        self.phase = Phase::Lost;
        let shared = &mut self.shared;
        shared.clear_turns();
        match advance(shared, moment, self.slice) {
            Ok(()) => {}
            Err(unserved) => {
                self.asker = Some(unserved.slot);
                return Err(HostFault::NoMemory);
            }
        }
        self.phase = phase;
        Ok(())
    }

    /// Why the host can't go on to a moment, if it can't.
    fn may_go_to(&self, moment: u64) -> Result<(), LineFault>
        requires { self.now.held.phase ≢ Phase.Adding }
        ensures answer { MatchResult result (λ _. NoneApplies (RefusesMoment self.now.held moment) moment_faults)
            (IsFirst (RefusesMoment self.now.held moment) moment_faults) }
    {
        let reached = match self.phase {
            Phase::Adding => unreachable!(),
            Phase::Reached(reached) => reached,
            Phase::Finished(_) => return Err(LineFault::Ended),
            Phase::Lost => return Err(LineFault::Broken),
        };
        if moment > MAX_MOMENT {
            return Err(LineFault::BadLine);
        }
        if moment < reached {
            return Err(LineFault::TimeBack);
        }
        Ok(())
    }

    /// Why a line can't be taken, if it can't.
    fn may_take(&self, moment: u64, line: &HostLine) -> Result<(), LineFault>
        requires { self.now.held.phase ≢ Phase.Adding }
        ensures answer { MatchResult result (λ _. NoneApplies (RefusesLine self.now.held moment line.now) line_faults)
            (IsFirst (RefusesLine self.now.held moment line.now) line_faults) }
    {
        let reached = match self.phase {
            Phase::Adding => unreachable!(),
            Phase::Reached(reached) => reached,
            Phase::Finished(_) => return Err(LineFault::Ended),
            Phase::Lost => return Err(LineFault::Broken),
        };
        test_line(self.router.rects(), reached, moment, line)
    }

    /// Why an application can't be added, if it can't.
    fn may_add(
        &self,
        name: &Text,
        rect: Rect,
        budget: Budget,
        aliases: &Aliases<M>,
    ) -> Result<(), LineFault>
        ensures { (script : List ℕ) → MatchResult result
            (λ _. NoneApplies (RefusesApp self.now.held (given name.now rect script budget aliases.now)) add_faults)
            (IsFirst (RefusesApp self.now.held (given name.now rect script budget aliases.now)) add_faults) }
    {
        match self.phase {
            Phase::Adding => test_app(
                &self.shared,
                self.rects.as_slice(),
                name,
                rect,
                budget,
                aliases,
            ),
            Phase::Reached(_) => Err(LineFault::Started),
            Phase::Finished(_) => Err(LineFault::Ended),
            Phase::Lost => Err(LineFault::Broken),
        }
    }
}

/// Why an application can't join these, if it can't.
fn test_app<M: AliasService>(
    shared: &Shared<M>,
    rects: &[Rect],
    name: &Text,
    rect: Rect,
    budget: Budget,
    aliases: &Aliases<M>,
) -> Result<(), LineFault>
    ensures { (script : List ℕ) → MatchResult result
        (λ _. NoneApplies (PartsRefuse rects.now shared.now.parts (given name.now rect script budget aliases.now)) app_faults)
        (IsFirst (PartsRefuse rects.now shared.now.parts (given name.now rect script budget aliases.now)) app_faults) }
{
    if !may_be_given(name, rect, budget, aliases) {
        return Err(LineFault::BadLine);
    }
    if shared.len() >= MAX_APPLICATIONS {
        return Err(LineFault::TooManyApps);
    }
    if shared.has_name(name) || have_one_name(aliases.as_slice()) {
        return Err(LineFault::NameTaken);
    }
    if is_place_taken(rects, rect) {
        return Err(LineFault::Overlap);
    }
    Ok(())
}

/// Whether a rectangle shares a pixel with this one.
fn is_place_taken(rects: &[Rect], rect: Rect) -> bool
    ensures { IsTrue result ↔ Any (λ other. SharePixel other rect) rects.now }
{
    rects.iter().any(|other| other.overlaps(rect))
}

/// Whether two of the aliases have one name.
fn have_one_name<M: AliasService>(aliases: &[Alias<M>]) -> bool
    ensures { result ≡ have_one_name aliases.now }
{
    let mut rest = aliases;
    while let [alias, others @ ..] = rest {
        if is_served(alias.name(), others) {
            return true;
        }
        rest = others;
    }
    false
}

/// Whether one of the aliases has this name.
fn is_served<M: AliasService>(name: &Text, aliases: &[Alias<M>]) -> bool
    ensures { result ≡ is_served name.now aliases.now }
{
    let mut rest = aliases;
    while let [alias, others @ ..] = rest {
        if alias.name().as_str() == name.as_str() {
            return true;
        }
        rest = others;
    }
    false
}

/// A router before the first line, for rectangles that are apart.
fn router_of(rects: &[Rect]) -> Router
    requires apart { are_apart rects.now ≡ true }
    requires few { length rects.now ≤ most_applications }
    ensures { result ≡ values rects.now [] }
{
    match Router::new(rects) {
        Ok(router) => router,
        Err(_) => unreachable!(),
    }
}

/// By hand: a proof sees one call where it is dropped, and not its parts.
impl<M: AliasService> Drop for Host<M> {
    fn drop(self) {
        let Host {
            alloc: _,
            slice: _,
            phase: _,
            rects: _,
            router: _,
            shared: _,
            asker: _,
        } = self;
    }
}
