//! Stages: what all applications do at one moment, in turns of slices, and the way from stage to stage.

ghost use Rattle.std.specs.Prelude.{◌≡◌, ◌-◌, ◌≤◌, ◌<◌, ◌++◌, ℕ, map, length, true, false, Ok, OnOk, OnErr, IfErr, IfOk, sum_by};
ghost use Rattle.tk_app.specs.Rounds.{one_turn, round, turns_of};
ghost use Rattle.tk_app.specs.Stages.{first_moment_due};
ghost use Rattle.tk_app.specs.Due.{IsPast};
ghost use Rattle.tk_app.specs.Application.{next_due};
ghost use Rattle.tk_app.specs.MomentsByJob.{settled};
ghost use Rattle.tk_app.specs.Part.{needs, stage_done};
ghost use Rattle.tk_app.specs.Turns.{BeginsIn};
ghost use Rattle.tk_host.specs.AloneByJob.{passed};
ghost use Rattle.tk_host.specs.Cut.{IsCutShort};
ghost use Rattle.tk_host.specs.Ready.{AllRest};
ghost use Rattle.tk_host.specs.Slots.{BeginsAt, CountsAll, TakesTurn, begun_at};
ghost use Rattle.tk_host.specs.Turns.{applications, turns_on_the_way};
ghost use Rattle.tk_base.specs.Limits.{last_moment};

use crate::unserved::Unserved;
use tk_app::{AliasService, AppEnd, Shared, earlier};

/// Goes on to a moment, from due moment to due moment: at each the applications of which something is due then do it.
pub fn advance<M: AliasService>(
    shared: &mut Shared<M>,
    target: u64,
    slice: u64,
) -> Result<(), Unserved>
    requires slice { 0 < slice }
    requires in_time { target ≤ last_moment }
    requires rest { AllRest shared.old.parts }
    requires past { IsPast shared.old.moment (first_moment_due next_due (settled M.answer) (applications shared.old.parts)) }
    requires ahead { shared.old.moment ≤ target }
    ensures brought { OnOk result (applications shared.new.parts ≡ map (passed M.answer target) (applications shared.old.parts)) }
    ensures rest { OnOk result (AllRest shared.new.parts) }
    ensures past { OnOk result (IsPast shared.new.moment (first_moment_due next_due (settled M.answer) (applications shared.new.parts))) }
    ensures through { OnOk result (IsPast target (first_moment_due next_due (settled M.answer) (applications shared.new.parts))) }
    ensures ahead { OnOk result (shared.new.moment ≤ target) }
    ensures turns { OnOk result (shared.new.turns ≡ shared.old.turns ++ turns_on_the_way M.answer slice target (applications shared.old.parts)) }
    ensures cut { IfErr result (λ unserved. IsCutShort slice unserved.slot (shared.old.turns ++ turns_on_the_way M.answer slice target (applications shared.old.parts)) shared.new.turns) }
    ensures there { IfErr result (λ unserved. unserved.slot < length shared.old.parts) }
    ensures counts { CountsAll shared.old shared.new }
{
    'moments: while let Some(due) = next_due(shared) {
        if due > target {
            return Ok(());
        }
        shared.set_moment(due);
        begin_all(shared, due)?;
        stage(shared, slice)?;
    }
    Ok(())
}

/// When something is due next of any of the applications.
fn next_due<M: AliasService>(shared: &Shared<M>) -> Option<u64>
    ensures { result ≡ first_moment_due next_due (settled M.answer) (applications shared.now.parts) }
{
    let mut first = None;
    for slot in 0..shared.len() {
        first = earlier(first, shared.next_due(slot));
    }
    first
}

/// The applications of which something is due at a moment begin to settle.
fn begin_all<M: AliasService>(shared: &mut Shared<M>, moment: u64) -> Result<(), Unserved>
    requires { shared.old.moment ≡ moment }
    ensures begun { OnOk result (shared.new ≡ record shared.old { parts = map (begun_at moment) shared.old.parts }) }
    ensures turns { shared.new.turns ≡ shared.old.turns }
    ensures there { IfErr result (λ unserved. unserved.slot < length shared.old.parts) }
    ensures counts { CountsAll shared.old shared.new }
{
    for slot in 0..shared.len() {
        begin(shared, slot, moment)?;
    }
    Ok(())
}

/// The application in a slot begins to settle, if something is due of it at the moment.
fn begin<M: AliasService>(shared: &mut Shared<M>, slot: usize, moment: u64) -> Result<(), Unserved>
    requires slot { slot < length shared.old.parts }
    requires moment { shared.old.moment ≡ moment }
    ensures begun { OnOk result (BeginsAt moment slot shared.old shared.new) }
    ensures turns { shared.new.turns ≡ shared.old.turns }
    ensures asked { IfErr result (λ unserved. unserved.slot ≡ slot) }
    ensures counts { CountsAll shared.old shared.new }
{
    let Some(due) = shared.next_due(slot) else {
        return Ok(());
    };
    if due != moment {
        return Ok(());
    }
    begin_settling(shared, slot)
}

/// The application in a slot begins to settle.
pub fn begin_settling<M: AliasService>(shared: &mut Shared<M>, slot: usize) -> Result<(), Unserved>
    requires { slot < length shared.old.parts }
    ensures begun { OnOk result (BeginsIn slot shared.old shared.new) }
    ensures turns { shared.new.turns ≡ shared.old.turns }
    ensures asked { IfErr result (λ unserved. unserved.slot ≡ slot) }
    ensures counts { CountsAll shared.old shared.new }
{
    let mut view = shared.view(slot);
    match view.begin_settling() {
        Ok(()) => Ok(()),
        Err(_) => Err(Unserved { slot }),
    }
}

/// Does what is under way in each application, in turns of at most `slice` steps.
pub fn stage<M: AliasService>(shared: &mut Shared<M>, slice: u64) -> Result<(), Unserved>
    requires { 0 < slice }
    ensures moment { OnOk result (shared.new.moment ≡ shared.old.moment) }
    ensures done { OnOk result (shared.new.parts ≡ map (stage_done M.answer shared.old.moment) shared.old.parts) }
    ensures turns { OnOk result (shared.new.turns ≡ shared.old.turns ++ turns_of slice (map (needs M.answer shared.old.moment) shared.old.parts)) }
    ensures cut { IfErr result (λ unserved. IsCutShort slice unserved.slot (shared.old.turns ++ turns_of slice (map (needs M.answer shared.old.moment) shared.old.parts)) shared.new.turns) }
    ensures there { IfErr result (λ unserved. unserved.slot < length shared.old.parts) }
    ensures counts { CountsAll shared.old shared.new }
{
    let mut more = true;
    'rounds: while more {
        more = run_round(shared, slice)?;
    }
    Ok(())
}

/// One round: each application in which something is under way takes a turn, in the order of their slots. It answers whether one needs more.
fn run_round<M: AliasService>(shared: &mut Shared<M>, slice: u64) -> Result<bool, Unserved>
    requires { 0 < slice }
    ensures moment { OnOk result (shared.new.moment ≡ shared.old.moment) }
    ensures done { OnOk result (map (stage_done M.answer shared.old.moment) shared.new.parts ≡ map (stage_done M.answer shared.old.moment) shared.old.parts) }
    ensures left { OnOk result (map (needs M.answer shared.old.moment) shared.new.parts
        ≡ map (λ need. need - slice) (map (needs M.answer shared.old.moment) shared.old.parts)) }
    ensures turns { OnOk result (shared.new.turns ≡ shared.old.turns ++ round slice (map (needs M.answer shared.old.moment) shared.old.parts) 0) }
    ensures cut { IfErr result (λ unserved. IsCutShort slice unserved.slot (shared.old.turns ++ round slice (map (needs M.answer shared.old.moment) shared.old.parts) 0) shared.new.turns) }
    ensures there { IfErr result (λ unserved. unserved.slot < length shared.old.parts) }
    ensures counts { CountsAll shared.old shared.new }
    ensures last { result ≡ Ok false → shared.new.parts ≡ map (stage_done M.answer shared.old.moment) shared.old.parts }
    ensures falls { result ≡ Ok true → sum_by (needs M.answer shared.old.moment) shared.new.parts < sum_by (needs M.answer shared.old.moment) shared.old.parts }
{
    let slots = shared.len();
    let mut more = false;
    for slot in 0..slots {
        more |= take_turn(shared, slot, slice)?;
    }
    Ok(more)
}

/// The turn of the application in a slot, where something is under way in it. It answers whether it needs more.
fn take_turn<M: AliasService>(
    shared: &mut Shared<M>,
    slot: usize,
    slice: u64,
) -> Result<bool, Unserved>
    requires slot { slot < length shared.old.parts }
    requires slice { 0 < slice }
    ensures taken { IfOk result (λ again. TakesTurn M.answer slice slot again shared.old shared.new) }
    ensures cut { OnErr result ((next : ℕ) → IsCutShort slice slot (shared.old.turns ++ one_turn slot next) shared.new.turns) }
    ensures asked { IfErr result (λ unserved. unserved.slot ≡ slot) }
    ensures counts { CountsAll shared.old shared.new }
{
    if !shared.is_under_way(slot) {
        return Ok(false);
    }
    let mut view = shared.view(slot);
    match view.settle(slice) {
        Ok(AppEnd::More) => Ok(true),
        Ok(AppEnd::Settled) => Ok(false),
        Ok(AppEnd::Stopped) => Ok(false),
        Err(_) => Err(Unserved { slot }),
    }
}
