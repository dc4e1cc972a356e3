//! What a line gives to applications, and what comes of it, in turns of slices.

ghost use Rattle.std.specs.Prelude.{◌≡◌, ◌≢◌, ◌<◌, ◌++◌, [], ◌∷◌, map, length, IfErr, OnOk};
ghost use Rattle.tk_app.specs.Turns.{DeliversIn};
ghost use Rattle.tk_route.specs.Answers.{deliveries};
ghost use Rattle.tk_host.specs.Cut.{IsCutShort};
ghost use Rattle.tk_host.specs.Held.{at_rest};
ghost use Rattle.tk_host.specs.Ready.{AllRest};
ghost use Rattle.tk_host.specs.Slots.{AreAt, KeepsAll, RestsIn, given_from};
ghost use Rattle.tk_host.specs.Turns.{after_given, applications, stages_of, turns_given};

use crate::stages::{begin_settling, stage};
use crate::unserved::Unserved;
use tk_app::{AliasService, LocalEvent, Shared};
use tk_route::{Delivery, Routed};

/// Gives what a line gives, and does what comes of it. Events of different applications are one stage, in which these take turns; a second
/// event of the same application is a stage of its own.
pub fn deliver_all<M: AliasService>(
    shared: &mut Shared<M>,
    routed: Routed,
    slice: u64,
) -> Result<(), Unserved>
    requires slice { 0 < slice }
    requires rest { AllRest shared.old.parts }
    requires now { AreAt shared.old.moment (deliveries routed) }
    ensures moment { OnOk result (shared.new.moment ≡ shared.old.moment) }
    ensures parts { OnOk result (shared.new.parts ≡ map at_rest (after_given M.answer 0 (deliveries routed) (applications shared.old.parts))) }
    ensures turns { OnOk result (shared.new.turns
        ≡ shared.old.turns ++ turns_given M.answer slice (stages_of (deliveries routed)) (applications shared.old.parts)) }
    ensures cut { IfErr result (λ unserved. IsCutShort slice unserved.slot
        (shared.old.turns ++ turns_given M.answer slice (stages_of (deliveries routed)) (applications shared.old.parts)) shared.new.turns) }
    ensures there { IfErr result (λ unserved. unserved.slot < length shared.old.parts) }
    ensures keeps { KeepsAll shared.old shared.new }
{
    match routed {
        Routed::Nobody => Ok(()),
        Routed::One(only) => deliver_one(shared, only, slice),
        Routed::Two(first, second) => {
            if first.slot == second.slot {
                deliver_twice(shared, first, second, slice)
            } else {
                deliver_both(shared, first, second, slice)
            }
        }
    }
}

/// A stage of one event.
fn deliver_one<M: AliasService>(
    shared: &mut Shared<M>,
    only: Delivery,
    slice: u64,
) -> Result<(), Unserved>
    requires slice { 0 < slice }
    requires rest { AllRest shared.old.parts }
    requires now { only.event.moment ≡ shared.old.moment }
    ensures moment { OnOk result (shared.new.moment ≡ shared.old.moment) }
    ensures parts { OnOk result (shared.new.parts ≡ map at_rest (after_given M.answer 0 (only ∷ []) (applications shared.old.parts))) }
    ensures turns { OnOk result (shared.new.turns ≡ shared.old.turns ++ turns_given M.answer slice (stages_of (only ∷ [])) (applications shared.old.parts)) }
    ensures cut { IfErr result (λ unserved. IsCutShort slice unserved.slot
        (shared.old.turns ++ turns_given M.answer slice (stages_of (only ∷ [])) (applications shared.old.parts)) shared.new.turns) }
    ensures there { IfErr result (λ unserved. unserved.slot < length shared.old.parts) }
    ensures keeps { KeepsAll shared.old shared.new }
{
    give(shared, only)?;
    stage(shared, slice)
}

/// Two stages, of an event each, for the same application.
fn deliver_twice<M: AliasService>(
    shared: &mut Shared<M>,
    first: Delivery,
    second: Delivery,
    slice: u64,
) -> Result<(), Unserved>
    requires slice { 0 < slice }
    requires rest { AllRest shared.old.parts }
    requires now { first.event.moment ≡ shared.old.moment }
    requires also_now { second.event.moment ≡ shared.old.moment }
    requires same { first.slot ≡ second.slot }
    ensures moment { OnOk result (shared.new.moment ≡ shared.old.moment) }
    ensures parts { OnOk result (shared.new.parts ≡ map at_rest (after_given M.answer 0 (first ∷ second ∷ []) (applications shared.old.parts))) }
    ensures turns { OnOk result (shared.new.turns
        ≡ shared.old.turns ++ turns_given M.answer slice (stages_of (first ∷ second ∷ [])) (applications shared.old.parts)) }
    ensures cut { IfErr result (λ unserved. IsCutShort slice unserved.slot
        (shared.old.turns ++ turns_given M.answer slice (stages_of (first ∷ second ∷ [])) (applications shared.old.parts)) shared.new.turns) }
    ensures there { IfErr result (λ unserved. unserved.slot < length shared.old.parts) }
    ensures keeps { KeepsAll shared.old shared.new }
{
    deliver_one(shared, first, slice)?;
    deliver_one(shared, second, slice)
}

/// A stage of two events, for different applications.
fn deliver_both<M: AliasService>(
    shared: &mut Shared<M>,
    first: Delivery,
    second: Delivery,
    slice: u64,
) -> Result<(), Unserved>
    requires slice { 0 < slice }
    requires rest { AllRest shared.old.parts }
    requires now { first.event.moment ≡ shared.old.moment }
    requires also_now { second.event.moment ≡ shared.old.moment }
    requires differ { first.slot ≢ second.slot }
    ensures moment { OnOk result (shared.new.moment ≡ shared.old.moment) }
    ensures parts { OnOk result (shared.new.parts ≡ map at_rest (after_given M.answer 0 (first ∷ second ∷ []) (applications shared.old.parts))) }
    ensures turns { OnOk result (shared.new.turns
        ≡ shared.old.turns ++ turns_given M.answer slice (stages_of (first ∷ second ∷ [])) (applications shared.old.parts)) }
    ensures cut { IfErr result (λ unserved. IsCutShort slice unserved.slot
        (shared.old.turns ++ turns_given M.answer slice (stages_of (first ∷ second ∷ [])) (applications shared.old.parts)) shared.new.turns) }
    ensures there { IfErr result (λ unserved. unserved.slot < length shared.old.parts) }
    ensures keeps { KeepsAll shared.old shared.new }
{
    give(shared, first)?;
    give(shared, second)?;
    stage(shared, slice)
}

/// Gives an event to the application that it is for, which begins to settle. A slot that no application has is given nothing.
fn give<M: AliasService>(shared: &mut Shared<M>, delivery: Delivery) -> Result<(), Unserved>
    requires now { delivery.event.moment ≡ shared.old.moment }
    requires rests { RestsIn delivery.slot shared.old.parts }
    ensures given { OnOk result (shared.new ≡ record shared.old { parts = given_from 0 delivery shared.old.parts }) }
    ensures turns { shared.new.turns ≡ shared.old.turns }
    ensures asked { IfErr result (λ unserved. unserved.slot ≡ delivery.slot) }
    ensures there { IfErr result (λ unserved. unserved.slot < length shared.old.parts) }
    ensures keeps { KeepsAll shared.old shared.new }
{
    if delivery.slot >= shared.len() {
        return Ok(());
    }
    deliver(shared, delivery.slot, delivery.event)?;
    begin_settling(shared, delivery.slot)
}

/// Gives an event to the application in a slot.
fn deliver<M: AliasService>(
    shared: &mut Shared<M>,
    slot: usize,
    event: LocalEvent,
) -> Result<(), Unserved>
    requires slot { slot < length shared.old.parts }
    requires now { event.moment ≡ shared.old.moment }
    requires rests { RestsIn slot shared.old.parts }
    ensures delivered { OnOk result (DeliversIn slot event shared.old shared.new) }
    ensures turns { shared.new.turns ≡ shared.old.turns }
    ensures asked { IfErr result (λ unserved. unserved.slot ≡ slot) }
    ensures keeps { KeepsAll shared.old shared.new }
{
    let mut view = shared.view(slot);
    match view.deliver(event) {
        Ok(()) => Ok(()),
        Err(_) => Err(Unserved { slot }),
    }
}
