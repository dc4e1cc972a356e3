//! The commands of global(n) and upvar(n).
ghost use Rattle.std.specs.Prelude.{◌≡◌, ◌<◌, length, IfOk};
ghost use Rattle.tcl_commands.specs.Refusals.{Does, Steps};
ghost use Rattle.tcl_commands.specs.Links as spec;

use std::alloc::{AllocError, Global};
use tcl_text::Text;
use tcl_text::answers::{Refusal, Reply, wrong_args};
use tcl_vars::{LinkFault, Scopes, element_of};

/// `global name ?name ..?`: each name of the frame becomes a link to the global variable of that name, up to the
/// first that can't. In the global frame it does nothing.
#[tactic(auto, using(crate::proofs::DoneLemmas::kept, crate::proofs::EachLemmas::steps))]
pub fn global_words(alloc: Global, scopes: &mut Scopes, frame: usize, words: &[Text]) -> Reply
    requires { frame < length scopes.old }
    ensures does { Does result scopes.new (spec.global_words frame words.now scopes.old) }
    ensures levels { length scopes.new ≡ length scopes.old }
{
    if words.is_empty() {
        return wrong_args(alloc, "global name ?name ..?");
    }
    if frame == 0 {
        return Ok(Text::empty());
    }
    let mut rest = words;
    while let [name, others @ ..] = rest {
        link_global(alloc, scopes, frame, name)?;
        rest = others;
    }
    Ok(Text::empty())
}

/// Links a name of the frame to the global variable of that name; more than 4,096 variables are refused (19), and a name that can't be
/// used, or exists, without a number.
#[tactic(auto, unfolding(tcl_text::specs::Messages::bounded))]
fn link_global(alloc: Global, scopes: &mut Scopes, frame: usize, name: &Text) -> Result<(), Refusal>
    requires above { 0 < frame }
    requires level { frame < length scopes.old }
    ensures steps { Steps result scopes.old scopes.new (spec.global_step frame name.now scopes.old) }
    ensures levels { length scopes.new ≡ length scopes.old }
{
    let global = global_name(alloc, name)?;
    match scopes.link(frame, &global, 0, &global) {
        Ok(()) => Ok(()),
        Err(LinkFault::NoMemory) => Err(Refusal::NoMemory),
        Err(fault) => {
            let told = name_told(name.as_str(), global.as_str(), fault);
            Err(Refusal::Error(fault.text(alloc, told)?))
        }
    }
}

/// How a name is told that can't be linked: as it is used, but an element as it is written.
fn name_told<'a>(written: &'a str, global: &'a str, fault: LinkFault) -> &'a str
    ensures { result.now ≡ spec.name_told written.now global.now fault }
{
    match (fault, element_of(global)) {
        (LinkFault::BadName, Some(_)) => written,
        _ => global,
    }
}

/// A global variable's name without a leading `::`.
fn global_name(alloc: Global, name: &Text) -> Result<Text, AllocError>
    ensures { IfOk result (λ global. global ≡ spec.global_name name.now) }
{
    let Some(rest) = name.as_str().strip_prefix("::") else {
        return name.copy();
    };
    Text::of_short(alloc, rest)
}

/// How `upvar` is used.
pub const UPVAR_USAGE: &str = "upvar ?level? other mine ?other mine ..?";

/// `upvar ?level? other mine ?other mine ..?` behind its level: each second name of the frame becomes a link to the
/// name before it in the frame at another level, up to the first that can't.
#[tactic(auto, using(crate::proofs::DoneLemmas::kept, crate::proofs::EachLemmas::steps))]
pub fn upvar_words(
    alloc: Global,
    scopes: &mut Scopes,
    frame: usize,
    to_frame: usize,
    words: &[Text],
) -> Reply
    requires level { frame < length scopes.old }
    requires earlier { to_frame < frame }
    ensures does { Does result scopes.new (spec.upvar_words frame to_frame words.now scopes.old) }
    ensures levels { length scopes.new ≡ length scopes.old }
{
    if words.is_empty() || words.len() % 2 != 0 {
        return wrong_args(alloc, UPVAR_USAGE);
    }
    let mut rest = words;
    while let [other, name, others @ ..] = rest {
        link_one(alloc, scopes, frame, to_frame, other, name)?;
        rest = others;
    }
    Ok(Text::empty())
}

/// Links a name of the frame to another one of an earlier frame, with the same refusals.
#[tactic(auto, unfolding(tcl_text::specs::Messages::bounded))]
fn link_one(
    alloc: Global,
    scopes: &mut Scopes,
    frame: usize,
    to_frame: usize,
    other: &Text,
    name: &Text,
) -> Result<(), Refusal>
    requires level { frame < length scopes.old }
    requires earlier { to_frame < frame }
    ensures steps { Steps result scopes.old scopes.new (spec.upvar_step frame to_frame (other.now, name.now) scopes.old) }
    ensures levels { length scopes.new ≡ length scopes.old }
{
    match scopes.link(frame, name, to_frame, other) {
        Ok(()) => Ok(()),
        Err(LinkFault::NoMemory) => Err(Refusal::NoMemory),
        Err(fault) => Err(Refusal::Error(fault.text(alloc, name.as_str())?)),
    }
}
