//! The command of unset(n).
ghost use Rattle.std.specs.Prelude.{◌≡◌, ◌<◌, length};
ghost use Rattle.tcl_commands.specs.Refusals.{Does, Steps};
ghost use Rattle.tcl_commands.specs.Unset as spec;

use std::alloc::Global;
use tcl_text::Text;
use tcl_text::answers::{Refusal, Reply};
use tcl_vars::{Scopes, UnsetFault};

/// `unset ?-nocomplain? ?name ..?`: each is unset up to the first that can't be; with the switch, each that can be.
pub fn unset_words(alloc: Global, scopes: &mut Scopes, frame: usize, words: &[Text]) -> Reply
    requires { frame < length scopes.old }
    ensures does { Does result scopes.new (spec.unset_words frame words.now scopes.old) }
    ensures levels { length scopes.new ≡ length scopes.old }
{
    match words {
        [first, others @ ..] if first.as_str() == "-nocomplain" => {
            unset_each(alloc, scopes, true, frame, others)
        }
        names => unset_each(alloc, scopes, false, frame, names),
    }
}

/// Unsets each of these, up to the first that can't be, or quietly each that can be.
#[tactic(auto, using(crate::proofs::EachLemmas::steps))]
fn unset_each(
    alloc: Global,
    scopes: &mut Scopes,
    quiet: bool,
    frame: usize,
    names: &[Text],
) -> Reply
    requires { frame < length scopes.old }
    ensures does { Does result scopes.new (spec.unset_each quiet frame names.now scopes.old) }
    ensures levels { length scopes.new ≡ length scopes.old }
{
    let mut rest = names;
    while let [name, others @ ..] = rest {
        unset_one(alloc, scopes, quiet, frame, name)?;
        rest = others;
    }
    Ok(Text::empty())
}

/// Unsets a variable, or quietly lets it be where it can't be unset (15, 16, 18).
#[tactic(auto, unfolding(tcl_text::specs::Messages::bounded))]
pub fn unset_one(
    alloc: Global,
    scopes: &mut Scopes,
    quiet: bool,
    frame: usize,
    name: &Text,
) -> Result<(), Refusal>
    requires { frame < length scopes.old }
    ensures steps { Steps result scopes.old scopes.new (spec.unset_step quiet frame name.now scopes.old) }
    ensures levels { length scopes.new ≡ length scopes.old }
{
    match scopes.unset(frame, name) {
        Ok(()) => Ok(()),
        Err(UnsetFault::NoMemory) => Err(Refusal::NoMemory),
        Err(fault) => {
            if quiet {
                Ok(())
            } else {
                Err(Refusal::Error(fault.text(alloc, name.as_str())?))
            }
        }
    }
}
