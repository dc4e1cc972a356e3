//! `pack configure`.
ghost use Rattle.std.specs.Prelude.{◌≡◌, IfOk};
ghost use Rattle.tcl_text.specs.Answers.{Gives};
ghost use Rattle.tk_pack_commands.specs.Pack as spec;
ghost use Rattle.tk_packer.specs.Shared.{own_of as packs_of, LeavesOthers};
ghost use Rattle.tk_tree.specs.Shared.{own_of};

use crate::options::settings_in;
use crate::pack::PACK_USAGE;
use crate::places::pack_all;
use crate::scene::Scene;
use crate::settings::PackSetting;
use crate::targets::{Target, path_count, targets_in};
use std::alloc::{AllocError, Global};
use std::marker::Model;
use tcl_text::Text;
use tcl_text::answers::{Refusal, answered, wrong_args};
use tcl_text::message::Answer;
use tk_packer::PackTable;
use tk_tree::Windows;

/// Windows that are to be packed, and what the options set.
#[derive(Drop)]
pub struct PackPlan {
    targets: Vec<Target>,
    settings: Vec<PackSetting>,
}

impl Model for PackPlan {
    ghost use Rattle.tk_pack_commands.specs.Pack.{Planned};

    ghost Value = { Planned };

    ghost view = { λ p. record { targets = p.targets.items; settings = p.settings.items } };
}

/// All words tested, before anything is packed.
#[tactic(auto, unfolding(crate::specs::Pack::plan_in))]
fn plan_in(scene: Scene, words: &[Text]) -> Result<PackPlan, Refusal>
    ensures { Gives result (spec.plan_in words.now (own_of scene.entry.owner scene.entry.windows.now) (packs_of scene.entry.owner scene.entry.packs.now)) }
{
    let (paths, options) = words.split_at(path_count(words));
    let targets = targets_in(scene.alloc, scene.windows, scene.owner, paths)?;
    let settings = settings_in(scene, targets.as_slice(), options)?;
    Ok(PackPlan { targets, settings })
}

/// What is to be packed, or the text of the error.
fn planned(scene: Scene, words: &[Text]) -> Result<Result<PackPlan, Text>, AllocError>
    ensures { IfOk result (λ plan. plan ≡ spec.plan_in words.now
        (own_of scene.entry.owner scene.entry.windows.now) (packs_of scene.entry.owner scene.entry.packs.now)) }
{
    match plan_in(scene, words) {
        Ok(plan) => Ok(Ok(plan)),
        Err(Refusal::Error(text)) => Ok(Err(text)),
        Err(Refusal::NoMemory) => Err(AllocError),
    }
}

/// `pack configure path ?path ..? ?option value ..?`: packs windows in their parents, once all words are tested.
pub fn configure(
    alloc: Global,
    windows: &Windows,
    packs: &mut PackTable,
    owner: usize,
    words: &[Text],
) -> Result<Answer, AllocError>
    ensures own { IfOk result (λ answer. (packs_of owner packs.new, answer)
        ≡ spec.configure_words words.now (own_of owner windows.now) (packs_of owner packs.old)) }
    ensures others { LeavesOthers owner packs.old packs.new }
{
    match words {
        [] => answered(wrong_args(alloc, PACK_USAGE)),
        [_, ..] => configure_tested(alloc, windows, packs, owner, words),
    }
}

fn configure_tested(
    alloc: Global,
    windows: &Windows,
    packs: &mut PackTable,
    owner: usize,
    words: &[Text],
) -> Result<Answer, AllocError>
    ensures own { IfOk result (λ answer. (packs_of owner packs.new, answer)
        ≡ spec.packed_by (spec.plan_in words.now (own_of owner windows.now) (packs_of owner packs.old)) (packs_of owner packs.old)) }
    ensures others { LeavesOthers owner packs.old packs.new }
{
    let scene = Scene {
        alloc,
        windows,
        packs: &*packs,
        owner,
    };
    match planned(scene, words)? {
        Ok(plan) => {
            let nothing = Text::empty();
            pack_all(
                packs,
                owner,
                plan.settings.as_slice(),
                plan.targets.as_slice(),
            )?;
            Ok(Ok(nothing))
        }
        Err(text) => Ok(Err(text)),
    }
}
