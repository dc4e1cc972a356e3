//! The options of `pack configure`.
ghost use Rattle.std.specs.Prelude.{◌≡◌, ◌==◌, IfOk};
ghost use Rattle.std.specs.List.{list_all};
ghost use Rattle.tcl_text.specs.Answers.{Gives};
ghost use Rattle.tk_pack_commands.specs.Given.{GivesItems};
ghost use Rattle.tk_pack_commands.specs.Options as spec;
ghost use Rattle.tk_packer.specs.Shared.{own_of as packs_of};
ghost use Rattle.tk_tree.specs.Shared.{own_of};

use crate::errors::{bad_value, no_value, not_packed, not_sibling, unknown_option};
use crate::scene::Scene;
use crate::settings::{Beside, PackOption, PackSetting};
use crate::targets::{Target, window_in};
use crate::values::{amount_in, anchor_in, fill_in, pads_in, side_in};
use std::alloc::{AllocError, Global};
use tcl_text::Text;
use tcl_text::answers::Refusal;
use tk_base::Win;

/// The option of a name.
#[tactic(auto, unfolding(crate::specs::Options::option_named))]
fn option_named(name: &str) -> Option<PackOption>
    ensures { result ≡ spec.option_named name.now }
{
    match name {
        "-side" => Some(PackOption::Side),
        "-anchor" => Some(PackOption::Anchor),
        "-fill" => Some(PackOption::Fill),
        "-expand" => Some(PackOption::Expand),
        "-padx" => Some(PackOption::Padx),
        "-pady" => Some(PackOption::Pady),
        "-ipadx" => Some(PackOption::Ipadx),
        "-ipady" => Some(PackOption::Ipady),
        "-after" => Some(PackOption::After),
        "-before" => Some(PackOption::Before),
        _ => None,
    }
}

/// The option of a name, or the error that there is none (20).
fn known(alloc: Global, name: &Text) -> Result<PackOption, Refusal>
    ensures { Gives result (spec.known name.now (spec.option_named name.now)) }
{
    match option_named(name.as_str()) {
        Some(option) => Ok(option),
        None => unknown_option(alloc, name),
    }
}

/// What an option sets with a value; none where the option doesn't take it.
fn setting_of(
    alloc: Global,
    option: PackOption,
    value: &Text,
) -> Result<Option<PackSetting>, AllocError>
    ensures { IfOk result (λ setting. setting ≡ spec.setting_of option value.now) }
{
    match option {
        PackOption::Side => Ok(side_in(value.as_str()).map(PackSetting::Side)),
        PackOption::Anchor => Ok(anchor_in(value.as_str()).map(PackSetting::Anchor)),
        PackOption::Fill => Ok(fill_in(value.as_str()).map(PackSetting::Fill)),
        PackOption::Expand => Ok(value.boolean().ok().map(PackSetting::Expand)),
        PackOption::Padx => Ok(pads_in(alloc, value)?.map(PackSetting::Padx)),
        PackOption::Pady => Ok(pads_in(alloc, value)?.map(PackSetting::Pady)),
        PackOption::Ipadx => Ok(amount_in(value).map(PackSetting::Ipadx)),
        PackOption::Ipady => Ok(amount_in(value).map(PackSetting::Ipady)),
        PackOption::After | PackOption::Before => Ok(None),
    }
}

/// What an option sets with its value, tested against the windows that are to be packed: the errors 20, 22, and of a window to
/// stand beside 24 and those of one that isn't packed and of one that is no sibling.
#[tactic(auto, unfolding(crate::specs::Options::setting_in))]
fn setting_in(
    scene: Scene,
    targets: &[Target],
    name: &Text,
    value: &Text,
) -> Result<PackSetting, Refusal>
    ensures { Gives result (spec.setting_in name.now value.now targets.now
        (own_of scene.entry.owner scene.entry.windows.now) (packs_of scene.entry.owner scene.entry.packs.now)) }
{
    let option = known(scene.alloc, name)?;
    setting_for(scene, targets, option, name, value)
}

fn setting_for(
    scene: Scene,
    targets: &[Target],
    option: PackOption,
    name: &Text,
    value: &Text,
) -> Result<PackSetting, Refusal>
    ensures { Gives result (spec.setting_for option name.now value.now targets.now
        (own_of scene.entry.owner scene.entry.windows.now) (packs_of scene.entry.owner scene.entry.packs.now)) }
{
    match option {
        PackOption::After => beside_in(scene, targets, value, true),
        PackOption::Before => beside_in(scene, targets, value, false),
        other => match setting_of(scene.alloc, other, value)? {
            Some(setting) => Ok(setting),
            None => bad_value(scene.alloc, value, name),
        },
    }
}

fn beside_in(
    scene: Scene,
    targets: &[Target],
    path: &Text,
    after: bool,
) -> Result<PackSetting, Refusal>
    ensures { Gives result (spec.beside_in after path.now targets.now
        (own_of scene.entry.owner scene.entry.windows.now) (packs_of scene.entry.owner scene.entry.packs.now)) }
{
    let number = sibling_in(scene, targets, path)?;
    Ok(PackSetting::Beside(Beside { number, after }))
}

/// The window beside which others are to be packed: there (24), packed, and with their parent.
#[tactic(auto, unfolding(crate::specs::Options::sibling_in))]
fn sibling_in(scene: Scene, targets: &[Target], path: &Text) -> Result<u64, Refusal>
    ensures { Gives result (spec.sibling_in path.now targets.now
        (own_of scene.entry.owner scene.entry.windows.now) (packs_of scene.entry.owner scene.entry.packs.now)) }
{
    let found = window_in(scene.alloc, scene.windows, scene.owner, path)?;
    let win = Win {
        owner: scene.owner,
        number: found.number,
    };
    if scene.packs.request(win).is_none() {
        return not_packed(scene.alloc, path);
    }
    if !is_sibling(targets, found.parent) {
        return not_sibling(scene.alloc, path);
    }
    Ok(found.number)
}

/// Whether a window with this parent has the parent of all these.
fn is_sibling(targets: &[Target], parent: Option<u64>) -> bool
    ensures { result ≡ spec.is_sibling targets.now parent }
{
    match parent {
        Some(parent) => have_master(targets, parent),
        None => false,
    }
}

fn have_master(targets: &[Target], master: u64) -> bool
    ensures { result ≡ list_all (λ target. target.master == master) targets.now }
{
    targets.iter().all(|target| target.master == master)
}

/// The error of a last option that lacks its value: 20, or 23.
#[tactic(auto, unfolding(crate::specs::Options::without_value))]
fn without_value<T>(alloc: Global, name: &Text) -> Result<T, Refusal>
    ensures { Gives result (spec.without_value name.now) }
{
    let _ = known(alloc, name)?;
    no_value(alloc, name)
}

/// What options and their values set, tested from the left.
pub fn settings_in(
    scene: Scene,
    targets: &[Target],
    words: &[Text],
) -> Result<Vec<PackSetting>, Refusal>
    ensures { GivesItems result (spec.settings_in words.now targets.now
        (own_of scene.entry.owner scene.entry.windows.now) (packs_of scene.entry.owner scene.entry.packs.now)) }
{
    let mut settings = Vec::with_capacity(scene.alloc, words.len() / 2)?;
    let mut rest = words;
    while let Some((name, others)) = rest.split_first() {
        let Some((value, others)) = others.split_first() else {
            return without_value(scene.alloc, name);
        };
        settings.push(setting_in(scene, targets, name, value)?)?;
        rest = others;
    }
    Ok(settings)
}
