//! The choice of scripts.
ghost use Rattle.std.specs.Prelude.{◌≡◌, ℕ, List, Option, Ok, IfOk, OnOk, option_map};
ghost use Rattle.tcl_text.specs.Answers.{Answer};
ghost use Rattle.tk_dispatch.specs.Dispatch.{script_of, scripts_for, scripts_of, with_fields};
ghost use Rattle.tk_dispatch.specs.Made.{AreChosen, AreMade};
ghost use Rattle.tk_patterns.specs.Shared as bindings_of;
ghost use Rattle.tk_tree.specs.Shared as windows_of;
ghost use Rattle.tk_virtual.specs.Virtual.{meanings_of};
ghost use Rattle.tk_virtual.specs.Shared as virtuals_of;

use crate::made::{chosen_for, keep_chosen, keep_long, made_for};
use crate::substitute;
use crate::tag::is_live;
use std::alloc::{AllocError, Global};
use std::collections::HashMap;
use tcl_text::message::limit;
use tcl_text::{Text, TextFault, TextList};
use tk_base::Win;
use tk_patterns::{BindTable, History, matching_pairs};
use tk_sequences::Event;
use tk_tree::Windows;
use tk_virtual::{VirtualPairs, VirtualTable};

/// So many tags each look at the sequences of virtual events by themselves, and what is chosen for one isn't kept for another.
const FEW_TAGS: usize = 4;

/// What the choice for an event looks at.
#[derive(Clone, Copy)]
struct Choice<'a> {
    windows: &'a Windows,
    bindings: &'a BindTable,
    owner: usize,
    virtuals: &'a VirtualPairs,
    event: &'a Event,
    history: &'a History,
}

/// The scripts that an event runs at a window, in the order of the window's binding tags (bindtags(n)): for each tag that of the binding that
/// wins after the events that came before (bind(n), MULTIPLE MATCHES), with the event's fields put in. A tag that is the path of a window that
/// is gone is passed over, and a window that is gone has no tags. Where one of them would pass 65,536 bytes, that is told (4), and no
/// script.
#[tactic(auto, unfolding(crate::specs::Dispatch::scripts_for))]
pub fn scripts_for(
    alloc: Global,
    windows: &Windows,
    bindings: &BindTable,
    virtuals: &VirtualTable,
    win: Win,
    event: &Event,
    history: &History,
) -> Result<Result<TextList, Text>, AllocError>
    ensures { IfOk result (λ chosen. chosen ≡ scripts_for (windows_of.own_of win.owner windows.now)
        (bindings_of.own_of win.owner bindings.now) (virtuals_of.own_of win.owner virtuals.now) win.number event.now history.now) }
{
    let Some(window) = windows.window(win) else {
        return Ok(Ok(TextList::new(alloc)));
    };
    let tags = window.tags.as_slice();
    scripts_for_tags(
        alloc, windows, bindings, virtuals, win.owner, tags, event, history,
    )
}

/// The same for some binding tags, as those of a window that is at hand.
#[tactic(auto, using(crate::proofs::TagLemmas::nothing_runs))]
pub fn scripts_for_tags(
    alloc: Global,
    windows: &Windows,
    bindings: &BindTable,
    virtuals: &VirtualTable,
    owner: usize,
    tags: &[Text],
    event: &Event,
    history: &History,
) -> Result<Result<TextList, Text>, AllocError>
    ensures { IfOk result (λ chosen. chosen ≡ scripts_of (windows_of.own_of owner windows.now)
        (meanings_of (virtuals_of.own_of owner virtuals.now)) (bindings_of.own_of owner bindings.now) history.now event.now tags.now) }
{
    if !bindings.may_run(owner, tags, event) {
        let none = TextList::new(alloc);
        return Ok(Ok(none));
    }
    let virtuals = virtuals.of(owner);
    let choice = Choice {
        windows,
        bindings,
        owner,
        virtuals,
        event,
        history,
    };
    if tags.len() > FEW_TAGS {
        scripts_of_many(alloc, &choice, tags)
    } else {
        scripts_of(alloc, &choice, tags)
    }
}

/// The scripts of many tags: which sequences of virtual events match is looked at once, and not for each tag.
fn scripts_of_many(
    alloc: Global,
    choice: &Choice<'_>,
    tags: &[Text],
) -> Result<Result<TextList, Text>, AllocError>
    ensures { IfOk result (λ chosen. chosen ≡ scripts_of (windows_of.own_of choice.now.owner choice.now.windows.now)
        (meanings_of choice.now.virtuals.now) (bindings_of.own_of choice.now.owner choice.now.bindings.now)
        choice.now.history.now choice.now.event.now tags.now) }
{
    let virtuals = matching_pairs(alloc, choice.virtuals, choice.event, choice.history)?;
    let choice = Choice {
        windows: choice.windows,
        bindings: choice.bindings,
        owner: choice.owner,
        virtuals: &virtuals,
        event: choice.event,
        history: choice.history,
    };
    scripts_of(alloc, &choice, tags)
}

/// The scripts of some tags.
fn scripts_of(
    alloc: Global,
    choice: &Choice<'_>,
    tags: &[Text],
) -> Result<Result<TextList, Text>, AllocError>
    ensures { IfOk result (λ chosen. chosen ≡ scripts_of (windows_of.own_of choice.now.owner choice.now.windows.now)
        (meanings_of choice.now.virtuals.now) (bindings_of.own_of choice.now.owner choice.now.bindings.now)
        choice.now.history.now choice.now.event.now tags.now) }
{
    let many = tags.len() > FEW_TAGS;
    let mut scripts = TextList::new(alloc);
    let mut made = HashMap::new(alloc);
    let mut chosen = HashMap::new(alloc);
    for tag in tags {
        match next_script(alloc, choice, &mut made, &mut chosen, many, tag.as_str())? {
            Some(Ok(script)) => scripts.push(script)?,
            Some(Err(text)) => return Ok(Err(text)),
            None => {}
        }
    }
    Ok(Ok(scripts))
}

/// The script of a tag, if one is to run. Where there are many tags, it isn't chosen again while what was chosen for one of its name is kept.
fn next_script<'a>(
    alloc: Global,
    choice: &Choice<'_>,
    made: &mut HashMap<&'a str, Text>,
    chosen: &mut HashMap<&'a str, Option<Text>>,
    many: bool,
    tag: &'a str,
) -> Result<Option<Result<Text, Text>>, AllocError>
    requires made { AreMade (script_of (windows_of.own_of choice.now.owner choice.now.windows.now)
        (meanings_of choice.now.virtuals.now) (bindings_of.own_of choice.now.owner choice.now.bindings.now)
        choice.now.history.now choice.now.event.now) made.old }
    requires chosen { AreChosen (script_of (windows_of.own_of choice.now.owner choice.now.windows.now)
        (meanings_of choice.now.virtuals.now) (bindings_of.own_of choice.now.owner choice.now.bindings.now)
        choice.now.history.now choice.now.event.now) chosen.old }
    ensures script { IfOk result (λ script. script ≡ script_of (windows_of.own_of choice.now.owner choice.now.windows.now)
        (meanings_of choice.now.virtuals.now) (bindings_of.own_of choice.now.owner choice.now.bindings.now)
        choice.now.history.now choice.now.event.now tag.now) }
    ensures made { OnOk result (AreMade (script_of (windows_of.own_of choice.now.owner choice.now.windows.now)
        (meanings_of choice.now.virtuals.now) (bindings_of.own_of choice.now.owner choice.now.bindings.now)
        choice.now.history.now choice.now.event.now) made.new) }
    ensures chosen { OnOk result (AreChosen (script_of (windows_of.own_of choice.now.owner choice.now.windows.now)
        (meanings_of choice.now.virtuals.now) (bindings_of.own_of choice.now.owner choice.now.bindings.now)
        choice.now.history.now choice.now.event.now) chosen.new) }
{
    if !many {
        return script_once(alloc, choice, made, tag);
    }
    if let Some(script) = chosen_for(chosen, tag)? {
        return Ok(to_run(script));
    }
    let script = script_once(alloc, choice, made, tag)?;
    keep_choice(chosen, tag, &script)?;
    Ok(script)
}

/// What was chosen, as a script that could be made.
fn to_run(script: Option<Text>) -> Option<Result<Text, Text>>
    ensures { result ≡ option_map Ok script }
{
    match script {
        Some(script) => Some(Ok(script)),
        None => None,
    }
}

/// Keeps what was chosen for a tag, unless it is refused, which ends the choice.
fn keep_choice<'a>(
    chosen: &mut HashMap<&'a str, Option<Text>>,
    tag: &'a str,
    script: &Option<Result<Text, Text>>,
) -> Result<(), AllocError>
    ensures { OnOk result ((runs : List ℕ → Option Answer) → runs tag.now ≡ script.now → AreChosen runs chosen.old → AreChosen runs chosen.new) }
{
    match script {
        Some(Ok(script)) => keep_chosen(chosen, tag, Some(script.copy()?)),
        None => keep_chosen(chosen, tag, None),
        Some(Err(_)) => Ok(()),
    }
}

/// The script of a tag, if one is to run. A long one is made for the first tag of a name, and shared by the others.
fn script_once<'a>(
    alloc: Global,
    choice: &Choice<'_>,
    made: &mut HashMap<&'a str, Text>,
    tag: &'a str,
) -> Result<Option<Result<Text, Text>>, AllocError>
    requires { AreMade (script_of (windows_of.own_of choice.now.owner choice.now.windows.now)
        (meanings_of choice.now.virtuals.now) (bindings_of.own_of choice.now.owner choice.now.bindings.now)
        choice.now.history.now choice.now.event.now) made.old }
    ensures script { IfOk result (λ script. script ≡ script_of (windows_of.own_of choice.now.owner choice.now.windows.now)
        (meanings_of choice.now.virtuals.now) (bindings_of.own_of choice.now.owner choice.now.bindings.now)
        choice.now.history.now choice.now.event.now tag.now) }
    ensures made { OnOk result (AreMade (script_of (windows_of.own_of choice.now.owner choice.now.windows.now)
        (meanings_of choice.now.virtuals.now) (bindings_of.own_of choice.now.owner choice.now.bindings.now)
        choice.now.history.now choice.now.event.now) made.new) }
{
    if let Some(script) = made_for(made, tag) {
        return Ok(Some(Ok(script.copy()?)));
    }
    let script = script_of(alloc, choice, tag)?;
    if let Some(Ok(script)) = &script {
        keep_long(made, tag, script)?;
    }
    Ok(script)
}

/// The script of a tag, if one is to run.
fn script_of(
    alloc: Global,
    choice: &Choice<'_>,
    tag: &str,
) -> Result<Option<Result<Text, Text>>, AllocError>
    ensures { IfOk result (λ script. script ≡ script_of (windows_of.own_of choice.now.owner choice.now.windows.now)
        (meanings_of choice.now.virtuals.now) (bindings_of.own_of choice.now.owner choice.now.bindings.now)
        choice.now.history.now choice.now.event.now tag.now) }
{
    let winner = choice.bindings.winner(
        choice.owner,
        tag,
        choice.event,
        choice.history,
        choice.virtuals,
    )?;
    // (most tags have none, and whether a path's window is there takes a look-up)
    match winner {
        Some(script) if is_live(choice.windows, choice.owner, tag) => {
            Ok(Some(with_fields(alloc, &script, choice.event)?))
        }
        _ => Ok(None),
    }
}

/// A script with the event's fields, or the error of a text past 65,536 bytes (4).
#[tactic(auto, using(tcl_text::proofs::AnswerLemmas::bounds))]
fn with_fields(
    alloc: Global,
    script: &Text,
    event: &Event,
) -> Result<Result<Text, Text>, AllocError>
    ensures { IfOk result (λ answer. answer ≡ with_fields event.now script.now) }
{
    match substitute(alloc, script, event) {
        Ok(text) => {
            let _characters = text.as_str();
            Ok(Ok(text))
        }
        Err(TextFault::TooLong) => Ok(Err(limit(alloc)?)),
        Err(TextFault::NoMemory) => Err(AllocError),
    }
}
