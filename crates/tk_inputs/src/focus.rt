//! Which window has the keys (focus(n)).
ghost use Rattle.std.specs.Prelude.{◌≡◌, [], ◌∷◌, IfOk, OnOk, Ok};
ghost use Rattle.tcl_text.specs.Answers.{Gives};
ghost use Rattle.tk_inputs.specs.Shared.{arrivals_of};
ghost use Rattle.tk_inputs.specs.Focus as spec;
ghost use Rattle.tk_inputs.specs.Shared as inputs_of;
ghost use Rattle.tk_dispatch.specs.Queue as queue_of;
ghost use Rattle.tk_tree.specs.Shared as tree_of;

use crate::delivery::queue_plain;
use crate::inputs::Inputs;
use std::alloc::{AllocError, Global};
use tcl_text::Text;
use tcl_text::answers::{Refusal, answered, bad_option, quoting_error, wrong_args};
use tk_base::Win;
use tk_dispatch::EventQueue;
use tk_sequences::EventType;
use tk_tree::{Windows, bad_path};

const USAGE: &str = "focus ?path?";

const LAST_USAGE: &str = "focus -lastfor path";

/// A window gets the keys from now on. Where the application has the host's focus and another window had them, that window is told
/// `FocusOut` and this one `FocusIn`: both are queued, at a moment in milliseconds.
pub fn set_focus(
    windows: &Windows,
    inputs: &mut Inputs,
    queue: &mut EventQueue,
    win: Win,
    moment: u64,
) -> Result<(), AllocError>
    ensures own { OnOk result (arrivals_of win.owner inputs.new queue.new
        ≡ spec.focused win.number moment (tree_of.own_of win.owner windows.now) (arrivals_of win.owner inputs.old queue.old)) }
    ensures inputs { inputs_of.LeavesOthers win.owner inputs.old inputs.new }
    ensures queue { queue_of.LeavesOthers win.owner queue.old queue.new }
{
    let last = inputs.focus(win.owner);
    if inputs.has_focus(win.owner) && last != win.number {
        queue_plain(windows, queue, win.owner, last, EventType::FocusOut, moment)?;
        queue_plain(
            windows,
            queue,
            win.owner,
            win.number,
            EventType::FocusIn,
            moment,
        )?;
    }
    inputs.set_focus(win.owner, win.number)
}

/// The command `focus` (focus(n)), called with the words behind its name at a moment in milliseconds: the focus window, which is told only
/// where the application has the host's focus; the focus window whatever has that (`-lastfor`, of a window that is there); or another window
/// gets the keys. The empty path changes nothing.
///
/// Errors: a bad option, a wrong number of words (no numbers), and a path that names no window (24). Then nothing is changed.
#[tactic(auto, unfolding(crate::specs::Focus::focus_words))]
pub fn focus_command(
    alloc: Global,
    windows: &Windows,
    inputs: &mut Inputs,
    queue: &mut EventQueue,
    slot: usize,
    moment: u64,
    words: &[Text],
) -> Result<Result<Text, Text>, AllocError>
    ensures own { IfOk result (λ answer. spec.told (arrivals_of slot inputs.new queue.new) answer
        ≡ spec.focus_words words.now moment (tree_of.own_of slot windows.now) (arrivals_of slot inputs.old queue.old)) }
    ensures inputs { inputs_of.LeavesOthers slot inputs.old inputs.new }
    ensures queue { queue_of.LeavesOthers slot queue.old queue.new }
{
    let Some((first, rest)) = words.split_first() else {
        return answered(focus_shown(alloc, windows, inputs, slot));
    };
    if first.as_str() == "-lastfor" {
        return answered(last_for(alloc, windows, inputs, slot, rest));
    }
    if is_option(first.as_str()) {
        return answered(bad_option(alloc, first));
    }
    if !rest.is_empty() {
        return answered(wrong_args(alloc, USAGE));
    }
    focus_on(alloc, windows, inputs, queue, slot, moment, first)
}

/// Whether a word stands in the place of an option.
fn is_option(word: &str) -> bool
    ensures { result ≡ spec.is_option word.now }
{
    matches!(word.as_bytes(), [b'-', ..])
}

/// The path of the focus window, where the application has the host's focus.
fn focus_shown(
    alloc: Global,
    windows: &Windows,
    inputs: &Inputs,
    slot: usize,
) -> Result<Text, Refusal>
    ensures { Gives result (spec.focus_shown (tree_of.own_of slot windows.now) (inputs_of.own_of slot inputs.now)) }
{
    if inputs.has_focus(slot) {
        focus_path(alloc, windows, inputs, slot)
    } else {
        Ok(Text::empty())
    }
}

/// The path of the focus window.
fn focus_path(
    alloc: Global,
    windows: &Windows,
    inputs: &Inputs,
    slot: usize,
) -> Result<Text, Refusal>
    ensures { Gives result (Ok (spec.focus_path (tree_of.own_of slot windows.now) (inputs_of.own_of slot inputs.now))) }
{
    match windows.window(Win {
        owner: slot,
        number: inputs.focus(slot),
    }) {
        Some(window) => Ok(window.path.copy()?),
        None => Ok(Text::empty()),
    }
}

/// The path of the focus window, whatever has the host's focus; the window asked about must be there.
fn last_for(
    alloc: Global,
    windows: &Windows,
    inputs: &Inputs,
    slot: usize,
    words: &[Text],
) -> Result<Text, Refusal>
    ensures { Gives result (spec.last_for words.now (tree_of.own_of slot windows.now) (inputs_of.own_of slot inputs.now)) }
{
    match words {
        [path] => {
            if windows.find(slot, path.as_str()).is_none() {
                return bad_path(alloc, path);
            }
            focus_path(alloc, windows, inputs, slot)
        }
        _ => wrong_args(alloc, LAST_USAGE),
    }
}

/// The window of a path gets the keys; where the path is empty nothing is changed.
fn focus_on(
    alloc: Global,
    windows: &Windows,
    inputs: &mut Inputs,
    queue: &mut EventQueue,
    slot: usize,
    moment: u64,
    path: &Text,
) -> Result<Result<Text, Text>, AllocError>
    ensures own { IfOk result (λ answer. spec.told (arrivals_of slot inputs.new queue.new) answer
        ≡ spec.focus_on path.now moment (tree_of.own_of slot windows.now) (arrivals_of slot inputs.old queue.old)) }
    ensures inputs { inputs_of.LeavesOthers slot inputs.old inputs.new }
    ensures queue { queue_of.LeavesOthers slot queue.old queue.new }
{
    let nothing = Ok(Text::empty());
    if path.as_str().is_empty() {
        return Ok(nothing);
    }
    match windows.find(slot, path.as_str()) {
        Some(win) => {
            set_focus(windows, inputs, queue, win, moment)?;
            Ok(nothing)
        }
        None => answered(bad_path(alloc, path)),
    }
}
