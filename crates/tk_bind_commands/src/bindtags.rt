//! The command `bindtags`.
ghost use Rattle.std.specs.Prelude.{◌≡◌, IfOk, IsSome, OnErr, Some};
ghost use Rattle.tcl_text.specs.Answers.{Gives};
ghost use Rattle.tk_bind_commands.specs.Bindtags as spec;
ghost use Rattle.tk_bind_commands.specs.Steps.{IsWithItems};
ghost use Rattle.tk_tree.specs.Own.{at_path, window_at};
ghost use Rattle.tk_tree.specs.Shared.{LeavesOthers, own_of};

use std::alloc::{AllocError, Global};
use tcl_text::answers::{Refusal, answered, wrong_args};
use tcl_text::items::{items_in, list_answer};
use tcl_text::message::Answer;
use tcl_text::{Text, TextList};
use tk_base::Win;
use tk_tree::{Windows, bad_path};

/// The command `bindtags path ?list?` of bindtags(n), with the words behind its name: tells the binding tags of a window, or sets them, where
/// an empty list restores the default. Errors are a path that no window has (24), what is no list (3), and an answer past 65,536 bytes (4);
/// nothing is changed then, nor after want of memory.
#[tactic(auto, unfolding(crate::specs::Bindtags::bindtags_words))]
pub fn bindtags_command(
    alloc: Global,
    windows: &mut Windows,
    slot: usize,
    words: &[Text],
) -> Result<Answer, AllocError>
    ensures own { IfOk result (λ answer. (own_of slot windows.new, answer)
        ≡ spec.bindtags_words words.now (own_of slot windows.old)) }
    ensures others { LeavesOthers slot windows.old windows.new }
    ensures err { OnErr result (windows.new ≡ windows.old) }
{
    match words {
        [path] => answered(tags_answer(alloc, windows, slot, path)),
        [path, list] => set_tags(alloc, windows, slot, path, list),
        _ => answered(wrong_args(alloc, "bindtags path ?list?")),
    }
}

/// The tags of the window of a path.
fn tags_answer(alloc: Global, windows: &Windows, slot: usize, path: &Text) -> Result<Text, Refusal>
    ensures { Gives result (spec.tags_told path.now (at_path path.now (own_of slot windows.now))) }
{
    match windows.find(slot, path.as_str()) {
        Some(win) => list_answer(alloc, windows.tags(win)),
        None => bad_path(alloc, path),
    }
}

/// Gives the window of a path the tags of a list.
fn set_tags(
    alloc: Global,
    windows: &mut Windows,
    slot: usize,
    path: &Text,
    list: &Text,
) -> Result<Answer, AllocError>
    ensures own { IfOk result (λ answer. (own_of slot windows.new, answer)
        ≡ spec.with_list path.now list.now (at_path path.now (own_of slot windows.old)) (own_of slot windows.old)) }
    ensures others { LeavesOthers slot windows.old windows.new }
    ensures err { OnErr result (windows.new ≡ windows.old) }
{
    match windows.find(slot, path.as_str()) {
        Some(win) => set_items(alloc, windows, win, items_in(alloc, list)),
        None => answered(bad_path(alloc, path)),
    }
}

/// Gives a window the tags of a list, if it is one.
fn set_items(
    alloc: Global,
    windows: &mut Windows,
    win: Win,
    items: Result<TextList, Refusal>,
) -> Result<Answer, AllocError>
    requires { IsSome (window_at win.number (own_of win.owner windows.old)) }
    ensures own { IfOk result (λ answer. IsWithItems win.number items (own_of win.owner windows.old)
        (own_of win.owner windows.new, answer)) }
    ensures others { LeavesOthers win.owner windows.old windows.new }
    ensures err { OnErr result (windows.new ≡ windows.old) }
{
    match items {
        Ok(tags) => {
            let done = Text::empty();
            windows.set_tags(win, tags.as_slice())?;
            Ok(Ok(done))
        }
        Err(Refusal::Error(text)) => Ok(Err(text)),
        Err(Refusal::NoMemory) => Err(AllocError),
    }
}
