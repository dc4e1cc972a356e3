//! The command `pack`, on the windows and packs of one application.
ghost use Rattle.std.specs.Prelude.{◌≡◌, IfOk};
ghost use Rattle.tcl_text.specs.Answers.{Gives};
ghost use Rattle.tk_pack_commands.specs.Pack as spec;
ghost use Rattle.tk_packer.specs.Shared.{own_of as packs_of, LeavesOthers};
ghost use Rattle.tk_tree.specs.Shared.{own_of};

use crate::configure::configure;
use crate::errors::not_boolean;
use crate::info::{info_of, paths_of};
use crate::targets::{begins_path, found_at, window_in};
use std::alloc::{AllocError, Global};
use tcl_text::Text;
use tcl_text::answers::{Refusal, answered, bad_option, truth_answer, wrong_args};
use tcl_text::items::list_answer;
use tcl_text::message::Answer;
use tk_base::Win;
use tk_packer::PackTable;
use tk_tree::Windows;

pub const PACK_USAGE: &str = "pack ?configure? path ?path ..? ?option value ..?";

/// The command `pack` (pack(n)) of an application: packs windows in their parents, takes them out (`forget`), tells how one is packed
/// (`info`), which are packed in one (`slaves`), and whether what is packed in a window decides what it asks for (`propagate`). `words` are
/// those after the command's name. All words are tested before anything is packed. The answer is the command's result, or the text of its
/// error: 2, 4, 20, 22, 23, 24, and texts without a number. Amounts are in pixels, from 0 to 32767.
#[tactic(auto, unfolding(crate::specs::Pack::pack_words))]
pub fn pack_command(
    alloc: Global,
    windows: &Windows,
    packs: &mut PackTable,
    owner: usize,
    words: &[Text],
) -> Result<Result<Text, Text>, AllocError>
    ensures own { IfOk result (λ answer. (packs_of owner packs.new, answer)
        ≡ spec.pack_words words.now (own_of owner windows.now) (packs_of owner packs.old)) }
    ensures others { LeavesOthers owner packs.old packs.new }
{
    let Some((first, others)) = words.split_first() else {
        return answered(wrong_args(alloc, PACK_USAGE));
    };
    if begins_path(first) {
        return configure(alloc, windows, packs, owner, words);
    }
    named(alloc, windows, packs, owner, first, others)
}

/// The forms whose first word names them.
#[tactic(auto, unfolding(crate::specs::Pack::named_words))]
fn named(
    alloc: Global,
    windows: &Windows,
    packs: &mut PackTable,
    owner: usize,
    name: &Text,
    words: &[Text],
) -> Result<Answer, AllocError>
    ensures own { IfOk result (λ answer. (packs_of owner packs.new, answer)
        ≡ spec.named_words name.now words.now (own_of owner windows.now) (packs_of owner packs.old)) }
    ensures others { LeavesOthers owner packs.old packs.new }
{
    match name.as_str() {
        "configure" => configure(alloc, windows, packs, owner, words),
        "forget" => forget(alloc, windows, packs, owner, words),
        "info" => answered(question_words(alloc, windows, packs, owner, PackQuestion::Info, words)),
        "propagate" => propagate(alloc, windows, packs, owner, words),
        "slaves" => answered(question_words(
            alloc,
            windows,
            packs,
            owner,
            PackQuestion::Slaves,
            words,
        )),
        _ => answered(bad_option(alloc, name)),
    }
}

/// `pack forget ?path ..?`: takes windows out; a path of no window is passed over.
fn forget(
    alloc: Global,
    windows: &Windows,
    packs: &mut PackTable,
    owner: usize,
    paths: &[Text],
) -> Result<Answer, AllocError>
    ensures own { IfOk result (λ answer. (packs_of owner packs.new, answer)
        ≡ spec.forget_words paths.now (own_of owner windows.now) (packs_of owner packs.old)) }
    ensures others { LeavesOthers owner packs.old packs.new }
{
    let nothing = Text::empty();
    forget_all(windows, packs, owner, paths);
    Ok(Ok(nothing))
}

fn forget_all(windows: &Windows, packs: &mut PackTable, owner: usize, paths: &[Text])
    ensures own { packs_of owner packs.new ≡ spec.all_forgotten paths.now (own_of owner windows.now) (packs_of owner packs.old) }
    ensures others { LeavesOthers owner packs.old packs.new }
{
    let mut rest = paths;
    while let Some((path, others)) = rest.split_first() {
        forget_one(windows, packs, owner, path);
        rest = others;
    }
}

fn forget_one(windows: &Windows, packs: &mut PackTable, owner: usize, path: &Text)
    ensures own { packs_of owner packs.new ≡ spec.forgotten_at path.now (own_of owner windows.now) (packs_of owner packs.old) }
    ensures others { LeavesOthers owner packs.old packs.new }
{
    if let Some(found) = found_at(windows, owner, path.as_str()) {
        packs.forget(Win {
            owner,
            number: found.number,
        });
    }
}

/// What is asked of the packing of a window.
#[derive(Clone, Copy)]
pub enum PackQuestion {
    /// `pack info path`: its options, with their values.
    Info,
    /// `pack slaves path`: the paths of the windows that are packed in it, in order.
    Slaves,
}

fn usage_of(question: PackQuestion) -> &'static str
    ensures { result.now ≡ spec.usage_of question }
{
    match question {
        PackQuestion::Info => "pack info path",
        PackQuestion::Slaves => "pack slaves path",
    }
}

/// A question by the path of a window.
fn question_words(
    alloc: Global,
    windows: &Windows,
    packs: &PackTable,
    owner: usize,
    question: PackQuestion,
    words: &[Text],
) -> Result<Text, Refusal>
    ensures { Gives result (spec.question_words question words.now (own_of owner windows.now) (packs_of owner packs.now)) }
{
    match words {
        [path] => {
            let found = window_in(alloc, windows, owner, path)?;
            let win = Win {
                owner,
                number: found.number,
            };
            told(alloc, windows, packs, win, question, path)
        }
        _ => wrong_args(alloc, usage_of(question)),
    }
}

/// What it is told of a window with this path.
fn told(
    alloc: Global,
    windows: &Windows,
    packs: &PackTable,
    win: Win,
    question: PackQuestion,
    path: &Text,
) -> Result<Text, Refusal>
    ensures { Gives result (spec.told_of question path.now win.number (own_of win.owner windows.now) (packs_of win.owner packs.now)) }
{
    match question {
        PackQuestion::Info => info_of(alloc, path, packs.request(win)),
        PackQuestion::Slaves => {
            let paths = paths_of(alloc, windows, win.owner, packs.packed_in(win))?;
            list_answer(alloc, paths.as_slice())
        }
    }
}

/// `pack propagate path ?boolean?`: tells whether what is packed in a window decides what it asks for, or sets that.
fn propagate(
    alloc: Global,
    windows: &Windows,
    packs: &mut PackTable,
    owner: usize,
    words: &[Text],
) -> Result<Answer, AllocError>
    ensures own { IfOk result (λ answer. (packs_of owner packs.new, answer)
        ≡ spec.propagate_words words.now (own_of owner windows.now) (packs_of owner packs.old)) }
    ensures others { LeavesOthers owner packs.old packs.new }
{
    match words {
        [path] => answered(propagation_told(alloc, windows, packs, owner, path)),
        [path, word] => set_propagation(alloc, windows, packs, owner, path, word),
        _ => answered(wrong_args(alloc, "pack propagate path ?boolean?")),
    }
}

fn propagation_told(
    alloc: Global,
    windows: &Windows,
    packs: &PackTable,
    owner: usize,
    path: &Text,
) -> Result<Text, Refusal>
    ensures { Gives result (spec.propagation_told path.now (own_of owner windows.now) (packs_of owner packs.now)) }
{
    let found = window_in(alloc, windows, owner, path)?;
    let win = Win {
        owner,
        number: found.number,
    };
    truth_answer(alloc, packs.propagates(win))
}

fn set_propagation(
    alloc: Global,
    windows: &Windows,
    packs: &mut PackTable,
    owner: usize,
    path: &Text,
    word: &Text,
) -> Result<Answer, AllocError>
    ensures own { IfOk result (λ answer. (packs_of owner packs.new, answer)
        ≡ spec.propagation_set (spec.propagation_in path.now word.now (own_of owner windows.now)) (packs_of owner packs.old)) }
    ensures others { LeavesOthers owner packs.old packs.new }
{
    match propagation_in(alloc, windows, owner, path, word) {
        Ok((number, propagates)) => {
            let nothing = Text::empty();
            packs.set_propagates(Win { owner, number }, propagates)?;
            Ok(Ok(nothing))
        }
        Err(Refusal::Error(text)) => Ok(Err(text)),
        Err(Refusal::NoMemory) => Err(AllocError),
    }
}

/// The number of a window, and whether it is to propagate: the errors 24 and 2.
#[tactic(auto, unfolding(crate::specs::Pack::propagation_in))]
fn propagation_in(
    alloc: Global,
    windows: &Windows,
    owner: usize,
    path: &Text,
    word: &Text,
) -> Result<(u64, bool), Refusal>
    ensures { Gives result (spec.propagation_in path.now word.now (own_of owner windows.now)) }
{
    let found = window_in(alloc, windows, owner, path)?;
    match word.boolean() {
        Ok(propagates) => Ok((found.number, propagates)),
        Err(_) => not_boolean(alloc, word),
    }
}
