//! What `winfo` tells of a window that is there.
ghost use Rattle.std.specs.Prelude.{◌≡◌, [], Some, map, IfOk, IsSome};
ghost use Rattle.std.specs.Option.{option_map_or};
ghost use Rattle.tcl_text.specs.Answers.{Gives, answers};
ghost use Rattle.tk_screen.specs.Shared.{own_of};
ghost use Rattle.tk_tree.specs.Own.{window_at};
ghost use Rattle.tk_tree.specs.Shared.{own_of as tree_of};
ghost use Rattle.tk_window_commands.specs.Winfo as spec;

use crate::refusals::name_in;
use crate::winfo::Question;
use std::alloc::{AllocError, Global};
use tcl_text::answers::{Refusal, copy_answer, decimal_answer, text_answer, truth_answer};
use tcl_text::items::list_answer;
use tcl_text::message::short_text;
use tcl_text::{Text, TextList};
use tcl_vars::Scopes;
use tk_base::Win;
use tk_screen::{Screen, requested_size};
use tk_tree::{Window, Windows};

/// What is told of a window that is there.
#[tactic(auto, unfolding(crate::specs::Winfo::told))]
pub fn told(
    alloc: Global,
    screen: &Screen,
    scopes: &Scopes,
    slot: usize,
    question: Question,
    window: &Window,
) -> Result<Text, Refusal>
    requires { window_at window.now.number (tree_of slot screen.now.windows) ≡ Some window.now }
    ensures { Gives result (spec.told question (own_of slot screen.now) scopes.now window.now) }
{
    let win = Win {
        owner: slot,
        number: window.number,
    };
    match question {
        Question::Children => children_told(alloc, &screen.windows, win),
        Question::Class => Ok(short_text(alloc, class_of(window))?),
        Question::Exists => truth_answer(alloc, true),
        Question::Height => decimal_answer(alloc, window.rectangle.height as usize),
        Question::IsMapped => truth_answer(alloc, window.mapped),
        Question::Name => name_told(alloc, screen, slot, window),
        Question::Parent => text_answer(alloc, parent_path(&screen.windows, slot, window)),
        Question::RequestedHeight => {
            decimal_answer(alloc, asked_for(alloc, screen, scopes, win)?.1 as usize)
        }
        Question::RequestedWidth => {
            decimal_answer(alloc, asked_for(alloc, screen, scopes, win)?.0 as usize)
        }
        Question::RootX => decimal_answer(alloc, screen.windows.corner(win).x as usize),
        Question::RootY => decimal_answer(alloc, screen.windows.corner(win).y as usize),
        Question::Toplevel => text_answer(alloc, "."),
        Question::Width => decimal_answer(alloc, window.rectangle.width as usize),
        Question::X => decimal_answer(alloc, window.rectangle.x as usize),
        Question::Y => decimal_answer(alloc, window.rectangle.y as usize),
    }
}

/// The paths of the children of a window.
fn children_told(alloc: Global, windows: &Windows, win: Win) -> Result<Text, Refusal>
    requires { IsSome (window_at win.number (tree_of win.owner windows.now)) }
    ensures { Gives result (spec.children_told win.number (tree_of win.owner windows.now)) }
{
    let paths = paths_of(alloc, windows, win.owner, windows.children(win))?;
    list_answer(alloc, paths.as_slice())
}

/// The paths of windows by their numbers.
fn paths_of(
    alloc: Global,
    windows: &Windows,
    slot: usize,
    numbers: &[u64],
) -> Result<TextList, AllocError>
    ensures { IfOk result (λ paths. paths ≡ map (spec.path_at (tree_of slot windows.now)) numbers.now) }
{
    let mut paths = TextList::with_capacity(alloc, numbers.len())?;
    let mut rest = numbers;
    while let [number, others @ ..] = rest {
        paths.push(path_at(alloc, windows, slot, *number)?)?;
        rest = others;
    }
    Ok(paths)
}

fn path_at(alloc: Global, windows: &Windows, slot: usize, number: u64) -> Result<Text, AllocError>
    ensures { IfOk result (λ path. path ≡ spec.path_at (tree_of slot windows.now) number) }
{
    match windows.window(Win {
        owner: slot,
        number,
    }) {
        Some(window) => window.path.copy(),
        None => Ok(Text::empty()),
    }
}

/// The class of a window; the main window has one of its own.
fn class_of(window: &Window) -> &'static str
    ensures { result.now ≡ spec.class_told window.now }
{
    if window.path.as_str() == "." {
        "Tk"
    } else {
        window.kind.class()
    }
}

/// The name of a window, or of the application for the main window.
fn name_told(alloc: Global, screen: &Screen, slot: usize, window: &Window) -> Result<Text, Refusal>
    ensures { Gives result (answers (spec.name_told (own_of slot screen.now) window.now)) }
{
    if window.path.as_str() != "." {
        return text_answer(alloc, name_in(window.path.as_str()));
    }
    match screen.toplevel(slot) {
        Some(toplevel) => copy_answer(&toplevel.name),
        None => text_answer(alloc, ""),
    }
}

/// The path of the parent of a window; empty where it has none.
fn parent_path<'a>(windows: &'a Windows, slot: usize, window: &Window) -> &'a str
    ensures { result.now ≡ option_map_or (spec.path_at (tree_of slot windows.now)) window.now.parent [] }
{
    let Some(parent) = window.parent else {
        return "";
    };
    match windows.window(Win {
        owner: slot,
        number: parent,
    }) {
        Some(parent) => parent.path.as_str(),
        None => "",
    }
}

/// The size that a window asks for.
fn asked_for(
    alloc: Global,
    screen: &Screen,
    scopes: &Scopes,
    win: Win,
) -> Result<(u32, u32), AllocError>
    ensures { IfOk result (λ size. size ≡ spec.asked_for (own_of win.owner screen.now) scopes.now win.number) }
{
    Ok(requested_size(alloc, screen, scopes, win)?.unwrap_or((1, 1)))
}
