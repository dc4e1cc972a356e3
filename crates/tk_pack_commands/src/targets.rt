//! The windows that `pack` is to pack.
ghost use Rattle.std.specs.Prelude.{◌≡◌, ◌≤◌, length, not, option_map};
ghost use Rattle.std.specs.List.{position_or_len};
ghost use Rattle.tcl_text.specs.Answers.{Gives};
ghost use Rattle.tk_pack_commands.specs.Given.{GivesItems};
ghost use Rattle.tk_pack_commands.specs.Targets as spec;
ghost use Rattle.tk_tree.specs.Own.{at_path};
ghost use Rattle.tk_tree.specs.Shared.{own_of};

use crate::errors::is_top_level;
use std::alloc::Global;
use tcl_text::Text;
use tcl_text::answers::Refusal;
use tk_tree::{Windows, bad_path};

/// A window that is to be packed, and its parent, in which it is packed.
#[derive(Clone, Copy)]
pub struct Target {
    pub master: u64,
    pub number: u64,
}

/// A window, and its parent, if it has one.
#[derive(Clone, Copy)]
pub struct Found {
    pub number: u64,
    pub parent: Option<u64>,
}

/// Whether a word begins as a path does.
pub fn begins_path(word: &Text) -> bool
    ensures { result ≡ spec.begins_path word.now }
{
    match word.as_str().as_bytes() {
        [first, ..] => *first == b'.',
        [] => false,
    }
}

/// How many of the words name windows: the first, and those after it that begin with a dot.
#[tactic(auto, unfolding(crate::specs::Targets::path_count))]
pub fn path_count(words: &[Text]) -> usize
    ensures count { result ≡ spec.path_count words.now }
    ensures bound { result ≤ length words.now }
{
    let Some((_, words)) = words.split_first() else {
        return 0;
    };
    1 + others_count(words)
}

/// How many words stand before the first that doesn't begin with a dot.
fn others_count(words: &[Text]) -> usize
    ensures count { result ≡ position_or_len (λ word. not (spec.begins_path word)) words.now }
    ensures bound { result ≤ length words.now }
{
    let mut count = 0;
    for word in words {
        if !begins_path(word) {
            return count;
        }
        count += 1;
    }
    count
}

/// The window of a path, or the error that there is none (24).
#[tactic(auto, unfolding(crate::specs::Targets::window_in))]
pub fn window_in(
    alloc: Global,
    windows: &Windows,
    owner: usize,
    path: &Text,
) -> Result<Found, Refusal>
    ensures { Gives result (spec.window_in path.now (own_of owner windows.now)) }
{
    match found_at(windows, owner, path.as_str()) {
        Some(found) => Ok(found),
        None => bad_path(alloc, path),
    }
}

/// The window of a path; none where there is none.
pub fn found_at(windows: &Windows, owner: usize, path: &str) -> Option<Found>
    ensures { result ≡ option_map spec.found_of (at_path path.now (own_of owner windows.now)) }
{
    let win = windows.find(owner, path)?;
    let window = windows.window(win)?;
    Some(Found {
        number: window.number,
        parent: window.parent,
    })
}

/// The window of a path with its parent, or the error that there is none (24), or that it is the main window.
#[tactic(auto, unfolding(crate::specs::Targets::target_in))]
fn target_in(alloc: Global, windows: &Windows, owner: usize, path: &Text) -> Result<Target, Refusal>
    ensures { Gives result (spec.target_in path.now (own_of owner windows.now)) }
{
    let found = window_in(alloc, windows, owner, path)?;
    in_parent(alloc, found)
}

fn in_parent(alloc: Global, found: Found) -> Result<Target, Refusal>
    ensures { Gives result (spec.in_parent found) }
{
    match found.parent {
        Some(master) => Ok(Target {
            master,
            number: found.number,
        }),
        None => is_top_level(alloc),
    }
}

/// The windows of some paths, tested from the left.
pub fn targets_in(
    alloc: Global,
    windows: &Windows,
    owner: usize,
    paths: &[Text],
) -> Result<Vec<Target>, Refusal>
    ensures { GivesItems result (spec.targets_in paths.now (own_of owner windows.now)) }
{
    let mut targets = Vec::with_capacity(alloc, paths.len())?;
    let mut rest = paths;
    while let Some((path, others)) = rest.split_first() {
        targets.push(target_in(alloc, windows, owner, path)?)?;
        rest = others;
    }
    Ok(targets)
}
