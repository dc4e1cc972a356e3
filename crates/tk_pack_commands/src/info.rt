//! What `pack info` and `pack slaves` tell.
ghost use Rattle.std.specs.Prelude.{◌≡◌, ◌++◌, ◌∷◌, [], IfOk, OnOk};
ghost use Rattle.std.specs.Fmt.{decimal};
ghost use Rattle.tcl_text.specs.Answers.{Gives};
ghost use Rattle.tk_pack_commands.specs.Info as spec;
ghost use Rattle.tk_pack_commands.specs.Values.{side_word, anchor_word, fill_word};
ghost use Rattle.tk_tree.specs.Shared.{own_of};

use crate::errors::not_packed;
use itoa::Buffer;
use std::alloc::{AllocError, Global};
use tcl_text::answers::Refusal;
use tcl_text::items::list_answer;
use tcl_text::message::short_text;
use tcl_text::{Text, TextList};
use tk_base::Win;
use tk_packer::{Anchor, Fill, Packed, Pads, Request, Side};
use tk_tree::Windows;

fn side_word(side: Side) -> &'static str
    ensures { result.now ≡ side_word side }
{
    match side {
        Side::Top => "top",
        Side::Bottom => "bottom",
        Side::Left => "left",
        Side::Right => "right",
    }
}

fn anchor_word(anchor: Anchor) -> &'static str
    ensures { result.now ≡ anchor_word anchor }
{
    match anchor {
        Anchor::Center => "center",
        Anchor::N => "n",
        Anchor::Ne => "ne",
        Anchor::E => "e",
        Anchor::Se => "se",
        Anchor::S => "s",
        Anchor::Sw => "sw",
        Anchor::W => "w",
        Anchor::Nw => "nw",
    }
}

fn fill_word(fill: Fill) -> &'static str
    ensures { result.now ≡ fill_word fill }
{
    match fill {
        Fill::None => "none",
        Fill::X => "x",
        Fill::Y => "y",
        Fill::Both => "both",
    }
}

fn truth_word(truth: bool) -> &'static str
    ensures { result.now ≡ spec.truth_word truth }
{
    if truth { "1" } else { "0" }
}

fn amount_text(alloc: Global, amount: u32) -> Result<Text, AllocError>
    ensures { IfOk result (λ text. text ≡ decimal amount) }
{
    let mut buffer = Buffer::new();
    short_text(alloc, buffer.format(amount))
}

/// The pads, one amount where both are equal.
#[tactic(auto, unfolding(crate::specs::Info::pads_word))]
fn pads_text(alloc: Global, pads: Pads) -> Result<Text, AllocError>
    ensures { IfOk result (λ text. text ≡ spec.pads_word pads) }
{
    if pads.before == pads.after {
        return amount_text(alloc, pads.before);
    }
    let mut buffer = Buffer::new();
    let mut string = String::from_str(alloc, buffer.format(pads.before))?;
    string.push_str(" ")?;
    string.push_str(buffer.format(pads.after))?;
    short_text(alloc, string.as_str())
}

/// The options and values of a packed window.
#[tactic(auto, unfolding(crate::specs::Info::request_words))]
fn request_words(alloc: Global, request: &Request) -> Result<TextList, AllocError>
    ensures { IfOk result (λ words. words ≡ spec.request_words request.now) }
{
    let mut words = TextList::with_capacity(alloc, 16)?;
    push_word(alloc, &mut words, "-anchor", anchor_word(request.anchor))?;
    push_word(alloc, &mut words, "-expand", truth_word(request.expand))?;
    push_word(alloc, &mut words, "-fill", fill_word(request.fill))?;
    push_option(
        alloc,
        &mut words,
        "-ipadx",
        amount_text(alloc, request.ipadx)?,
    )?;
    push_option(
        alloc,
        &mut words,
        "-ipady",
        amount_text(alloc, request.ipady)?,
    )?;
    push_option(alloc, &mut words, "-padx", pads_text(alloc, request.padx)?)?;
    push_option(alloc, &mut words, "-pady", pads_text(alloc, request.pady)?)?;
    push_word(alloc, &mut words, "-side", side_word(request.side))?;
    Ok(words)
}

fn push_word(alloc: Global, words: &mut TextList, name: &str, value: &str) -> Result<(), AllocError>
    ensures { OnOk result (words.new ≡ words.old ++ name.now ∷ value.now ∷ []) }
{
    let value = short_text(alloc, value)?;
    push_option(alloc, words, name, value)
}

fn push_option(
    alloc: Global,
    words: &mut TextList,
    name: &str,
    value: Text,
) -> Result<(), AllocError>
    ensures { OnOk result (words.new ≡ words.old ++ name.now ∷ value ∷ []) }
{
    words.push(short_text(alloc, name)?)?;
    words.push(value)?;
    Ok(())
}

/// The options and values of a window, or the error that it isn't packed.
pub fn info_of(alloc: Global, path: &Text, request: Option<Request>) -> Result<Text, Refusal>
    ensures { Gives result (spec.info_of path.now request) }
{
    match request {
        Some(request) => list_answer(alloc, request_words(alloc, &request)?.as_slice()),
        None => not_packed(alloc, path),
    }
}

/// The paths of slaves, in order.
pub fn paths_of(
    alloc: Global,
    windows: &Windows,
    owner: usize,
    slaves: &[Packed],
) -> Result<TextList, AllocError>
    ensures { IfOk result (λ paths. paths ≡ spec.paths_of (own_of owner windows.now) slaves.now) }
{
    let mut paths = TextList::new(alloc);
    for packed in slaves {
        push_path(&mut paths, windows, owner, packed.number)?;
    }
    Ok(paths)
}

/// Adds the path of a window, if it is there.
fn push_path(
    paths: &mut TextList,
    windows: &Windows,
    owner: usize,
    number: u64,
) -> Result<(), AllocError>
    ensures { OnOk result (paths.new ≡ paths.old ++ spec.path_at (own_of owner windows.now) number) }
{
    if let Some(window) = windows.window(Win { owner, number }) {
        paths.push(window.path.copy()?)?;
    }
    Ok(())
}
