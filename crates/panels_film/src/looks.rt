//! How windows look, by their options.
ghost use Rattle.std.specs.Prelude.{◌≡◌, ◌≤◌, ◌++◌, length, map, IfOk, OnOk};
ghost use Rattle.std.specs.List.{list_all};
ghost use Rattle.std.specs.String.{string_bytes};
ghost use Rattle.tcl_text.specs.Limits.{most_bytes};
ghost use Rattle.panels.specs.Asked.{told_by};
ghost use Rattle.panels.specs.Shapes.{Drawn, shown};
ghost use Rattle.panels_film.specs.Looks.{answered, colour, edge, edge_width, focus, is_colour, is_relief, look_of, looks_of, marks_by, marks_of, may_colour, option_of, relief_mark, style_by, style_of, told, where_so};

use crate::numbers::number_in;
use panels::{Answer, Live, Question, Shape, shapes};
use panels_text::as_text;
use std::alloc::{AllocError, Global};
use tcl_text::Text;
use tk_host::AliasService;

/// How a window looks.
#[derive(PartialEq, Eq, Drop)]
pub struct WindowLook {
    /// Words for a style, a blank before each: its relief, and whether it has the panel's focus or is disabled.
    pub marks: String,
    /// Its colours and the width of its edges.
    pub style: String,
}

/// The text of an answer; an empty one where it is none.
fn answered(alloc: Global, answer: Answer) -> Result<String, AllocError>
    ensures { IfOk result (λ text. string_bytes text ≡ answered (told_by answer)) }
{
    match answer {
        Answer::Text(text) => String::from_str(alloc, text.as_str()),
        Answer::Nothing => Ok(String::new(alloc)),
        Answer::Number(_) => Ok(String::new(alloc)),
        Answer::Rows(_) => Ok(String::new(alloc)),
    }
}

/// The value of an option.
fn option_of<M: AliasService>(
    alloc: Global,
    live: &Live<M>,
    slot: usize,
    path: &str,
    name: &str,
) -> Result<String, AllocError>
    requires { length name.now ≤ most_bytes }
    ensures { IfOk result (λ text. string_bytes text ≡ option_of slot live.now.held path.now name.now) }
{
    let question = Question::Option {
        window: String::from_str(alloc, path)?,
        name: Text::of_short(alloc, name)?,
    };
    answered(alloc, live.ask(alloc, slot, &question)?)
}

/// The path of the window that has the panel's focus.
fn focus_of<M: AliasService>(
    alloc: Global,
    live: &Live<M>,
    slot: usize,
) -> Result<String, AllocError>
    ensures { IfOk result (λ path. string_bytes path ≡ focus slot live.now.held) }
{
    answered(alloc, live.ask(alloc, slot, &Question::Focus)?)
}

/// Whether a word is a relief.
fn is_relief(word: &str) -> bool
    ensures { result ≡ is_relief word.now }
{
    match word {
        "flat" | "raised" | "sunken" | "groove" | "ridge" | "solid" => true,
        _ => false,
    }
}

/// Adds the word of a relief, where it is one.
fn push_relief(marks: &mut String, relief: &str) -> Result<(), AllocError>
    ensures { OnOk result (string_bytes marks.new ≡ string_bytes marks.old ++ relief_mark relief.now) }
{
    if !is_relief(relief) {
        return Ok(());
    }
    marks.push_str(" ")?;
    Ok(marks.push_str(relief)?)
}

/// Adds words, where something holds.
fn push_where(text: &mut String, holds: bool, words: &str) -> Result<(), AllocError>
    ensures { OnOk result (string_bytes text.new ≡ string_bytes text.old ++ where_so holds words.now) }
{
    if !holds {
        return Ok(());
    }
    Ok(text.push_str(words)?)
}

/// The words by which a style tells a window of this relief and this state.
fn marks_by(
    alloc: Global,
    relief: &str,
    state: &str,
    is_focused: bool,
) -> Result<String, AllocError>
    ensures { IfOk result (λ marks. string_bytes marks ≡ marks_by relief.now state.now is_focused) }
{
    let mut marks = String::new(alloc);
    push_relief(&mut marks, relief)?;
    push_where(&mut marks, state == "disabled", " disabled")?;
    push_where(&mut marks, is_focused, " focused")?;
    Ok(marks)
}

/// Whether a byte may stand in a colour.
fn may_colour(byte: u8) -> bool
    ensures { result ≡ may_colour byte }
{
    byte.is_ascii_alphanumeric() || byte == b'#'
}

fn may_all_colour(bytes: &[u8]) -> bool
    ensures { result ≡ list_all may_colour bytes.now }
{
    bytes.iter().all(|byte| may_colour(*byte))
}

/// Whether a text can be a colour: letters, digits and `#`, so that it says nothing else in a style.
fn is_colour(text: &str) -> bool
    ensures { result ≡ is_colour text.now }
{
    !text.is_empty() && may_all_colour(text.as_bytes())
}

/// Adds a colour to a style, where a text is one.
fn push_colour(style: &mut String, name: &str, text: &str) -> Result<(), AllocError>
    ensures { OnOk result (string_bytes style.new ≡ string_bytes style.old ++ colour name.now text.now) }
{
    if !is_colour(text) {
        return Ok(());
    }
    style.push_str(name)?;
    style.push_str(text)?;
    Ok(style.push_str(";")?)
}

/// How wide the line along a border is: half of it lies in the window.
fn edge_width(width: u64) -> u64
    ensures { result ≡ edge_width width }
{
    if width < 1_000 { width * 2 } else { 2_000 }
}

/// The width of edges in a style, where it is a number.
fn edge(alloc: Global, width: Option<u64>) -> Result<String, AllocError>
    ensures { IfOk result (λ text. string_bytes text ≡ edge width) }
{
    match width {
        Some(width) => format!(in alloc; "--edge:{}px", edge_width(width)),
        None => Ok(String::new(alloc)),
    }
}

/// The style of a window with these colours and edges.
fn style_by(alloc: Global, background: &str, ink: &str, width: &str) -> Result<String, AllocError>
    ensures { IfOk result (λ style. string_bytes style ≡ style_by background.now ink.now width.now) }
{
    let edge = edge(alloc, number_in(width))?;
    let mut style = String::new(alloc);
    push_colour(&mut style, "fill:", background)?;
    push_colour(&mut style, "color:", ink)?;
    style.push_str(edge.as_str())?;
    Ok(style)
}

/// The words by which a style tells a window.
fn marks_of<M: AliasService>(
    alloc: Global,
    live: &Live<M>,
    slot: usize,
    path: &str,
) -> Result<String, AllocError>
    ensures { IfOk result (λ marks. string_bytes marks ≡ marks_of slot live.now.held path.now) }
{
    let relief = option_of(alloc, live, slot, path, "-relief")?;
    let state = option_of(alloc, live, slot, path, "-state")?;
    let focus = focus_of(alloc, live, slot)?;
    marks_by(
        alloc,
        relief.as_str(),
        state.as_str(),
        path == focus.as_str(),
    )
}

/// The style of a window.
fn style_of<M: AliasService>(
    alloc: Global,
    live: &Live<M>,
    slot: usize,
    path: &str,
) -> Result<String, AllocError>
    ensures { IfOk result (λ style. string_bytes style ≡ style_of slot live.now.held path.now) }
{
    let background = option_of(alloc, live, slot, path, "-background")?;
    let ink = option_of(alloc, live, slot, path, "-foreground")?;
    let width = option_of(alloc, live, slot, path, "-borderwidth")?;
    style_by(alloc, background.as_str(), ink.as_str(), width.as_str())
}

/// How the window of a path looks.
fn look_of<M: AliasService>(
    alloc: Global,
    live: &Live<M>,
    slot: usize,
    path: &[u8],
) -> Result<WindowLook, AllocError>
    ensures { IfOk result (λ look. told look ≡ look_of slot live.now.held path.now) }
{
    let path = as_text(path);
    let marks = marks_of(alloc, live, slot, path)?;
    let style = style_of(alloc, live, slot, path)?;
    Ok(WindowLook { marks, style })
}

/// How these windows look.
fn looks_at<M: AliasService>(
    alloc: Global,
    live: &Live<M>,
    slot: usize,
    windows: &[Shape],
) -> Result<Vec<WindowLook>, AllocError>
    ensures { IfOk result (λ looks. map told looks.items ≡ map (λ (window : Drawn). look_of slot live.now.held window.path) (map shown windows.now)) }
{
    let mut looks = Vec::new(alloc);
    for window in windows {
        looks.push(look_of(alloc, live, slot, window.path.as_slice())?)?;
    }
    Ok(looks)
}

/// How the windows of the section of the panel in a slot look, in its order.
pub(crate) fn looks_of<M: AliasService>(
    alloc: Global,
    live: &Live<M>,
    slot: usize,
    section: &[u8],
) -> Result<Vec<WindowLook>, AllocError>
    ensures { IfOk result (λ looks. map told looks.items ≡ looks_of slot live.now.held section.now) }
{
    let windows = shapes(alloc, section)?;
    looks_at(alloc, live, slot, windows.as_slice())
}
