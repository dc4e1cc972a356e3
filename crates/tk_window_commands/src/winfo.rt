//! `winfo`, by its words.
ghost use Rattle.std.specs.Prelude.{◌≡◌, IfOk};
ghost use Rattle.tcl_text.specs.Answers.{Gives};
ghost use Rattle.tk_screen.specs.Shared.{own_of};
ghost use Rattle.tk_window_commands.specs.Winfo as spec;

use crate::answers::window_at_path;
use crate::winfo_told::told;
use std::alloc::{AllocError, Global};
use tcl_text::Text;
use tcl_text::answers::{Refusal, answered, bad_option, truth_answer, wrong_args};
use tcl_text::message::Answer;
use tcl_vars::Scopes;
use tk_screen::Screen;
use tk_tree::bad_path;

/// What can be asked of a window (winfo(n)).
#[derive(Clone, Copy, Debug, PartialEq, Eq)]
pub enum Question {
    /// The paths of its children, in the order of creation.
    Children,
    /// Its class.
    Class,
    /// Whether it is there.
    Exists,
    /// Its height, in pixels.
    Height,
    /// Whether it is mapped.
    IsMapped,
    /// Its name below its parent; that of the main window is the application's.
    Name,
    /// The path of its parent; empty for the main window.
    Parent,
    /// The height that it asks for, in pixels.
    RequestedHeight,
    /// The width that it asks for, in pixels.
    RequestedWidth,
    /// How far across its corner lies from that of the application's rectangle, in pixels.
    RootX,
    /// How far down, in pixels.
    RootY,
    /// The path of the main window.
    Toplevel,
    /// Its width, in pixels.
    Width,
    /// How far across its corner lies from that of its parent, in pixels.
    X,
    /// How far down, in pixels.
    Y,
}

/// The command `winfo` (winfo(n)), from the words behind its name: what is asked of the window of a path. A path that names no window is refused
/// (24), but by `exists`.
pub fn winfo_command(
    alloc: Global,
    screen: &Screen,
    scopes: &Scopes,
    slot: usize,
    words: &[Text],
) -> Result<Answer, AllocError>
    ensures { IfOk result (λ answer. answer ≡ spec.winfo_words words.now (own_of slot screen.now) scopes.now) }
{
    answered(winfo_words(alloc, screen, scopes, slot, words))
}

#[tactic(auto, unfolding(crate::specs::Winfo::winfo_words))]
fn winfo_words(
    alloc: Global,
    screen: &Screen,
    scopes: &Scopes,
    slot: usize,
    words: &[Text],
) -> Result<Text, Refusal>
    ensures { Gives result (spec.winfo_words words.now (own_of slot screen.now) scopes.now) }
{
    let Some((name, words)) = words.split_first() else {
        return wrong_args(alloc, "winfo option ?arg ..?");
    };
    let Some(question) = question_named(name.as_str()) else {
        return bad_option(alloc, name);
    };
    match words {
        [path] => told_at(alloc, screen, scopes, slot, question, path),
        _ => wrong_question(alloc, name.as_str()),
    }
}

/// The sub-command of a name.
#[tactic(auto, unfolding(crate::specs::Winfo::question_named))]
fn question_named(name: &str) -> Option<Question>
    ensures { result ≡ spec.question_named name.now }
{
    match name {
        "children" => Some(Question::Children),
        "class" => Some(Question::Class),
        "exists" => Some(Question::Exists),
        "height" => Some(Question::Height),
        "ismapped" => Some(Question::IsMapped),
        "name" => Some(Question::Name),
        "parent" => Some(Question::Parent),
        "reqheight" => Some(Question::RequestedHeight),
        "reqwidth" => Some(Question::RequestedWidth),
        "rootx" => Some(Question::RootX),
        "rooty" => Some(Question::RootY),
        "toplevel" => Some(Question::Toplevel),
        "width" => Some(Question::Width),
        "x" => Some(Question::X),
        "y" => Some(Question::Y),
        _ => None,
    }
}

/// The error for a sub-command with another number of words.
fn wrong_question(alloc: Global, name: &str) -> Result<Text, Refusal>
    ensures { Gives result (spec.wrong_question name.now) }
{
    let mut usage = String::from_str(alloc, "winfo ")?;
    usage.push_str(name)?;
    usage.push_str(" path")?;
    wrong_args(alloc, usage.as_str())
}

/// What is told of the window of a path.
fn told_at(
    alloc: Global,
    screen: &Screen,
    scopes: &Scopes,
    slot: usize,
    question: Question,
    path: &Text,
) -> Result<Text, Refusal>
    ensures { Gives result (spec.told_at question path.now (own_of slot screen.now) scopes.now) }
{
    match window_at_path(&screen.windows, slot, path) {
        Some(window) => told(alloc, screen, scopes, slot, question, window),
        None => told_of_none(alloc, question, path),
    }
}

/// What is told where a path names no window.
fn told_of_none(alloc: Global, question: Question, path: &Text) -> Result<Text, Refusal>
    ensures { Gives result (spec.told_of_none question path.now) }
{
    match question {
        Question::Exists => truth_answer(alloc, false),
        _ => bad_path(alloc, path),
    }
}
