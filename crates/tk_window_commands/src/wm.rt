//! `wm title`.
ghost use Rattle.std.specs.Prelude.{◌≡◌, IfOk, is_some};
ghost use Rattle.tcl_text.specs.Answers.{Gives};
ghost use Rattle.tk_screen.specs.Shared.{own_of, LeavesOthers};
ghost use Rattle.tk_window_commands.specs.Steps.{DoesThere};
ghost use Rattle.tk_window_commands.specs.Wm as spec;

use std::alloc::{AllocError, Global};
use tcl_text::Text;
use tcl_text::answers::{Refusal, answered, bad_option, wrong_args};
use tcl_text::message::Answer;
use tk_screen::Screen;
use tk_tree::bad_path;

/// `wm title . ?text?` (wm(n)), from the words behind `wm`: the application's title, or sets it. Another path is refused (24).
pub fn wm_command(
    alloc: Global,
    screen: &mut Screen,
    slot: usize,
    words: &[Text],
) -> Result<Answer, AllocError>
    ensures own { IfOk result (λ answer. record { own = own_of slot screen.new; answer = answer }
        ≡ spec.wm_words words.now (own_of slot screen.old)) }
    ensures others { LeavesOthers slot screen.old screen.new }
{
    answered(wm_words(alloc, screen, slot, words))
}

#[tactic(auto, unfolding(crate::specs::Wm::wm_words))]
fn wm_words(
    alloc: Global,
    screen: &mut Screen,
    slot: usize,
    words: &[Text],
) -> Result<Text, Refusal>
    ensures own { DoesThere result (own_of slot screen.new) (spec.wm_words words.now (own_of slot screen.old)) }
    ensures others { LeavesOthers slot screen.old screen.new }
{
    let Some((name, words)) = words.split_first() else {
        return wrong_args(alloc, "wm option ?arg ..?");
    };
    match name.as_str() {
        "title" => title_words(alloc, screen, slot, words),
        _ => bad_option(alloc, name),
    }
}

fn title_words(
    alloc: Global,
    screen: &mut Screen,
    slot: usize,
    words: &[Text],
) -> Result<Text, Refusal>
    ensures own { DoesThere result (own_of slot screen.new) (spec.title_words words.now (own_of slot screen.old)) }
    ensures others { LeavesOthers slot screen.old screen.new }
{
    match words {
        [path] => title_of(alloc, screen, slot, path),
        [path, title] => set_title(alloc, screen, slot, path, title),
        _ => wrong_args(alloc, "wm title . ?text?"),
    }
}

/// The title.
fn title_of(alloc: Global, screen: &Screen, slot: usize, path: &Text) -> Result<Text, Refusal>
    ensures { Gives result (spec.title_asked path.now (own_of slot screen.now)) }
{
    if !is_main(screen, slot, path) {
        return bad_path(alloc, path);
    }
    match screen.toplevel(slot) {
        Some(toplevel) => Ok(toplevel.title.copy()?),
        None => Ok(Text::empty()),
    }
}

/// Sets the title.
fn set_title(
    alloc: Global,
    screen: &mut Screen,
    slot: usize,
    path: &Text,
    title: &Text,
) -> Result<Text, Refusal>
    ensures own { DoesThere result (own_of slot screen.new) (spec.title_set path.now title.now (own_of slot screen.old)) }
    ensures others { LeavesOthers slot screen.old screen.new }
{
    if !is_main(screen, slot, path) {
        return bad_path(alloc, path);
    }
    let answer = Text::empty();
    let title = title.copy()?;
    screen.set_title(slot, title);
    Ok(answer)
}

/// Whether a path names the main window, and it is there.
fn is_main(screen: &Screen, slot: usize, path: &Text) -> bool
    ensures { result ≡ spec.is_main path.now (own_of slot screen.now) }
{
    path.as_str() == "." && screen.windows.find(slot, ".").is_some()
}
