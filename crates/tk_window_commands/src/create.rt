//! The commands that make windows.
ghost use Rattle.std.specs.Prelude.{◌≡◌, IfOk, None};
ghost use Rattle.tcl_text.specs.Answers.{Gives};
ghost use Rattle.tk_options.specs.Options.{settings};
ghost use Rattle.tk_options.specs.Rows.{options_of};
ghost use Rattle.tk_screen.specs.Shared.{own_of, LeavesOthers};
ghost use Rattle.tk_tree.specs.Shared.{own_of as tree_of};
ghost use Rattle.tk_widgets.specs.Outcomes.{or_fault};
ghost use Rattle.tk_window_commands.specs.Steps.{Does};
ghost use Rattle.tk_window_commands.specs.Create as spec;

use crate::refusals::path_refused;
use std::alloc::{AllocError, Global};
use tcl_text::Text;
use tcl_text::answers::{Refusal, answered, wrong_args};
use tcl_text::message::Answer;
use tcl_vars::Scopes;
use tk_base::Kind;
use tk_options::{OptionFault, Settings, row_of};
use tk_screen::{Screen, write_variable};
use tk_tree::{WindowFault, Windows};
use tk_widgets::{VariableWrite, Widget, WidgetChange};

/// The command `frame`, `label`, `button`, `entry` or `listbox` (frame(n), ..), from the words behind its name: makes a window of a path with its
/// options set, and answers the path. Refused are a path (24 to 28), then options (20 to 23), then a variable that can't be set (19); a command
/// that is refused changes nothing.
pub fn create_command(
    alloc: Global,
    screen: &mut Screen,
    scopes: &mut Scopes,
    slot: usize,
    kind: Kind,
    words: &[Text],
) -> Result<Answer, AllocError>
    ensures own { IfOk result (λ answer. record { own = own_of slot screen.new; store = scopes.new; answer = answer }
        ≡ spec.create_words kind words.now (own_of slot screen.old) scopes.old) }
    ensures others { LeavesOthers slot screen.old screen.new }
{
    answered(create_words(alloc, screen, scopes, slot, kind, words))
}

#[tactic(auto, unfolding(crate::specs::Create::create_words))]
fn create_words(
    alloc: Global,
    screen: &mut Screen,
    scopes: &mut Scopes,
    slot: usize,
    kind: Kind,
    words: &[Text],
) -> Result<Text, Refusal>
    ensures own { Does result (own_of slot screen.new) scopes.new (spec.create_words kind words.now (own_of slot screen.old) scopes.old) }
    ensures others { LeavesOthers slot screen.old screen.new }
{
    let Some((path, options)) = words.split_first() else {
        return wrong_args(alloc, row_of(kind).usage);
    };
    if let Some(fault) = path_refusal(&screen.windows, slot, path) {
        return Err(path_refused(alloc, path, fault));
    }
    make(alloc, screen, scopes, slot, kind, path, options)
}

/// Why no command makes a window of a path; none where it may be made.
fn path_refusal(windows: &Windows, slot: usize, path: &Text) -> Option<WindowFault>
    ensures { result ≡ spec.path_refusal path.now (tree_of slot windows.now) }
{
    if path.as_str() == "." {
        return Some(WindowFault::BadPath);
    }
    windows.refusal(slot, path.as_str())
}

/// A widget with its options set, and what they write into its variable.
#[derive(Drop)]
pub struct Ready {
    widget: Widget,
    write: Option<VariableWrite>,
}

/// Makes a window of a path that may be made.
fn make(
    alloc: Global,
    screen: &mut Screen,
    scopes: &mut Scopes,
    slot: usize,
    kind: Kind,
    path: &Text,
    options: &[Text],
) -> Result<Text, Refusal>
    requires { spec.path_refusal path.now (own_of slot screen.old).tree ≡ None }
    ensures own { Does result (own_of slot screen.new) scopes.new
        (spec.or_keeps (own_of slot screen.old) scopes.old
        (spec.made_of kind path.now (own_of slot screen.old) scopes.old (spec.configured_new kind (settings options.now (options_of kind))))) }
    ensures others { LeavesOthers slot screen.old screen.new }
{
    let answer = path.copy()?;
    let Ready { widget, write } = configured_new(alloc, kind, options)?;
    write_variable(alloc, scopes, write)?;
    match screen.create(slot, path, kind, widget) {
        Ok(_) => Ok(answer),
        Err(_) => Err(Refusal::NoMemory),
    }
}

/// A new widget with options set, or the error of one that is refused (20 to 23).
fn configured_new(alloc: Global, kind: Kind, options: &[Text]) -> Result<Ready, Refusal>
    ensures { Gives result (spec.configured_new kind (settings options.now (options_of kind))) }
{
    let widget = Widget::new(alloc, kind)?;
    let all = settings_of(alloc, &widget, options)?;
    Ok(configured(alloc, widget, all)?)
}

/// A widget with these options set.
#[tactic(auto, using(crate::proofs::Made::set_by))]
fn configured(alloc: Global, mut widget: Widget, all: Settings) -> Result<Ready, AllocError>
    ensures { IfOk result (λ ready. ready ≡ spec.configured all widget) }
{
    let change = WidgetChange::Configure(all);
    let write = widget.variable_write(alloc, &change)?;
    widget.make(alloc, change)?;
    Ok(Ready { widget, write })
}

/// What options and values set of a new widget, or the error of one that is refused (20 to 23).
fn settings_of(alloc: Global, widget: &Widget, options: &[Text]) -> Result<Settings, Refusal>
    ensures { Gives result (or_fault (settings options.now widget.now.options)) }
{
    match widget.options.settings(alloc, options) {
        Ok(all) => Ok(all),
        Err(OptionFault::NoMemory) => Err(Refusal::NoMemory),
        Err(fault) => Err(Refusal::Error(fault.message(alloc)?)),
    }
}
