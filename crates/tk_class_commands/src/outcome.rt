//! What comes of a command.
ghost use Rattle.std.specs.Prelude.{◌≡◌};
ghost use Rattle.tk_class_commands.specs.Outcomes.{nothing, outcome_of};

use tcl_text::Text;
use tk_widgets::WidgetAct;

/// What comes of a command that a class binding runs.
#[derive(Drop)]
pub enum ClassOutcome {
    /// What a widget's command tells: a result, an error, or a button's command, which runs.
    Acts(WidgetAct),
    /// A selection was made or toggled in the listbox with this number: `<<ListboxSelect>>` is dispatched to it at once.
    Selects(u64),
}

/// The empty result.
pub fn nothing() -> ClassOutcome
    ensures { result ≡ nothing }
{
    ClassOutcome::Acts(WidgetAct::Answer(Text::empty()))
}

/// What was told of a widget; the empty result where there is none.
pub fn outcome_of(act: Option<WidgetAct>) -> ClassOutcome
    ensures { result ≡ outcome_of act }
{
    match act {
        Some(act) => ClassOutcome::Acts(act),
        None => nothing(),
    }
}
