//! What comes of commands.
ghost use Rattle.std.specs.Prelude.{◌≡◌};
ghost use Rattle.tk_commands.specs.Outcomes.{outcome_of};

use tcl_text::message::Answer;
use tk_panel::Scripts;
use tk_sequences::Event;
use tk_widgets::WidgetAct;

/// What comes of a command.
#[derive(Drop)]
pub enum CommandOutcome {
    /// Its result, the text of its error, or a script that runs at global level, whose result is the command's: `path invoke` of button(n).
    Acts(WidgetAct),
    /// This begins, and the command ends, with an empty result, when it does.
    Begins(Begun),
    /// There is no command of this name.
    Unknown,
}

/// What commands begin that may run scripts.
#[derive(Drop)]
pub enum Begun {
    /// All that is to be done at the moment (update(n)).
    Updates,
    /// A layout, the idle scripts that wait then, and a layout: `update idletasks`.
    UpdatesIdleTasks,
    /// The windows of these paths are destroyed (destroy(n)).
    Destroys(Scripts),
    /// This event comes at once (event(n)).
    Dispatches(Event),
}

/// What comes of a command that answers.
pub fn answering(answer: Answer) -> CommandOutcome
    ensures { result ≡ outcome_of answer }
{
    match answer {
        Ok(text) => CommandOutcome::Acts(WidgetAct::Answer(text)),
        Err(text) => CommandOutcome::Acts(WidgetAct::Fault(text)),
    }
}
