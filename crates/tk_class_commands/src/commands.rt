//! What the commands do.
ghost use Rattle.std.specs.Prelude.{◌≡◌, IfOk};
ghost use Rattle.tk_class_commands.specs.Commands as spec;
ghost use Rattle.tk_class_commands.specs.Outcomes.{done};
ghost use Rattle.tk_class_commands.specs.Steps.{IsRequested};
ghost use Rattle.tk_inputs.specs.Shared.{arrivals_of};
ghost use Rattle.tk_inputs.specs.Shared as inputs_of;
ghost use Rattle.tk_dispatch.specs.Queue as queue_of;
ghost use Rattle.tk_screen.specs.Shared.{LeavesOthers, own_of};

use crate::buttons::act;
use crate::entries::entry_asked;
use crate::listboxes::listbox_asked;
use crate::outcome::ClassOutcome;
use crate::requests::{ClassRequest, ClassTarget, target_in};
use crate::table::ClassCommand;
use std::alloc::{AllocError, Global};
use tcl_text::Text;
use tcl_text::answers::Refusal;
use tcl_vars::Scopes;
use tk_base::Win;
use tk_dispatch::EventQueue;
use tk_inputs::Inputs;
use tk_screen::Screen;
use tk_widgets::WidgetAct;

/// What one does, from the words behind its name, at a moment in milliseconds. Errors are a wrong number of words (no number), a path that no
/// window of the class has (24), a word that is no integer (1), no way and no step (no number), and a variable that can't be set; then nothing is
/// changed.
#[tactic(auto, unfolding(crate::specs::Commands::class_command_done))]
pub fn class_command_done(
    alloc: Global,
    screen: &mut Screen,
    inputs: &mut Inputs,
    queue: &mut EventQueue,
    scopes: &mut Scopes,
    slot: usize,
    moment: u64,
    command: &ClassCommand,
    words: &[Text],
) -> Result<ClassOutcome, AllocError>
    ensures own { IfOk result (λ outcome. done (own_of slot screen.new) (arrivals_of slot inputs.new queue.new) scopes.new outcome
        ≡ spec.class_command_done command.now words.now moment (own_of slot screen.old) (arrivals_of slot inputs.old queue.old) scopes.old) }
    ensures screen { LeavesOthers slot screen.old screen.new }
    ensures inputs { inputs_of.LeavesOthers slot inputs.old inputs.new }
    ensures queue { queue_of.LeavesOthers slot queue.old queue.new }
{
    let target = target_in(alloc, screen, slot, command, words);
    requested(alloc, screen, inputs, queue, scopes, slot, moment, target)
}

/// What is done to the widget, if there is one.
fn requested(
    alloc: Global,
    screen: &mut Screen,
    inputs: &mut Inputs,
    queue: &mut EventQueue,
    scopes: &mut Scopes,
    slot: usize,
    moment: u64,
    target: Result<ClassTarget, Refusal>,
) -> Result<ClassOutcome, AllocError>
    ensures own { IfOk result (λ outcome. IsRequested moment target (own_of slot screen.old) (arrivals_of slot inputs.old queue.old) scopes.old
        (done (own_of slot screen.new) (arrivals_of slot inputs.new queue.new) scopes.new outcome)) }
    ensures screen { LeavesOthers slot screen.old screen.new }
    ensures inputs { inputs_of.LeavesOthers slot inputs.old inputs.new }
    ensures queue { queue_of.LeavesOthers slot queue.old queue.new }
{
    match target {
        Ok(ClassTarget { number, request }) => {
            let win = Win {
                owner: slot,
                number,
            };
            asked(alloc, screen, inputs, queue, scopes, win, moment, request)
        }
        Err(Refusal::Error(text)) => Ok(ClassOutcome::Acts(WidgetAct::Fault(text))),
        Err(Refusal::NoMemory) => Err(AllocError),
    }
}

/// What is done to a widget.
fn asked(
    alloc: Global,
    screen: &mut Screen,
    inputs: &mut Inputs,
    queue: &mut EventQueue,
    scopes: &mut Scopes,
    win: Win,
    moment: u64,
    request: ClassRequest,
) -> Result<ClassOutcome, AllocError>
    ensures own { IfOk result (λ outcome. done (own_of win.owner screen.new) (arrivals_of win.owner inputs.new queue.new) scopes.new outcome
        ≡ spec.asked win.number moment request (own_of win.owner screen.old) (arrivals_of win.owner inputs.old queue.old) scopes.old) }
    ensures screen { LeavesOthers win.owner screen.old screen.new }
    ensures inputs { inputs_of.LeavesOthers win.owner inputs.old inputs.new }
    ensures queue { queue_of.LeavesOthers win.owner queue.old queue.new }
{
    match request {
        ClassRequest::Button(request) => act(alloc, screen, inputs, win, request),
        ClassRequest::Entry(request) => {
            entry_asked(alloc, screen, inputs, queue, scopes, win, moment, request)
        }
        ClassRequest::Listbox(request) => {
            listbox_asked(alloc, screen, inputs, queue, win, moment, request)
        }
    }
}
