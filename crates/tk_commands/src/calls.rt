//! The commands of an application, as its interpreter calls them.
ghost use Rattle.std.specs.Prelude.{◌≡◌, ◌⊎◌, ℕ, Err, IfErr, IfOk, IsOk};
ghost use Rattle.tcl_table.specs.Source.{script_of};
ghost use Rattle.tk_panel.specs.Shared.{LeavesOthers, panel_of};
ghost use Rattle.tk_commands.specs.Calls.{act_of, calls, outcome_told};

use crate::jobs::begin;
use crate::{CommandOutcome, panel_command};
use std::alloc::{AllocError, Global};
use tcl_interp::{Act, Code, Task};
use tcl_text::Text;
use tcl_vars::Scopes;
use tcl_words::{ParseFault, Script, parse};
use tk_panel::{Job, Tables};
use tk_widgets::WidgetAct;

/// What the interpreter does for a command that has ended, or runs a script.
fn act_of(act: WidgetAct) -> Act<Task<Job>>
    ensures { result ≡ act_of act }
{
    match act {
        WidgetAct::Answer(text) => Act::Done(Code::Normal, text),
        WidgetAct::Fault(text) => Act::Done(Code::Error, text),
        WidgetAct::Script(script) => Act::Run {
            script,
            task: Task::Invoked,
        },
    }
}

/// What the interpreter does then.
fn act_for(
    tables: &mut Tables,
    slot: usize,
    scopes: &Scopes,
    outcome: CommandOutcome,
) -> Result<Act<Task<Job>>, AllocError>
    ensures own { IfOk result (λ act. record { shows = panel_of slot tables.new; store = scopes.now; act = act }
        ≡ outcome_told outcome (panel_of slot tables.old) scopes.now) }
    ensures others { LeavesOthers slot tables.old tables.new }
{
    match outcome {
        CommandOutcome::Acts(act) => Ok(act_of(act)),
        CommandOutcome::Begins(begun) => begin(tables, slot, scopes, begun),
        CommandOutcome::Unknown => Ok(Act::Unknown),
    }
}

#[tactic(auto, unfolding(crate::specs::Calls::calls))]
/// A command of an application, by its words, its name first: it answers, runs a script whose end is its own, or begins a job, whose end is its own.
pub fn call(
    tables: &mut Tables,
    slot: usize,
    scopes: &mut Scopes,
    words: &[Text],
) -> Result<Act<Task<Job>>, AllocError>
    ensures own { IfOk result (λ act. record { shows = panel_of slot tables.new; store = scopes.new; act = act }
        ≡ calls (panel_of slot tables.old) scopes.old words.now) }
    ensures others { LeavesOthers slot tables.old tables.new }
{
    let outcome = panel_command(tables, slot, scopes, words)?;
    act_for(tables, slot, scopes, outcome)
}

/// How many bytes a script that is kept has at most: what was read of a longer one may take megabytes.
const MOST_KEPT: usize = 4_096;

/// The script of a text (Tcl(n)), or its fault (4 to 10), which nothing keeps.
#[tactic(auto, using(tcl_table::proofs::SourceLemmas::script_walk))]
fn read_once(alloc: Global, text: &Text) -> Result<Script, ParseFault>
    ensures text { IfOk result (λ script. script ≡ text.now) }
    ensures ok { IfOk result (λ _. IsOk (script_of text.now)) }
    ensures fault { IfErr result (λ fault. (script_of text.now ≡ Err fault) ⊎ (fault ≡ ParseFault.NoMemory)) }
{
    let script = parse(alloc, text.as_str().as_bytes())?;
    let _commands = script.commands();
    Ok(script)
}

/// The commands of a script's text (Tcl(n)), or its fault (4 to 10): of short scripts what was read last for any application isn't read again.
#[tactic(auto, using(tcl_table::proofs::SourceLemmas::script_walk))]
pub fn parsed(tables: &mut Tables, text: &Text) -> Result<Script, ParseFault>
    ensures text { IfOk result (λ script. script ≡ text.now) }
    ensures ok { IfOk result (λ _. IsOk (script_of text.now)) }
    ensures fault { IfErr result (λ fault. (script_of text.now ≡ Err fault) ⊎ (fault ≡ ParseFault.NoMemory)) }
    ensures panels { (slot : ℕ) → panel_of slot tables.new ≡ panel_of slot tables.old }
    ensures others { (slot : ℕ) → LeavesOthers slot tables.old tables.new }
{
    if text.as_str().len() > MOST_KEPT {
        return read_once(tables.alloc, text);
    }
    tables.scripts.parsed(text)
}
