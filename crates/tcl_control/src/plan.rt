ghost use Rattle.std.specs.Prelude.{◌≡◌};
ghost use Rattle.tcl_control.specs.Commands as spec;

use crate::code::Code;
use crate::expression::Expression;
use crate::loops::Looping;
use tcl_commands::Choices;
use tcl_table::Source;
use tcl_text::Text;

/// What a command does, once its words are known.
#[derive(Drop)]
pub enum Plan {
    /// It has ended, with a code and a result or an error's text.
    Ends(Code, Text),
    /// It ends as a script does (eval(n), switch(n)).
    Runs(Source),
    /// A script runs, and the answer is its code; its result is put into the variable of this name (catch(n)).
    Catches(Source, Option<Text>),
    /// A script runs where only so many of the levels are, and it ends as the script does (uplevel(n)).
    RunsAt(usize, Source),
    /// A procedure's body runs, in the last frame (proc(n)).
    Enters(Source),
    /// It ends with the value of an expression (expr(n)).
    Evaluates(Expression),
    /// The first body whose condition holds runs (if(n)).
    Chooses(Choices),
    /// A loop is to be tested (while(n), foreach(n)).
    Loops(Looping),
    /// A script runs, and then a loop is tested (for(n)).
    Starts(Source, Looping),
}

/// A command ends with an error of this text.
pub fn fails(text: Text) -> Plan
    ensures { result ≡ spec.failed_plan text }
{
    Plan::Ends(Code::Error, text)
}
