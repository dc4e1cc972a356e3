//! What a loop is, without a count of how often it may go round. The functions do nothing: their contracts are the laws.
ghost use Rattle.tcl_interp.specs.LoopLaws.{LoopsGoOn, LoopsGoOnWhere, OnlyLoop, OnlyLoopWhere};
ghost use Rattle.tcl_interp.specs.StepsBack.{ScriptsTakeNoStepsBack};

/// A loop is a step, its test, its body with what `for` runs behind it, and the loop again with what is left to be tested. Nothing else meets that
/// equation. How scripts are run is given; it takes no steps back.
pub fn loops_go_on<S>()
    ensures equation { LoopsGoOn S }
    ensures only { OnlyLoop S }
{}

/// So it is where something holds of what is shown, as a test tells it: where it holds again behind each script that is begun where it holds, and these
/// scripts take no steps back.
pub fn loops_go_on_where<S>()
    ensures equation { LoopsGoOnWhere S }
    ensures only { OnlyLoopWhere S }
{}

/// No script ends with more steps left than it was begun with, whatever serves its outside commands: so loops in scripts meet that equation.
pub fn scripts_take_no_steps_back<S, K>()
    ensures { ScriptsTakeNoStepsBack S K }
{}
