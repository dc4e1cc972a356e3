//! What the commands of a program come to is all that the meaning of a script rests on.
ghost use Rattle.tcl_interp.specs.ScriptLaws.{ScriptsAgree, ScriptsAgreeWhere};

/// Outside commands that come to the same, whatever serves them, give every script the same meaning: so one may be read by equations that the other
/// meets.
pub fn scripts_agree<S>()
    ensures { ScriptsAgree S }
{}

/// So they do where something holds of what is shown, as a test tells it: where the first commands keep it as long as the scripts do that they run,
/// and the two come to the same there as long as the scripts that they run do.
pub fn scripts_agree_where<S>()
    ensures { ScriptsAgreeWhere S }
{}
