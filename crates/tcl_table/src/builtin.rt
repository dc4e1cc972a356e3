use tcl_commands::VariableCommand;

/// The commands that the interpreter has itself, those on texts and lists aside. Each has the name of its manual page: `Break` is that of
/// break(n).
#[derive(Clone, Copy)]
pub enum Builtin {
    Break,
    Catch,
    Continue,
    Error,
    Eval,
    Expr,
    For,
    Foreach,
    If,
    Info,
    Proc,
    Rename,
    Return,
    Switch,
    Uplevel,
    Upvar,
    /// One on variables: `set`, `unset`, `incr`, `append`, `lappend`, `array` or `global`.
    Variable(VariableCommand),
    While,
}
