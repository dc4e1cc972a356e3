/// What a script is told of a `break` that no loop takes. It has no number.
pub const STRAY_BREAK: &str = "invoked \"break\" outside of a loop";

/// What a script is told of a `continue` that no loop takes. It has no number.
pub const STRAY_CONTINUE: &str = "invoked \"continue\" outside of a loop";

/// What a return becomes where it leaves a procedure or a script at global level: its `-code`, 0 to 4 in this order (return(n)).
#[derive(Clone, Copy, Debug, PartialEq, Eq)]
pub enum ReturnCode {
    Normal,
    Error,
    /// The caller's script returns in its turn, as by `return` alone; at global level it counts as `Normal`.
    Return,
    Break,
    Continue,
}

/// How a script or a command ended: Tcl's codes 0 to 4 in this order, as `catch` answers them (catch(n)).
#[derive(Clone, Copy, Debug, PartialEq, Eq)]
pub enum Code {
    Normal,
    Error,
    /// With what it becomes where it leaves a procedure or a script at global level.
    Return(ReturnCode),
    Break,
    Continue,
}
