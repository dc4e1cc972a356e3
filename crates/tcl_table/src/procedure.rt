use crate::source::Source;
use tcl_commands::Parameters;

/// A procedure (proc(n)): its parameters, and its body, which is read when it is made.
#[derive(Drop)]
pub struct Procedure {
    pub parameters: Parameters,
    pub body: Source,
}
