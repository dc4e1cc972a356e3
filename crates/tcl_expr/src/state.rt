use crate::fault::EvalFault;
use tcl_text::Text;

/// How far an evaluation has come.
#[derive(Drop)]
pub enum State {
    /// Nothing is asked.
    Ready,
    /// Something is asked.
    Waiting,
    /// The value is there.
    Ended(Text),
    /// There is none.
    Failed(EvalFault),
}
