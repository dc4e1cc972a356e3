/// How far a host has come.
#[derive(Clone, Copy, Debug, PartialEq, Eq)]
pub enum Phase {
    /// Applications are added.
    Adding,
    /// The applications run, and this moment is reached, in milliseconds.
    Reached(u64),
    /// The end came at this moment, in milliseconds.
    Finished(u64),
    /// Memory was refused while applications ran: each further call is refused with `Broken` (42).
    Lost,
}
