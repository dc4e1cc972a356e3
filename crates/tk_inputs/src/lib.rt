//! What applications keep of their input: which window has the keys, where the pointer is, which button is pressed; what the keys, the pointer
//! and the host's focus give them, and the command of focus(n).
#![tactic(auto)]

mod borders;
mod delivery;
mod events;
mod focus;
mod inputs;
mod pointer;
mod pointer_event;
pub mod pointer_laws;

pub use borders::crossings;
pub use delivery::deliver;
pub use focus::{focus_command, set_focus};
pub use inputs::{Input, Inputs};
pub use pointer::Pointer;
pub use pointer_event::{CrossingDetail, CrossingKind, PointerEvent, PointerKind};
