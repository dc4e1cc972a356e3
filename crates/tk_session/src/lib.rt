//! The text of a session: its applications, the lines of its screen and keyboard, and its end.
#![tactic(auto)]

mod alias_line;
mod event_line;
mod fault;
mod laws;
mod line;
mod listing;
mod one_line;
mod reading;
mod screen;
mod script;
mod session;
mod stage;
mod writing;

pub use fault::SessionFault;
pub use laws::{first_format, never_both, one_fault, one_session, session_or_fault};
pub use listing::Listing;
pub use one_line::{read_end, read_event};
pub use reading::read_session;
pub use session::{AliasLine, AppBlock, EventLine, Session};
pub use tk_alias::{Service, ServiceKind};
pub use tk_base::Rect;
pub use tk_route::{HostLine, LineFault};
pub use writing::{WritingFault, key_name, write_session};
