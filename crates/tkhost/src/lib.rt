//! Sessions: how they are read, played and told.
#![tactic(auto)]

mod input;
mod laws;
mod outcome;
mod output;
mod playing;
mod program;
mod served;
mod services;

pub use input::{InputFault, read_input};
pub use laws::{first_format_sections, same_bytes, session_in_range, session_within};
pub use outcome::{Ending, Outcome};
pub use output::{WriteFault, write_whole};
pub use playing::{PlayFault, Unplayed, filled, play, play_or_tell, run_through};
pub use program::run;
pub use served::{Served, own_services};
pub use services::services_of;
pub use tk_host::{
    Alias, AliasCode, AliasMeaning, AliasReply, AliasService, Aliases, Budget, Closure,
};
pub use tk_session::{
    AliasLine, AppBlock, EventLine, HostLine, LineFault, Listing, Rect, Service, ServiceKind,
    Session, SessionFault, read_session,
};
