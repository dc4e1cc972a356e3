//! Applications side by side in one host, which take turns, and the section that each of them ends with.
#![tactic(auto)]

mod events;
mod host;
mod inspection;
mod laws;
mod phase;
mod spec;
mod stages;
mod unserved;

pub use host::Host;
pub use laws::{
    all_within, alone_by_settle, alone_in_range, alone_without_refills, bounded_stages,
    each_by_itself, one_refusal, passed_by_dues, passed_passes, routes_in_range, turns_by_dues,
    used_and_left,
};
pub use phase::Phase;
pub use tk_alias::{MAX_ALIASES, is_command_name};
pub use tk_app::{
    Alias, AliasCode, AliasMeaning, AliasReply, AliasService, Aliases, Budget, Closure,
    CommandPlace, ErrorNote, NoAlias, Turn,
};
pub use tk_base::{Kind, MAX_MOMENT, MAX_PIXELS, Rect};
pub use tk_options::{OptionEntry, OptionFault, OptionName, OptionTable};
pub use tk_route::{HostFault, HostLine, Keysym, LineFault, MAX_APPLICATIONS, MAX_BUDGET, is_name};
pub use tk_tree::Window;
pub use tk_widgets::{Entry, Listbox, Parts as WidgetParts, Widget};
