//! All applications in one set of tables, each seen through a view of its own, and the turns in which they run: slices of steps in which their scripts
//! run, and what is to be done at a moment is done.
#![tactic(auto)]

mod aliases;
mod inspection;
mod jobs;
mod laws;
mod layout_laws;
mod names;
mod runner;
mod section;
mod shared;
mod size;
mod state;
mod turn;
mod turn_laws;
mod turns;
mod view;

pub use laws::{
    begins_with_script, behind_is_then, comes_by_settle, commands_begin_jobs, destroys, dispatches,
    due_takes_a_step, ends_laid_out, goes_by_next, keeps_links, keeps_sound, scripts_by_equations,
    settled_is_past, settles, settles_from_rest, settles_twice, started_is_past, stays_sound,
    updates, updates_idle_tasks,
};
pub use layout_laws::{lies_by_masters, lies_in_order, lies_near, tells_whole};
pub use shared::Shared;
pub use size::Size;
pub use state::{AppEnd, AppState};
pub use tcl_interp::{CommandPlace, ErrorNote};
pub use tk_alias::{
    Alias, AliasCode, AliasMeaning, AliasReply, AliasService, Aliases, Closure, NoAlias,
};
pub use tk_base::{Budget, LocalEvent, LocalKind};
pub use tk_panel::{Line, Stream};
pub use turn_laws::{
    alone_and_together, first_round_and_the_rest, moment_in_two_calls, stage_is_bounded,
    stages_by_each_alone, turns_add_up, turns_in_two_calls, waits_a_round,
};
pub use turns::{Turn, earlier};
pub use view::AppView;
