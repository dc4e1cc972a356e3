use tcl_table::{CommandTable, Levels};

/// What scripts run in, beside the variables: the levels of the callers, and the commands.
#[derive(Drop)]
pub struct Context {
    pub levels: Levels,
    pub commands: CommandTable,
}
