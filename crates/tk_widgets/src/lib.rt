//! The five widgets: what each holds, its command, the size that it requests, what it shows, and what keys and the pointer ask of it.
#![tactic(auto)]

mod changes;
mod choice;
mod classes;
mod columns;
mod commands;
mod entry;
mod entry_commands;
mod entry_index;
mod entry_keys;
mod item_index;
mod items;
mod listbox;
mod listbox_commands;
mod listbox_keys;
mod measure;
mod outcome;
mod size;
mod widget;

pub use choice::Choice;
pub use entry::Entry;
pub use entry_commands::EntryEdit;
pub use entry_keys::Move;
pub use item_index::ItemIndex;
pub use items::Item;
pub use listbox::Listbox;
pub use listbox_keys::RowStep;
pub use outcome::{VariableWrite, WidgetAct, WidgetChange, WidgetRequest};
pub use widget::{Parts, Widget};
