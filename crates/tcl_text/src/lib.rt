//! Texts of a Tcl application, and what can be read in them.
#![tactic(auto)]

mod backslash;
mod boolean;
pub mod characters;
mod commands;
mod compared;
mod edit;
mod element;
mod fault;
mod glob;
mod glob_letters;
mod glob_masks;
mod glob_places;
mod integer;
mod item_bytes;
pub mod laws;
pub mod lengths;
mod list;
mod list_cursor;
mod list_form;
mod list_items;
mod list_string;
pub mod message;
mod number;
mod searching;
mod shared;
mod short;
mod sought;
mod splitting;
mod text;
mod white_space;
mod word_places;

pub use backslash::{Escape, Meaning, escape_behind};
pub use commands::{TextCommand, answers, integers, items};
pub use edit::Edit;
pub use fault::{
    ChangeFault, EditFault, LinkFault, ListFault, NotBoolean, NotInteger, ParseFault, ReadFault,
    SetFault, SplitFault, TextFault, UnsetFault,
};
pub use integer::{base_named, digit_value};
pub use list::TextList;
pub use list_items::ListItems;
pub use list_string::ListString;
pub use text::{MAX_BYTES, Text};
