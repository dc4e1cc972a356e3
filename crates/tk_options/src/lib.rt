//! What each kind of Tk's widgets is, and the options of one: what values they take, and those that it has.
#![tactic(auto)]

mod amounts;
mod fault;
mod form;
mod option;
mod rows;
mod settings;
mod table;

pub use fault::OptionFault;
pub use form::Form;
pub use option::{OptionEntry, OptionName};
pub use rows::{BindingRow, KINDS, KindRow, OptionRow, kind_named, row_of};
pub use settings::{Setting, Settings};
pub use table::OptionTable;
