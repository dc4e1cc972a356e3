//! The variables of a Tcl application, in frames.
#![tactic(auto)]

mod arrays;
mod content;
mod frame;
mod hints;
pub mod laws;
mod name;
mod scopes;
mod table;
mod texts;

pub use content::Content;
pub use hints::Hints;
pub use name::element_of;
pub use scopes::Scopes;
pub use table::Table;
pub use tcl_text::{ChangeFault, LinkFault, ReadFault, SetFault, UnsetFault};
pub use texts::element_name;
