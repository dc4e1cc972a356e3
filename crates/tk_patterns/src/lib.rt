//! The bindings of event sequences to scripts (bind(n)), each application's apart from the others', and which of them an event runs.
#![tactic(auto)]

mod binding;
mod buckets;
mod candidate;
mod copies;
mod fault;
mod filed;
mod filing;
mod fitting;
mod history;
mod laws;
mod matching;
mod own;
mod rests;
mod same;
mod seeking;
mod table;
mod type_marks;
mod verdict;
mod winning;

pub use binding::Binding;
pub use buckets::Buckets;
pub use copies::{PatternCopy, copy_at, count_of};
pub use fault::BindFault;
pub use filed::{Filed, Numbers};
pub use fitting::fits;
pub use history::History;
pub use laws::matches_is_match;
pub use matching::matching_pairs;
pub use rests::{earlier, first_of, past};
pub use table::BindTable;
pub use tk_base::{Keysym, LocalEvent};
pub use tk_sequences::{Event, EventKind, EventType, Sequence, VirtualName};
pub use tk_virtual::VirtualPairs;
pub use type_marks::TypeMarks;
