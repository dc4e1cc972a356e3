//! Virtual events: what stands for each name (event(n)), for all applications in one table.
#![tactic(auto)]

mod class;
mod classes;
mod fault;
mod first;
mod list;
mod named;
mod pair;
mod pairs;
mod table;
mod written;

pub use class::{VIRTUAL_CLASS, class_number, sequence_class};
pub use fault::VirtualFault;
pub use list::PairList;
pub use pair::{Pair, name_meant, pair_meant};
pub use pairs::VirtualPairs;
pub use table::VirtualTable;
pub use written::WrittenSequence;
