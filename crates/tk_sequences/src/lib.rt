//! Events as scripts see them (event(n)), and the event sequences that bindings are made for (bind(n)): their types, modifiers and details.
#![tactic(auto)]

mod detail;
mod event;
mod event_type;
mod fault;
mod fields;
mod laws;
mod modifier;
mod pattern;
mod reading;
mod sequence;
mod virtual_name;
mod written;

pub use detail::Detail;
pub use event::{Event, EventKind};
pub use event_type::EventType;
pub use fault::SequenceFault;
pub use laws::{
    canonical_form_is_read_back, canonical_forms_differ, faults_are_told, one_sequence_or_fault,
    sequences_are_read,
};
pub use modifier::{Modifier, Modifiers};
pub use pattern::{Pattern, Patterns, Repetition};
pub use sequence::Sequence;
pub use virtual_name::VirtualName;
