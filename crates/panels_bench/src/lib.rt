//! Benches as files: how one is read, and how what isn't as it has to be is told.
#![tactic(auto)]

mod asking;
mod doing;
mod files;
mod messages;
mod reading;
mod seeing;
mod sides;
mod spots;
mod typing;
mod values;

pub use files::load;
pub use messages::{slot_at, slot_of_finding, told};
pub use reading::Read;
pub use sides::{Side, label_of};
pub use spots::place_words;
