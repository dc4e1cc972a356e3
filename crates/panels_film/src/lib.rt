//! What a bench shows from moment to moment: films, pictures, pages and traces.
#![tactic(auto)]

mod bindings;
mod copying;
mod film;
mod heads;
mod looks;
mod moments;
mod notes;
mod numbers;
mod pages;
mod playing;
mod pointed;
mod scenes;
mod screens;
mod traces;

pub use bindings::{Ran, bindings_of};
pub use copying::copies;
pub use film::{Film, Frame, filmed, frame_at};
pub use heads::{is_spent, section_in};
pub use looks::WindowLook;
pub use moments::{comes_a_line, count_until, until};
pub use notes::{Note, notes_of};
pub use numbers::number_in;
pub use pages::page;
pub use panels::{Screen, Spot};
pub use playing::session_of;
pub use pointed::Getter;
pub use scenes::{STYLE, scene};
pub use screens::{Extent, extent_of, screen_after};
pub use traces::{Story, trace};
