//! What the crates of windows, widgets, events and routing share: rectangles, windows by number, the kinds of widgets,
//! budgets, limits, the keys of a keyboard (keysyms(n)), and the lists and counters that tables keep of applications.
#![tactic(auto)]

mod bag;
mod budget;
mod counter;
mod keysym;
mod kind;
pub mod laws;
mod limits;
mod local_event;
mod names;
mod rect;
mod siblings;
mod win;

pub use bag::{
    changed_keeps_its_place, gone_leaves_the_rest, item_is_listed, new_comes_last, none_is_listed,
    others_stay,
};
pub use budget::Budget;
pub use counter::{Counter, count_less, counter_of, set_counter};
pub use keysym::Keysym;
pub use kind::Kind;
pub use limits::{MAX_MOMENT, MAX_PIXELS, MAX_PLACE};
pub use local_event::{LocalEvent, LocalKind};
pub use rect::Rect;
pub use siblings::Siblings;
pub use win::Win;
