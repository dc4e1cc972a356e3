//! What all applications have on the screen: their windows with their widgets, what is packed in them, and the rectangle, the name and the
//! title of each application; what windows ask for, where they are laid out, and what they show.
#![tactic(auto)]

mod again;
mod changes;
mod fields;
mod kept;
mod layout;
mod marked;
mod marks;
mod order;
mod placing;
mod placing_laws;
mod reads;
mod screen;
mod seen;
mod shapes;
mod timers;
mod toplevel;
mod tree;
mod widgets;

pub use changes::{change_widget, write_variable};
pub use fields::{push_escaped, push_field};
pub use kept::KeptWidget;
pub use layout::requested_size;
pub use marked::MarkedScreen;
pub use marks::{Mark, Marks};
pub use placing::write_changes;
pub use placing_laws::laid_out_windows_lie_there;
pub use reads::TextRead;
pub use screen::Screen;
pub use shapes::{value, variable_text};
pub use timers::push_timers;
pub use toplevel::Toplevel;
pub use tree::push_tree;
pub use widgets::Widgets;
