//! To which applications the lines of a session go, and as what. A line is one of the pointer, which goes by the applications' rectangles; of a
//! key, which goes to the application that has the keys; of these keys; or of a rectangle.
#![tactic(auto)]

mod buttons;
mod delivery;
mod fault;
mod keys;
pub mod laws;
mod limits;
mod line;
mod names;
mod place;
mod rects;
mod router;

pub use buttons::Buttons;
pub use delivery::{Delivery, Routed};
pub use fault::{HostFault, LineFault};
pub use keys::ModifierKeys;
pub use limits::{MAX_APPLICATIONS, MAX_BUDGET, MAX_NAME};
pub use line::{HostLine, test_beside, test_line};
pub use names::{is_app_in_range, is_name};
pub use place::Point;
pub use rects::shares_pixel;
pub use router::Router;
pub use tk_base::{Keysym, LocalEvent, LocalKind, Rect};
