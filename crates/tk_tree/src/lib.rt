//! The windows of all applications of a host, in one arena: each application's are a tree, by path names as Tk has them.
#![tactic(auto)]

mod change;
mod corner;
mod fault;
mod index;
mod no_window;
mod order;
mod path;
mod window;
mod windows;

pub use corner::Corner;
pub use fault::WindowFault;
pub use no_window::bad_path;
pub use path::parent_and_name;
pub use window::Window;
pub use windows::Windows;
