use tcl_text::Text;

/// What an application has on the screen beside its windows.
#[derive(Drop)]
pub struct Toplevel {
    /// The application's name, as `winfo name .` tells it (winfo(n)).
    pub name: Text,
    /// Its title, as `wm title .` tells it (wm(n)); at first its name.
    pub title: Text,
    /// The width and the height of its rectangle, in pixels.
    pub size: (u32, u32),
}
