ghost use Rattle.std.specs.Prelude.{◌≡◌};
ghost use Rattle.tk_base.specs.Kind.{class_of};

/// The kinds of widgets: frame(n), label(n), button(n), entry(n), listbox(n).
#[derive(Clone, Copy, Debug, PartialEq, Eq)]
pub enum Kind {
    Frame,
    Label,
    Button,
    Entry,
    Listbox,
}

impl Kind {
    /// The class of a window of this kind, as `winfo class` tells it. The main window `.` is a frame of class `Tk`.
    pub fn class(self) -> &'static str
        ensures { result.now ≡ class_of self }
    {
        match self {
            Kind::Frame => "Frame",
            Kind::Label => "Label",
            Kind::Button => "Button",
            Kind::Entry => "Entry",
            Kind::Listbox => "Listbox",
        }
    }
}
