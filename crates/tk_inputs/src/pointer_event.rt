ghost use Rattle.std.specs.Prelude.{◌≡◌};
ghost use Rattle.tk_inputs.specs.Crossings.{detail_name};

/// Whether the pointer comes into a window or goes out of it.
#[derive(Clone, Copy, Debug, PartialEq, Eq)]
pub enum CrossingKind {
    Enter,
    Leave,
}

/// What `%d` of bind(n) tells of a crossing: how the window lies to the one that the pointer came from or went to.
#[derive(Clone, Copy, Debug, PartialEq, Eq)]
pub enum CrossingDetail {
    /// The other window is an ancestor of this one.
    Ancestor,
    /// This window lies between the two, one of which is an ancestor of the other.
    Virtual,
    /// Neither of the two is an ancestor of the other, and this is one of them.
    Nonlinear,
    /// Neither is an ancestor of the other, and this window lies between one of them and their least common ancestor.
    NonlinearVirtual,
}

impl CrossingDetail {
    /// How `%d` tells it.
    pub fn name(self) -> &'static str
        ensures { result.now ≡ detail_name self }
    {
        match self {
            CrossingDetail::Ancestor => "NotifyAncestor",
            CrossingDetail::Virtual => "NotifyVirtual",
            CrossingDetail::Nonlinear => "NotifyNonlinear",
            CrossingDetail::NonlinearVirtual => "NotifyNonlinearVirtual",
        }
    }
}

/// What the pointer does in or at a window.
#[derive(Clone, Copy, Debug, PartialEq, Eq)]
pub enum PointerKind {
    /// It crosses the window's border.
    Crossing(CrossingKind, CrossingDetail),
    /// It moves.
    Motion,
    /// A button, from 1 to 5, is pressed.
    Press(u32),
    /// A button, from 1 to 5, is released.
    Release(u32),
}

/// What a window is told of the pointer.
#[derive(Clone, Copy, Debug, PartialEq, Eq)]
pub struct PointerEvent {
    /// The window's number in its application.
    pub window: u64,
    pub kind: PointerKind,
}
