//! The windows of one application in a layout that is kept, each by its place in pre-order.
ghost use Rattle.std.specs.Prelude.{◌≡◌};

use crate::packed::Packed;
use crate::shape::Shape;
use std::collections::BTreeSet;
use std::marker::Model;
use tk_base::Rect;

/// Where a window is packed: the place of its master among the windows, and its own among the master's slaves.
#[derive(Clone, Copy)]
pub struct Slot {
    pub master: usize,
    pub place: usize,
}

/// A packed window, and its place among the windows.
#[derive(Clone, Copy)]
pub struct Slave {
    pub packed: Packed,
    pub position: usize,
}

/// What is packed in a window, in order.
#[derive(Drop)]
pub struct Slaves {
    list: Vec<Slave>,
}

impl Model for Slaves {
    ghost use Rattle.std.specs.Prelude.{List};
    ghost use Rattle.tk_packer.specs.declared.standing.Slave.{Slave};

    ghost Value = { List Slave };

    ghost view = { λ s. s.list.items };
}

impl Slaves {
    /// These. It takes no memory.
    pub fn of(list: Vec<Slave>) -> Slaves
        ensures { result ≡ list.items }
    {
        Slaves { list }
    }

    /// The slaves, in order.
    pub fn as_slice(&self) -> &[Slave]
        ensures { result.now ≡ self.now }
    {
        self.list.as_slice()
    }
}

/// The windows with what each asks for, where it lies and where it is packed; and the places of those that are still to be looked at: whose size, whose
/// slaves' places, and whose own place may be another than what is kept.
pub struct KeptWindows {
    /// That of the application's rectangle.
    pub size: (u32, u32),
    /// Each before those below it, as it was laid out last.
    pub shapes: Vec<Shape>,
    pub asked: Vec<(u32, u32)>,
    pub places: Vec<Option<Rect>>,
    pub slots: Vec<Option<Slot>>,
    pub slaves: Vec<Slaves>,
    pub resize: BTreeSet<usize>,
    pub rearrange: BTreeSet<usize>,
    pub moved: BTreeSet<usize>,
}

/// By hand: a proof sees one call where it is dropped, and not its parts.
impl Drop for KeptWindows {
    fn drop(self) {
        let KeptWindows {
            size: _,
            shapes: _,
            asked: _,
            places: _,
            slots: _,
            slaves: _,
            resize: _,
            rearrange: _,
            moved: _,
        } = self;
    }
}
