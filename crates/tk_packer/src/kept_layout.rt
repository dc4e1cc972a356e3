//! The layout of one application, kept from one to the next.
ghost use Rattle.std.specs.Prelude.{◌≡◌, map, IfOk, IfSome, OnErr, OnOk};
ghost use Rattle.tk_packer.specs.Changes.{changes_of, laid_out_shapes};
ghost use Rattle.tk_packer.specs.Groups.{slaves_in};
ghost use Rattle.tk_packer.specs.Standing.{places_by, with_shape};

use crate::PackTable;
use crate::building::{build, mark_window};
use crate::changes::PlaceChange;
use crate::rearranging::rearrange_all;
use crate::repacking::repack;
use crate::resizing::resize_all;
use crate::shape::Shape;
use crate::showing::{set_shape, tell_all};
use crate::standing::KeptWindows;
use std::alloc::{AllocError, Global};
use std::collections::HashMap;
use std::marker::Model;

/// The layout of the windows of one application: what each asks for and where it lies, for the windows as they were laid out last and what is packed in
/// them, which is all that contracts see. A layout of other windows looks at those alone that differ, at their masters as far as what they ask for changes,
/// and at what is packed in a window that has another room.
pub struct KeptLayout {
    windows: KeptWindows,
    index: HashMap<u64, usize>,
}

impl Model for KeptLayout {
    ghost use Rattle.tk_packer.specs.Standing.{Inputs};

    ghost Value = { Inputs };

    ghost use Rattle.tk_packer.specs.Standing.{IsIndex, IsStanding, inputs_of, standing_of};

    ghost view = { λ k. inputs_of k.windows };

    ghost invariant = { λ k. IsStanding (standing_of k.windows) × IsIndex k.index.entries k.windows.shapes.items };
}

impl KeptLayout {
    /// Windows that were never laid out, each of which stands before those below it, with what is packed in them; none where two have one number, where one is
    /// packed twice, or where one stands before its master.
    pub fn new(
        alloc: Global,
        size: (u32, u32),
        packs: &PackTable,
        owner: usize,
        shapes: Vec<Shape>,
    ) -> Result<Option<KeptLayout>, AllocError>
        ensures { IfOk result (λ layout. IfSome layout (λ kept. kept
            ≡ record { size = size; shapes = shapes.items; packs = map (λ shape. slaves_in owner packs.now shape.number) shapes.items })) }
    {
        match build(alloc, size, packs, owner, shapes)? {
            Some((windows, index)) => Ok(Some(KeptLayout { windows, index })),
            None => Ok(None),
        }
    }

    /// A window looks so from now on; nothing is changed where none has its number.
    pub fn set_shape(&mut self, shape: Shape) -> Result<(), AllocError>
        ensures set { OnOk result (self.new ≡ record self.old { shapes = with_shape shape self.old.shapes }) }
        ensures err { OnErr result (self.new ≡ self.old) }
    {
        let Some(place) = self.index.get(&shape.number).copied() else {
            return Ok(());
        };
        mark_window(&mut self.windows, place)?;
        set_shape(&mut self.windows.shapes, place, shape);
        Ok(())
    }

    /// The same windows with what is packed in them now; none where one is packed twice, or where one stands before its master. What a window asks for is
    /// kept, and where it lies, but for the windows in which something else is packed, and those that were packed in them.
    pub fn with_packs(
        self,
        alloc: Global,
        packs: &PackTable,
        owner: usize,
    ) -> Result<Option<KeptLayout>, AllocError>
        ensures { IfOk result (λ layout. IfSome layout (λ kept. kept ≡ record self { packs = map (λ shape. slaves_in owner packs.now shape.number) self.shapes })) }
    {
        let KeptLayout { mut windows, index } = self;
        if repack(alloc, &mut windows, &index, packs, owner)? {
            Ok(Some(KeptLayout { windows, index }))
        } else {
            Ok(None)
        }
    }

    /// Lays the windows out, and answers what that changes, in the order of the windows: for each that is changed Unmap, Configure and Map, of these what
    /// applies. They are as they lie then. Where memory is refused, some may count as shown that were never told, so that it is to be dropped.
    pub fn lay_out(&mut self, alloc: Global) -> Result<Vec<PlaceChange>, AllocError>
        ensures changes { IfOk result (λ changes. changes.items ≡ changes_of self.old.shapes (places_by self.old)) }
        ensures own { OnOk result (self.new ≡ record self.old { shapes = laid_out_shapes self.old.shapes (places_by self.old) }) }
    {
        resize_all(alloc, &mut self.windows)?;
        rearrange_all(alloc, &mut self.windows)?;
        let changes = tell_all(alloc, &mut self.windows)?;
        Ok(changes)
    }
}

/// By hand: a proof sees one call where it is dropped, and not its parts.
impl Drop for KeptLayout {
    fn drop(self) {
        let KeptLayout {
            windows: _,
            index: _,
        } = self;
    }
}
