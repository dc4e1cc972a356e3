//! The layout of a list of requests.
ghost use Rattle.std.specs.Prelude.{◌≡◌, ◌+◌, ◌^◌, ◌<◌, IfOk, All, length};
ghost use Rattle.tk_packer.specs.Parcels.{arrangement, rect_of, LiesIn};

use crate::ask::Axis;
use crate::parcel::{Extent, packed_first};
use crate::request::Request;
use std::alloc::{AllocError, Global};
use tk_base::Rect;

/// The rectangles of the windows that are packed, in this order, into a cavity of a width and a height; none for a window that has no
/// pixel and is not mapped. They count from the cavity's upper left corner, that of the master inside its border (pack(n), "THE PACKER
/// ALGORITHM").
pub fn arrange(
    alloc: Global,
    size: (u32, u32),
    requests: &[Request],
) -> Result<Vec<Option<Rect>>, AllocError>
    ensures places { IfOk result (λ places. places.items ≡ arrangement size requests.now) }

    // There is one for each request, and no window lies outside of the cavity.
    ensures length { IfOk result (λ places. length places.items ≡ length requests.now) }
    ensures inside { IfOk result (λ places. All (LiesIn size) places.items) }
{
    let mut places = Vec::with_capacity(alloc, requests.len())?;
    let mut columns = Extent {
        start: 0,
        length: size.0,
    };
    let mut rows = Extent {
        start: 0,
        length: size.1,
    };
    let mut beside = None;
    let mut below = None;
    let mut rest = requests;
    while let Some((request, later)) = rest.split_first() {
        let (across, columns_left) = packed_first(
            alloc,
            Axis::Horizontal,
            columns,
            &mut beside,
            request,
            later,
        )?;
        let (down, rows_left) = packed_first(
            alloc,
            Axis::Vertical,
            rows,
            &mut below,
            request,
            later,
        )?;
        places.push(rect_of(across, down))?;
        columns = columns_left;
        rows = rows_left;
        rest = later;
    }
    Ok(places)
}

fn rect_of(across: Option<Extent>, down: Option<Extent>) -> Option<Rect>
    ensures { result ≡ rect_of across down }
{
    let across = across?;
    let down = down?;
    Some(Rect {
        x: across.start,
        y: down.start,
        width: across.length,
        height: down.length,
    })
}
