ghost use Rattle.std.specs.Prelude.{◌≡◌, ◌++◌, IfOk, OnOk, map};
ghost use Rattle.tk_inputs.specs.Crossings.{crossed, crossing, crossings_between, crossings_of};

use crate::pointer_event::{CrossingDetail, CrossingKind, PointerEvent, PointerKind};
use std::alloc::{AllocError, Global};

/// What is told when the pointer goes from one window to another, the one given by the first path and the other by the second: the
/// numbers of the window's ancestors from the main window on, and its own. A path is empty outside of the application's rectangle, which
/// counts as the parent of the main window.
pub fn crossings(alloc: Global, from: &[u64], to: &[u64]) -> Result<Vec<PointerEvent>, AllocError>
    ensures { IfOk result (λ told. told.items ≡ crossings_of from.now to.now) }
{
    match (from, to) {
        ([window, from @ ..], [other, to @ ..]) if window == other => crossings(alloc, from, to),
        _ => between(alloc, from, to),
    }
}

/// What is told between the ends of two ways that begin at the same window and go apart there.
fn between(alloc: Global, up: &[u64], down: &[u64]) -> Result<Vec<PointerEvent>, AllocError>
    ensures { IfOk result (λ told. told.items ≡ crossings_between up.now down.now) }
{
    let mut told = Vec::new(alloc);
    let (between, at) = if up.is_empty() || down.is_empty() {
        (CrossingDetail::Virtual, CrossingDetail::Ancestor)
    } else {
        (CrossingDetail::NonlinearVirtual, CrossingDetail::Nonlinear)
    };
    push_way(&mut told, up, CrossingKind::Leave, between, at)?;
    told.reverse();
    push_way(&mut told, down, CrossingKind::Enter, between, at)?;
    Ok(told)
}

/// A way, given from its outermost window on: the last is the one that the pointer comes to or comes from, the others lie between.
fn push_way(
    told: &mut Vec<PointerEvent>,
    windows: &[u64],
    kind: CrossingKind,
    between: CrossingDetail,
    at: CrossingDetail,
) -> Result<(), AllocError>
    ensures { OnOk result (told.new.items ≡ told.old.items ++ crossed kind between at windows.now) }
{
    let (others, last) = windows.split_at(windows.len().saturating_sub(1));
    push_all(told, others, kind, between)?;
    push_all(told, last, kind, at)
}

fn push_all(
    told: &mut Vec<PointerEvent>,
    windows: &[u64],
    kind: CrossingKind,
    detail: CrossingDetail,
) -> Result<(), AllocError>
    ensures { OnOk result (told.new.items ≡ told.old.items ++ map (crossing kind detail) windows.now) }
{
    for window in windows {
        told.push(PointerEvent {
            window: *window,
            kind: PointerKind::Crossing(kind, detail),
        })?;
    }
    Ok(())
}
