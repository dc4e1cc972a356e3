ghost use Rattle.std.specs.Prelude.{◌≡◌, ◌++◌, IfOk, OnOk, filter, not, true};
ghost use Rattle.tk_inputs.specs.Pointer.{end_of, freed_told, is_leave_of, left_after, moved_free, moved_held, to};

use crate::borders::crossings;
use crate::pointer_event::{CrossingDetail, CrossingKind, PointerEvent, PointerKind};
use std::alloc::{AllocError, Global};
use tk_route::Buttons;

/// Where the pointer is in an application, and what is held there.
#[derive(Clone, Copy, Debug, PartialEq, Eq)]
pub struct Pointer {
    /// The number of the window that it was last told to be in; while a button is held, the one in which the first was pressed. It may be
    /// gone by now.
    pub window: Option<u64>,
    /// Whether the point has left the window in which a button is held, as that window was told.
    pub is_left: bool,
    /// The buttons that are held.
    pub buttons: Buttons,
}

impl Pointer {
    ghost use Rattle.std.specs.Prelude.{◌≡◌, IfOk, OnOk, OnErr};
    ghost use Rattle.tk_inputs.specs.Pointer.{moved, moved_told, outside_window, pressed, pressed_told, put_into, released, released_told};

    /// A pointer in no window, with no button held.
    pub fn new() -> Pointer
        ensures { result ≡ outside_window }
    {
        Pointer {
            window: None,
            is_left: false,
            buttons: Buttons {
                first: false,
                second: false,
                third: false,
                fourth: false,
                fifth: false,
            },
        }
    }

    /// The pointer is at a point: what is told of it. `way` leads to the pointer's window, and is empty where there is none or it is gone;
    /// `under` leads to the window under the point.
    pub fn moved(
        &mut self,
        alloc: Global,
        way: &[u64],
        under: &[u64],
    ) -> Result<Vec<PointerEvent>, AllocError>
        ensures told { IfOk result (λ told. told.items ≡ moved_told way.now under.now self.old) }
        ensures ok { OnOk result (self.new ≡ moved way.now under.now self.old) }
        ensures err { OnErr result (self.new ≡ self.old) }
    {
        if self.buttons.is_any_held() {
            let told = held_move(alloc, self.is_left, end_of(way), end_of(under))?;
            self.is_left = has_left(self.is_left, end_of(way), end_of(under));
            Ok(told)
        } else {
            let told = free_move(alloc, way, under)?;
            *self = self.put_into(under);
            Ok(told)
        }
    }

    /// A button, from 1 to 5, is pressed at a point: what is told of it. `way` and `under` are as `moved` has them.
    pub fn pressed(
        &mut self,
        alloc: Global,
        button: u32,
        way: &[u64],
        under: &[u64],
    ) -> Result<Vec<PointerEvent>, AllocError>
        ensures told { IfOk result (λ told. told.items ≡ pressed_told button way.now under.now self.old) }
        ensures ok { OnOk result (self.new ≡ pressed button under.now self.old) }
        ensures err { OnErr result (self.new ≡ self.old) }
    {
        let buttons = self.buttons.with_pressed(button);
        if self.buttons.is_any_held() {
            let mut told = Vec::new(alloc);
            push_to(&mut told, PointerKind::Press(button), end_of(way))?;
            self.buttons = buttons;
            Ok(told)
        } else {
            let mut told = crossings(alloc, way, under)?;
            push_to(&mut told, PointerKind::Press(button), end_of(under))?;
            *self = self.put_into(under);
            self.buttons = buttons;
            Ok(told)
        }
    }

    /// A button, from 1 to 5, is released at a point: what is told of it. `way` and `under` are as `moved` has them.
    pub fn released(
        &mut self,
        alloc: Global,
        button: u32,
        way: &[u64],
        under: &[u64],
    ) -> Result<Vec<PointerEvent>, AllocError>
        ensures told { IfOk result (λ told. told.items ≡ released_told button way.now under.now self.old) }
        ensures ok { OnOk result (self.new ≡ released button under.now self.old) }
        ensures err { OnErr result (self.new ≡ self.old) }
    {
        let buttons = self.buttons.with_released(button);
        let mut told = Vec::new(alloc);
        push_to(&mut told, PointerKind::Release(button), end_of(way))?;
        if !buttons.is_any_held() {
            push_freed(&mut told, alloc, self.is_left, way, under)?;
            *self = self.put_into(under);
        }
        self.buttons = buttons;
        Ok(told)
    }

    /// The pointer in the window of this way.
    fn put_into(self, under: &[u64]) -> Pointer
        ensures { result ≡ put_into under.now self }
    {
        Pointer {
            window: end_of(under),
            is_left: false,
            buttons: self.buttons,
        }
    }
}

/// The window at the end of a way, if there is one.
fn end_of(way: &[u64]) -> Option<u64>
    ensures { result ≡ end_of way.now }
{
    match way {
        [] => None,
        [window] => Some(*window),
        [_, rest @ ..] => end_of(rest),
    }
}

fn push_to(
    told: &mut Vec<PointerEvent>,
    kind: PointerKind,
    window: Option<u64>,
) -> Result<(), AllocError>
    ensures { OnOk result (told.new.items ≡ told.old.items ++ to kind window) }
{
    if let Some(window) = window {
        told.push(PointerEvent { window, kind })?;
    }
    Ok(())
}

/// What a move is told as while no button is held.
fn free_move(alloc: Global, way: &[u64], under: &[u64]) -> Result<Vec<PointerEvent>, AllocError>
    ensures { IfOk result (λ told. told.items ≡ moved_free way.now under.now) }
{
    if end_of(way) == end_of(under) {
        let mut told = Vec::new(alloc);
        push_to(&mut told, PointerKind::Motion, end_of(under))?;
        Ok(told)
    } else {
        crossings(alloc, way, under)
    }
}

/// What a move is told as while a button is held that was pressed in this window, with the point in another.
fn held_move(
    alloc: Global,
    is_left: bool,
    window: Option<u64>,
    under: Option<u64>,
) -> Result<Vec<PointerEvent>, AllocError>
    ensures { IfOk result (λ told. told.items ≡ moved_held is_left window under) }
{
    let mut told = Vec::new(alloc);
    let Some(held) = window else {
        return Ok(told);
    };
    let is_in = under == Some(held);
    if is_in == is_left {
        let kind = if is_in {
            CrossingKind::Enter
        } else {
            CrossingKind::Leave
        };
        told.push(PointerEvent {
            window: held,
            kind: PointerKind::Crossing(kind, CrossingDetail::Ancestor),
        })?;
    }
    told.push(PointerEvent {
        window: held,
        kind: PointerKind::Motion,
    })?;
    Ok(told)
}

/// Whether the point has left the window in which a button is held, if that is there.
fn has_left(is_left: bool, window: Option<u64>, under: Option<u64>) -> bool
    ensures { result ≡ left_after is_left window under }
{
    match window {
        None => is_left,
        Some(held) => under != Some(held),
    }
}

/// What comes of the last release.
fn push_freed(
    told: &mut Vec<PointerEvent>,
    alloc: Global,
    is_left: bool,
    way: &[u64],
    under: &[u64],
) -> Result<(), AllocError>
    ensures { OnOk result (told.new.items ≡ told.old.items ++ freed_told is_left way.now under.now) }
{
    if is_left {
        push_returned(told, alloc, way, under)
    } else {
        let crossed = crossings(alloc, way, under)?;
        told.extend_from_slice(crossed.as_slice())
    }
}

/// What comes of the last release where the point was told to have left the window.
fn push_returned(
    told: &mut Vec<PointerEvent>,
    alloc: Global,
    way: &[u64],
    under: &[u64],
) -> Result<(), AllocError>
    ensures { OnOk result (told.new.items ≡ told.old.items ++ freed_told true way.now under.now) }
{
    if end_of(way) == end_of(under) {
        let kind = PointerKind::Crossing(CrossingKind::Enter, CrossingDetail::Ancestor);
        push_to(told, kind, end_of(under))
    } else {
        let crossed = crossings(alloc, way, under)?;
        push_but_leave_of(told, crossed.as_slice(), end_of(way))
    }
}

/// These events but a Leave of this window, if there is one.
fn push_but_leave_of(
    told: &mut Vec<PointerEvent>,
    crossed: &[PointerEvent],
    window: Option<u64>,
) -> Result<(), AllocError>
    ensures { OnOk result (told.new.items ≡ told.old.items ++ filter (λ event. not (is_leave_of window event)) crossed.now) }
{
    for event in crossed {
        if !is_leave_of(window, *event) {
            told.push(*event)?;
        }
    }
    Ok(())
}

/// Whether an event is a Leave of this window.
fn is_leave_of(window: Option<u64>, event: PointerEvent) -> bool
    ensures { result ≡ is_leave_of window event }
{
    match event.kind {
        PointerKind::Crossing(CrossingKind::Leave, _) => window == Some(event.window),
        _ => false,
    }
}
