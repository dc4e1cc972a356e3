//! The lines of the pointer, the keys, the focus and rectangles.
ghost use Rattle.std.specs.Prelude.{Some, None};
ghost use Rattle.tk_route.specs.declared.line.HostLine.TheVariants.{Focus, Keydown, Keyup, Move, Press, Rect as Placed, Release};
ghost use Rattle.tkhost_c.specs.Calls.{On, TakesKey, TakesLine, TakesText, key_named_by};

use crate::doing::{Deed, done};
use crate::place::Place;
use std::alloc::Global;
use tk_host::{HostLine, Rect};

/// The pointer moves to a place on the screen, in pixels.
#[unsafe(no_mangle)]
pub extern "C" fn tkhost_move(alloc: Global, host: &mut Place, moment: u64, x: u32, y: u32) -> u32
    ensures { On host.old.kept host.new.kept result (TakesLine moment (Move x y)) }
{
    done(alloc, host, &Deed::Line(moment, HostLine::Move { x, y }))
}

/// A button of the pointer is pressed, 1 to 5.
#[unsafe(no_mangle)]
pub extern "C" fn tkhost_press(alloc: Global, host: &mut Place, moment: u64, button: u32) -> u32
    ensures { On host.old.kept host.new.kept result (TakesLine moment (Press button)) }
{
    done(alloc, host, &Deed::Line(moment, HostLine::Press(button)))
}

/// A button of the pointer is released, 1 to 5.
#[unsafe(no_mangle)]
pub extern "C" fn tkhost_release(alloc: Global, host: &mut Place, moment: u64, button: u32) -> u32
    ensures { On host.old.kept host.new.kept result (TakesLine moment (Release button)) }
{
    done(alloc, host, &Deed::Line(moment, HostLine::Release(button)))
}

/// A key goes down, by its name.
#[unsafe(no_mangle)]
pub extern "C" fn tkhost_keydown(alloc: Global, host: &mut Place, moment: u64, name: &[u8]) -> u32
    ensures { On host.old.kept host.new.kept result (TakesKey Keydown moment (key_named_by name.now)) }
{
    done(alloc, host, &Deed::Keydown(moment, name))
}

/// A key goes up, by its name.
#[unsafe(no_mangle)]
pub extern "C" fn tkhost_keyup(alloc: Global, host: &mut Place, moment: u64, name: &[u8]) -> u32
    ensures { On host.old.kept host.new.kept result (TakesKey Keyup moment (key_named_by name.now)) }
{
    done(alloc, host, &Deed::Keyup(moment, name))
}

/// The application in a slot has the keys.
#[unsafe(no_mangle)]
pub extern "C" fn tkhost_focus(alloc: Global, host: &mut Place, moment: u64, slot: usize) -> u32
    ensures { On host.old.kept host.new.kept result (TakesLine moment (Focus (Some slot))) }
{
    done(
        alloc,
        host,
        &Deed::Line(moment, HostLine::Focus(Some(slot))),
    )
}

/// No application has the keys.
#[unsafe(no_mangle)]
pub extern "C" fn tkhost_unfocus(alloc: Global, host: &mut Place, moment: u64) -> u32
    ensures { On host.old.kept host.new.kept result (TakesLine moment (Focus None)) }
{
    done(alloc, host, &Deed::Line(moment, HostLine::Focus(None)))
}

/// The application in a slot has another rectangle.
#[unsafe(no_mangle)]
pub extern "C" fn tkhost_rect(
    alloc: Global,
    host: &mut Place,
    moment: u64,
    slot: usize,
    x: u32,
    y: u32,
    width: u32,
    height: u32,
) -> u32
    ensures { On host.old.kept host.new.kept result (TakesLine moment (Placed slot (record { x = x; y = y; width = width; height = height }))) }
{
    done(
        alloc,
        host,
        &Deed::Line(
            moment,
            HostLine::Rect {
                slot,
                rect: Rect {
                    x,
                    y,
                    width,
                    height,
                },
            },
        ),
    )
}

/// A line of a session, behind `events`, without its LF: an event or the end.
#[unsafe(no_mangle)]
pub extern "C" fn tkhost_line(alloc: Global, host: &mut Place, line: &[u8]) -> u32
    ensures { On host.old.kept host.new.kept result (TakesText line.now) }
{
    done(alloc, host, &Deed::Text(line))
}
