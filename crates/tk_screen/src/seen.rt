//! What a layout sees of an application.
ghost use Rattle.std.specs.Prelude.{◌≡◌, ◌++◌, ℕ, [], IfOk, OnOk, option_and_then};
ghost use Rattle.std.specs.List.{cons_option, filter_map};
ghost use Rattle.std.specs.Option.{option_copied};
ghost use Rattle.tk_screen.specs.Shared.{own_of};
ghost use Rattle.tk_screen.specs.Reads.{IsKept, IsOneOf, PutsRead, read_at, read_of};
ghost use Rattle.tk_screen.specs.Shapes.{pre_order, shape_at, shapes};

use crate::Screen;
use crate::kept::KeptWidget;
use crate::order::pre_order;
use crate::reads::{TextRead, read_by};
use crate::shapes::shape_by;
use indexmap::IndexMap;
use std::alloc::{AllocError, Global};
use tcl_vars::Scopes;
use tk_base::Win;
use tk_packer::Shape;

/// The windows of an application, and the variables that they show by their numbers.
#[derive(Drop)]
pub struct Seen {
    pub shapes: Vec<Shape>,
    pub reads: IndexMap<u64, TextRead>,
}

/// All windows of an application as the layout sees them, each before its children, and children in the order of creation; and the variables
/// that they show, each with the text that it has now.
#[tactic(auto, unfolding(crate::specs::Shapes::shapes))]
pub fn see(alloc: Global, screen: &Screen, slot: usize, scopes: &Scopes) -> Result<Seen, AllocError>
    ensures shapes { IfOk result (λ seen. seen.shapes.items ≡ shapes (own_of slot screen.now) scopes.now) }
    ensures reads { IfOk result (λ seen. (number : ℕ) → IsOneOf number (pre_order (own_of slot screen.now).tree)
        → IsKept (own_of slot screen.now) scopes.now seen.reads.entries number) }
{
    let order = pre_order(alloc, &screen.windows, slot)?;
    see_all(alloc, screen, slot, scopes, order.as_slice())
}

/// The windows with these numbers that are there.
#[tactic(auto, using(crate::proofs::Looking::none_yet))]
fn see_all(
    alloc: Global,
    screen: &Screen,
    slot: usize,
    scopes: &Scopes,
    numbers: &[u64],
) -> Result<Seen, AllocError>
    ensures shapes { IfOk result (λ seen. seen.shapes.items ≡ filter_map (shape_at (own_of slot screen.now) scopes.now) numbers.now) }
    ensures reads { IfOk result (λ seen. (number : ℕ) → IsOneOf number numbers.now
        → IsKept (own_of slot screen.now) scopes.now seen.reads.entries number) }
{
    let mut shapes = Vec::with_capacity(alloc, numbers.len())?;
    let mut reads = IndexMap::new(alloc);
    let mut rest = numbers;
    while let Some((number, others)) = rest.split_first() {
        see_one(screen, slot, scopes, *number, &mut shapes, &mut reads)?;
        rest = others;
    }
    Ok(Seen { shapes, reads })
}

/// The window with a number, if it is there.
fn see_one(
    screen: &Screen,
    slot: usize,
    scopes: &Scopes,
    number: u64,
    shapes: &mut Vec<Shape>,
    reads: &mut IndexMap<u64, TextRead>,
) -> Result<(), AllocError>
    ensures shape { OnOk result (shapes.new.items ≡ shapes.old.items ++ cons_option (shape_at (own_of slot screen.now) scopes.now number) []) }
    ensures read { OnOk result (PutsRead number (read_at (own_of slot screen.now) scopes.now number) reads.old.entries reads.new.entries) }
{
    let win = Win {
        owner: slot,
        number,
    };
    let widget = screen.widgets.kept(win);
    push_seen(shapes, shape_by(screen, scopes, win, widget))?;
    put_read(reads, scopes, number, widget)
}

fn push_seen(shapes: &mut Vec<Shape>, seen: Option<Shape>) -> Result<(), AllocError>
    ensures { OnOk result (shapes.new.items ≡ shapes.old.items ++ cons_option seen []) }
{
    if let Some(shape) = seen {
        shapes.push(shape)?;
    }
    Ok(())
}

/// What the widget of the window with a number shows now, in place of what it showed.
pub fn put_read(
    reads: &mut IndexMap<u64, TextRead>,
    scopes: &Scopes,
    number: u64,
    widget: Option<&KeptWidget>,
) -> Result<(), AllocError>
    ensures { OnOk result (PutsRead number (option_and_then (read_of scopes.now) (option_copied widget.entry)) reads.old.entries reads.new.entries) }
{
    match read_by(scopes, widget)? {
        Some(read) => {
            reads.insert(number, read)?;
            Ok(())
        }
        None => {
            reads.swap_remove(&number);
            Ok(())
        }
    }
}
