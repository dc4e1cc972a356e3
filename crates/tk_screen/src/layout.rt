//! Laying out the windows of an application.
ghost use Rattle.std.specs.Prelude.{◌≡◌, ℕ, IfOk, IfSome, OnOk, OnErr};
ghost use Rattle.tk_screen.specs.Layout.{changes_due, laid_out_windowing, size_asked, size_of};
ghost use Rattle.tk_screen.specs.Seen.{IsMarked, IsWith};
ghost use Rattle.tk_screen.specs.Shared.{own_of, LeavesOthers};
ghost use Rattle.tk_tree.specs.Own.{IsSound};

use crate::again::{add_changed, look_at_all};
use crate::marks::Mark;
use crate::screen::Screen;
use crate::seen::{Seen, see};
use crate::write_changes;
use std::alloc::{AllocError, Global};
use std::collections::BTreeSet;
use tcl_vars::Scopes;
use tk_base::Win;
use tk_packer::{Arrangements, KeptLayout, PlaceChange};

/// The size that a window asks for, in pixels, with what is packed in it and with the texts that variables have now, as `winfo reqwidth` and
/// `reqheight` tell it (winfo(n)); none where the window isn't there or has no widget.
#[tactic(auto, unfolding(crate::specs::Layout::size_asked))]
pub fn requested_size(
    alloc: Global,
    screen: &Screen,
    scopes: &Scopes,
    win: Win,
) -> Result<Option<(u32, u32)>, AllocError>
    ensures { IfOk result (λ size. size ≡ size_asked (own_of win.owner screen.now) scopes.now win.number) }
{
    let seen = see(alloc, screen, win.owner, scopes)?;
    tk_packer::requested_size(
        alloc,
        &screen.packs,
        win.owner,
        seen.shapes.as_slice(),
        win.number,
    )
}

/// What a layout changed, and the mark of the application that was laid out so, if its layout can be kept.
#[derive(Drop)]
pub struct Laid {
    pub changes: Vec<PlaceChange>,
    pub mark: Option<Mark>,
}

/// Lays out the windows of an application with the texts that variables have now, and answers what that changes, in the order of the windows,
/// each before its children: for each that is changed Unmap, Configure and Map, of these what applies. Where memory is refused no window is
/// changed. Where it was laid out before, those windows alone are looked at that may look otherwise since.
#[tactic(auto, unfolding(crate::specs::Layout::changes_due, crate::specs::Layout::laid_out_windowing))]
pub fn lay_out(
    alloc: Global,
    screen: &mut Screen,
    slot: usize,
    scopes: &Scopes,
    mark: Option<Mark>,
) -> Result<Laid, AllocError>
    requires sound { IsSound (own_of slot screen.old).tree }
    requires marked { IfSome mark (λ mark. IsMarked mark (own_of slot screen.old)) }
    ensures changes { IfOk result (λ laid. laid.changes.items ≡ changes_due (own_of slot screen.old) scopes.now) }
    ensures own { OnOk result (own_of slot screen.new ≡ laid_out_windowing (own_of slot screen.old) scopes.now) }
    ensures others { LeavesOthers slot screen.old screen.new }
    ensures marked { IfOk result (λ laid. IfSome laid.mark (λ mark. IsMarked mark (own_of slot screen.new))) }
    ensures err { OnErr result (own_of slot screen.new ≡ own_of slot screen.old) }
{
    let laid = changes_due(alloc, screen, slot, scopes, mark)?;
    write_changes(&mut screen.windows, slot, laid.changes.as_slice());
    Ok(laid)
}

/// What a layout changes, and the mark of the application once that is written.
fn changes_due(
    alloc: Global,
    screen: &Screen,
    slot: usize,
    scopes: &Scopes,
    mark: Option<Mark>,
) -> Result<Laid, AllocError>
    requires sound { IsSound (own_of slot screen.now).tree }
    requires marked { IfSome mark (λ mark. IsMarked mark (own_of slot screen.now)) }
    ensures changes { IfOk result (λ laid. laid.changes.items ≡ changes_due (own_of slot screen.now) scopes.now) }
    ensures marked { IfOk result (λ laid. IfSome laid.mark (λ mark. IsMarked mark (laid_out_windowing (own_of slot screen.now) scopes.now))) }
{
    match mark {
        Some(mark) => changes_since(alloc, screen, slot, scopes, mark),
        None => changes_anew(alloc, screen, slot, scopes),
    }
}

/// The same, of an application that was laid out before.
fn changes_since(
    alloc: Global,
    screen: &Screen,
    slot: usize,
    scopes: &Scopes,
    mark: Mark,
) -> Result<Laid, AllocError>
    requires sound { IsSound (own_of slot screen.now).tree }
    requires marked { IsMarked mark (own_of slot screen.now) }
    ensures changes { IfOk result (λ laid. laid.changes.items ≡ changes_due (own_of slot screen.now) scopes.now) }
    ensures marked { IfOk result (λ laid. IfSome laid.mark (λ mark. IsMarked mark (laid_out_windowing (own_of slot screen.now) scopes.now))) }
{
    let Mark {
        mut reads,
        mut touched,
        repacked,
        layout,
    } = mark;
    let Some(mut layout) = with_packs(alloc, screen, slot, layout, repacked)? else {
        return changes_anew(alloc, screen, slot, scopes);
    };
    add_changed(&mut touched, &reads, scopes)?;
    look_at_all(screen, slot, scopes, &mut touched, &mut layout, &mut reads)?;
    let changes = layout.lay_out(alloc)?;
    Ok(Laid {
        changes,
        mark: Some(Mark {
            reads,
            touched,
            repacked: false,
            layout,
        }),
    })
}

/// A layout with what is packed now, where that may be other; none where it can't be kept.
fn with_packs(
    alloc: Global,
    screen: &Screen,
    slot: usize,
    layout: KeptLayout,
    repacked: bool,
) -> Result<Option<KeptLayout>, AllocError>
    ensures { IfOk result (λ found. IfSome found (IsWith repacked (own_of slot screen.now).packs.packs layout)) }
{
    if repacked {
        layout.with_packs(alloc, &screen.packs, slot)
    } else {
        Ok(Some(layout))
    }
}

/// The same, of one that wasn't.
fn changes_anew(
    alloc: Global,
    screen: &Screen,
    slot: usize,
    scopes: &Scopes,
) -> Result<Laid, AllocError>
    requires { IsSound (own_of slot screen.now).tree }
    ensures changes { IfOk result (λ laid. laid.changes.items ≡ changes_due (own_of slot screen.now) scopes.now) }
    ensures marked { IfOk result (λ laid. IfSome laid.mark (λ mark. IsMarked mark (laid_out_windowing (own_of slot screen.now) scopes.now))) }
{
    let Seen { shapes, reads } = see(alloc, screen, slot, scopes)?;
    let size = size_of(screen, slot);
    let Some(mut layout) = KeptLayout::new(alloc, size, &screen.packs, slot, shapes)? else {
        return changes_once(alloc, screen, slot, scopes);
    };
    let changes = layout.lay_out(alloc)?;
    Ok(Laid {
        changes,
        mark: Some(Mark {
            reads,
            touched: BTreeSet::new(alloc),
            repacked: false,
            layout,
        }),
    })
}

/// What a layout changes that can't be kept.
#[tactic(auto, unfolding(crate::specs::Layout::changes_due))]
fn changes_once(
    alloc: Global,
    screen: &Screen,
    slot: usize,
    scopes: &Scopes,
) -> Result<Laid, AllocError>
    ensures changes { IfOk result (λ laid. laid.changes.items ≡ changes_due (own_of slot screen.now) scopes.now) }
    ensures marked { IfOk result (λ laid. IfSome laid.mark (λ mark. IsMarked mark (laid_out_windowing (own_of slot screen.now) scopes.now))) }
{
    let Seen { shapes, reads: _ } = see(alloc, screen, slot, scopes)?;
    let mut arrangements = Arrangements::new(alloc);
    let changes = tk_packer::lay_out(
        alloc,
        size_of(screen, slot),
        &screen.packs,
        slot,
        shapes.as_slice(),
        &mut arrangements,
    )?;
    Ok(Laid {
        changes,
        mark: None,
    })
}

/// The width and height of an application's rectangle.
fn size_of(screen: &Screen, slot: usize) -> (u32, u32)
    ensures { result ≡ size_of (own_of slot screen.now) }
{
    match screen.toplevel(slot) {
        Some(toplevel) => toplevel.size,
        None => (0, 0),
    }
}
