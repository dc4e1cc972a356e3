ghost use Rattle.std.specs.Prelude.{◌≡◌, ℕ, true, [], None, IfOk, IsSome, OnErr, OnOk};
ghost use Rattle.tcl_vars.specs.Store.{Store};
ghost use Rattle.tk_screen.specs.Marks.{mark_of, IsPutOrNone, LeavesOtherMarks};
ghost use Rattle.tk_screen.specs.Seen.{AllMarked};
ghost use Rattle.tk_screen.specs.Layout.{changes_due, laid_out_windowing};
ghost use Rattle.tk_screen.specs.Own.{nothing, with_size, without};
ghost use Rattle.tk_screen.specs.Shared.{own_of, LeavesOthers};
ghost use Rattle.tk_tree.specs.Own.{window_at, child_numbers};

use crate::Screen;
use crate::layout::{Laid, lay_out};
use crate::marks::{Mark, Marks};
use std::alloc::{AllocError, Global};
use std::marker::Model;
use tcl_vars::Scopes;
use tk_base::Win;
use tk_packer::PlaceChange;

/// What all applications have on the screen, which is all that contracts see, and marks of the applications that are laid out. `slot` is an
/// application's number everywhere.
///
/// Who changes an application's part forgets its mark, or touches the only window that may look otherwise then, or says that other windows may be packed,
/// or packed otherwise, where it changes nothing else.
pub struct MarkedScreen {
    pub screen: Screen,
    pub marks: Marks,
}

impl Model for MarkedScreen {
    ghost use Rattle.tk_screen.specs.contracts.screen.Screen as of_screen;
    ghost use Rattle.tk_screen.specs.declared.screen.Screen.{Screen};

    ghost Value = { Screen };

    ghost coded = { of_screen.the_row.coded };

    ghost use Rattle.tk_screen.specs.Seen.{AllMarked};

    ghost view = { λ m. m.screen };

    ghost invariant = { λ m. AllMarked m.marks m.screen };
}

impl MarkedScreen {
    /// Nothing is on the screen. It takes no memory.
    pub fn new(alloc: Global) -> MarkedScreen
        ensures { (slot : ℕ) → own_of slot result ≡ nothing }
    {
        MarkedScreen {
            screen: Screen::new(alloc),
            marks: Marks::new(alloc),
        }
    }

    /// The screen. It takes no memory.
    pub fn shown(&self) -> &Screen
        ensures { result.now ≡ self.now }
    {
        &self.screen
    }

    /// `Screen::set_size`.
    #[tactic(auto, using(crate::proofs::KeptMarks::kept))]
    pub fn set_size(&mut self, slot: usize, size: (u32, u32))
        ensures own { own_of slot self.new ≡ with_size size (own_of slot self.old) }
        ensures others { LeavesOthers slot self.old self.new }
    {
        self.marks.forget(slot);
        self.screen.set_size(slot, size);
    }

    /// `Screen::remove`.
    #[tactic(auto, using(crate::proofs::KeptMarks::kept))]
    pub fn remove(&mut self, win: Win)
        requires there { IsSome (window_at win.number (own_of win.owner self.old).tree) }
        requires leaf { child_numbers win.number (own_of win.owner self.old).tree.windows ≡ [] }
        ensures own { own_of win.owner self.new ≡ without win.number (own_of win.owner self.old) }
        ensures others { LeavesOthers win.owner self.old self.new }
    {
        self.marks.forget(win.owner);
        self.screen.remove(win);
    }

    /// Lays out the windows of an application with the texts that variables have now, and answers what that changes, in the order of the windows,
    /// each before its children: for each that is changed Unmap, Configure and Map, of these what applies. Where memory is refused no window is
    /// changed. Where it was laid out before, those windows alone are looked at that were touched since, or show a variable whose text is another.
    pub fn lay_out(
        &mut self,
        alloc: Global,
        slot: usize,
        scopes: &Scopes,
    ) -> Result<Vec<PlaceChange>, AllocError>
        ensures changes { IfOk result (λ changes. changes.items ≡ changes_due (own_of slot self.old) scopes.now) }
        ensures own { OnOk result (own_of slot self.new ≡ laid_out_windowing (own_of slot self.old) scopes.now) }
        ensures others { LeavesOthers slot self.old self.new }
        ensures err { OnErr result (own_of slot self.new ≡ own_of slot self.old) }
    {
        if self.is_laid_out(slot) {
            return Ok(Vec::new(alloc));
        }
        self.lay_out_due(alloc, slot, scopes)
    }

    /// Whether nothing is to be laid out, whatever the variables are; where there is it may answer either. It takes no memory.
    fn is_laid_out(&self, slot: usize) -> bool
        ensures { result ≡ true → (store : Store) → changes_due (own_of slot self.now) store ≡ [] }
    {
        match self.marks.of(slot) {
            Some(mark) => mark.rests(),
            None => false,
        }
    }

    /// Lays out what may lie elsewhere.
    #[tactic(auto, using(crate::proofs::KeptMarks::kept, crate::proofs::KeptMarks::mark_here))]
    fn lay_out_due(
        &mut self,
        alloc: Global,
        slot: usize,
        scopes: &Scopes,
    ) -> Result<Vec<PlaceChange>, AllocError>
        ensures changes { IfOk result (λ changes. changes.items ≡ changes_due (own_of slot self.old) scopes.now) }
        ensures own { OnOk result (own_of slot self.new ≡ laid_out_windowing (own_of slot self.old) scopes.now) }
        ensures others { LeavesOthers slot self.old self.new }
        ensures err { OnErr result (own_of slot self.new ≡ own_of slot self.old) }
    {
        let _ = self.screen.windows.count(slot);
        let mark = self.marks.take(slot);
        let Laid { changes, mark } = lay_out(alloc, &mut self.screen, slot, scopes, mark)?;
        put_mark(&mut self.marks, slot, mark);
        Ok(changes)
    }
}

/// Marks an application that had no mark. Where memory for the mark is refused, it is laid out anew the next time.
#[tactic(auto, using(crate::proofs::KeptMarks::none_put, crate::proofs::KeptMarks::put_or_none))]
fn put_mark(marks: &mut Marks, slot: usize, mark: Option<Mark>)
    requires { mark_of slot marks.old ≡ None }
    ensures own { IsPutOrNone mark (mark_of slot marks.new) }
    ensures others { LeavesOtherMarks slot marks.old marks.new }
{
    let Some(mark) = mark else {
        return;
    };
    let _ = marks.put(slot, mark);
}

/// By hand: a proof sees one call where it is dropped, and not its parts.
impl Drop for MarkedScreen {
    fn drop(self) {
        let MarkedScreen {
            screen: _,
            marks: _,
        } = self;
    }
}
