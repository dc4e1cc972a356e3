ghost use Rattle.std.specs.Prelude.{◌≡◌, ◌≢◌, ℕ, [], None, Some, Ok, Err, IfOk, IfSome, IsSome, OnOk, OnErr, IsOkUnless, MatchOption, codes};
ghost use Rattle.std.specs.Option.{option_copied};
ghost use Rattle.tk_screen.specs.Own.{nothing, with_size, with_title, with_made, without};
ghost use Rattle.tk_screen.specs.Shared.{own_of, LeavesOthers};
ghost use Rattle.tk_screen.specs.Widgets.{widget_at};
ghost use Rattle.tk_tree.specs.Create.{refusal};
ghost use Rattle.tk_tree.specs.Own.{window_at, child_numbers};

use crate::toplevel::Toplevel;
use crate::widgets::Widgets;
use std::alloc::{AllocError, Global};
use std::collections::HashMap;
use tcl_text::Text;
use tk_base::{Kind, Win};
use tk_packer::PackTable;
use tk_tree::{WindowFault, Windows};
use tk_widgets::Widget;

/// What all applications have on the screen, each application's apart from the others'. `slot` is an application's number everywhere.
pub struct Screen {
    pub windows: Windows,
    pub packs: PackTable,
    pub widgets: Widgets,
    pub toplevels: HashMap<usize, Toplevel>,
}

impl Screen {
    /// Nothing is on the screen. It takes no memory.
    pub fn new(alloc: Global) -> Screen
        ensures { (slot : ℕ) → own_of slot result ≡ nothing }
    {
        Screen {
            windows: Windows::new(alloc),
            packs: PackTable::new(alloc),
            widgets: Widgets::new(alloc),
            toplevels: HashMap::new(alloc),
        }
    }

    /// Gives the rectangle of an application another size, in pixels. It takes no memory.
    pub fn set_size(&mut self, slot: usize, size: (u32, u32))
        ensures own { own_of slot self.new ≡ with_size size (own_of slot self.old) }
        ensures others { LeavesOthers slot self.old self.new }
    {
        if let Some(toplevel) = self.toplevels.get_mut(&slot) {
            toplevel.size = size;
        }
    }

    /// Gives an application another title (`wm title` of wm(n)). It takes no memory.
    pub fn set_title(&mut self, slot: usize, title: Text)
        ensures own { own_of slot self.new ≡ with_title title (own_of slot self.old) }
        ensures others { LeavesOthers slot self.old self.new }
    {
        if let Some(toplevel) = self.toplevels.get_mut(&slot) {
            toplevel.title = title;
        }
    }

    /// The application's rectangle, name and title; none before it is added. It takes no memory.
    pub fn toplevel(&self, slot: usize) -> Option<&Toplevel>
        ensures { option_copied result ≡ (own_of slot self.now).toplevel }
    {
        self.toplevels.get(&slot)
    }

    /// The widget of a window; none where the window isn't there. It takes no memory.
    pub fn widget(&self, win: Win) -> Option<&Widget>
        ensures { option_copied result ≡ widget_at win.number (own_of win.owner self.now).widgets }
    {
        self.widgets.get(win)
    }

    /// Makes a window of a path with its widget, which is of the kind. It is refused as `Windows::create` refuses it, and then nothing is
    /// changed, the next number too.
    pub fn create(
        &mut self,
        slot: usize,
        path: &Text,
        kind: Kind,
        widget: Widget,
    ) -> Result<Win, WindowFault>
        ensures answer { MatchOption (refusal path.now (own_of slot self.old).tree)
            (IsOkUnless result WindowFault.NoMemory) (λ fault. result ≡ Err fault) }
        ensures win { IfOk result (λ win. win ≡ record { owner = slot; number = (own_of slot self.old).tree.next_number }) }
        ensures own { OnOk result (own_of slot self.new ≡ with_made path.now kind widget (own_of slot self.old)) }
        ensures others { LeavesOthers slot self.old self.new }
        ensures err { OnErr result (own_of slot self.new ≡ own_of slot self.old) }
    {
        if let Some(fault) = self.windows.refusal(slot, path.as_str()) {
            return Err(fault);
        }
        self.widgets.reserve(slot)?;
        let win = self.windows.create(slot, path, kind)?;
        self.widgets.put(win, widget);
        Ok(win)
    }

    /// Takes a window out that has no children, with its widget and its packing. It takes no memory.
    pub fn remove(&mut self, win: Win)
        requires there { IsSome (window_at win.number (own_of win.owner self.old).tree) }
        requires leaf { child_numbers win.number (own_of win.owner self.old).tree.windows ≡ [] }
        ensures own { own_of win.owner self.new ≡ without win.number (own_of win.owner self.old) }
        ensures others { LeavesOthers win.owner self.old self.new }
    {
        self.windows.remove(win);
        self.widgets.remove(win);
        self.packs.remove(win);
    }
}

/// By hand: a proof sees one call where it is dropped, and not its parts.
impl Drop for Screen {
    fn drop(self) {
        let Screen {
            windows: _,
            packs: _,
            widgets: _,
            toplevels: _,
        } = self;
    }
}
