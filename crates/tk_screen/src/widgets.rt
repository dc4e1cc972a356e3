//! The widgets of windows, by application and number.
ghost use Rattle.std.specs.Prelude.{◌≡◌, [], ℕ, IfOk, OnOk, OnErr, IsSome, nat_eq};
ghost use Rattle.std.specs.HashMap.{get};
ghost use Rattle.std.specs.Option.{option_copied};
ghost use Rattle.tk_screen.specs.Widgets.{widget_at, with_widget, without_widget, made_at};
ghost use Rattle.tk_screen.specs.Shared.{widgets_of, HasRoom, LeavesOtherWidgets};

use crate::kept::KeptWidget;
use indexmap::IndexMap;
use std::alloc::{AllocError, Global};
use std::collections::HashMap;
use tk_base::Win;
use tk_widgets::{Widget, WidgetAct, WidgetChange};

/// The widgets of the windows of all applications.
pub struct Widgets {
    rows: HashMap<usize, IndexMap<u64, KeptWidget>>,
    alloc: Global,
}

impl Widgets {
    /// No widgets. It takes no memory.
    pub fn new(alloc: Global) -> Widgets
        ensures { (owner : ℕ) → widgets_of owner result ≡ [] }
    {
        Widgets {
            rows: HashMap::new(alloc),
            alloc,
        }
    }

    /// The widget of a window; none where it has none. It takes no memory.
    pub fn get(&self, win: Win) -> Option<&Widget>
        ensures { option_copied result ≡ widget_at win.number (widgets_of win.owner self.now) }
    {
        Some(self.kept(win)?.widget())
    }

    /// The widget of a window with what is kept beside it; none where it has none. It takes no memory.
    pub fn kept(&self, win: Win) -> Option<&KeptWidget>
        ensures { option_copied result ≡ widget_at win.number (widgets_of win.owner self.now) }
    {
        self.rows.get(&win.owner)?.get(&win.number)
    }

    /// Makes room for one more widget of an application, so that `put` takes no memory.
    pub fn reserve(&mut self, owner: usize) -> Result<(), AllocError>
        ensures room { OnOk result (HasRoom owner self.new) }
        ensures same { (other : ℕ) → widgets_of other self.new ≡ widgets_of other self.old }
    {
        self.open(owner)?;
        match self.rows.get_mut(&owner) {
            Some(row) => row.reserve(1),
            None => unreachable!(),
        }
    }

    /// Gives an application a row, if it has none.
    fn open(&mut self, owner: usize) -> Result<(), AllocError>
        ensures row { OnOk result (IsSome (get nat_eq self.new.rows owner)) }
        ensures same { (other : ℕ) → widgets_of other self.new ≡ widgets_of other self.old }
    {
        if self.rows.contains_key(&owner) {
            return Ok(());
        }
        self.rows.insert(owner, IndexMap::new(self.alloc))?;
        Ok(())
    }

    /// Gives a window a widget, in place of the one that it has, if it has one. It takes no memory.
    pub fn put(&mut self, win: Win, widget: Widget)
        requires { HasRoom win.owner self.old }
        ensures own { widgets_of win.owner self.new ≡ with_widget win.number widget (widgets_of win.owner self.old) }
        ensures others { LeavesOtherWidgets win.owner self.old self.new }
    {
        if let Some(row) = self.rows.get_mut(&win.owner) {
            match row.insert(win.number, KeptWidget::new(widget)) {
                Ok(_) => {}
                Err(_) => unreachable!(),
            }
        }
    }

    /// Takes the widget of a window out. It takes no memory.
    pub fn remove(&mut self, win: Win)
        ensures own { widgets_of win.owner self.new ≡ without_widget win.number (widgets_of win.owner self.old) }
        ensures others { LeavesOtherWidgets win.owner self.old self.new }
    {
        if let Some(row) = self.rows.get_mut(&win.owner) {
            row.shift_remove(&win.number);
        }
    }

    /// Makes a change of a window's widget that the widget was asked for, and answers what its command tells then; none where the window has no
    /// widget.
    pub fn make(
        &mut self,
        alloc: Global,
        win: Win,
        change: WidgetChange,
    ) -> Result<Option<WidgetAct>, AllocError>
        ensures made { IfOk result (λ act. record { widgets = widgets_of win.owner self.new; act = act }
            ≡ made_at win.number change (widgets_of win.owner self.old)) }
        ensures others { LeavesOtherWidgets win.owner self.old self.new }
        ensures err { OnErr result (widgets_of win.owner self.new ≡ widgets_of win.owner self.old) }
    {
        if let Some(row) = self.rows.get_mut(&win.owner)
            && let Some(widget) = row.get_mut(&win.number)
        {
            let act = widget.make(alloc, change)?;
            return Ok(Some(act));
        }
        Ok(None)
    }
}

/// By hand: a proof sees one call where it is dropped, and not its parts.
impl Drop for Widgets {
    fn drop(self) {
        let Widgets { rows: _, alloc: _ } = self;
    }
}
