//! A widget with what a layout asks of it.
ghost use Rattle.std.specs.Prelude.{◌≡◌, IfOk, OnErr};
ghost use Rattle.std.specs.Option.{option_copied};
ghost use Rattle.tk_screen.specs.Shapes.{variable_text};
ghost use Rattle.tk_widgets.specs.Commands.{made, variable_of};
ghost use Rattle.tk_widgets.specs.Sizes.{requested};

use crate::shapes::variable_text;
use std::alloc::{AllocError, Global};
use std::marker::Model;
use tcl_text::Text;
use tcl_vars::Scopes;
use tk_widgets::{Widget, WidgetAct, WidgetChange};

/// A widget, which is all that contracts see, with the size that it asks for while no variable stands for its text, and whether its
/// `-textvariable` names a variable. So a layout reads no text of a widget that shows its own.
pub struct KeptWidget {
    widget: Widget,
    size: (u32, u32),
    is_linked: bool,
}

impl Model for KeptWidget {
    ghost use Rattle.tk_widgets.specs.declared.widget.Widget.{Widget};

    ghost Value = { Widget };

    ghost use Rattle.tk_screen.specs.Kept.{IsKept};

    ghost view = { λ k. k.widget };

    ghost invariant = { λ k. IsKept k.widget k.size k.is_linked };
}

impl KeptWidget {
    /// The widget. It takes no memory.
    pub fn new(widget: Widget) -> KeptWidget
        ensures { result ≡ widget }
    {
        let size = widget.requested_size(None);
        let is_linked = widget.variable().is_some();
        KeptWidget {
            widget,
            size,
            is_linked,
        }
    }

    /// The widget itself. It takes no memory.
    pub fn widget(&self) -> &Widget
        ensures { result.now ≡ self.now }
    {
        &self.widget
    }

    /// `Widget::variable`.
    pub fn variable(&self) -> Option<&Text>
        ensures { option_copied result ≡ variable_of self.now }
    {
        if self.is_linked {
            self.widget.variable()
        } else {
            None
        }
    }

    /// The size that the widget asks for with the text that its variable has now. It takes no memory.
    pub fn requested_size(&self, scopes: &Scopes) -> (u32, u32)
        ensures { result ≡ requested self.now (variable_text self.now scopes.now) }
    {
        if self.is_linked {
            self.widget
                .requested_size(variable_text(&self.widget, scopes))
        } else {
            self.size
        }
    }

    /// `Widget::make`.
    pub fn make(&mut self, alloc: Global, change: WidgetChange) -> Result<WidgetAct, AllocError>
        ensures told { IfOk result (λ act. made change self.old ≡ record { widget = self.new; act = act }) }
        ensures err { OnErr result (self.new ≡ self.old) }
    {
        let act = self.widget.make(alloc, change)?;
        self.size = self.widget.requested_size(None);
        self.is_linked = self.widget.variable().is_some();
        Ok(act)
    }
}

/// By hand: a proof sees one call where it is dropped, and not its parts.
impl Drop for KeptWidget {
    fn drop(self) {
        let KeptWidget {
            widget: _,
            size: _,
            is_linked: _,
        } = self;
    }
}
