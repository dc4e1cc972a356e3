//! What of an application can be looked at beside its section. No call takes memory or changes anything.
ghost use Rattle.std.specs.Prelude.{◌≡◌, option_and_then, option_map};
ghost use Rattle.std.specs.Option.{option_copied};
ghost use Rattle.std.specs.Result.{result_ok};
ghost use Rattle.tcl_vars.specs.Store.{variable_in};
ghost use Rattle.tk_panel.specs.Shared.{panel_of};
ghost use Rattle.tk_screen.specs.Widgets.{widget_at};
ghost use Rattle.tk_tree.specs.Own.{at_path, window_at};

use crate::shared::Shared;
use tcl_text::Text;
use tcl_vars::Scopes;
use tk_alias::AliasService;
use tk_base::Win;
use tk_panel::Tables;
use tk_tree::Window;
use tk_widgets::Widget;

impl<M: AliasService> Shared<M> {
    ghost use Rattle.std.specs.Prelude.{◌≡◌};
    ghost use Rattle.std.specs.Option.{option_copied};
    ghost use Rattle.tk_app.specs.Inspection.{focus_of, seen_in, title_of, variable_of, widget_of, window_of};

    /// The window of a path; none where the application has none of it, or the slot has no application.
    pub fn window(&self, slot: usize, path: &str) -> Option<&Window>
        ensures { option_copied result ≡ seen_in (window_of path.now) slot self.now.parts }
    {
        let _runner = self.runners.get(slot)?;
        window(&self.tables, slot, path)
    }

    /// The widget of the window of a path; none where there is no such window.
    pub fn widget(&self, slot: usize, path: &str) -> Option<&Widget>
        ensures { option_copied result ≡ seen_in (widget_of path.now) slot self.now.parts }
    {
        let _runner = self.runners.get(slot)?;
        widget(&self.tables, slot, path)
    }

    /// The path of the window that gets the events of keys (`focus -lastfor` of focus(n)); none once it is gone.
    pub fn focus(&self, slot: usize) -> Option<&Text>
        ensures { option_copied result ≡ seen_in focus_of slot self.now.parts }
    {
        let _runner = self.runners.get(slot)?;
        focus(&self.tables, slot)
    }

    /// The title (`wm title .` of wm(n)).
    pub fn title(&self, slot: usize) -> Option<&Text>
        ensures { option_copied result ≡ seen_in title_of slot self.now.parts }
    {
        let _runner = self.runners.get(slot)?;
        title(&self.tables, slot)
    }

    /// The text of a global variable, or of the element of an array by `array(index)`; none where it can't be read (set(n)).
    pub fn variable(&self, slot: usize, name: &Text) -> Option<&Text>
        ensures { option_copied result ≡ seen_in (variable_of name.now) slot self.now.parts }
    {
        let runner = self.runners.get(slot)?;
        variable(runner.scopes(), name)
    }
}

/// The window of a path.
fn window<'a>(tables: &'a Tables, slot: usize, path: &str) -> Option<&'a Window>
    ensures { option_copied result ≡ at_path path.now (panel_of slot tables.now).windowing.tree }
{
    let windows = &tables.screen.shown().windows;
    windows.window(windows.find(slot, path)?)
}

/// Its widget.
fn widget<'a>(tables: &'a Tables, slot: usize, path: &str) -> Option<&'a Widget>
    ensures { option_copied result ≡ option_and_then (λ window. widget_at window.number (panel_of slot tables.now).windowing.widgets)
        (at_path path.now (panel_of slot tables.now).windowing.tree) }
{
    let screen = tables.screen.shown();
    screen.widget(screen.windows.find(slot, path)?)
}

/// The path of the window that gets the events of keys.
fn focus(tables: &Tables, slot: usize) -> Option<&Text>
    ensures { option_copied result ≡ option_map (λ window. window.path)
        (window_at (panel_of slot tables.now).input.focus (panel_of slot tables.now).windowing.tree) }
{
    let win = Win {
        owner: slot,
        number: tables.inputs.focus(slot),
    };
    Some(&tables.screen.shown().windows.window(win)?.path)
}

/// The title.
fn title(tables: &Tables, slot: usize) -> Option<&Text>
    ensures { option_copied result ≡ option_map (λ toplevel. toplevel.title) (panel_of slot tables.now).windowing.toplevel }
{
    Some(&tables.screen.shown().toplevel(slot)?.title)
}

/// The text of a global variable, or of an element, that can be read.
fn variable<'a>(scopes: &'a Scopes, name: &Text) -> Option<&'a Text>
    ensures { option_copied result ≡ result_ok (variable_in scopes.now 0 name.now) }
{
    let _frames = scopes.levels();
    match scopes.get(0, name) {
        Ok(text) => Some(text),
        Err(_) => None,
    }
}
