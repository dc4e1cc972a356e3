//! What can be looked at of an application beside its section. No call takes memory or changes anything.
use crate::host::Host;
use crate::phase::Phase;
use tcl_text::Text;
use tk_alias::AliasService;
use tk_tree::Window;
use tk_widgets::Widget;

impl<M: AliasService> Host<M> {
    ghost use Rattle.std.specs.Prelude.{◌≡◌, List};
    ghost use Rattle.std.specs.Option.{option_copied};
    ghost use Rattle.tk_app.specs.Inspection.{focus_of, title_of, variable_of, widget_of, window_of};
    ghost use Rattle.tk_host.specs.Held.{Call, held_after};
    ghost use Rattle.tk_host.specs.Inspection.{seen, seen_after};

    /// The window of a path of the application in a slot: its kind, its parent, its tags, where it lies and whether it is mapped. `None` where the
    /// application has no such window, the slot has no application, or the host is broken.
    pub fn window(&self, slot: usize, path: &str) -> Option<&Window>
        ensures now { option_copied result ≡ seen (window_of path.now) slot self.now.held }
        ensures history { (calls : List (Call M)) → self.now.held ≡ held_after M.answer calls
            → option_copied result ≡ seen_after M.answer (window_of path.now) slot calls }
    {
        match self.phase {
            Phase::Lost => None,
            _ => self.shared.window(slot, path),
        }
    }

    /// The widget of such a window, also that of `.`: its options, and what an entry or a listbox holds beside them. The calls of `Widget` that take
    /// the text of its variable want what `variable` tells of `Widget::variable`.
    pub fn widget(&self, slot: usize, path: &str) -> Option<&Widget>
        ensures now { option_copied result ≡ seen (widget_of path.now) slot self.now.held }
        ensures history { (calls : List (Call M)) → self.now.held ≡ held_after M.answer calls
            → option_copied result ≡ seen_after M.answer (widget_of path.now) slot calls }
    {
        match self.phase {
            Phase::Lost => None,
            _ => self.shared.widget(slot, path),
        }
    }

    /// The path of the window that gets the events of keys while the application has the keyboard (`focus -lastfor` of focus(n)). `None` where
    /// that window is gone, the slot has no application, or the host is broken.
    pub fn focus(&self, slot: usize) -> Option<&Text>
        ensures now { option_copied result ≡ seen focus_of slot self.now.held }
        ensures history { (calls : List (Call M)) → self.now.held ≡ held_after M.answer calls
            → option_copied result ≡ seen_after M.answer focus_of slot calls }
    {
        match self.phase {
            Phase::Lost => None,
            _ => self.shared.focus(slot),
        }
    }

    /// The title of the application (`wm title .` of wm(n)). `None` where the slot has no application, or the host is broken.
    pub fn title(&self, slot: usize) -> Option<&Text>
        ensures now { option_copied result ≡ seen title_of slot self.now.held }
        ensures history { (calls : List (Call M)) → self.now.held ≡ held_after M.answer calls
            → option_copied result ≡ seen_after M.answer title_of slot calls }
    {
        match self.phase {
            Phase::Lost => None,
            _ => self.shared.title(slot),
        }
    }

    /// The text of a global variable of the application, or of the element of an array by `array(index)`. `None` where it can't be read, as `set`
    /// would (set(n)), the slot has no application, or the host is broken.
    pub fn variable(&self, slot: usize, name: &Text) -> Option<&Text>
        ensures now { option_copied result ≡ seen (variable_of name.now) slot self.now.held }
        ensures history { (calls : List (Call M)) → self.now.held ≡ held_after M.answer calls
            → option_copied result ≡ seen_after M.answer (variable_of name.now) slot calls }
    {
        match self.phase {
            Phase::Lost => None,
            _ => self.shared.variable(slot, name),
        }
    }
}
