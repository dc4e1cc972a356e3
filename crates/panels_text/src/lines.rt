//! Lines of a session in its own words.

ghost use Rattle.std.specs.Prelude.{◌≡◌, IfOk};
ghost use Rattle.std.specs.String.{string_bytes};
ghost use Rattle.panels_text.specs.Lines.{line_words, name_at};

use std::alloc::{AllocError, Global};
use tk_session::{AppBlock, HostLine, key_name};

/// The name of the panel in a slot; empty where there is none.
pub fn name_at(panels: &[AppBlock], slot: usize) -> &str
    ensures { result.now ≡ name_at panels.now slot }
{
    match panels.get(slot) {
        Some(panel) => panel.name.as_str(),
        None => "",
    }
}

/// A line of a session without its moment.
pub fn line_words(alloc: Global, line: HostLine, panels: &[AppBlock]) -> Result<String, AllocError>
    ensures { IfOk result (λ text. string_bytes text ≡ line_words panels.now line) }
{
    match line {
        HostLine::Move { x, y } => format!(in alloc; "move {x} {y}"),
        HostLine::Press(button) => format!(in alloc; "press {button}"),
        HostLine::Release(button) => format!(in alloc; "release {button}"),
        HostLine::Keydown(_) => format!(in alloc; "keydown {}", key_name(line)),
        HostLine::Keyup(_) => format!(in alloc; "keyup {}", key_name(line)),
        HostLine::Focus(None) => String::from_str(alloc, "focus -"),
        HostLine::Focus(Some(slot)) => format!(in alloc; "focus {}", name_at(panels, slot)),
        HostLine::Rect { slot, rect } => format!(in alloc;
            "rect {} {} {} {} {}",
            name_at(panels, slot),
            rect.x,
            rect.y,
            rect.width,
            rect.height
        ),
    }
}
