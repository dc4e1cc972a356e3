//! What windows read of variables.
ghost use Rattle.std.specs.Prelude.{◌≡◌, IfOk, Some, option_and_then};
ghost use Rattle.std.specs.Option.{option_copied};
ghost use Rattle.std.specs.Result.{result_ok};
ghost use Rattle.tcl_vars.specs.Store.{variable_in};
ghost use Rattle.tk_screen.specs.Reads.{holds, read_named, read_of, same_text};

use crate::kept::KeptWidget;
use std::alloc::AllocError;
use tcl_text::Text;
use tcl_vars::Scopes;

/// A global variable that the widget of a window shows, with the text that it had, none where it couldn't be read.
#[derive(Drop)]
pub struct TextRead {
    pub name: Text,
    pub text: Option<Text>,
}

/// A variable with the text that it has now.
fn read_named(scopes: &Scopes, name: &Text) -> Result<TextRead, AllocError>
    ensures { IfOk result (λ read. read ≡ read_named scopes.now name.now) }
{
    let _frames = scopes.levels();
    let text = match scopes.get(0, name) {
        Ok(text) => Some(text.copy()?),
        Err(_) => None,
    };
    Ok(TextRead {
        name: name.copy()?,
        text,
    })
}

/// The one that a widget shows.
pub fn read_by(scopes: &Scopes, widget: Option<&KeptWidget>) -> Result<Option<TextRead>, AllocError>
    ensures { IfOk result (λ read. read ≡ option_and_then (read_of scopes.now) (option_copied widget.entry)) }
{
    let Some(widget) = widget else {
        return Ok(None);
    };
    match widget.variable() {
        Some(name) => {
            let read = read_named(scopes, name)?;
            Ok(Some(read))
        }
        None => Ok(None),
    }
}

/// Whether a text that was read is this one.
fn is_text(read: &Option<Text>, now: &Text) -> bool
    ensures { result ≡ same_text read.now (Some now.now) }
{
    match read {
        Some(text) => text.as_str() == now.as_str(),
        None => false,
    }
}

/// Whether a variable has the text that was read. It takes no memory.
pub fn holds(read: &TextRead, scopes: &Scopes) -> bool
    ensures { result ≡ holds scopes.now read.now }
{
    let _frames = scopes.levels();
    match scopes.get(0, &read.name) {
        Ok(now) => is_text(&read.text, now),
        Err(_) => read.text.is_none(),
    }
}
