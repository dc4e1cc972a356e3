//! What the calls of a host tell that look at an application: `window SLOT PATH`, `option SLOT PATH NAME`, `value SLOT PATH`, `cursor SLOT PATH`,
//! `rows SLOT PATH`, `focus SLOT`, `title SLOT`, `variable SLOT NAME`. What isn't there is told as `none`.
use anyhow::{Result, bail};
use asking::{number, words_of};
use std::alloc::Global;
use tcl_text::Text;
use tk_host::{AliasService, Host, Listbox, OptionTable, Widget, WidgetParts, Window};

/// How it is told that something isn't there.
pub const NONE: &str = "none";

fn text_told(alloc: Global, text: Option<&Text>) -> Result<String> {
    match text {
        Some(text) => Ok(String::from_str(alloc, text.as_str())?),
        None => Ok(String::from_str(alloc, NONE)?),
    }
}

fn window_told(alloc: Global, window: Option<&Window>) -> Result<String> {
    let Some(window) = window else {
        return text_told(alloc, None);
    };
    let (path, class, place) = (window.path.as_str(), window.kind.class(), window.rectangle);
    let corner = format!(in alloc; "{path} {class} {} {}", place.x, place.y)?;
    let corner = corner.as_str();
    Ok(format!(in alloc;
        "{corner} {} {} {}",
        place.width, place.height, window.mapped
    )?)
}

/// The value of an option, by any word that means it.
fn option_told(alloc: Global, options: &OptionTable, word: &str) -> Result<String> {
    match options.cget(&Text::new(alloc, word)?) {
        Ok(value) => text_told(alloc, Some(value)),
        Err(_) => text_told(alloc, None),
    }
}

fn cursor_told(alloc: Global, widget: &Widget, variable: Option<&Text>) -> Result<String> {
    match &widget.parts {
        WidgetParts::Entry(entry) => Ok(format!(in alloc; "{}", entry.cursor(variable))?),
        _ => text_told(alloc, None),
    }
}

/// The active row of a listbox, and those that are selected.
fn rows_told(alloc: Global, listbox: &Listbox) -> Result<String> {
    let mut told = format!(in alloc; "{}:", listbox.active())?;
    for row in listbox.selection(alloc)?.iter() {
        told.push_str(format!(in alloc; " {row}")?.as_str())?;
    }
    Ok(told)
}

fn value_told(alloc: Global, widget: &Widget, variable: Option<&Text>) -> Result<String> {
    let value = widget.value(alloc, variable)?;
    text_told(alloc, value.as_ref())
}

/// What is told of a widget, by the text of its variable.
fn widget_told(
    alloc: Global,
    widget: &Widget,
    variable: Option<&Text>,
    what: &str,
    word: &str,
) -> Result<String> {
    match (what, &widget.parts) {
        ("option", _) => option_told(alloc, &widget.options, word),
        ("value", _) => value_told(alloc, widget, variable),
        ("cursor", _) => cursor_told(alloc, widget, variable),
        ("rows", WidgetParts::Listbox(listbox)) => rows_told(alloc, listbox),
        _ => text_told(alloc, None),
    }
}

/// The text of the variable that a widget shows.
fn variable_of<'a, A: AliasService>(
    host: &'a Host<A>,
    slot: usize,
    widget: &Widget,
) -> Option<&'a Text> {
    host.variable(slot, widget.variable()?)
}

fn of_widget<A: AliasService>(
    alloc: Global,
    host: &Host<A>,
    slot: usize,
    what: &str,
    words: &[&str],
) -> Result<String> {
    let (path, word) = match words {
        [path] => (*path, ""),
        [path, word] => (*path, *word),
        _ => bail!("no such look"),
    };
    match host.widget(slot, path) {
        Some(widget) => widget_told(alloc, widget, variable_of(host, slot, widget), what, word),
        None => text_told(alloc, None),
    }
}

/// What such a call tells.
pub fn look<A: AliasService>(
    alloc: Global,
    host: &Host<A>,
    what: &str,
    words: &str,
) -> Result<String> {
    let words = words_of(alloc, words, ' ')?;
    let [slot, rest @ ..] = words.as_slice() else {
        bail!("no slot");
    };
    let slot: usize = number(slot)?;
    match (what, rest) {
        ("window", [path]) => window_told(alloc, host.window(slot, path)),
        ("focus", []) => text_told(alloc, host.focus(slot)),
        ("title", []) => text_told(alloc, host.title(slot)),
        ("variable", [name]) => text_told(alloc, host.variable(slot, &Text::new(alloc, name)?)),
        _ => of_widget(alloc, host, slot, what, rest),
    }
}
