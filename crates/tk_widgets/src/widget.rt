ghost use Rattle.std.specs.Prelude.{◌≡◌, [], Some, IfOk};
ghost use Rattle.tk_widgets.specs.Classes.{value_told};
ghost use Rattle.std.specs.Option.{option_copied};
ghost use Rattle.tk_widgets.specs.Sizes.{requested, new_parts, new_widget, text_size, text_shown};

use crate::size::{entry_size, frame_size, listbox_size, text_shown, text_size};
use crate::{Entry, Listbox};
use std::alloc::{AllocError, Global};
use tcl_text::Text;
use tk_base::Kind;
use tk_options::OptionTable;

/// A widget (options(n)): its options, and what its kind has beside them. The calls take the text of the variable that `-textvariable` names, where
/// it can be read, as `variable`.
pub struct Widget {
    pub options: OptionTable,
    pub parts: Parts,
}

/// What a widget of a kind has beside its options.
#[derive(Drop)]
pub enum Parts {
    /// A frame (frame(n)), which the main window is too.
    Frame,
    /// A label (label(n)).
    Label,
    /// A button (button(n)).
    Button,
    /// The text of an entry, with its cursor (entry(n)).
    Entry(Entry),
    /// The items of a listbox, and which are selected (listbox(n)).
    Listbox(Listbox),
}

impl Parts {
    /// Those of a new widget.
    fn new(alloc: Global, kind: Kind) -> Result<Parts, AllocError>
        ensures { IfOk result (λ parts. parts ≡ new_parts kind) }
    {
        match kind {
            Kind::Frame => Ok(Parts::Frame),
            Kind::Label => Ok(Parts::Label),
            Kind::Button => Ok(Parts::Button),
            Kind::Entry => Ok(Parts::Entry(Entry::new())),
            Kind::Listbox => Ok(Parts::Listbox(Listbox::new(alloc)?)),
        }
    }
}

impl Widget {
    /// A new widget of a kind.
    pub fn new(alloc: Global, kind: Kind) -> Result<Widget, AllocError>
        ensures { IfOk result (λ widget. widget ≡ new_widget kind) }
    {
        let parts = Parts::new(alloc, kind)?;
        let options = OptionTable::new(alloc, kind)?;
        Ok(Widget { options, parts })
    }

    /// What the widget tells as its value: the text that it shows, or the list of all items (`get` of entry(n) and listbox(n)); a frame has
    /// none.
    pub fn value(&self, alloc: Global, variable: Option<&Text>) -> Result<Option<Text>, AllocError>
        ensures { IfOk result (λ value. value ≡ value_told self.now (option_copied variable.entry)) }
    {
        match &self.parts {
            Parts::Frame => Ok(None),
            Parts::Label => shown_value(alloc, variable, &self.options),
            Parts::Button => shown_value(alloc, variable, &self.options),
            Parts::Entry(entry) => Ok(Some(entry.shown(variable).copy()?)),
            Parts::Listbox(listbox) => Ok(Some(listbox.list().copy()?)),
        }
    }

    /// The size that the widget requests, width and height in pixels. It takes no memory.
    pub fn requested_size(&self, variable: Option<&Text>) -> (u32, u32)
        ensures { result ≡ requested self.now (option_copied variable.entry) }
    {
        match self.parts {
            Parts::Frame => frame_size(&self.options),
            Parts::Label => shown_size(variable, &self.options),
            Parts::Button => shown_size(variable, &self.options),
            Parts::Entry(_) => entry_size(&self.options),
            Parts::Listbox(_) => listbox_size(&self.options),
        }
    }
}

/// The size of a label or a button with what it shows.
fn shown_size(variable: Option<&Text>, options: &OptionTable) -> (u32, u32)
    ensures { result ≡ text_size options.now (text_shown (option_copied variable.entry) options.now) }
{
    text_size(options, text_shown(variable, options))
}

/// The text that a label or a button shows.
fn shown_value(
    alloc: Global,
    variable: Option<&Text>,
    options: &OptionTable,
) -> Result<Option<Text>, AllocError>
    ensures { IfOk result (λ value. value ≡ Some (text_shown (option_copied variable.entry) options.now)) }
{
    let text = Text::of_short(alloc, text_shown(variable, options))?;
    Ok(Some(text))
}

/// By hand: a proof sees one call where it is dropped, and not its parts.
impl Drop for Widget {
    fn drop(self) {
        let Widget {
            options: _,
            parts: _,
        } = self;
    }
}
