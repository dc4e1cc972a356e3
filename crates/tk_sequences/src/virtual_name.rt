ghost use Rattle.std.specs.Prelude.{◌≡◌, ◌≤◌, length, IfOk, IfSome};
ghost use Rattle.std.specs.Option.{option_copied};
ghost use Rattle.tk_sequences.specs.Names.{IsName};
ghost use Rattle.tk_sequences.specs.Words.{has_no_closing, is_name, name_in};
ghost use Rattle.tcl_text.specs.Limits.{most_bytes};

use crate::written::name_written;
use std::alloc::{AllocError, Global};
use std::marker::Model;
use tcl_text::Text;
use tcl_text::message::short_text;

/// The name of a virtual event (event(n)): what stands between `<<` and `>>`. It isn't empty, and has no `>`.
pub struct VirtualName {
    name: Text,
}

impl Model for VirtualName {
    ghost use Rattle.std.specs.Prelude.{ℕ, List};
    ghost use Rattle.tk_sequences.specs.Names.{IsName};

    ghost Value = { List ℕ };

    ghost view = { λ n. n.name };

    ghost invariant = { λ n. IsName n.name };
}

impl VirtualName {
    ghost use Rattle.tk_sequences.specs.Names.{IsName};
    ghost use Rattle.tk_sequences.specs.Words.{in_brackets, name_in};

    /// This name.
    pub(crate) fn of(name: Text) -> VirtualName
        requires { IsName name }
        ensures { result ≡ name }
    {
        VirtualName { name }
    }

    /// The name that a text has between `<<` at its front and `>>` at its end; none where it isn't of this form.
    #[tactic(auto, unfolding(crate::specs::Words::name_in))]
    pub fn parse(alloc: Global, text: &Text) -> Result<Option<VirtualName>, AllocError>
        ensures { IfOk result (λ name. name ≡ name_in text.now) }
    {
        match name_in(text.as_str()) {
            Some(name) => Ok(Some(VirtualName::of(short_text(alloc, name)?))),
            None => Ok(None),
        }
    }

    /// The name in its brackets.
    pub fn canonical(&self, alloc: Global) -> Result<Text, AllocError>
        ensures { IfOk result (λ text. text ≡ in_brackets self.now) }
    {
        let text = name_written(alloc, self.as_str())?;
        short_text(alloc, text.as_str())
    }

    /// The name, without `<<` and `>>`.
    pub fn as_str(&self) -> &str
        ensures name { result.now ≡ self.now }
        ensures kept { IsName self.now }
    {
        self.name.as_str()
    }

    /// The same name. It takes no memory; it is refused only where the count of a shared text is full.
    pub fn copy(&self) -> Result<VirtualName, AllocError>
        ensures { IfOk result (λ name. name ≡ self.now) }
    {
        Ok(VirtualName {
            name: self.name.copy()?,
        })
    }
}

/// Whether no byte is `>`.
fn has_no_closing(bytes: &[u8]) -> bool
    ensures { result ≡ has_no_closing bytes.now }
{
    bytes.iter().all(|byte| *byte != b'>')
}

/// Whether it is a virtual event's name: some characters without `>`.
fn is_name(name: &str) -> bool
    ensures { result ≡ is_name name.now }
{
    !name.is_empty() && has_no_closing(name.as_bytes())
}

/// What stands between the brackets of a virtual event's name.
fn name_in(text: &str) -> Option<&str>
    requires { length text.now ≤ most_bytes }
    ensures value { option_copied result ≡ name_in text.now }
    ensures kept { IfSome result (λ name. IsName name.now) }
{
    match text.strip_prefix("<<") {
        Some(behind) => match behind.strip_suffix(">>") {
            Some(name) if is_name(name) => Some(name),
            Some(_) => None,
            None => None,
        },
        None => None,
    }
}

/// By hand: a proof sees one call where it is dropped, and not its parts.
impl Drop for VirtualName {
    fn drop(self) {
        let VirtualName { name: _ } = self;
    }
}
