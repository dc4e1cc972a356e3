ghost use Rattle.std.specs.Prelude.{◌≡◌, [], None, Some, nat_le, length, IfOk, unwrap_or};
ghost use Rattle.tk_session.specs.Reading.{with_line};
ghost use Rattle.tcl_text.specs.Limits.{most_bytes};

use std::alloc::{AllocError, Global};
use std::marker::Model;
use tcl_text::MAX_BYTES;

/// The lines of a script that have come so far, with an LF between neighbours; none before the first.
#[derive(Drop)]
pub(crate) struct ScriptText {
    text: Option<String>,
}

impl Model for ScriptText {
    ghost use Rattle.std.specs.Prelude.{ℕ, List, Option, option_map, string_bytes};

    ghost Value = { Option (List ℕ) };

    ghost view = { λ s. option_map string_bytes s.text };
}

impl ScriptText {
    pub(crate) fn new() -> ScriptText
        ensures { result ≡ None }
    {
        ScriptText { text: None }
    }

    /// Whether the script with one more line is no longer than a text may be.
    pub(crate) fn has_room(&self, line: &str) -> bool
        ensures { result ≡ nat_le (length (with_line self.now line.now)) most_bytes }
    {
        match &self.text {
            None => line.len() <= MAX_BYTES,
            Some(text) => text.len() < MAX_BYTES && line.len() < MAX_BYTES - text.len(),
        }
    }

    /// The script with one more line.
    pub(crate) fn with_line(self, alloc: Global, line: &str) -> Result<ScriptText, AllocError>
        ensures { IfOk result (λ script. script ≡ Some (with_line self line.now)) }
    {
        let ScriptText { text } = self;
        let text = match text {
            None => String::from_str(alloc, line)?,
            Some(mut text) => {
                text.push('\n')?;
                text.push_str(line)?;
                text
            }
        };
        Ok(ScriptText { text: Some(text) })
    }

    /// The script, empty before its first line.
    pub(crate) fn as_str(&self) -> &str
        ensures { result.now ≡ unwrap_or self.now [] }
    {
        match &self.text {
            None => "",
            Some(text) => text.as_str(),
        }
    }
}
