//! Where errors came from, for people: no script sees it, and nothing that runs hangs on it.
use std::alloc::{AllocError, Global};
use std::mem::replace;
use tcl_text::Text;
use tcl_words::{Excerpt, Script, Span};

/// How many places a note has at most: the innermost ones, and the outermost.
const PLACES: usize = 16;

/// How many notes are kept: the first ones.
const NOTES: usize = 64;

/// A command of a script that had begun and hadn't ended. What was read of the script isn't kept for it, only the text, which is shared.
#[derive(Drop)]
pub struct CommandPlace {
    /// The text of the script in which it stands.
    pub script: Excerpt,
    /// Where it stands there, in bytes.
    pub span: Option<Span>,
    /// Whether the script is the body of a procedure.
    pub is_in_body: bool,
}

impl CommandPlace {
    ghost use Rattle.std.specs.Prelude.{◌≡◌, List, Ok, IfOk, option_map, slice_get};
    ghost use Rattle.tcl_words.specs.Reading.{commands_of};
    ghost use Rattle.tcl_words.specs.declared.script.Command.{Command};

    /// The command of a script before which this many others stand. It takes no memory; it is refused only where the count of the text's sharers
    /// is full.
    pub fn new(script: &Script, index: usize, is_in_body: bool) -> Result<CommandPlace, AllocError>
        ensures script { IfOk result (λ place. place.script ≡ script.now) }
        ensures span { (commands : List Command) → commands_of script.now ≡ Ok commands
            → IfOk result (λ place. place.span ≡ option_map (λ c. c.span) (slice_get commands index)) }
        ensures body { IfOk result (λ place. place.is_in_body ≡ is_in_body) }
    {
        let span = match script.commands().get(index) {
            Some(command) => Some(command.span().copy()),
            None => None,
        };
        Ok(CommandPlace {
            script: script.text().copy()?,
            span,
            is_in_body,
        })
    }
}

/// An error that ended a script at global level, with the commands in which it stood.
#[derive(Drop)]
pub struct ErrorNote {
    pub text: Text,
    /// The innermost first. Where there were more than 16, these are the innermost 15 and the outermost.
    pub places: Vec<CommandPlace>,
}

/// The commands that an error has ended so far, and the notes of those that ended scripts at global level.
#[derive(Drop)]
pub(crate) struct Trail {
    alloc: Global,
    places: Vec<CommandPlace>,
    notes: Vec<ErrorNote>,
}

impl Trail {
    pub(crate) fn new(alloc: Global) -> Trail {
        Trail {
            alloc,
            places: Vec::new(alloc),
            notes: Vec::new(alloc),
        }
    }

    /// The error ends this command too.
    pub(crate) fn note(&mut self, place: CommandPlace) -> Result<(), AllocError> {
        if self.places.len() < PLACES {
            self.places.push(place)?;
        } else {
            self.places[PLACES - 1] = place;
        }
        Ok(())
    }

    /// The error is caught. What memory it took is kept for the next one.
    pub(crate) fn forget(&mut self) {
        self.places.clear();
    }

    /// The error, of this text, ends a script at global level.
    pub(crate) fn end(&mut self, text: &Text) -> Result<(), AllocError> {
        if self.notes.len() >= NOTES {
            self.forget();
            return Ok(());
        }
        let places = replace(&mut self.places, Vec::new(self.alloc));
        self.notes.push(ErrorNote {
            text: text.copy()?,
            places,
        })?;
        Ok(())
    }

    pub(crate) fn notes(&self) -> &[ErrorNote] {
        self.notes.as_slice()
    }
}
