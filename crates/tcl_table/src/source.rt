ghost use Rattle.std.specs.Prelude.{◌≡◌, IfOk, IsOk, MatchResult, Err};
ghost use Rattle.tcl_table.specs.Source.{script_of};

use crate::command::CommandTable;
use std::alloc::{AllocError, Global};
use std::marker::Model;
use tcl_text::Text;
use tcl_words::{ParseFault, Script, parse};

/// How far a script has been read.
#[derive(Drop)]
pub enum SourceForm {
    /// Not yet.
    Unread(Text),
    /// Into its commands.
    Read(Script),
    /// Up to its fault.
    Faulty(ParseFault, Text),
}

/// A script that is to be run, read at most once. Contracts see its text.
pub struct Source {
    form: SourceForm,
}

impl Model for Source {
    ghost use Rattle.std.specs.Prelude.{ℕ, List};
    ghost use Rattle.tcl_table.specs.SourceForms.{source_text, HasFault};

    ghost Value = { List ℕ };

    ghost view = { λ s. source_text s.form };

    ghost invariant = { λ s. HasFault s.form };
}

impl Source {
    /// A script by its text, which isn't read yet. It takes no memory.
    pub fn of_text(text: Text) -> Source
        ensures { result ≡ text }
    {
        Source {
            form: SourceForm::Unread(text),
        }
    }

    /// A script that has been read. It takes no memory.
    pub fn of_script(script: Script) -> Source
        ensures { result ≡ script }
    {
        Source {
            form: SourceForm::Read(script),
        }
    }

    /// A script with the fault (4 to 10) that its text has.
    pub fn at_fault(fault: ParseFault, text: Text) -> Source
        requires { script_of text ≡ Err fault }
        ensures { result ≡ text }
    {
        Source {
            form: SourceForm::Faulty(fault, text),
        }
    }

    /// A script by its text, read at once, so that its copies are. A fault (4 to 10) is kept, and told by `read`.
    #[tactic(auto, using(crate::proofs::SourceLemmas::script_walk))]
    pub fn read_of(alloc: Global, text: &Text) -> Result<Source, AllocError>
        ensures { IfOk result (λ source. source ≡ text.now) }
    {
        match parse(alloc, text.as_str().as_bytes()) {
            Ok(script) => Ok(Source::of_script(script)),
            Err(ParseFault::NoMemory) => Err(AllocError),
            Err(fault) => Ok(Source::at_fault(fault, text.copy()?)),
        }
    }

    /// A script by its text, read at once by a table, which keeps it, so that its copies are read. One with a fault is left unread.
    pub fn read_by(table: &mut CommandTable, text: &Text) -> Result<Source, AllocError>
        ensures table { table.new ≡ table.old }
        ensures source { IfOk result (λ source. source ≡ text.now) }
    {
        match table.read(text)? {
            Ok(script) => Ok(Source::of_script(script)),
            Err(_) => Ok(Source::of_text(text.copy()?)),
        }
    }

    /// The script's text.
    pub fn text(&self) -> Result<Text, AllocError>
        ensures { IfOk result (λ text. text ≡ self.now) }
    {
        match &self.form {
            SourceForm::Unread(text) => text.copy(),
            SourceForm::Read(script) => script.text().to_text(),
            SourceForm::Faulty(_, text) => text.copy(),
        }
    }

    /// The same script, which has been read where a table keeps what was read of its text. It takes no memory.
    pub fn known(self, table: &CommandTable) -> Result<Source, AllocError>
        ensures { IfOk result (λ source. source ≡ self) }
    {
        let Source { form } = self;
        match form {
            SourceForm::Unread(text) => match table.kept_script(&text)? {
                Some(script) => Ok(Source::of_script(script)),
                None => Ok(Source::of_text(text)),
            },
            SourceForm::Read(script) => Ok(Source::of_script(script)),
            SourceForm::Faulty(fault, text) => Ok(Source::at_fault(fault, text)),
        }
    }

    /// Whether it has been read, up to a fault if it has one: `read` then reads nothing. It takes no memory.
    pub fn is_read(&self) -> bool {
        !matches!(self.form, SourceForm::Unread(_))
    }

    /// How many bytes of source were read of it. It takes no memory.
    pub(crate) fn bytes_read(&self) -> usize {
        match &self.form {
            SourceForm::Read(script) => script.text().as_str().len(),
            SourceForm::Unread(_) | SourceForm::Faulty(..) => 0,
        }
    }

    /// The same script, of which nothing is held but its text, if it has no fault.
    pub(crate) fn unread(self) -> Result<Source, AllocError>
        ensures { IfOk result (λ source. source ≡ self) }
    {
        let Source { form } = self;
        match form {
            SourceForm::Unread(text) => Ok(Source::of_text(text)),
            SourceForm::Read(script) => Ok(Source::of_text(script.text().to_text()?)),
            SourceForm::Faulty(fault, text) => Ok(Source::at_fault(fault, text)),
        }
    }

    /// A table keeps what was read of it, if anything, for other scripts of the same text.
    pub fn keep(&self, table: &mut CommandTable) -> Result<(), AllocError>
        ensures { table.new ≡ table.old }
    {
        match &self.form {
            SourceForm::Read(script) => table.keep_script(script),
            SourceForm::Unread(_) | SourceForm::Faulty(..) => Ok(()),
        }
    }

    /// The same script, as far read.
    pub fn copy(&self) -> Result<Source, AllocError>
        ensures { IfOk result (λ source. source ≡ self.now) }
    {
        match &self.form {
            SourceForm::Unread(text) => Ok(Source {
                form: SourceForm::Unread(text.copy()?),
            }),
            SourceForm::Read(script) => Ok(Source {
                form: SourceForm::Read(script.copy()?),
            }),
            SourceForm::Faulty(fault, text) => Ok(Source {
                form: SourceForm::Faulty(*fault, text.copy()?),
            }),
        }
    }

    /// The script's commands (Tcl(n)), or its fault (4 to 10); a table reads what hasn't been read.
    #[tactic(auto, using(crate::proofs::SourceLemmas::script_walk))]
    pub fn read(self, table: &mut CommandTable) -> Result<Result<Script, ParseFault>, AllocError>
        ensures table { table.new ≡ table.old }
        ensures reading { IfOk result (λ reading. MatchResult reading (λ script. (script ≡ self) × IsOk (script_of self))
            (λ fault. script_of self ≡ Err fault)) }
    {
        let Source { form } = self;
        match form {
            SourceForm::Unread(text) => table.read(&text),
            SourceForm::Read(script) => {
                let _commands = script.commands();
                Ok(Ok(script))
            }
            SourceForm::Faulty(fault, _) => Ok(Err(fault)),
        }
    }
}

/// By hand: a proof sees one call where it is dropped, and not its parts.
impl Drop for Source {
    fn drop(self) {
        let Source { form: _ } = self;
    }
}
