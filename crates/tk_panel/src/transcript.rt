ghost use Rattle.std.specs.Prelude.{◌≡◌, [], ◌∷◌, ◌++◌, OnErr, OnOk};
ghost use Rattle.tk_panel.specs.Transcript.{stream_name};
ghost use Rattle.tk_panel.specs.Written.{LeavesAllLines, LeavesLines, lines_of};

use std::alloc::{AllocError, Global};
use std::collections::HashMap;
use std::marker::Model;
use tcl_text::Text;

/// Where a line of a transcript comes from.
#[derive(Clone, Copy, Debug, PartialEq, Eq)]
pub enum Stream {
    /// What a script wrote.
    Out,
    /// An error that no script caught.
    Err,
}

impl Stream {
    /// The word that a section has for it.
    pub fn as_str(self) -> &'static str
        ensures { result.now ≡ stream_name self }
    {
        match self {
            Stream::Out => "out",
            Stream::Err => "err",
        }
    }
}

/// A line of a transcript.
#[derive(Drop)]
pub struct Line {
    pub stream: Stream,
    /// When it was written.
    pub moment: u64,
    pub text: Text,
}

/// What one application wrote, line by line.
#[derive(Drop)]
pub struct Transcript {
    lines: Vec<Line>,
}

impl Model for Transcript {
    ghost use Rattle.std.specs.Prelude.{List};
    ghost use Rattle.tk_panel.specs.declared.transcript.Line.{Line};

    ghost Value = { List Line };

    ghost view = { λ t. t.lines.items };
}

impl Transcript {
    /// Nothing was written. It takes no memory.
    fn new(alloc: Global) -> Transcript
        ensures { result ≡ [] }
    {
        Transcript {
            lines: Vec::new(alloc),
        }
    }

    /// The lines, in order. It takes no memory.
    fn as_slice(&self) -> &[Line]
        ensures { result.now ≡ self.now }
    {
        self.lines.as_slice()
    }

    /// Adds a line.
    fn push(&mut self, line: Line) -> Result<(), AllocError>
        ensures ok { OnOk result (self.new ≡ self.old ++ line ∷ []) }
        ensures err { OnErr result (self.new ≡ self.old) }
    {
        Ok(self.lines.push(line)?)
    }
}

/// What applications wrote, each by itself. `owner` is an application's number everywhere; one that hasn't been named yet has written nothing.
pub struct Transcripts {
    owners: HashMap<usize, Transcript>,
    alloc: Global,
}

impl Model for Transcripts {
    ghost use Rattle.tk_panel.specs.Written.{Written};

    ghost Value = { Written };

    ghost view = { λ t. t.owners.entries };
}

impl Transcripts {
    /// Nothing was written. It takes no memory.
    pub fn new(alloc: Global) -> Transcripts
        ensures { result ≡ [] }
    {
        Transcripts {
            owners: HashMap::new(alloc),
            alloc,
        }
    }

    /// The lines that an application wrote, in order. It takes no memory.
    pub fn of(&self, owner: usize) -> &[Line]
        ensures { result.now ≡ lines_of owner self.now }
    {
        match self.owners.get(&owner) {
            Some(transcript) => transcript.as_slice(),
            None => &[],
        }
    }

    /// Adds a line of an application.
    pub fn write(&mut self, owner: usize, line: Line) -> Result<(), AllocError>
        ensures own { OnOk result (lines_of owner self.new ≡ lines_of owner self.old ++ line ∷ []) }
        ensures others { LeavesLines owner self.old self.new }
        ensures err { OnErr result (LeavesAllLines self.old self.new) }
    {
        if let Some(transcript) = self.owners.get_mut(&owner) {
            return transcript.push(line);
        }
        let mut transcript = Transcript::new(self.alloc);
        transcript.push(line)?;
        match self.owners.insert(owner, transcript) {
            Ok(_) => Ok(()),
            Err(_) => Err(AllocError),
        }
    }
}

/// By hand: a proof sees one call where it is dropped, and not its parts.
impl Drop for Transcripts {
    fn drop(self) {
        let Transcripts {
            owners: _,
            alloc: _,
        } = self;
    }
}
