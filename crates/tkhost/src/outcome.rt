ghost use Rattle.std.specs.Prelude.{◌≡◌, ◌++◌, decimal, Some, OnOk, OnErr};
ghost use Rattle.std.specs.Io.KnownBytes.{Appends};
ghost use Rattle.tkhost.specs.Output.{AppendsFront, asker_line, status_of, refusal, message_of};

use crate::output::{WriteFault, write_whole};
use itoa::Buffer;
use std::io::Write;
use tcl_text::Text;

/// How the program ends.
#[derive(Clone, Copy, Debug, PartialEq, Eq)]
pub enum Outcome {
    /// The sections were written.
    Done,
    /// The input is no session: the number of the fault (34 to 39 or 43), and the first faulty line, counted from 1.
    Refused { number: u8, line: usize },
    /// An argument was given.
    Usage,
    /// The input was not read.
    Read,
    /// The sections were not written, or not all of them.
    Write,
    /// Memory was refused.
    NoMemory,
}

impl Outcome {
    /// The exit status of the program: 0 done, 1 refused, 2 usage, 3 read or write, 4 memory. It takes no memory.
    pub fn status(self) -> u8
        ensures { result ≡ status_of self }
    {
        match self {
            Outcome::Done => 0,
            Outcome::Refused { .. } => 1,
            Outcome::Usage => 2,
            Outcome::Read | Outcome::Write => 3,
            Outcome::NoMemory => 4,
        }
    }

    /// Writes the line that the program prints to standard error, none where it is done. It takes no memory.
    pub fn write_to<W: Write>(self, writer: &mut W) -> Result<(), WriteFault>
        ensures ok { OnOk result (Appends (W.contents writer.old) (W.contents writer.new) (message_of self)) }
        ensures err { OnErr result (AppendsFront (W.contents writer.old) (W.contents writer.new) (message_of self)) }
    {
        match self {
            Outcome::Done => write_whole(writer, b""),
            Outcome::Refused { number, line } => write_refused(writer, usize::from(number), line),
            Outcome::Usage => write_whole(writer, b"usage: tkhost\n"),
            Outcome::Read => write_whole(writer, b"tkhost: read fault\n"),
            Outcome::Write => write_whole(writer, b"tkhost: write fault\n"),
            Outcome::NoMemory => write_whole(writer, b"tkhost: out of memory\n"),
        }
    }
}

/// How the program ends, and the name of the application that asked for the memory which was refused, if one did and the name can be told.
#[derive(Drop)]
pub struct Ending {
    pub outcome: Outcome,
    pub asker: Option<Text>,
}

impl Ending {
    ghost use Rattle.std.specs.Prelude.{◌≡◌, None, OnErr, OnOk};
    ghost use Rattle.std.specs.Io.KnownBytes.{Appends};
    ghost use Rattle.tkhost.specs.Output.{AppendsFront, ending_message};

    /// An ending for which no application has asked for memory.
    pub fn of(outcome: Outcome) -> Ending
        ensures outcome { result.outcome ≡ outcome }
        ensures asker { result.asker ≡ None }
    {
        Ending {
            outcome,
            asker: None,
        }
    }

    /// Writes the lines that the program prints to standard error: that of the outcome, and behind it one that tells who asked. It takes no memory.
    pub fn write_to<W: Write>(&self, writer: &mut W) -> Result<(), WriteFault>
        ensures ok { OnOk result (Appends (W.contents writer.old) (W.contents writer.new) (ending_message self.now)) }
        ensures err { OnErr result (AppendsFront (W.contents writer.old) (W.contents writer.new) (ending_message self.now)) }
    {
        self.outcome.write_to(writer)?;
        write_asker(writer, &self.asker)
    }
}

/// Writes the line that tells who asked, where one did.
fn write_asker<W: Write>(writer: &mut W, asker: &Option<Text>) -> Result<(), WriteFault>
    ensures ok { OnOk result (Appends (W.contents writer.old) (W.contents writer.new) (asker_line asker.now)) }
    ensures err { OnErr result (AppendsFront (W.contents writer.old) (W.contents writer.new) (asker_line asker.now)) }
{
    match asker {
        None => write_whole(writer, b""),
        Some(name) => write_name(writer, name),
    }
}

/// Writes the line that tells of an application that it asked.
fn write_name<W: Write>(writer: &mut W, name: &Text) -> Result<(), WriteFault>
    ensures ok { OnOk result (Appends (W.contents writer.old) (W.contents writer.new) (asker_line (Some name.now))) }
    ensures err { OnErr result (AppendsFront (W.contents writer.old) (W.contents writer.new) (asker_line (Some name.now))) }
{
    write_whole(writer, b"tkhost: memory was refused to ")?;
    write_whole(writer, name.as_str().as_bytes())?;
    write_whole(writer, b"\n")
}

/// Writes a text and a number behind it.
fn write_numbered<W: Write>(writer: &mut W, text: &[u8], number: usize) -> Result<(), WriteFault>
    ensures ok { OnOk result (Appends (W.contents writer.old) (W.contents writer.new) (text.now ++ decimal number)) }
    ensures err { OnErr result (AppendsFront (W.contents writer.old) (W.contents writer.new) (text.now ++ decimal number)) }
{
    write_whole(writer, text)?;
    write_whole(writer, Buffer::new().format(number).as_bytes())
}

fn write_refused<W: Write>(writer: &mut W, number: usize, line: usize) -> Result<(), WriteFault>
    ensures ok { OnOk result (Appends (W.contents writer.old) (W.contents writer.new) (refusal number line)) }
    ensures err { OnErr result (AppendsFront (W.contents writer.old) (W.contents writer.new) (refusal number line)) }
{
    write_numbered(writer, b"tkhost: fault ", number)?;
    write_numbered(writer, b" at line ", line)?;
    write_whole(writer, b"\n")
}
