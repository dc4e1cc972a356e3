//! The questions of `streams`: what is read and written by streams that give and take few bytes, fail, or never end.
//!
//! `text TEXT` gives the text that those behind it read, write or play. A reader is `PIECE CALLS`: it gives so many bytes a call, and fails once it was
//! asked so often. A writer is `PIECE CALLS fails`, which takes so many and fails then, or `PIECE CALLS stops`, which takes nothing then.
//!
//! - `read READER` reads the text whole, and is answered what came, or `!` and the fault; `endless PIECE` reads what never ends, and is answered the
//!   fault and how often the reader was asked.
//! - `write WRITER` writes the text, and `play WRITER` plays it as a session: what the writer took, behind `!` and the fault where it was refused.
//! - `run READER WRITER` does what the program does, and `outcome OUTCOME` is one of its outcomes, `done`, `refused NUMBER LINE`, `usage`, `read`,
//!   `write` or `memory`: the exit status, the line on standard error, and of `run` what the writer took, with bars between.
use crate::stream::{Flow, Stream};
use anyhow::{Result, bail};
use asking::{number, result_of, words_of};
use std::alloc::Global;
use std::str;
use tcl_text::Text;
use tkhost::{
    InputFault, Outcome, PlayFault, ServiceKind, own_services, play, read_input, read_session, run,
    write_whole,
};

/// How many steps a session takes at a stretch.
const SLICE: u64 = 64;

/// The text that is read, written or played.
#[derive(Drop)]
pub struct Streams {
    text: String,
}

fn flow_of(words: &[&str]) -> Result<Flow> {
    let (piece, calls, fails) = match words {
        [piece, calls] | [piece, calls, "fails"] => (piece, calls, true),
        [piece, calls, "stops"] => (piece, calls, false),
        _ => bail!("no stream"),
    };
    Ok(Flow {
        piece: number(piece)?,
        calls: number(calls)?,
        fails,
    })
}

/// What a writer took, behind the fault where it refused more.
fn taken_told(alloc: Global, writer: &Stream<'_>, is_whole: bool) -> Result<String> {
    let taken = str::from_utf8(writer.taken.as_slice())?;
    if is_whole {
        return result_of(alloc, taken);
    }
    Ok(format!(in alloc; "!write fault: {taken}")?)
}

fn read_told(alloc: Global, read: Result<Vec<u8>, InputFault>) -> Result<String> {
    match read {
        Ok(bytes) => result_of(alloc, str::from_utf8(bytes.as_slice())?),
        Err(InputFault::Read) => Ok(String::from_str(alloc, "!read fault")?),
        Err(InputFault::NoMemory) => bail!("out of memory"),
    }
}

fn endless(alloc: Global, piece: usize) -> Result<String> {
    let mut reader = Stream::endless(alloc, piece);
    let told = read_told(alloc, read_input(alloc, &mut reader))?;
    Ok(format!(in alloc; "{}, asked {} times", told.as_str(), reader.asked)?)
}

/// Plays a session. Whether the writer took all.
fn play_to(alloc: Global, session: &[u8], writer: &mut Stream<'_>) -> Result<bool> {
    let Ok(session) = read_session(alloc, session) else {
        bail!("no session, or no memory for one");
    };
    let aliases = own_services(alloc, &session)?;
    match play(alloc, &session, aliases, SLICE, writer) {
        Ok(()) => Ok(true),
        Err(PlayFault::Write) => Ok(false),
        Err(PlayFault::NoMemory) => bail!("out of memory"),
    }
}

/// An outcome's exit status and its line on standard error.
fn outcome_told(alloc: Global, outcome: Outcome) -> Result<String> {
    let flow = Flow {
        piece: 7,
        calls: 1000,
        fails: true,
    };
    let mut writer = Stream::new(alloc, flow, &[]);
    outcome.write_to(&mut writer)?;
    let message = str::from_utf8(writer.taken.as_slice())?;
    Ok(format!(in alloc; "={}|{message}", outcome.status())?)
}

fn outcome_of(words: &[&str]) -> Result<Outcome> {
    match words {
        ["done"] => Ok(Outcome::Done),
        ["refused", fault, line] => Ok(Outcome::Refused {
            number: number(fault)?,
            line: number(line)?,
        }),
        ["usage"] => Ok(Outcome::Usage),
        ["read"] => Ok(Outcome::Read),
        ["write"] => Ok(Outcome::Write),
        ["memory"] => Ok(Outcome::NoMemory),
        _ => bail!("no outcome"),
    }
}

impl Streams {
    pub fn new(alloc: Global) -> Streams {
        Streams {
            text: String::new(alloc),
        }
    }

    fn read(&self, alloc: Global, flow: Flow) -> Result<String> {
        let mut reader = Stream::new(alloc, flow, self.text.as_bytes());
        read_told(alloc, read_input(alloc, &mut reader))
    }

    fn write(&self, alloc: Global, flow: Flow) -> Result<String> {
        let mut writer = Stream::new(alloc, flow, &[]);
        let is_whole = write_whole(&mut writer, self.text.as_bytes()).is_ok();
        taken_told(alloc, &writer, is_whole)
    }

    fn play(&self, alloc: Global, flow: Flow) -> Result<String> {
        let mut writer = Stream::new(alloc, flow, &[]);
        let is_whole = play_to(alloc, self.text.as_bytes(), &mut writer)?;
        taken_told(alloc, &writer, is_whole)
    }

    fn run(&self, alloc: Global, from: Flow, to: Flow) -> Result<String> {
        let mut reader = Stream::new(alloc, from, self.text.as_bytes());
        let mut writer = Stream::new(alloc, to, &[]);
        let ending = run(
            alloc,
            &mut reader,
            &mut writer,
            |kind: ServiceKind, config: Text| {
                move |args: &[Text]| kind.reply(alloc, &config, args)
            },
        );
        let told = outcome_told(alloc, ending.outcome)?;
        let taken = str::from_utf8(writer.taken.as_slice())?;
        Ok(format!(in alloc; "{}|{taken}", told.as_str())?)
    }

    /// What a question about the text is answered, by its words.
    fn asked(&self, alloc: Global, what: &str, words: &[&str]) -> Result<String> {
        match what {
            "read" => self.read(alloc, flow_of(words)?),
            "write" => self.write(alloc, flow_of(words)?),
            "play" => self.play(alloc, flow_of(words)?),
            "run" if 2 <= words.len() => {
                self.run(alloc, flow_of(&words[..2])?, flow_of(&words[2..])?)
            }
            _ => bail!("no such question"),
        }
    }

    /// What a question is answered.
    pub fn answer(&mut self, alloc: Global, question: &str) -> Result<String> {
        if let Some(text) = question.strip_prefix("text ") {
            self.text = String::from_str(alloc, text)?;
            return result_of(alloc, "");
        }
        match words_of(alloc, question, ' ')?.as_slice() {
            ["endless", piece] => endless(alloc, number(piece)?),
            ["outcome", outcome @ ..] => outcome_told(alloc, outcome_of(outcome)?),
            [what, words @ ..] => self.asked(alloc, what, words),
            [] => bail!("no question"),
        }
    }
}
