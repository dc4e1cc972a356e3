//! The words of the command line.

ghost use Rattle.std.specs.Prelude.{◌≡◌, true, IfOk, IfSome, Some};
ghost use Rattle.panels_text.specs.CommandLine.{command_at, command_named, is_fit};

use crate::failure::{Failure, fault};
use crate::nearest::serving;
use crate::shards::{Shard, shard_named};
use std::alloc::Global;

/// What is to be done.
#[derive(Clone, Copy, Debug, PartialEq, Eq)]
pub enum Command {
    Check,
    Run,
    Session,
    Accept,
    New,
    Explain,
    Lint,
    Live,
    Draw,
    Show,
}

/// How the verdicts of a check are written.
#[derive(Clone, Copy, Debug, PartialEq, Eq)]
pub enum Format {
    Text,
    Tap,
    Junit,
    Json,
}

/// What is to be done, with which files.
#[derive(Drop)]
pub struct Options {
    pub command: Command,
    pub files: Vec<String>,
    pub format: Format,
    /// The share of the benches that is played, where one is said.
    pub shard: Option<Shard>,
    /// Whether each panel is played beside other neighbours too.
    pub isolates: bool,
    /// Whether a run tells what happens, moment by moment.
    pub traces: bool,
    /// The moment that is drawn, in milliseconds.
    pub at: Option<u64>,
    /// The file that is written.
    pub to: Option<String>,
}

/// A word that says how a command is done.
#[derive(Clone, Copy, Debug, PartialEq, Eq)]
enum Flag {
    Format,
    Shard,
    Isolate,
    Trace,
    At,
    To,
}

const FLAGS: [&str; 6] = [
    "--format",
    "--shard",
    "--isolate",
    "--trace",
    "--at",
    "--to",
];

const FORMATS: [&str; 4] = ["text", "tap", "junit", "json"];

fn command_of(word: &str) -> Option<Command>
    ensures { result ≡ command_named word.now }
{
    match word {
        "check" => Some(Command::Check),
        "run" => Some(Command::Run),
        "session" => Some(Command::Session),
        "accept" => Some(Command::Accept),
        "new" => Some(Command::New),
        "explain" => Some(Command::Explain),
        "lint" => Some(Command::Lint),
        "live" => Some(Command::Live),
        "draw" => Some(Command::Draw),
        "show" => Some(Command::Show),
        _ => None,
    }
}

fn flag_of(word: &str) -> Option<Flag> {
    match word {
        "--format" => Some(Flag::Format),
        "--shard" => Some(Flag::Shard),
        "--isolate" => Some(Flag::Isolate),
        "--trace" => Some(Flag::Trace),
        "--at" => Some(Flag::At),
        "--to" => Some(Flag::To),
        _ => None,
    }
}

fn format_of(word: &str) -> Option<Format> {
    match word {
        "text" => Some(Format::Text),
        "tap" => Some(Format::Tap),
        "junit" => Some(Format::Junit),
        "json" => Some(Format::Json),
        _ => None,
    }
}

/// That the command line has a word that isn't there, and what would serve.
fn unknown(alloc: Global, what: &str, word: &str, known: &[&str]) -> Result<Failure, Failure> {
    let serves = serving(alloc, word, known)?;
    let words = format!(in alloc; "there is no {what} {word}: {serves}")?;
    Ok(fault(alloc, "panels", 0, words.as_str()))
}

/// Takes the value of a flag.
fn take_value(alloc: Global, options: &mut Options, flag: Flag, word: &str) -> Result<(), Failure>
    ensures { options.new.command ≡ options.old.command }
{
    match flag {
        Flag::Format => match format_of(word) {
            Some(format) => options.format = format,
            None => return Err(unknown(alloc, "format", word, FORMATS.as_slice())?),
        },
        Flag::Shard => match shard_named(word) {
            Some(shard) => options.shard = Some(shard),
            None => {
                let words = "--shard wants the number of a share and how many there are, as 1/4";
                return Err(fault(alloc, "panels", 0, words));
            }
        },
        Flag::At => match word.parse::<u64>() {
            Ok(moment) => options.at = Some(moment),
            Err(_) => {
                let words = "--at wants a moment in milliseconds, as 300";
                return Err(fault(alloc, "panels", 0, words));
            }
        },
        Flag::To => options.to = Some(String::from_str(alloc, word)?),
        Flag::Isolate | Flag::Trace => {}
    }
    Ok(())
}

/// Takes a word of the command line, and answers the flag whose value comes next.
fn take(alloc: Global, options: &mut Options, word: &str) -> Result<Option<Flag>, Failure>
    ensures { options.new.command ≡ options.old.command }
{
    if !word.starts_with("--") {
        options.files.push(String::from_str(alloc, word)?)?;
        return Ok(None);
    }
    match flag_of(word) {
        Some(Flag::Isolate) => {
            options.isolates = true;
            Ok(None)
        }
        Some(Flag::Trace) => {
            options.traces = true;
            Ok(None)
        }
        Some(flag) => Ok(Some(flag)),
        None => Err(unknown(alloc, "option", word, FLAGS.as_slice())?),
    }
}

/// Whether a command has as many files as it wants, and no flag that isn't its own.
fn is_fit(options: &Options) -> bool
    ensures { result ≡ is_fit options.now }
{
    let count = options.files.len();
    let is_told_otherwise = !matches!(options.format, Format::Text);
    let checks = is_told_otherwise || options.shard.is_some() || options.isolates;
    let (draws, writes) = (options.at.is_some(), options.to.is_some());
    let is_plain = !checks && !options.traces;
    match options.command {
        Command::Check => count >= 1 && !options.traces && !draws && !writes,
        Command::Accept | Command::Lint => count >= 1 && is_plain && !draws && !writes,
        Command::Live => count == 0 && is_plain && !draws && !writes,
        Command::Draw => count == 1 && is_plain && draws && writes,
        Command::Show => count == 1 && is_plain && !draws && writes,
        Command::Run => count == 1 && !checks && !draws && !writes,
        Command::Session | Command::New | Command::Explain => {
            count == 1 && is_plain && !draws && !writes
        }
    }
}

/// Takes the words behind the command; nothing where they are none that can be followed.
fn taken(alloc: Global, mut options: Options, words: &[String]) -> Result<Option<Options>, Failure>
    ensures command { IfOk result (λ found. IfSome found (λ taken. taken.command ≡ options.command)) }
    ensures fit { IfOk result (λ found. IfSome found (λ taken. is_fit taken ≡ true)) }
{
    let mut waiting = None;
    for word in words {
        waiting = match waiting {
            Some(flag) => {
                take_value(alloc, &mut options, flag, word.as_str())?;
                None
            }
            None => take(alloc, &mut options, word.as_str())?,
        };
    }
    if waiting.is_none() && is_fit(&options) {
        Ok(Some(options))
    } else {
        Ok(None)
    }
}

/// What the words of the command line ask for, the program's name the first of them; nothing where they are none that can be followed.
pub fn options_of(alloc: Global, words: &[String]) -> Result<Option<Options>, Failure>
    ensures command { IfOk result (λ found. IfSome found (λ options. command_at words.now ≡ Some options.command)) }
    ensures fit { IfOk result (λ found. IfSome found (λ options. is_fit options ≡ true)) }
{
    let [_, first, rest @ ..] = words else {
        return Ok(None);
    };
    let Some(command) = command_of(first.as_str()) else {
        return Ok(None);
    };
    let options = Options {
        command,
        files: Vec::new(alloc),
        format: Format::Text,
        shard: None,
        isolates: false,
        traces: false,
        at: None,
        to: None,
    };
    taken(alloc, options, rest)
}
