//! What is wrong with a session, in words.

ghost use Rattle.std.specs.Prelude.{ℕ, IfOk, IfNone, OnSome, MatchOption};
ghost use Rattle.tk_route.specs.declared.fault.LineFault.{LineFault as FaultOf};
ghost use Rattle.tk_session.specs.Session.{HasFault, IsSession, Plan};

use crate::keys::serving_key;
use crate::nearest::{is_known, nearest, next};
use std::alloc::{AllocError, Global};
use tk_base::Keysym;
use tk_session::{LineFault, SessionFault, read_session};

/// What a line of a session is to be.
#[derive(Clone, Copy)]
enum Spot {
    Heading,
    /// An application's first line, or `events`.
    Block,
    /// A line of an alias, or the script line.
    Script,
    /// One of so many lines of a script, which a script line counts.
    Text { left: u64, counted_at: usize },
    Event,
    Behind,
}

/// What the next line is to be, after a line of this number.
fn after(spot: Spot, number: usize, line: &str) -> Spot {
    match spot {
        Spot::Heading => Spot::Block,
        Spot::Block if line == "events" => Spot::Event,
        Spot::Block => Spot::Script,
        Spot::Script => match line.strip_prefix("script ") {
            None => Spot::Script,
            Some(count) => match count.parse::<u64>() {
                Ok(0) | Err(_) => Spot::Block,
                Ok(left) => Spot::Text {
                    left,
                    counted_at: number,
                },
            },
        },
        Spot::Text { left, counted_at } if left > 1 => Spot::Text {
            left: left.saturating_sub(1),
            counted_at,
        },
        Spot::Text { .. } => Spot::Block,
        Spot::Event if line.ends_with(" end") => Spot::Behind,
        Spot::Event => Spot::Event,
        Spot::Behind => Spot::Behind,
    }
}

/// What stands at a line of a session: what it is to be, the script line before it, and the line itself where there is one.
#[derive(Drop)]
struct Stand<'a> {
    spot: Spot,
    /// The number of the last script line before it.
    counted_at: usize,
    line: Option<&'a str>,
}

fn stand_at<'a>(text: &'a str, wanted: usize) -> Stand<'a> {
    let mut spot = Spot::Heading;
    let mut counted_at = 0usize;
    let mut number = 0usize;
    for line in text.split_terminator('\n') {
        number = number.saturating_add(1);
        if number == wanted {
            return Stand {
                spot,
                counted_at,
                line: Some(line),
            };
        }
        if let Spot::Script = spot {
            counted_at = number;
        }
        spot = after(spot, number, line);
    }
    Stand {
        spot,
        counted_at,
        line: None,
    }
}

/// What a line is to be.
fn wanted_at(spot: Spot) -> &'static str {
    match spot {
        Spot::Heading => "tkhost 1 or tkhost 2",
        Spot::Block => {
            "app NAME X Y WIDTH HEIGHT BUDGET, or events. X and Y are 0 to 32767, WIDTH and HEIGHT 1 to 32767, BUDGET 0 to 10000000, in format \
             2 also TOTAL/REFILL; NAME is a letter and then letters, digits and _, 32 at most"
        }
        Spot::Script => {
            "alias COMMAND KIND CONFIG, or script COUNT. KIND is const, upper, sum, table or fail; COUNT is how many lines the script has"
        }
        Spot::Text { .. } => "a line of a script, which is UTF-8 and has 65536 bytes at most",
        Spot::Event => {
            "MOMENT and one of move X Y, press BUTTON, release BUTTON, keydown KEY, keyup KEY, focus NAME, focus -, in format 2 rect NAME X Y \
             WIDTH HEIGHT, and end. MOMENT is milliseconds, a button 1 to 5"
        }
        Spot::Behind => "nothing: the end line is the last one",
    }
}

const WORDS: [&str; 8] = [
    "move", "press", "release", "keydown", "keyup", "focus", "rect", "end",
];

/// What a line of an event has wrong, where it can be said.
fn event_hint(alloc: Global, line: &str) -> Result<String, AllocError> {
    let Some((moment, rest)) = line.split_once(' ') else {
        return String::from_str(alloc, "");
    };
    if moment.parse::<u64>().is_err() {
        return format!(in alloc; " It begins with {moment}, which is no moment.");
    }
    let (word, field) = next(rest);
    word_hint(alloc, word, field)
}

/// What the word of an event and the field behind it have wrong, where it can be said.
fn word_hint(alloc: Global, word: &str, field: &str) -> Result<String, AllocError> {
    if (word == "keydown" || word == "keyup") && Keysym::named(field).is_none() {
        return key_hint(alloc, field);
    }
    if is_known(word, WORDS.as_slice()) {
        return String::from_str(alloc, "");
    }
    no_word(alloc, word)
}

/// That no key has a name.
fn key_hint(alloc: Global, name: &str) -> Result<String, AllocError> {
    let serves = serving_key(alloc, name)?;
    format!(in alloc; " There is no key {name}: {}", serves.as_str())
}

/// That no line has a word.
fn no_word(alloc: Global, word: &str) -> Result<String, AllocError> {
    match nearest(alloc, word, WORDS.as_slice())? {
        Some(near) => format!(in alloc; " There is no {word}: did you mean {near}?"),
        None => format!(in alloc; " There is no {word}."),
    }
}

/// What a line has wrong that looks right.
fn unseen(line: &str) -> &'static str {
    if line.ends_with('\r') {
        " It ends with a carriage return (CRLF): a session's lines end with a line feed alone."
    } else if line.starts_with('\u{feff}') {
        " It begins with a byte order mark, which a session hasn't."
    } else if line.is_empty() {
        " It is empty: a session has no blank lines."
    } else if line.contains("  ") {
        " It has two blanks side by side: fields are separated by one."
    } else if line.starts_with('#') {
        " It looks like a comment: a session has none."
    } else if line.ends_with(' ') {
        " It ends with a blank."
    } else {
        ""
    }
}

/// Why a line may be none of its place.
fn hint(alloc: Global, found: &Stand<'_>, line: &str) -> Result<String, AllocError> {
    let plain = unseen(line);
    match found.spot {
        Spot::Block if found.counted_at > 0 && !line.starts_with("app ") => {
            format!(in alloc;
                " If it is of a script, the count in line {} is too short.{plain}",
                found.counted_at
            )
        }
        _ if !plain.is_empty() => String::from_str(alloc, plain),
        Spot::Event => event_hint(alloc, line),
        _ => String::from_str(alloc, ""),
    }
}

/// What is wrong with a line that isn't what is wanted in its place.
fn bad_line(alloc: Global, number: usize, found: &Stand<'_>) -> Result<String, AllocError> {
    let wanted = wanted_at(found.spot);
    match found.line {
        Some(line) => {
            let hint = hint(alloc, found, line)?;
            format!(in alloc;
                "line {number} is: {line}\nHere stands {wanted}.{}\n",
                hint.as_str()
            )
        }
        None => {
            let script = match found.spot {
                Spot::Text { left, counted_at } => {
                    format!(in alloc;
                        " The script counted in line {counted_at} lacks {left} lines: is the count too long?"
                    )?
                }
                _ => String::new(alloc),
            };
            format!(in alloc;
                "line {number} isn't there: the text ends too soon. Here stands {wanted}.{}\n",
                script.as_str()
            )
        }
    }
}

fn fault_words(fault: LineFault) -> &'static str {
    match fault {
        // those of a host are none of a session
        LineFault::BadLine | LineFault::Started | LineFault::Ended | LineFault::Broken => {
            "it isn't what stands in its place"
        }
        LineFault::Overlap => "its rectangle shares a pixel with that of an application above",
        LineFault::TimeBack => "its moment is before that of the line above",
        LineFault::NoApp => "no application has this name",
        LineFault::TooManyApps =>
            "it is the seventeenth application, and a session has sixteen at most",
        LineFault::NameTaken =>
            "its name is that of an application, or of an alias of the same application, above",
        LineFault::RectOverlap =>
            "its rectangle shares a pixel with another application at that moment",
    }
}

fn told(alloc: Global, text: &str, fault: LineFault, line: usize) -> Result<String, AllocError> {
    let found = stand_at(text, line);
    if let LineFault::BadLine = fault {
        return bad_line(alloc, line, &found);
    }
    let words = fault_words(fault);
    format!(in alloc; "line {line} is: {}\n{words}.\n", found.line.unwrap_or(""))
}

/// The first fault of a text, with its line, counted from 1; nothing where the text is a session.
fn fault_of(alloc: Global, bytes: &[u8]) -> Result<Option<(LineFault, usize)>, AllocError>
    ensures { IfOk result (λ found. MatchOption found ((plan : Plan) × IsSession bytes.now plan) (λ fault. HasFault bytes.now fault.0 fault.1)) }
{
    match read_session(alloc, bytes) {
        Ok(_) => Ok(None),
        Err(SessionFault::NoMemory) => Err(AllocError),
        Err(SessionFault::Refused { fault, line }) => Ok(Some((fault, line))),
    }
}

/// What is wrong in a line of a text, in words.
fn words_of(
    alloc: Global,
    bytes: &[u8],
    fault: LineFault,
    line: usize,
) -> Result<String, AllocError> {
    let number = fault.number();
    match std::str::from_utf8(bytes) {
        Ok(text) => {
            let words = told(alloc, text, fault, line)?;
            format!(in alloc; "fault {number}, {}", words.as_str())
        }
        Err(_) => format!(in alloc; "fault {number}, line {line}: the text isn't UTF-8\n"),
    }
}

/// What is wrong with a session, in words, with its number and its line; nothing where it is one. An error where memory is refused.
pub fn explained(alloc: Global, bytes: &[u8]) -> Result<Option<String>, AllocError>
    ensures session { IfOk result (λ words. IfNone words ((plan : Plan) × IsSession bytes.now plan)) }
    ensures faulty { IfOk result (λ words. OnSome words ((fault : FaultOf) × (line : ℕ) × HasFault bytes.now fault line)) }
{
    match fault_of(alloc, bytes)? {
        None => Ok(None),
        Some((fault, line)) => Ok(Some(words_of(alloc, bytes, fault, line)?)),
    }
}
