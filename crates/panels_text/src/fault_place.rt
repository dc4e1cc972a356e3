//! Where a script that can't be read is at fault.

ghost use Rattle.std.specs.Prelude.{◌≡◌, ◌==◌, IfOk};
ghost use Rattle.std.specs.List.{suffix_len};
ghost use Rattle.std.specs.String.{string_bytes};
ghost use Rattle.panels_text.specs.Unread.{at_end, brace_of, fault_of, goes_on, lasting, may_close, misread, misread_at, misread_in, most_words, stands, unclosed_words, whole_words};

use crate::calls::Unread;
use crate::indents::displaced;
use crate::texts::byte_lines;
use std::alloc::{AllocError, Global};
use tcl_text::ParseFault;
use tcl_words::parse;

/// How a text stands behind a line.
#[derive(Clone, Copy, Drop)]
enum Standing {
    /// Nothing is open: a command begins with the next line.
    Whole,
    /// It has no fault, and its last line goes on in the next one.
    GoesOn,
    /// It has this fault.
    Faulty(ParseFault),
}

/// How far a script is read, line by line.
#[derive(Drop)]
struct Front {
    /// The number of the next line.
    number: usize,
    /// The line with which the last command begins.
    begun_at: usize,
    /// What stands of that command.
    text: Vec<u8>,
    /// How that stands.
    last: Standing,
}

/// Whether what lacks may come in a later line.
fn may_close(fault: &ParseFault) -> bool
    ensures { result ≡ may_close fault.now }
{
    matches!(
        fault,
        ParseFault::MissingBrace
            | ParseFault::MissingBracket
            | ParseFault::MissingQuote
            | ParseFault::MissingParen
    )
}

/// Why a text is no script; nothing where it is one.
#[tactic(auto, unfolding(crate::specs::Unread::fault_of))]
fn fault_of(alloc: Global, text: &[u8]) -> Result<Option<ParseFault>, AllocError>
    ensures { IfOk result (λ found. found ≡ fault_of text.now) }
{
    match parse(alloc, text) {
        Ok(_) => Ok(None),
        Err(ParseFault::NoMemory) => Err(AllocError),
        Err(fault) => Ok(Some(fault)),
    }
}

/// How many backslashes a line ends with.
fn backslashes(row: &[u8]) -> usize
    ensures { result ≡ suffix_len (λ byte. byte == 92) row.now }
{
    row.iter().rev().take_while(|byte| **byte == b'\\').count()
}

/// Whether a line goes on in the next one.
fn goes_on(row: &[u8]) -> bool
    ensures { result ≡ goes_on row.now }
{
    backslashes(row) % 2 == 1
}

/// How a text with this fault stands, whose last line goes on or not.
fn stands(on: bool, fault: Option<ParseFault>) -> Standing
    ensures { result ≡ stands on fault }
{
    match fault {
        Some(fault) => Standing::Faulty(fault),
        None => if on {
            Standing::GoesOn
        } else {
            Standing::Whole
        },
    }
}

/// A fault that no later line mends.
fn lasting(standing: Standing) -> Option<ParseFault>
    ensures { result ≡ lasting standing }
{
    match standing {
        Standing::Faulty(fault) => if may_close(&fault) { None } else { Some(fault) },
        _ => None,
    }
}

/// A fault in words.
fn fault_at(alloc: Global, line: usize, fault: &ParseFault) -> Result<Unread, AllocError>
    ensures { IfOk result (λ told. misread told ≡ misread_at line fault.now) }
{
    let fault = String::from_str(alloc, fault.text())?;
    Ok(Unread { line, fault })
}

/// The line of the brace that is never closed, by where the lines of a script stand.
fn brace_of(
    alloc: Global,
    fault: &ParseFault,
    first: usize,
    script: &[u8],
) -> Result<Option<usize>, AllocError>
    ensures { IfOk result (λ line. line ≡ brace_of fault.now first script.now) }
{
    match fault {
        ParseFault::MissingBrace => displaced(alloc, script, first),
        _ => Ok(None),
    }
}

/// What a command opens and never closes; of a brace, by where the lines stand, which one that is.
fn unclosed_words(
    alloc: Global,
    fault: &ParseFault,
    brace: Option<usize>,
) -> Result<String, AllocError>
    ensures { IfOk result (λ text. string_bytes text ≡ unclosed_words fault.now brace) }
{
    let words = fault.text();
    match brace {
        None => format!(in alloc; "{words}: what this command opens is never closed"),
        Some(line) => format!(in alloc;
            "{words}: what this command opens is never closed; by where the lines stand it is the brace of line {line}"
        ),
    }
}

/// That a command, which begins in this line, opens what it never closes.
fn unclosed(
    alloc: Global,
    fault: &ParseFault,
    begun_at: usize,
    first: usize,
    script: &[u8],
) -> Result<Unread, AllocError>
    ensures { IfOk result (λ told. misread told ≡ record { line = begun_at; words = unclosed_words fault.now (brace_of fault.now first script.now) }) }
{
    let brace = brace_of(alloc, fault, first, script)?;
    let fault = unclosed_words(alloc, fault, brace)?;
    Ok(Unread {
        line: begun_at,
        fault,
    })
}

/// What there is to know of a fault that a script has as a whole.
fn most_words(fault: &ParseFault) -> &'static str
    ensures { result.now ≡ most_words fault.now }
{
    match fault {
        ParseFault::TooLong => ": a script has at most 65,536 bytes",
        _ => "",
    }
}

/// The fault of a script as a whole, in words.
fn whole_words(alloc: Global, fault: Option<ParseFault>) -> Result<String, AllocError>
    ensures { IfOk result (λ text. string_bytes text ≡ whole_words fault) }
{
    match fault {
        None => Ok(String::new(alloc)),
        Some(fault) => {
            let (words, most) = (fault.text(), most_words(&fault));
            format!(in alloc; "{words}{most}")
        }
    }
}

/// What is told at the end of a script, whose last command begins in this line.
fn at_end(
    alloc: Global,
    first: usize,
    script: &[u8],
    begun_at: usize,
    last: Standing,
) -> Result<Unread, AllocError>
    ensures { IfOk result (λ told. misread told ≡ at_end first script.now begun_at last) }
{
    match last {
        Standing::Faulty(fault) => unclosed(alloc, &fault, begun_at, first, script),
        _ => {
            let fault = fault_of(alloc, script)?;
            let fault = whole_words(alloc, fault)?;
            Ok(Unread { line: first, fault })
        }
    }
}

impl Front {
    ghost use Rattle.std.specs.Prelude.{◌≡◌, IfNone, IfOk, IfSome};
    ghost use Rattle.panels_text.specs.Places.{later_line};
    ghost use Rattle.panels_text.specs.Unread.{begins_behind, begun, last_or, lasting, standing_at, up_to};

    /// Goes on behind a line up to which the text stands so.
    fn go_on(&mut self, standing: Standing)
        ensures number { self.new.number ≡ later_line self.old.number }
        ensures begun_at { self.new.begun_at ≡ last_or self.old.begun_at (begins_behind self.old.number standing) }
        ensures text { self.new.text.items ≡ begun standing self.old.text.items }
        ensures last { self.new.last ≡ standing }
    {
        self.number = self.number.saturating_add(1);
        self.last = standing;
        match standing {
            Standing::Whole => {
                self.text.clear();
                self.begun_at = self.number;
            }
            _ => {}
        }
    }

    /// Reads a line: the fault that no later one mends.
    fn read(&mut self, alloc: Global, row: &[u8]) -> Result<Option<ParseFault>, AllocError>
        ensures found { IfOk result (λ found. found ≡ lasting (standing_at self.old.text.items row.now)) }
        ensures same { IfOk result (λ found. IfSome found (λ _. self.new.number ≡ self.old.number)) }
        ensures number { IfOk result (λ found. IfNone found (self.new.number ≡ later_line self.old.number)) }
        ensures begun_at { IfOk result (λ found. IfNone found (self.new.begun_at ≡ last_or self.old.begun_at (begins_behind self.old.number (standing_at self.old.text.items row.now)))) }
        ensures text { IfOk result (λ found. IfNone found (self.new.text.items ≡ begun (standing_at self.old.text.items row.now) (up_to self.old.text.items row.now))) }
        ensures last { IfOk result (λ found. IfNone found (self.new.last ≡ standing_at self.old.text.items row.now)) }
    {
        self.text.extend_from_slice(row)?;
        self.text.push(b'\n')?;
        let fault = fault_of(alloc, self.text.as_slice())?;
        let standing = stands(goes_on(row), fault);
        match lasting(standing) {
            Some(found) => Ok(Some(found)),
            None => {
                self.go_on(standing);
                Ok(None)
            }
        }
    }
}

/// Where a script that can't be read is at fault, whose first line is this one: the line up to which what can't be mended stands; or the first one of the
/// command that is never closed; or where nothing is open at the end, this line.
pub(crate) fn fault_place(alloc: Global, script: &[u8], line: usize) -> Result<Unread, AllocError>
    ensures { IfOk result (λ told. misread told ≡ misread_in line script.now) }
{
    let rows = byte_lines(alloc, script)?;
    let mut front = Front {
        number: line,
        begun_at: line,
        text: Vec::new(alloc),
        last: Standing::Whole,
    };
    for row in &rows {
        let found = front.read(alloc, *row)?;
        match found {
            Some(fault) => {
                let told = fault_at(alloc, front.number, &fault)?;
                return Ok(told);
            }
            None => {}
        }
    }
    let told = at_end(alloc, line, script, front.begun_at, front.last)?;
    Ok(told)
}
