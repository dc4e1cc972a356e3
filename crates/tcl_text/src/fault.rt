//! The faults of texts, scripts and variables: the number of each, and what a script is told of it. In place of a text past 65,536 bytes
//! stands that of the limit (4). Refused memory has no number, and its text is empty.
ghost use Rattle.std.specs.Prelude.{◌≡◌, IfOk};
ghost use Rattle.tcl_text.specs.Messages.{message};
ghost use Rattle.tcl_text.specs.Faults as faults;
ghost use Rattle.tcl_text.specs.FaultTexts as texts;
ghost use Rattle.tcl_text.specs.declared.fault.TextFault.TheVariants as text_fault;
ghost use Rattle.tcl_text.specs.declared.fault.SplitFault.TheVariants as split_fault;
ghost use Rattle.tcl_text.specs.declared.fault.EditFault.TheVariants as edit_fault;
ghost use Rattle.tcl_text.specs.declared.fault.ParseFault.TheVariants as parse_fault;
ghost use Rattle.tcl_text.specs.declared.fault.SetFault.TheVariants as set_fault;
ghost use Rattle.tcl_text.specs.declared.fault.ChangeFault.TheVariants as change_fault;
ghost use Rattle.tcl_text.specs.declared.fault.UnsetFault.TheVariants as unset_fault;
ghost use Rattle.tcl_text.specs.declared.fault.LinkFault.TheVariants as link_fault;

use crate::message::{TOO_LONG, about, about_between, bad_name_text, limit};
use crate::text::Text;
use std::alloc::{AllocError, AllocFailed, Global};
use std::fmt::{self, Display, Formatter, Write};
use thiserror::Error;

/// There is no such variable (15).
const NO_VARIABLE: &str = "no such variable";

/// The array has no such element (16).
const NO_ELEMENT: &str = "no such element in array";

/// An array is meant without an index (17).
const IS_ARRAY: &str = "variable is array";

/// An element is meant of what is no array (18).
const NOT_ARRAY: &str = "variable isn't array";

/// What a script is told where there would be more than 4,096 variables (19).
const NO_ROOM: &str = "limit reached: variables";

/// How a fault shows that memory was refused; a script is told nothing of it.
const NO_MEMORY: &str = "out of memory";

// What a fault of this text shows: where it has none, that memory was refused.
fn fault_shown(text: &'static str) -> &'static str
    ensures { result.now ≡ texts.fault_shown text.now }
{
    if text.is_empty() { NO_MEMORY } else { text }
}

/// The text is no integer of 64 bits (1).
#[derive(Clone, Copy, Debug, PartialEq, Eq, Drop, Error)]
#[error("expected integer")]
pub struct NotInteger;

impl NotInteger {
    /// Its number.
    pub fn number(&self) -> u32
        ensures { result ≡ faults.not_integer_number }
    {
        1
    }

    /// That the word is no integer, as its script is told of it; the text of the limit (4) stands in place of one past 65,536 bytes.
    pub fn text(&self, alloc: Global, word: &str) -> Result<Text, AllocError>
        ensures { IfOk result (λ text. text ≡ message (texts.integer_text word.now)) }
    {
        about(alloc, "expected integer but got ", word)
    }
}

/// The text is no boolean (2).
#[derive(Clone, Copy, Debug, PartialEq, Eq, Drop, Error)]
#[error("expected boolean value")]
pub struct NotBoolean;

impl NotBoolean {
    /// Its number.
    pub fn number(&self) -> u32
        ensures { result ≡ faults.not_boolean_number }
    {
        2
    }

    /// That the word is no boolean, as its script is told of it; the text of the limit (4) stands in place of one past 65,536 bytes.
    pub fn text(&self, alloc: Global, word: &str) -> Result<Text, AllocError>
        ensures { IfOk result (λ text. text ≡ message (texts.boolean_text word.now)) }
    {
        about(alloc, "expected boolean value but got ", word)
    }
}

/// How a text fails to be a list (3).
#[derive(Clone, Copy, Debug, PartialEq, Eq, Drop, Error)]
pub enum ListFault {
    /// A brace that opens an element isn't closed.
    OpenBrace,
    /// A quote that opens an element isn't closed.
    OpenQuote,
    /// Something other than white space follows a closing brace or quote.
    ExtraCharacters,
}

impl ListFault {
    /// Its number.
    pub fn number(&self) -> u32
        ensures { result ≡ faults.bad_list_number }
    {
        3
    }

    /// The fault as a script is told of it.
    pub fn text(&self) -> &'static str
        ensures { result.now ≡ texts.list_text self.now }
    {
        match self {
            ListFault::OpenBrace => "unmatched open brace in list",
            ListFault::OpenQuote => "unmatched open quote in list",
            ListFault::ExtraCharacters => "extra characters after list element",
        }
    }

    /// The same as a text of its own.
    #[tactic(auto, unfolding(crate::specs::Messages::bounded))]
    pub fn told(&self, alloc: Global) -> Result<Text, AllocError>
        ensures { IfOk result (λ text. text ≡ message (texts.list_text self.now)) }
    {
        let characters = self.text();
        Text::of_message(alloc, characters)
    }
}

impl Display for ListFault {
    fn fmt<W: Write>(&self, formatter: &mut Formatter<W>) -> fmt::Result {
        formatter.write_str(self.text())
    }
}

/// Why a text was not made.
#[derive(Clone, Copy, Debug, PartialEq, Eq, Drop, Error)]
pub enum TextFault {
    /// The value would pass 65,536 bytes (4).
    TooLong,
    /// Memory was refused.
    NoMemory,
}

impl TextFault {
    /// Its number; none where memory was refused.
    pub fn number(&self) -> Option<u32>
        ensures { result ≡ faults.text_number self.now }
    {
        match self {
            TextFault::TooLong => Some(4),
            TextFault::NoMemory => None,
        }
    }

    /// The fault as a script is told of it; the text of the limit (4) stands in place of a value past 65,536 bytes. Refused memory has no such
    /// text: it is empty.
    pub fn text(&self) -> &'static str
        ensures { result.now ≡ texts.value_text self.now }
    {
        match self {
            TextFault::TooLong => TOO_LONG,
            TextFault::NoMemory => "",
        }
    }
}

impl Display for TextFault {
    fn fmt<W: Write>(&self, formatter: &mut Formatter<W>) -> fmt::Result {
        formatter.write_str(fault_shown(self.text()))
    }
}

impl From<AllocError> for TextFault {
    ghost from_gives = { λ _ e. e ≡ text_fault.NoMemory };

    fn from(_refused: AllocError) -> TextFault {
        TextFault::NoMemory
    }
}

impl<T: Drop> From<AllocFailed<T>> for TextFault {
    ghost from_gives = { λ _ e. e ≡ text_fault.NoMemory };

    fn from(_refused: AllocFailed<T>) -> TextFault {
        TextFault::NoMemory
    }
}

/// Why a text was not split.
#[derive(Clone, Copy, Debug, PartialEq, Eq, Drop, Error)]
pub enum SplitFault {
    /// The text is no list (3).
    BadList(ListFault),
    /// Memory was refused.
    NoMemory,
}

impl SplitFault {
    /// Its number; none where memory was refused.
    pub fn number(&self) -> Option<u32>
        ensures { result ≡ faults.split_number self.now }
    {
        match self {
            SplitFault::BadList(fault) => Some(fault.number()),
            SplitFault::NoMemory => None,
        }
    }

    /// The fault as a script is told of it. Refused memory has no such text: it is empty.
    pub fn text(&self) -> &'static str
        ensures { result.now ≡ texts.split_fault_text self.now }
    {
        match self {
            SplitFault::BadList(fault) => fault.text(),
            SplitFault::NoMemory => "",
        }
    }
}

impl Display for SplitFault {
    fn fmt<W: Write>(&self, formatter: &mut Formatter<W>) -> fmt::Result {
        formatter.write_str(fault_shown(self.text()))
    }
}

impl From<AllocError> for SplitFault {
    ghost from_gives = { λ _ e. e ≡ split_fault.NoMemory };

    fn from(_refused: AllocError) -> SplitFault {
        SplitFault::NoMemory
    }
}

/// Why a text isn't changed.
#[derive(Clone, Copy, Debug, PartialEq, Eq, Drop, Error)]
pub enum EditFault {
    /// The value would pass 65,536 bytes (4).
    TooLong,
    /// It is no list (3).
    BadList(ListFault),
    /// Memory was refused.
    NoMemory,
}

impl EditFault {
    /// Its number; none where memory was refused.
    pub fn number(&self) -> Option<u32>
        ensures { result ≡ faults.edit_number self.now }
    {
        match self {
            EditFault::TooLong => Some(4),
            EditFault::BadList(fault) => Some(fault.number()),
            EditFault::NoMemory => None,
        }
    }

    /// The fault as a script is told of it; the text of the limit (4) stands in place of a value past 65,536 bytes. Refused memory has no such
    /// text: it is empty.
    pub fn text(&self) -> &'static str
        ensures { result.now ≡ texts.edit_text self.now }
    {
        match self {
            EditFault::TooLong => TOO_LONG,
            EditFault::BadList(fault) => fault.text(),
            EditFault::NoMemory => "",
        }
    }
}

impl Display for EditFault {
    fn fmt<W: Write>(&self, formatter: &mut Formatter<W>) -> fmt::Result {
        formatter.write_str(fault_shown(self.text()))
    }
}

impl From<AllocError> for EditFault {
    ghost from_gives = { λ _ e. e ≡ edit_fault.NoMemory };

    fn from(_refused: AllocError) -> EditFault {
        EditFault::NoMemory
    }
}

/// Why a text is no script (Tcl(n)).
#[derive(Clone, Copy, Debug, PartialEq, Eq, Drop, Error)]
pub enum ParseFault {
    /// More than 65,536 bytes, bytes that are not UTF-8, or brackets and indices more than 200 deep (4).
    TooLong,
    /// A word in braces never ends, or a variable's name in braces (5).
    MissingBrace,
    /// A bracketed script never ends (6).
    MissingBracket,
    /// A word in quotes never ends (7).
    MissingQuote,
    /// Something follows the brace that ends a word (8).
    ExtraAfterBrace,
    /// Something follows the quote that ends a word (9).
    ExtraAfterQuote,
    /// The index of an element never ends (10).
    MissingParen,
    /// Memory was refused.
    NoMemory,
}

impl ParseFault {
    /// Its number; none where memory was refused.
    pub fn number(&self) -> Option<u32>
        ensures { result ≡ faults.parse_number self.now }
    {
        match self {
            ParseFault::TooLong => Some(4),
            ParseFault::MissingBrace => Some(5),
            ParseFault::MissingBracket => Some(6),
            ParseFault::MissingQuote => Some(7),
            ParseFault::ExtraAfterBrace => Some(8),
            ParseFault::ExtraAfterQuote => Some(9),
            ParseFault::MissingParen => Some(10),
            ParseFault::NoMemory => None,
        }
    }

    /// The fault as an application is told of it; the text of the limit (4) stands in place of a script past 65,536 bytes, or nested too deep.
    /// Refused memory has no such text: it is empty.
    pub fn text(&self) -> &'static str
        ensures { result.now ≡ texts.parse_text self.now }
    {
        match self {
            ParseFault::TooLong => TOO_LONG,
            ParseFault::MissingBrace => "missing close-brace",
            ParseFault::MissingBracket => "missing close-bracket",
            ParseFault::MissingQuote => "missing \"",
            ParseFault::ExtraAfterBrace => "extra characters after close-brace",
            ParseFault::ExtraAfterQuote => "extra characters after close-quote",
            ParseFault::MissingParen => "missing )",
            ParseFault::NoMemory => "",
        }
    }

    /// The same as a text of its own.
    #[tactic(auto, unfolding(crate::specs::Messages::bounded))]
    pub fn told(&self, alloc: Global) -> Result<Text, AllocError>
        ensures { IfOk result (λ text. text ≡ message (texts.parse_text self.now)) }
    {
        Text::of_message(alloc, self.text())
    }
}

impl Display for ParseFault {
    fn fmt<W: Write>(&self, formatter: &mut Formatter<W>) -> fmt::Result {
        formatter.write_str(fault_shown(self.text()))
    }
}

impl From<AllocError> for ParseFault {
    ghost from_gives = { λ _ e. e ≡ parse_fault.NoMemory };

    fn from(_refused: AllocError) -> ParseFault {
        ParseFault::NoMemory
    }
}

impl<T: Drop> From<AllocFailed<T>> for ParseFault {
    ghost from_gives = { λ _ e. e ≡ parse_fault.NoMemory };

    fn from(_refused: AllocFailed<T>) -> ParseFault {
        ParseFault::NoMemory
    }
}

/// Why a variable can't be read.
#[derive(Clone, Copy, Debug, PartialEq, Eq, Drop, Error)]
pub enum ReadFault {
    /// There is no such variable (15).
    NoVariable,
    /// The array has no such element (16).
    NoElement,
    /// An array is read without an index (17).
    IsArray,
    /// An element is meant of what is no array (18).
    NotArray,
}

impl ReadFault {
    /// Its number.
    pub fn number(&self) -> u32
        ensures { result ≡ faults.read_number self.now }
    {
        match self {
            ReadFault::NoVariable => 15,
            ReadFault::NoElement => 16,
            ReadFault::IsArray => 17,
            ReadFault::NotArray => 18,
        }
    }

    fn reason(&self) -> &'static str
        ensures { result.now ≡ texts.read_reason self.now }
    {
        match self {
            ReadFault::NoVariable => NO_VARIABLE,
            ReadFault::NoElement => NO_ELEMENT,
            ReadFault::IsArray => IS_ARRAY,
            ReadFault::NotArray => NOT_ARRAY,
        }
    }

    /// Why the variable of this name can't be read, as its script is told of it; the text of the limit (4) stands in place of one past
    /// 65,536 bytes.
    pub fn text(&self, alloc: Global, name: &str) -> Result<Text, AllocError>
        ensures { IfOk result (λ text. text ≡ message (texts.read_text name.now self.now)) }
    {
        cannot(alloc, "read", name, self.reason())
    }
}

impl Display for ReadFault {
    fn fmt<W: Write>(&self, formatter: &mut Formatter<W>) -> fmt::Result {
        formatter.write_str(self.reason())
    }
}

/// Why a variable can't be set.
#[derive(Clone, Copy, Debug, PartialEq, Eq, Drop, Error)]
pub enum SetFault {
    /// An array is set without an index (17).
    IsArray,
    /// An element is meant of what is no array (18).
    NotArray,
    /// There would be more than 4,096 variables: each name of a frame counts one, and each element of an array one more (19).
    Full,
    /// Memory was refused.
    NoMemory,
}

impl SetFault {
    /// Its number; none where memory was refused.
    pub fn number(&self) -> Option<u32>
        ensures { result ≡ faults.set_number self.now }
    {
        match self {
            SetFault::IsArray => Some(17),
            SetFault::NotArray => Some(18),
            SetFault::Full => Some(19),
            SetFault::NoMemory => None,
        }
    }

    // What it shows.
    fn reason(&self) -> &'static str
        ensures { result.now ≡ texts.set_reason self.now }
    {
        match self {
            SetFault::IsArray => IS_ARRAY,
            SetFault::NotArray => NOT_ARRAY,
            SetFault::Full => NO_ROOM,
            SetFault::NoMemory => NO_MEMORY,
        }
    }

    /// Why the variable of this name can't be set, as its script is told of it; the text of the limit (4) stands in place of one past
    /// 65,536 bytes. Refused memory has no such text: it is empty.
    pub fn text(&self, alloc: Global, name: &str) -> Result<Text, AllocError>
        ensures { IfOk result (λ text. text ≡ message (texts.set_text name.now self.now)) }
    {
        match self {
            SetFault::Full => Text::of_short(alloc, NO_ROOM),
            SetFault::NoMemory => Ok(Text::empty()),
            _ => cannot(alloc, "set", name, self.reason()),
        }
    }
}

impl Display for SetFault {
    fn fmt<W: Write>(&self, formatter: &mut Formatter<W>) -> fmt::Result {
        formatter.write_str(self.reason())
    }
}

impl From<AllocError> for SetFault {
    ghost from_gives = { λ _ e. e ≡ set_fault.NoMemory };

    fn from(_refused: AllocError) -> SetFault {
        SetFault::NoMemory
    }
}

/// Why the text of a variable can't be changed.
#[derive(Clone, Copy, Debug, PartialEq, Eq, Drop, Error)]
pub enum ChangeFault {
    /// It can't be read (15 to 18).
    Unread(ReadFault),
    /// The value would pass 65,536 bytes (4).
    TooLong,
    /// It is no list (3).
    BadList(ListFault),
    /// Memory was refused.
    NoMemory,
}

impl ChangeFault {
    /// Its number; none where memory was refused.
    pub fn number(&self) -> Option<u32>
        ensures { result ≡ faults.change_number self.now }
    {
        match self {
            ChangeFault::Unread(fault) => Some(fault.number()),
            ChangeFault::TooLong => Some(4),
            ChangeFault::BadList(_) => Some(3),
            ChangeFault::NoMemory => None,
        }
    }

    // What it shows.
    fn reason(&self) -> &'static str
        ensures { result.now ≡ texts.change_reason self.now }
    {
        match self {
            ChangeFault::Unread(fault) => fault.reason(),
            ChangeFault::TooLong => TOO_LONG,
            ChangeFault::BadList(fault) => fault.text(),
            ChangeFault::NoMemory => NO_MEMORY,
        }
    }

    /// Why the variable of this name can't be changed, as its script is told of it; the text of the limit (4) stands in place of one past
    /// 65,536 bytes, and of a value past them. Refused memory has no such text: it is empty.
    pub fn text(&self, alloc: Global, name: &str) -> Result<Text, AllocError>
        ensures { IfOk result (λ text. text ≡ message (texts.change_text name.now self.now)) }
    {
        match self {
            ChangeFault::Unread(fault) => fault.text(alloc, name),
            ChangeFault::TooLong => limit(alloc),
            ChangeFault::BadList(fault) => fault.told(alloc),
            ChangeFault::NoMemory => Ok(Text::empty()),
        }
    }
}

impl Display for ChangeFault {
    fn fmt<W: Write>(&self, formatter: &mut Formatter<W>) -> fmt::Result {
        formatter.write_str(self.reason())
    }
}

impl From<AllocError> for ChangeFault {
    ghost from_gives = { λ _ e. e ≡ change_fault.NoMemory };

    fn from(_refused: AllocError) -> ChangeFault {
        ChangeFault::NoMemory
    }
}

/// Why a variable can't be unset.
#[derive(Clone, Copy, Debug, PartialEq, Eq, Drop, Error)]
pub enum UnsetFault {
    /// There is no such variable (15).
    NoVariable,
    /// The array has no such element (16).
    NoElement,
    /// An element is meant of what is no array (18).
    NotArray,
    /// Memory was refused.
    NoMemory,
}

impl UnsetFault {
    /// Its number; none where memory was refused.
    pub fn number(&self) -> Option<u32>
        ensures { result ≡ faults.unset_number self.now }
    {
        match self {
            UnsetFault::NoVariable => Some(15),
            UnsetFault::NoElement => Some(16),
            UnsetFault::NotArray => Some(18),
            UnsetFault::NoMemory => None,
        }
    }

    // What it shows.
    fn reason(&self) -> &'static str
        ensures { result.now ≡ texts.unset_reason self.now }
    {
        match self {
            UnsetFault::NoVariable => NO_VARIABLE,
            UnsetFault::NoElement => NO_ELEMENT,
            UnsetFault::NotArray => NOT_ARRAY,
            UnsetFault::NoMemory => NO_MEMORY,
        }
    }

    /// Why the variable of this name can't be unset, as its script is told of it; the text of the limit (4) stands in place of one past
    /// 65,536 bytes. Refused memory has no such text: it is empty.
    pub fn text(&self, alloc: Global, name: &str) -> Result<Text, AllocError>
        ensures { IfOk result (λ text. text ≡ message (texts.unset_text name.now self.now)) }
    {
        match self {
            UnsetFault::NoMemory => Ok(Text::empty()),
            _ => cannot(alloc, "unset", name, self.reason()),
        }
    }
}

impl Display for UnsetFault {
    fn fmt<W: Write>(&self, formatter: &mut Formatter<W>) -> fmt::Result {
        formatter.write_str(self.reason())
    }
}

impl From<AllocError> for UnsetFault {
    ghost from_gives = { λ _ e. e ≡ unset_fault.NoMemory };

    fn from(_refused: AllocError) -> UnsetFault {
        UnsetFault::NoMemory
    }
}

/// Why a link can't be made. The first two faults have no number.
#[derive(Clone, Copy, Debug, PartialEq, Eq, Drop, Error)]
pub enum LinkFault {
    /// The name means an element, or a variable of the global frame by a leading `::`.
    BadName,
    /// There is a variable of this name that is no link.
    Exists,
    /// There would be more than 4,096 variables, as for `SetFault::Full` (19).
    Full,
    /// Memory was refused.
    NoMemory,
}

impl LinkFault {
    /// Its number; none where memory was refused, nor for the first two.
    pub fn number(&self) -> Option<u32>
        ensures { result ≡ faults.link_number self.now }
    {
        match self {
            LinkFault::BadName | LinkFault::Exists => None,
            LinkFault::Full => Some(19),
            LinkFault::NoMemory => None,
        }
    }

    // What it shows.
    fn reason(&self) -> &'static str
        ensures { result.now ≡ texts.link_reason self.now }
    {
        match self {
            LinkFault::BadName => "bad name",
            LinkFault::Exists => "variable exists",
            LinkFault::Full => NO_ROOM,
            LinkFault::NoMemory => NO_MEMORY,
        }
    }

    /// Why a link of this name can't be made, as its script is told of it; the text of the limit (4) stands in place of one past 65,536
    /// bytes. Refused memory has no such text: it is empty.
    pub fn text(&self, alloc: Global, name: &str) -> Result<Text, AllocError>
        ensures { IfOk result (λ text. text ≡ message (texts.link_text name.now self.now)) }
    {
        match self {
            LinkFault::BadName => bad_name_text(alloc, name),
            LinkFault::Exists => about_between(alloc, "variable ", name, " already exists"),
            LinkFault::Full => Text::of_short(alloc, NO_ROOM),
            LinkFault::NoMemory => Ok(Text::empty()),
        }
    }
}

impl Display for LinkFault {
    fn fmt<W: Write>(&self, formatter: &mut Formatter<W>) -> fmt::Result {
        formatter.write_str(self.reason())
    }
}

impl From<AllocError> for LinkFault {
    ghost from_gives = { λ _ e. e ≡ link_fault.NoMemory };

    fn from(_refused: AllocError) -> LinkFault {
        LinkFault::NoMemory
    }
}

/// Why something can't be done with a variable.
#[tactic(auto, unfolding(crate::specs::Messages::bounded))]
fn cannot(alloc: Global, verb: &str, name: &str, reason: &str) -> Result<Text, AllocError>
    ensures { IfOk result (λ text. text ≡ message (texts.cannot verb.now name.now reason.now)) }
{
    let mut string = String::from_str(alloc, "can't ")?;
    string.push_str(verb)?;
    string.push_str(" \"")?;
    string.push_str(name)?;
    string.push_str("\": ")?;
    string.push_str(reason)?;
    Text::of_message(alloc, string.as_str())
}
