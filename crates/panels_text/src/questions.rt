//! What a script says by literal words, as questions to a host.

ghost use Rattle.std.specs.Prelude.{◌≡◌, ◌++◌, ◌∷◌, [], ◌||◌, codes, drop, flat_map, map, nat_eq, not, option_map, IfOk, OnOk};
ghost use Rattle.std.specs.List.{list_all, starts_with};
ghost use Rattle.std.specs.Option.{option_to_list};
ghost use Rattle.std.specs.String.{string_bytes};
ghost use Rattle.panels_text.specs.Asking.{asked, asked_as, asked_by, asked_or_none, asked_value, asked_window, asks, first_option, front_of, front_word, front_words, has_name, is_option, is_path, is_plain, is_simple, is_unasked, is_whole, is_window, made_name, made_window, makes_windows, name_asked, options_at, pair, pairs, plain_name, procedures_in, question, questions_in, questions_of, questions_of_call, takes_pairs, told_of, window, window_of, windows_in};
ghost use Rattle.panels_text.specs.Meant.{beside};
ghost use Rattle.panels_text.specs.Roles.{text_or_empty, texts_of};
ghost use Rattle.panels_text.specs.Scripts.{calls_of, said};
ghost use Rattle.panels_text.specs.Unread.{misread, unread_of};
ghost use Rattle.panels_text.specs.Words.{words_of};

use crate::calls::{Call, Unread, calls_of};
use crate::roles::{text, word_at};
use crate::texts::behind;
use std::alloc::{AllocError, Global};
use tk_options::kind_named;

/// What stands in a question for a word that isn't known.
pub const ANY: &str = "lint-any";

/// A path that no window has: of a window that is made.
const FRESH: &str = ".fresh";

/// A command to be tried.
#[derive(Drop)]
pub struct Question {
    /// The line of the command that it is of, counted from 1.
    pub line: usize,
    /// Its words; `ANY` stands for one that isn't known.
    pub words: Vec<String>,
    /// Whether it has all words of its command.
    pub is_whole: bool,
    /// The first two words of the command, for a person.
    pub told: String,
}

/// What a script asks, and which of its scripts can't be read, with their lines.
#[derive(Drop)]
pub struct Questions {
    pub questions: Vec<Question>,
    pub unread: Vec<Unread>,
    /// The procedures that it makes.
    pub procedures: Vec<String>,
}

/// Whether a command makes windows.
fn makes_windows(name: &str) -> bool
    ensures { result ≡ makes_windows name.now }
{
    kind_named(name).is_some()
}

/// Whether one of these is a name.
fn has_name(names: &[String], name: &str) -> bool
    ensures { result ≡ has_name (map string_bytes names.now) name.now }
{
    for own in names {
        if own.as_str() == name {
            return true;
        }
    }
    false
}

/// The name of a command that a call makes.
fn made_name(call: &Call) -> Option<&str>
    ensures { option_map (λ name. name.now) result ≡ made_name (said call.now) }
{
    let words = call.words.as_slice();
    let (first, second) = (word_at(words, 0), word_at(words, 1));
    if first == "proc" && !second.is_empty() {
        return Some(second);
    }
    if first == "rename" {
        return Some(word_at(words, 2));
    }
    None
}

/// Adds a name, where there is one.
fn push_name(alloc: Global, name: Option<&str>, names: &mut Vec<String>) -> Result<(), AllocError>
    ensures { OnOk result (map string_bytes names.new.items ≡ map string_bytes names.old.items ++ option_to_list (option_map (λ own. own.now) name.entry)) }
{
    match name {
        Some(name) => Ok(names.push(String::from_str(alloc, name)?)?),
        None => Ok(()),
    }
}

/// Copies of words.
fn copies(alloc: Global, words: &[&str]) -> Result<Vec<String>, AllocError>
    ensures { IfOk result (λ copies. map string_bytes copies.items ≡ words_of words.now) }
{
    let mut copies = Vec::new(alloc);
    for word in words {
        copies.push(String::from_str(alloc, *word)?)?;
    }
    Ok(copies)
}

/// The names of the commands that the program serves, and of those that a script makes.
fn procedures_in(alloc: Global, calls: &[Call], served: &[&str]) -> Result<Vec<String>, AllocError>
    ensures { IfOk result (λ names. map string_bytes names.items ≡ procedures_in (words_of served.now) (map said calls.now)) }
{
    let mut names = copies(alloc, served)?;
    for call in calls {
        push_name(alloc, made_name(call), &mut names)?;
    }
    Ok(names)
}

/// Adds the path of a window that a call makes, and its command.
fn push_window(
    alloc: Global,
    call: &Call,
    windows: &mut Vec<(String, String)>,
) -> Result<(), AllocError>
    ensures { OnOk result (map window windows.new.items ≡ map window windows.old.items ++ option_to_list (made_window (said call.now))) }
{
    let command = word_at(call.words.as_slice(), 0);
    if makes_windows(command) {
        let path = String::from_str(alloc, word_at(call.words.as_slice(), 1))?;
        windows.push((path, String::from_str(alloc, command)?))?;
    }
    Ok(())
}

/// The windows that a script makes by literal words: the path of each, and the command.
fn windows_in(alloc: Global, calls: &[Call]) -> Result<Vec<(String, String)>, AllocError>
    ensures { IfOk result (λ windows. map window windows.items ≡ windows_in (map said calls.now)) }
{
    let mut windows = Vec::new(alloc);
    for call in calls {
        push_window(alloc, call, &mut windows)?;
    }
    Ok(windows)
}

/// The name of a command without its `::`.
fn plain(name: &str) -> &str
    ensures { result.now ≡ plain_name name.now }
{
    behind(name, "::").unwrap_or(name)
}

/// The command that makes a window of a script.
fn maker<'a>(windows: &'a [(String, String)], path: &str) -> Option<&'a str>
    ensures { option_map (λ command. command.now) result ≡ beside path.now (map window windows.now) }
{
    for (own, command) in windows {
        if own.as_str() == path {
            return Some(command.as_str());
        }
    }
    None
}

/// A window of the kind that a command makes.
fn window_by(alloc: Global, command: Option<&str>) -> Result<Option<String>, AllocError>
    ensures { IfOk result (λ found. option_map string_bytes found ≡ option_map (λ own. codes "." ++ own.now) command.entry) }
{
    match command {
        Some(command) => Ok(Some(format!(in alloc; ".{command}")?)),
        None => Ok(None),
    }
}

/// The window that is asked in place of one of a script: one of its kind. Nothing where the kind isn't known.
fn window_of(
    alloc: Global,
    windows: &[(String, String)],
    path: &str,
) -> Result<Option<String>, AllocError>
    ensures { IfOk result (λ found. option_map string_bytes found ≡ window_of (map window windows.now) path.now) }
{
    if path == "." {
        return Ok(Some(String::from_str(alloc, ".")?));
    }
    window_by(alloc, maker(windows, path))
}

/// Whether a byte is a printing character for which no event's field comes.
fn is_plain(byte: u8) -> bool
    ensures { result ≡ is_plain byte }
{
    33 <= byte && byte <= 126 && byte != b'%'
}

fn are_plain(bytes: &[u8]) -> bool
    ensures { result ≡ list_all is_plain bytes.now }
{
    bytes.iter().all(|byte| is_plain(*byte))
}

/// Whether a word is asked as it stands.
fn is_simple(word: &str) -> bool
    ensures { result ≡ is_simple word.now }
{
    !word.is_empty() && are_plain(word.as_bytes())
}

/// Whether a word begins as a window's path does.
fn is_dotted(word: &str) -> bool
    ensures { result ≡ starts_with nat_eq word.now (codes ".") }
{
    word.starts_with(".")
}

/// A word as it is asked: a window's path is one that is there.
fn asked<'a>(word: &'a str) -> &'a str
    ensures { result.now ≡ asked word.now }
{
    if !is_simple(word) {
        return ANY;
    }
    if is_dotted(word) && word.len() > 1 {
        return ".frame";
    }
    word
}

/// Whether a word begins as an option does.
fn is_option(word: &str) -> bool
    ensures { result ≡ is_option word.now }
{
    match word.as_bytes() {
        [] => false,
        [_] => false,
        [dash, letter, ..] => *dash == b'-' && b'a' <= *letter && *letter <= b'z',
    }
}

/// Whether a command takes options with values.
fn takes_pairs(first: &str, second: &str) -> bool
    ensures { result ≡ takes_pairs first.now second.now }
{
    makes_windows(first)
        || first == "pack"
        || (is_dotted(first) && second == "configure")
        || (first == "event" && second == "generate")
}

/// The number of the first word behind the first that is an option; how many words there are where none is.
fn first_option(words: &[Option<String>]) -> usize
    ensures { result ≡ first_option 0 (texts_of words.now) }
{
    for (index, word) in words.iter().enumerate() {
        if index > 0 && is_option(text(word)) {
            return index;
        }
    }
    words.len()
}

/// Where the options of a command with values begin; behind its words where it has none.
fn options_at(words: &[Option<String>]) -> usize
    ensures { result ≡ options_at (texts_of words.now) }
{
    if takes_pairs(word_at(words, 0), word_at(words, 1)) {
        return first_option(words);
    }
    words.len()
}

/// The first two words of a command.
fn told_of(alloc: Global, call: &Call) -> Result<String, AllocError>
    ensures { IfOk result (λ told. string_bytes told ≡ told_of (said call.now)) }
{
    let words = call.words.as_slice();
    let (first, second) = (word_at(words, 0), word_at(words, 1));
    let told = format!(in alloc; "{first} {second}")?;
    String::from_str(alloc, told.as_str().trim())
}

/// Adds a question.
fn push_question(
    alloc: Global,
    call: &Call,
    words: Vec<String>,
    is_whole: bool,
    questions: &mut Vec<Question>,
) -> Result<(), AllocError>
    ensures { OnOk result (map asks questions.new.items ≡ map asks questions.old.items ++ question (said call.now) (map string_bytes words.items) is_whole ∷ []) }
{
    let told = told_of(alloc, call)?;
    Ok(questions.push(Question {
        line: call.line,
        words,
        is_whole,
        told,
    })?)
}

/// A copy of words. An error where memory is refused.
pub fn copied(alloc: Global, words: &[String]) -> Result<Vec<String>, AllocError>
    ensures { IfOk result (λ copies. map string_bytes copies.items ≡ map string_bytes words.now) }
{
    let mut copies = Vec::new(alloc);
    for word in words {
        copies.push(String::from_str(alloc, word.as_str())?)?;
    }
    Ok(copies)
}

/// Adds a value as it is asked; none where it isn't known.
fn push_value(alloc: Global, value: &str, words: &mut Vec<String>) -> Result<(), AllocError>
    ensures { OnOk result (map string_bytes words.new.items ≡ map string_bytes words.old.items ++ asked_value value.now) }
{
    if is_simple(value) {
        words.push(String::from_str(alloc, asked(value))?)?;
    }
    Ok(())
}

/// Adds a question for an option of a command and its value, where the option is literal.
fn push_pair(
    alloc: Global,
    call: &Call,
    front: &[String],
    option: &str,
    value: &str,
    questions: &mut Vec<Question>,
) -> Result<(), AllocError>
    ensures { OnOk result (map asks questions.new.items ≡ map asks questions.old.items ++ pair (said call.now) (map string_bytes front.now) option.now value.now) }
{
    if option.is_empty() {
        return Ok(());
    }
    let mut asks = copied(alloc, front)?;
    asks.push(String::from_str(alloc, option)?)?;
    push_value(alloc, value, &mut asks)?;
    push_question(alloc, call, asks, false, questions)
}

/// Adds the questions for options with values, which are the words behind so many.
fn push_pairs(
    alloc: Global,
    call: &Call,
    front: &[String],
    at: usize,
    questions: &mut Vec<Question>,
) -> Result<(), AllocError>
    ensures { OnOk result (map asks questions.new.items ≡ map asks questions.old.items ++ pairs (said call.now) (map string_bytes front.now) (drop at (texts_of call.now.words.items))) }
{
    let words = call.words.as_slice();
    let mut place = at;
    while place < words.len() {
        let option = word_at(words, place);
        let value = word_at(words, place + 1);
        push_pair(alloc, call, front, option, value, questions)?;
        place += 2;
    }
    Ok(())
}

/// Whether a word of a command has to be a window's path, so that what stands behind it is looked at.
fn is_window(name: &str, index: usize) -> bool
    ensures { result ≡ is_window name.now index }
{
    name == "pack" || name == "event" && index == 2
}

/// A word as it is asked where it has to be a window's path: one that isn't known is a window that is there.
fn asked_window(word: &str) -> &str
    ensures { result.now ≡ asked_window word.now }
{
    let word = asked(word);
    if word == ANY { ".frame" } else { word }
}

/// Adds a word of a question in front of the options, of which `makes` says whether the command makes a window, and `first` the command's name.
fn push_front(
    alloc: Global,
    makes: bool,
    first: &str,
    count: usize,
    index: usize,
    word: &str,
    front: &mut Vec<String>,
) -> Result<(), AllocError>
    ensures { OnOk result (map string_bytes front.new.items ≡ map string_bytes front.old.items ++ front_word makes first.now count index word.now) }
{
    if index == 1 && makes {
        return Ok(front.push(String::from_str(alloc, FRESH)?)?);
    }
    if !(index > 0 && index < count) {
        return Ok(());
    }
    if is_window(first, index) {
        return Ok(front.push(String::from_str(alloc, asked_window(word))?)?);
    }
    Ok(front.push(String::from_str(alloc, asked(word))?)?)
}

/// The words of a question in front of the options; the first is the name that is asked.
fn front_of(alloc: Global, call: &Call, name: &str, count: usize) -> Result<Vec<String>, AllocError>
    ensures { IfOk result (λ front. map string_bytes front.items ≡ front_of (said call.now) name.now count) }
{
    let makes = makes_windows(name);
    let words = call.words.as_slice();
    let first = word_at(words, 0);
    let mut front = Vec::new(alloc);
    front.push(String::from_str(alloc, name)?)?;
    for (index, word) in words.iter().enumerate() {
        push_front(alloc, makes, first, count, index, text(word), &mut front)?;
    }
    Ok(front)
}

/// Whether a question has all words of its command, of which the options begin at this one.
fn is_whole(call: &Call, at: usize) -> bool
    ensures { result ≡ is_whole (said call.now) at }
{
    call.words.len() <= at && !call.is_open
}

/// Adds the questions of a command: its options, which begin at this word, and what stands in front of them.
fn push_asked_as(
    alloc: Global,
    call: &Call,
    at: usize,
    front: Vec<String>,
    questions: &mut Vec<Question>,
) -> Result<(), AllocError>
    ensures { OnOk result (map asks questions.new.items ≡ map asks questions.old.items ++ asked_as (said call.now) at (map string_bytes front.items)) }
{
    push_pairs(alloc, call, front.as_slice(), at, questions)?;
    push_question(alloc, call, front, is_whole(call, at), questions)
}

/// Adds the questions of a command whose name is asked as this one.
fn push_asked(
    alloc: Global,
    call: &Call,
    name: &str,
    questions: &mut Vec<Question>,
) -> Result<(), AllocError>
    ensures { OnOk result (map asks questions.new.items ≡ map asks questions.old.items ++ asked_by (said call.now) name.now) }
{
    let at = options_at(call.words.as_slice());
    let front = front_of(alloc, call, name, at)?;
    push_asked_as(alloc, call, at, front, questions)
}

/// The name by which a command is asked; nothing where it isn't known.
fn name_asked(
    alloc: Global,
    windows: &[(String, String)],
    name: &str,
) -> Result<Option<String>, AllocError>
    ensures { IfOk result (λ found. option_map string_bytes found ≡ name_asked (map window windows.now) name.now) }
{
    if is_dotted(name) {
        return window_of(alloc, windows, name);
    }
    Ok(Some(String::from_str(alloc, name)?))
}

/// Whether a command that is there isn't asked: it would end the one that asks, or change its commands.
fn is_unasked(name: &str) -> bool
    ensures { result ≡ is_unasked name.now }
{
    match name {
        "destroy" | "rename" | "proc" | "eval" | "uplevel" | "while" | "for" => true,
        _ => false,
    }
}

/// Whether a command isn't asked.
fn is_passed(procedures: &[String], name: &str) -> bool
    ensures { result ≡ (has_name (map string_bytes procedures.now) name.now || (not (is_simple name.now) || is_unasked name.now)) }
{
    has_name(procedures, name) || !is_simple(name) || is_unasked(name)
}

/// Adds the questions of a command that is asked by this name, where it is known.
fn push_named(
    alloc: Global,
    call: &Call,
    name: Option<String>,
    questions: &mut Vec<Question>,
) -> Result<(), AllocError>
    ensures { OnOk result (map asks questions.new.items ≡ map asks questions.old.items ++ asked_or_none (said call.now) (option_map string_bytes name)) }
{
    match name {
        Some(name) => push_asked(alloc, call, name.as_str(), questions),
        None => Ok(()),
    }
}

/// Adds the questions of a command.
fn push_questions(
    alloc: Global,
    call: &Call,
    procedures: &[String],
    windows: &[(String, String)],
    questions: &mut Vec<Question>,
) -> Result<(), AllocError>
    ensures { OnOk result (map asks questions.new.items ≡ map asks questions.old.items ++ questions_of_call (map string_bytes procedures.now) (map window windows.now) (said call.now)) }
{
    let name = plain(word_at(call.words.as_slice(), 0));
    if is_passed(procedures, name) {
        return Ok(());
    }
    let own = name_asked(alloc, windows, name)?;
    push_named(alloc, call, own, questions)
}

/// The questions of all commands of a script that has these windows.
fn all_questions(
    alloc: Global,
    calls: &[Call],
    procedures: &[String],
    windows: &[(String, String)],
) -> Result<Vec<Question>, AllocError>
    ensures { IfOk result (λ questions. map asks questions.items ≡ flat_map (questions_of_call (map string_bytes procedures.now) (map window windows.now)) (map said calls.now)) }
{
    let mut questions = Vec::new(alloc);
    for call in calls {
        push_questions(alloc, call, procedures, windows, &mut questions)?;
    }
    Ok(questions)
}

/// The questions of all commands of a script.
fn questions_in(
    alloc: Global,
    calls: &[Call],
    procedures: &[String],
) -> Result<Vec<Question>, AllocError>
    ensures { IfOk result (λ questions. map asks questions.items ≡ questions_in (map string_bytes procedures.now) (map said calls.now)) }
{
    let windows = windows_in(alloc, calls)?;
    all_questions(alloc, calls, procedures, windows.as_slice())
}

/// What a script asks, where the program serves commands of these names. An error where memory is refused.
pub fn questions_of(alloc: Global, script: &str, served: &[&str]) -> Result<Questions, AllocError>
    ensures questions { IfOk result (λ found. map asks found.questions.items ≡ questions_of (words_of served.now) script.now) }
    ensures procedures { IfOk result (λ found. map string_bytes found.procedures.items ≡ procedures_in (words_of served.now) (calls_of script.now)) }
    ensures unread { IfOk result (λ found. map misread found.unread.items ≡ unread_of script.now) }
{
    let found = calls_of(alloc, script)?;
    let calls = found.calls.as_slice();
    let procedures = procedures_in(alloc, calls, served)?;
    let own = procedures.as_slice();
    let questions = questions_in(alloc, calls, own)?;
    Ok(Questions {
        questions,
        unread: found.unread,
        procedures,
    })
}
