//! The commands of string(n), and concat(n).
ghost use Rattle.std.specs.Prelude.{◌≡◌, ◌++◌, ◌<◌, ◌≤◌, min, replicate, [], ◌∷◌, true, Ok, IfOk, IfSome, IfNone, OnOk, string_bytes, length};
ghost use Rattle.std.specs.List.{concat};
ghost use Rattle.std.specs.Str.{chars, encode_utf8_all, IsAscii};
ghost use Rattle.tcl_text.specs.Answers.{Gives, answers};
ghost use Rattle.tcl_text.specs.Indices.{part};
ghost use Rattle.tcl_text.specs.StringCommands as spec;
ghost use Rattle.tcl_text.specs.Limits.{most_bytes};
ghost use Rattle.tcl_text.specs.StringSteps.{with_word, word_added};

use crate::characters::{self, find_text, split_characters, trimmed};
use crate::commands::answers::{
    Reply, bad_option, decimal_answer, limit_reached, place_answer, string_answer, text_answer,
    truth_answer, wrong_args,
};
use crate::commands::indices::{Index, index_in};
use crate::commands::integers::integer_of;
use crate::lengths::longer;
use crate::text::{MAX_BYTES, Text};
use std::alloc::{AllocError, Global};
use std::cmp::Ordering;

fn string_length(alloc: Global, words: &[Text]) -> Reply
    ensures { Gives result (spec.string_length words.now) }
{
    match words {
        [text] => decimal_answer(alloc, characters::count(text.as_str())),
        _ => wrong_args(alloc, "string length s"),
    }
}

fn string_index(alloc: Global, words: &[Text]) -> Reply
    ensures { Gives result (spec.string_index words.now) }
{
    match words {
        [text, index] => {
            let index = index_in(alloc, index)?;
            text_answer(alloc, characters_in(text, index, index))
        }
        _ => wrong_args(alloc, "string index s i"),
    }
}

fn string_range(alloc: Global, words: &[Text]) -> Reply
    ensures { Gives result (spec.string_range words.now) }
{
    match words {
        [text, first, last] => {
            let first = index_in(alloc, first)?;
            let last = index_in(alloc, last)?;
            text_answer(alloc, characters_in(text, first, last))
        }
        _ => wrong_args(alloc, "string range s first last"),
    }
}

/// The characters from the first index to the last, as far as they are there. They are found by
/// bytes in a text that is known to be ASCII.
fn characters_in(text: &Text, first: Index, last: Index) -> &str
    ensures { result.now ≡ encode_utf8_all (part first last (chars text.now)) }
{
    let characters = text.as_str();
    if text.is_ascii() {
        bytes_in(characters, first, last)
    } else {
        walked_characters(characters, first, last)
    }
}

/// The same of a text whose characters may be of several bytes. It walks over them unless all that
/// have to be looked at are ASCII.
fn walked_characters(text: &str, first: Index, last: Index) -> &str
    ensures { result.now ≡ encode_utf8_all (part first last (chars text.now)) }
{
    if let Some(front) = ascii_front(text, first, last) {
        return bytes_in(front, first, last);
    }
    let count = characters::count(text);
    let (front, _behind) = split_characters(text, last.through(count));
    let (_before, part) = split_characters(front, first.before(count));
    part
}

/// The front of a text up to the last index, if both indices count from the start and it is ASCII.
fn ascii_front(text: &str, first: Index, last: Index) -> Option<&str>
    ensures ascii { IfSome result (λ front. IsAscii front.now) }
    ensures part { IfSome result (λ front. part first last (chars front.now) ≡ part first last (chars text.now)) }
{
    let (Index::FromStart(_), Index::FromStart(_)) = (first, last) else {
        return None;
    };
    let (front, _behind) = text.split_at_checked(last.through(text.len()))?;
    if front.is_ascii() { Some(front) } else { None }
}

/// The same of a text whose characters are bytes.
fn bytes_in(text: &str, first: Index, last: Index) -> &str
    requires { IsAscii text.now }
    ensures { result.now ≡ encode_utf8_all (part first last (chars text.now)) }
{
    let end = last.through(text.len());
    let start = first.before(text.len()).min(end);
    &text[start..end]
}

fn string_compare(alloc: Global, words: &[Text]) -> Reply
    ensures { Gives result (spec.string_compare words.now) }
{
    match words {
        [a, b] => text_answer(alloc, sign_of(a.as_str().cmp(b.as_str()))),
        _ => wrong_args(alloc, "string compare a b"),
    }
}

fn sign_of(ordering: Ordering) -> &'static str
    ensures { result.now ≡ spec.sign_of ordering }
{
    match ordering {
        Ordering::Less => "-1",
        Ordering::Equal => "0",
        Ordering::Greater => "1",
    }
}

fn string_equal(alloc: Global, words: &[Text]) -> Reply
    ensures { Gives result (spec.string_equal words.now) }
{
    match words {
        [a, b] => truth_answer(alloc, a.as_str() == b.as_str()),
        _ => wrong_args(alloc, "string equal a b"),
    }
}

fn string_match(alloc: Global, words: &[Text]) -> Reply
    ensures { Gives result (spec.string_match words.now) }
{
    match words {
        [pattern, text] => truth_answer(alloc, Text::glob_match(pattern, text)),
        _ => wrong_args(alloc, "string match pattern s"),
    }
}

fn string_tolower(alloc: Global, words: &[Text]) -> Reply
    ensures { Gives result (spec.string_tolower words.now) }
{
    match words {
        [text] => string_answer(alloc, text.as_str().to_ascii_lowercase(alloc)?),
        _ => wrong_args(alloc, "string tolower s"),
    }
}

fn string_toupper(alloc: Global, words: &[Text]) -> Reply
    ensures { Gives result (spec.string_toupper words.now) }
{
    match words {
        [text] => string_answer(alloc, text.as_str().to_ascii_uppercase(alloc)?),
        _ => wrong_args(alloc, "string toupper s"),
    }
}

fn string_trim(alloc: Global, words: &[Text]) -> Reply
    ensures { Gives result (spec.string_trim words.now) }
{
    match words {
        [text] => text_answer(alloc, trimmed(text.as_str())),
        _ => wrong_args(alloc, "string trim s"),
    }
}

fn string_first(alloc: Global, words: &[Text]) -> Reply
    ensures { Gives result (spec.string_first words.now) }
{
    match words {
        [needle, text] => { place_answer(alloc, characters_before(needle.as_str(), text.as_str())) }
        _ => wrong_args(alloc, "string first needle s"),
    }
}

/// How many characters stand before the needle's first place in the text.
fn characters_before(needle: &str, text: &str) -> Option<usize>
    ensures { result ≡ spec.characters_before needle.now text.now }
{
    if needle.is_empty() {
        return None;
    }
    let place = find_text(text, needle)?;
    let (before, _from) = text.split_at(place);
    Some(characters::count(before))
}

fn string_repeat(alloc: Global, words: &[Text]) -> Reply
    ensures { Gives result (spec.string_repeat words.now) }
{
    match words {
        [text, count] => {
            let count = integer_of(alloc, count)?;
            repeated(alloc, text.as_str(), u64::try_from(count).unwrap_or(0))
        }
        _ => wrong_args(alloc, "string repeat s n"),
    }
}

/// So many copies of a text, one after another.
#[tactic(auto, using(crate::proofs::StringLemmas::repeats))]
fn repeated(alloc: Global, text: &str, count: u64) -> Reply
    ensures { Gives result (answers (concat (replicate count text.now))) }
{
    if text.is_empty() {
        return text_answer(alloc, "");
    }
    if count > MAX_BYTES as u64 / text.len() as u64 {
        return Err(limit_reached(alloc));
    }
    let string = copies(alloc, text, count)?;
    string_answer(alloc, string)
}

/// How many copies are made one by one: where there are more, a block of so many is copied whole.
const BLOCK: u64 = 64;

#[tactic(auto, using(crate::proofs::StringLemmas::block_copies))]
fn copies(alloc: Global, text: &str, count: u64) -> Result<String, AllocError>
    ensures { IfOk result (λ string. string_bytes string ≡ concat (replicate count text.now)) }
{
    let mut string = String::new(alloc);
    if count >= BLOCK {
        let mut block = String::new(alloc);
        push_copies(&mut block, text, BLOCK)?;
        push_copies(&mut string, block.as_str(), count / BLOCK)?;
    }
    push_copies(&mut string, text, count % BLOCK)?;
    Ok(string)
}

/// Adds so many copies of a text, one by one.
fn push_copies(string: &mut String, text: &str, count: u64) -> Result<(), AllocError>
    ensures { OnOk result (string_bytes string.new ≡ string_bytes string.old ++ concat (replicate count text.now)) }
{
    for _copy in 0..count {
        string.push_str(text)?;
    }
    Ok(())
}

impl Text {
    /// Whether no white space is around it, so that concat(n) makes the same text of it alone. It takes no memory.
    pub fn is_trimmed(&self) -> bool
        ensures { result ≡ true → spec.concat_words (self.now ∷ []) ≡ Ok self.now }
    {
        let text = self.as_str();
        trimmed(text) == text
    }
}

/// `concat ?arg ..?`: the words without white space around them, those that aren't empty, with a
/// blank between each two.
pub fn concat_words(alloc: Global, words: &[Text]) -> Reply
    ensures { Gives result (spec.concat_words words.now) }
{
    if let [word] = words
        && trimmed(word.as_str()) == word.as_str()
    {
        return Ok(word.copy()?);
    }
    let Some(size) = concatenated_len(words) else {
        return Err(limit_reached(alloc));
    };
    let string = concatenated(alloc, size, words)?;
    string_answer(alloc, string)
}

/// How long the words are when they are joined; none past 65,536 bytes.
fn concatenated_len(words: &[Text]) -> Option<usize>
    ensures exact { IfSome result (λ size. size ≡ length (spec.concatenated words.now)) }
    ensures none { IfNone result (most_bytes < length (spec.concatenated words.now)) }
{
    let mut size = 0;
    for word in words {
        size = len_with_word(size, trimmed(word.as_str()))?;
    }
    Some(size)
}

/// How long a text of this length is with the word behind a blank; none past 65,536 bytes.
#[tactic(auto, using(crate::proofs::LengthLemmas::added))]
fn len_with_word(text: usize, added: &str) -> Option<usize>
    requires { text ≤ most_bytes }
    ensures exact { IfSome result (λ size. size ≡ word_added text (length added.now)) }
    ensures within { IfSome result (λ size. size ≤ most_bytes) }
    ensures none { IfNone result (most_bytes < word_added text (length added.now)) }
{
    if text == 0 || added.is_empty() {
        return longer(text, added.len());
    }
    longer(longer(text, 1)?, added.len())
}

/// The words joined, for which so many bytes are asked for at once.
fn concatenated(alloc: Global, size: usize, words: &[Text]) -> Result<String, AllocError>
    ensures { IfOk result (λ string. string_bytes string ≡ spec.concatenated words.now) }
{
    let mut string = String::with_capacity(alloc, size)?;
    for word in words {
        push_word(&mut string, trimmed(word.as_str()))?;
    }
    Ok(string)
}

/// Adds a word behind a blank; an empty word adds nothing, and the first has no blank.
fn push_word(string: &mut String, word: &str) -> Result<(), AllocError>
    ensures { OnOk result (string_bytes string.new ≡ with_word (string_bytes string.old) word.now) }
{
    if word.is_empty() {
        return Ok(());
    }
    if !string.is_empty() {
        string.push(' ')?;
    }
    string.push_str(word)?;
    Ok(())
}

/// `string NAME ?arg ..?`: what the command of that name answers to the words after it.
pub fn string_words(alloc: Global, words: &[Text]) -> Reply
    ensures { Gives result (spec.string_words words.now) }
{
    match words {
        [name, arguments @ ..] => string_named(alloc, name, arguments),
        [] => wrong_args(alloc, "string option ?arg ..?"),
    }
}

#[tactic(auto, unfolding(crate::specs::StringCommands::string_named))]
fn string_named(alloc: Global, name: &Text, words: &[Text]) -> Reply
    ensures { Gives result (spec.string_named name.now words.now) }
{
    match name.as_str() {
        "length" => string_length(alloc, words),
        "index" => string_index(alloc, words),
        "range" => string_range(alloc, words),
        "compare" => string_compare(alloc, words),
        "equal" => string_equal(alloc, words),
        "match" => string_match(alloc, words),
        "first" => string_first(alloc, words),
        "repeat" => string_repeat(alloc, words),
        "tolower" => string_tolower(alloc, words),
        "toupper" => string_toupper(alloc, words),
        "trim" => string_trim(alloc, words),
        _ => bad_option(alloc, name),
    }
}
