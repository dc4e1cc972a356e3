//! Which words of a command are scripts.

ghost use Rattle.std.specs.Prelude.{◌≡◌, ◌<◌, Some, length, option_map};
ghost use Rattle.std.specs.String.{string_bytes};
ghost use Rattle.panels_text.specs.Roles.{is_script, role_in_for, role_in_foreach, role_in_if, role_in_other, role_in_while, role_named, role_of, text_or_empty, texts_of, word_at};

/// What a word of a command is.
#[derive(Clone, Copy, Debug, PartialEq, Eq)]
pub(crate) enum Role {
    Plain,
    Script,
    /// An expression.
    Condition,
    /// The patterns and bodies of `switch`.
    Cases,
}

/// The text of a word; empty where it isn't literal.
pub(crate) fn text(word: &Option<String>) -> &str
    ensures { result.now ≡ text_or_empty (Some (option_map string_bytes word.now)) }
{
    match word {
        Some(text) => text.as_str(),
        None => "",
    }
}

/// The text of the word of a number; empty where it isn't literal.
pub(crate) fn word_at(words: &[Option<String>], index: usize) -> &str
    ensures { result.now ≡ word_at (texts_of words.now) index }
{
    match words.get(index) {
        Some(word) => text(word),
        None => "",
    }
}

/// What a word of `if` is.
fn role_in_if(before: &str, word: &str, index: usize) -> Role
    ensures { result ≡ role_in_if before.now word.now index }
{
    if word == "then" || word == "else" || word == "elseif" {
        return Role::Plain;
    }
    if index == 1 || before == "elseif" {
        return Role::Condition;
    }
    Role::Script
}

/// What a word of `while` is.
fn role_in_while(index: usize) -> Role
    ensures { result ≡ role_in_while index }
{
    match index {
        1 => Role::Condition,
        2 => Role::Script,
        _ => Role::Plain,
    }
}

/// What a word of `for` is.
fn role_in_for(index: usize) -> Role
    ensures { result ≡ role_in_for index }
{
    match index {
        2 => Role::Condition,
        1 | 3 | 4 => Role::Script,
        _ => Role::Plain,
    }
}

/// What a word of `foreach` is.
fn role_in_foreach(index: usize, is_last: bool) -> Role
    ensures { result ≡ role_in_foreach index is_last }
{
    if is_last && index > 2 {
        Role::Script
    } else {
        Role::Plain
    }
}

/// Whether a word is one that a command runs as a script, other than `if` and loops.
fn is_script(name: &str, index: usize, is_last: bool) -> bool
    ensures { result ≡ is_script name.now index is_last }
{
    match name {
        "proc" | "bind" => index == 3,
        "catch" => index == 1,
        "eval" => index == 1 && is_last,
        "uplevel" => is_last,
        "after" => index == 2 && is_last,
        _ => false,
    }
}

/// What a word of a command is that takes scripts at their places or behind `-command`.
fn role_in_other(name: &str, before: &str, index: usize, is_last: bool) -> Role
    ensures { result ≡ role_in_other name.now before.now index is_last }
{
    if is_script(name, index, is_last) || before == "-command" {
        Role::Script
    } else {
        Role::Plain
    }
}

/// What a word behind the first is, of a command of this name.
fn role_named(name: &str, before: &str, word: &str, index: usize, is_last: bool) -> Role
    ensures { result ≡ role_named name.now before.now word.now index is_last }
{
    match name {
        "if" => role_in_if(before, word, index),
        "while" => role_in_while(index),
        "for" => role_in_for(index),
        "foreach" => role_in_foreach(index, is_last),
        "expr" => Role::Condition,
        "switch" if is_last && index > 1 => Role::Cases,
        _ => role_in_other(name, before, index, is_last),
    }
}

/// What a word of a command is, by the commands that run scripts.
pub(crate) fn role_of(words: &[Option<String>], index: usize) -> Role
    requires { index < length words.now }
    ensures { result ≡ role_of (texts_of words.now) index }
{
    if index == 0 {
        return Role::Plain;
    }
    let is_last = index + 1 == words.len();
    let before = word_at(words, index - 1);
    role_named(
        word_at(words, 0),
        before,
        word_at(words, index),
        index,
        is_last,
    )
}
