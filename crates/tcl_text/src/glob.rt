//! Glob patterns, as `string match` of string(n) has them.
ghost use Rattle.std.specs.Prelude.{◌≡◌, ◌<◌, ◌≤◌, ◌↔◌, [], List, ℕ, ◌∷◌, ◌+◌, ◌++◌, length, true, IsTrue, IfSome, IfNone};
ghost use Rattle.std.specs.List.{list_all};
ghost use Rattle.std.specs.Str.{chars};
ghost use Rattle.memchr.specs.Find.{OccursAt};
ghost use Rattle.tcl_text.specs.Bytes.{minus_sign, star};
ghost use Rattle.tcl_text.specs.Glob.{in_class, AllowsByClass, AllowsFirst, GlobMatches, glob_matches};
ghost use Rattle.tcl_text.specs.GlobSteps.{HasPart, IsBehindFirst, PassesPlain, StopsAt, Runs, Spans, is_plain as is_plain_of};

use crate::characters::{count, find_text, split_characters, split_first_char};
use crate::glob_places::behind_dead;
use crate::text::Text;

/// So many places are tried one after another before those that are dead are passed over at once: a match is often near.
const FEW_TRIES: usize = 4;

impl Text {
    /// Whether the pattern matches the whole text, as `string match` of string(n): `*` stands for any text, `?` for one character,
    /// `[..]` for one of its characters and ranges, `\x` for x itself. The first `]` ends a class, in which a backslash is itself.
    /// A pattern whose class isn't closed, or that ends with a lone backslash, matches nothing. It takes no memory. What stands between two
    /// stars costs as many steps as the text is long, where it is plain characters, and what stands behind the last star as many as it is
    /// long itself. Of other parts 64 are looked at in one pass over the text, and a class costs a step for each member in each 1,024 places (8,192 of an
    /// ASCII text), or one for each member and place above U+07FF.
    pub fn glob_match(pattern: &Text, text: &Text) -> bool
        ensures matches { IsTrue result ↔ GlobMatches (chars pattern.now) (chars text.now) }
        ensures value { result ≡ glob_matches (chars pattern.now) (chars text.now) }
    {
        matches_whole(pattern.as_str(), text.as_str())
    }

    /// The same of a text that isn't kept as one, as the name of an element. It takes no memory.
    pub fn glob_match_str(pattern: &Text, text: &str) -> bool
        ensures { result ≡ glob_matches (chars pattern.now) (chars text.now) }
    {
        matches_whole(pattern.as_str(), text)
    }
}

/// Whether the pattern matches the whole text: run by run, each at the first place where it matches
/// behind the one before, since a `*` takes what stands between.
fn matches_whole(pattern: &str, text: &str) -> bool
    ensures { IsTrue result ↔ GlobMatches (chars pattern.now) (chars text.now) }
{
    let Some((mut pattern, mut text)) = match_run(pattern, text) else {
        return false;
    };
    while let Some((_star, after)) = split_first_char(pattern) {
        match find_run(after, text) {
            Some((rest, left)) => {
                pattern = rest;
                text = left;
            }
            None => return false,
        }
    }
    true
}

/// Finds the first place in the text from which the pattern's parts, up to its next `*` or its end,
/// match. Answers what is left of both there.
fn find_run<'p, 't>(pattern: &'p str, text: &'t str) -> Option<(&'p str, &'t str)>
    ensures found { IfSome result (λ rests.
        GlobMatches (chars rests.0.now) (chars rests.1.now)
        ↔ GlobMatches (star ∷ chars pattern.now) (chars text.now)) }
    ensures stops { IfSome result (λ rests. StopsAt (chars rests.0.now) (chars rests.1.now)) }
    ensures none { IfNone result (GlobMatches (star ∷ chars pattern.now) (chars text.now) → ⊥) }
    ensures shorter { IfSome result (λ rests. length rests.0.now < length pattern.now + 1) }
{
    let (piece, rest) = plain_front(pattern, text.len());
    if piece.len() > text.len() {
        return None;
    }
    if piece.is_empty() || rest.is_empty() || has_part(rest) {
        return find_parts(pattern, text);
    }
    let left = behind_first(piece, text)?;
    Some((rest, left))
}

/// The same of parts that aren't all plain characters before a `*`.
fn find_parts<'p, 't>(pattern: &'p str, text: &'t str) -> Option<(&'p str, &'t str)>
    ensures found { IfSome result (λ rests.
        GlobMatches (chars rests.0.now) (chars rests.1.now)
        ↔ GlobMatches (star ∷ chars pattern.now) (chars text.now)) }
    ensures stops { IfSome result (λ rests. StopsAt (chars rests.0.now) (chars rests.1.now)) }
    ensures none { IfNone result (GlobMatches (star ∷ chars pattern.now) (chars text.now) → ⊥) }
    ensures shorter { IfSome result (λ rests. length rests.0.now < length pattern.now + 1) }
{
    let (parts, behind) = run_of(pattern, text.len())?;
    if behind.is_empty() {
        match_end(pattern, parts, text)
    } else {
        walk_run(pattern, parts, text)
    }
}

/// The pattern's plain characters in front, as far as it looks for them, which is soon behind so many bytes, and what follows them.
fn plain_front(pattern: &str, most: usize) -> (&str, &str)
    ensures plain { list_all is_plain_of (chars result.0.now) ≡ true }
    ensures cut { chars pattern.now ≡ chars result.0.now ++ chars result.1.now }
    ensures shorter { length result.1.now < length pattern.now + 1 }
{
    let rest = behind_plain(pattern, most);
    pattern.split_at(pattern.len() - rest.len())
}

/// What follows the pattern's plain characters in front, as far as it looks for them.
fn behind_plain(pattern: &str, most: usize) -> &str
    ensures { PassesPlain pattern.now result.now }
{
    let mut rest = pattern;
    while let Some((first, after)) = split_first_char(rest) {
        if !is_plain(first) || pattern.len() - rest.len() > most {
            return rest;
        }
        rest = after;
    }
    rest
}

/// Whether the character stands for itself in a pattern, wherever that isn't inside a class.
fn is_plain(character: char) -> bool
    ensures { result ≡ is_plain_of character }
{
    !(character == '*' || character == '?' || character == '[' || character == '\\')
}

/// What stands in the text behind the first place of the piece.
fn behind_first<'t>(piece: &str, text: &'t str) -> Option<&'t str>
    requires { 0 < length piece.now }
    ensures found { IfSome result (λ left. IsBehindFirst text.now piece.now left.now) }
    ensures none { IfNone result ((place : ℕ) → OccursAt text.now piece.now place → ⊥) }
{
    let place = find_text(text, piece)?;
    let end = place + piece.len();
    Some(&text[end..])
}

/// How many parts the pattern has up to its next `*` or its end, and what follows them; none where one of them has no end, or where they are
/// more than so many.
fn run_of(pattern: &str, most: usize) -> Option<(usize, &str)>
    ensures spans { IfSome result (λ run. Spans (chars pattern.now) (chars run.1.now) run.0) }
    ensures none { IfNone result ((text : List ℕ) → length text ≤ most → GlobMatches (chars pattern.now) text → ⊥) }
{
    let mut parts = 0;
    let mut rest = pattern;
    while has_part(rest) {
        if parts == most {
            return None;
        }
        rest = behind_part(rest)?;
        parts += 1;
    }
    Some((parts, rest))
}

/// What follows the pattern's first part, whatever character that allows; none where the part has no end.
fn behind_part(pattern: &str) -> Option<&str>
    ensures behind { IfSome result (λ rest. (character : ℕ) (other : List ℕ)
        → AllowsFirst (chars pattern.now) character other → other ≡ chars rest.now) }
    ensures none { IfNone result ((character : ℕ) (other : List ℕ) → AllowsFirst (chars pattern.now) character other → ⊥) }
    ensures shorter { IfSome result (λ rest. length rest.now < length pattern.now) }
{
    let (first, after) = split_first_char(pattern)?;
    match first {
        '\\' => {
            let (_escaped, rest) = split_first_char(after)?;
            Some(rest)
        }
        '[' => behind_class(after),
        _ => Some(after),
    }
}

/// What follows the class whose text this is up to the first `]`.
fn behind_class(text: &str) -> Option<&str>
    ensures behind { IfSome result (λ rest. (character : ℕ) (other : List ℕ)
        → AllowsByClass (chars text.now) character other → other ≡ chars rest.now) }
    ensures none { IfNone result ((character : ℕ) (other : List ℕ) → AllowsByClass (chars text.now) character other → ⊥) }
    ensures shorter { IfSome result (λ rest. length rest.now < length text.now) }
{
    let (_class, rest) = text.split_once(']')?;
    Some(rest)
}

/// Matches the pattern, which has so many parts and no `*`, against as many characters at the text's end. Answers what is left of both.
fn match_end<'p, 't>(pattern: &'p str, parts: usize, text: &'t str) -> Option<(&'p str, &'t str)>
    requires { Spans (chars pattern.now) [] parts }
    ensures found { IfSome result (λ rests.
        GlobMatches (chars rests.0.now) (chars rests.1.now)
        ↔ GlobMatches (star ∷ chars pattern.now) (chars text.now)) }
    ensures stops { IfSome result (λ rests. StopsAt (chars rests.0.now) (chars rests.1.now)) }
    ensures none { IfNone result (GlobMatches (star ∷ chars pattern.now) (chars text.now) → ⊥) }
    ensures shorter { IfSome result (λ rests. length rests.0.now < length pattern.now + 1) }
{
    let size = count(text);
    if size < parts {
        return None;
    }
    let (_skipped, end) = split_characters(text, size - parts);
    match_run(pattern, end)
}

/// The same of a pattern that matches no fewer characters than so many, up to its next `*`. Places are tried one after another, and behind a
/// few of them those that are dead are passed over.
fn walk_run<'p, 't>(pattern: &'p str, parts: usize, text: &'t str) -> Option<(&'p str, &'t str)>
    requires { (any : List ℕ) → GlobMatches (chars pattern.now) any → parts ≤ length any }
    ensures found { IfSome result (λ rests.
        GlobMatches (chars rests.0.now) (chars rests.1.now)
        ↔ GlobMatches (star ∷ chars pattern.now) (chars text.now)) }
    ensures stops { IfSome result (λ rests. StopsAt (chars rests.0.now) (chars rests.1.now)) }
    ensures none { IfNone result (GlobMatches (star ∷ chars pattern.now) (chars text.now) → ⊥) }
    ensures shorter { IfSome result (λ rests. length rests.0.now < length pattern.now + 1) }
{
    let mut from = text;
    let mut tried = 0;
    loop {
        if from.len() < parts {
            return None;
        }
        if let Some((rest, left)) = match_run(pattern, from) {
            return Some((rest, left));
        }
        let (_skipped, next) = split_first_char(from)?;
        tried = (tried + 1) % (2 * FEW_TRIES);
        from = if tried == FEW_TRIES {
            behind_dead(pattern, parts, next)
        } else {
            next
        };
    }
}

/// Matches the pattern's parts up to its next `*` or its end against the text's front. Answers what
/// is left of both.
fn match_run<'p, 't>(pattern: &'p str, text: &'t str) -> Option<(&'p str, &'t str)>
    ensures found { IfSome result (λ rests.
        Runs (chars pattern.now) (chars text.now) (chars rests.0.now) (chars rests.1.now)) }
    ensures stops { IfSome result (λ rests. StopsAt (chars rests.0.now) (chars rests.1.now)) }
    ensures none { IfNone result (GlobMatches (chars pattern.now) (chars text.now) → ⊥) }
    ensures shorter { IfSome result (λ rests. length rests.0.now < length pattern.now + 1) }
{
    let mut rest = pattern;
    let mut left = text;
    while has_part(rest) {
        let (character, next) = split_first_char(left)?;
        rest = after_first(rest, character)?;
        left = next;
    }
    if rest.is_empty() && !left.is_empty() {
        return None;
    }
    Some((rest, left))
}

/// Whether the pattern begins with a part for one character.
fn has_part(pattern: &str) -> bool
    ensures { IsTrue result ↔ HasPart (chars pattern.now) }
{
    match split_first_char(pattern) {
        Some((first, _after)) => first != '*',
        None => false,
    }
}

/// The pattern after its first part, if that part allows the character.
fn after_first(pattern: &str, character: char) -> Option<&str>
    ensures allowed { IfSome result (λ rest. AllowsFirst (chars pattern.now) character (chars rest.now)) }
    ensures none { IfNone result ((rest : List ℕ) → AllowsFirst (chars pattern.now) character rest → ⊥) }
    ensures shorter { IfSome result (λ rest. length rest.now < length pattern.now) }
{
    let (first, after) = split_first_char(pattern)?;
    match first {
        '?' => Some(after),
        '\\' => after_character(after, character),
        '[' => after_class(after, character),
        '*' => None,
        _ => (first == character).then_some(after),
    }
}

/// What follows the character, if the text begins with it.
fn after_character(text: &str, character: char) -> Option<&str>
    ensures next { IfSome result (λ rest. chars text.now ≡ character ∷ chars rest.now) }
    ensures none { IfNone result ((rest : List ℕ) → chars text.now ≡ character ∷ rest → ⊥) }
    ensures shorter { IfSome result (λ rest. length rest.now < length text.now) }
{
    let (first, rest) = split_first_char(text)?;
    (first == character).then_some(rest)
}

/// What follows the class whose text this is up to the first `]`, if the class has the character.
fn after_class(text: &str, character: char) -> Option<&str>
    ensures allowed { IfSome result (λ rest. AllowsByClass (chars text.now) character (chars rest.now)) }
    ensures none { IfNone result ((rest : List ℕ) → AllowsByClass (chars text.now) character rest → ⊥) }
    ensures shorter { IfSome result (λ rest. length rest.now < length text.now) }
{
    let (class, rest) = text.split_once(']')?;
    class_has(class, character).then_some(rest)
}

/// Whether a class of this text has the character.
fn class_has(class: &str, character: char) -> bool
    ensures { result ≡ in_class (chars class.now) character }
{
    let mut rest = class;
    while let Some((low, after)) = split_first_char(rest) {
        match range_end(after) {
            Some((high, next)) => {
                if low <= character && character <= high {
                    return true;
                }
                rest = next;
            }
            None => {
                if low == character {
                    return true;
                }
                rest = after;
            }
        }
    }
    false
}

/// The upper end of a range whose lower end stands before this text, and what follows it.
pub(crate) fn range_end(after: &str) -> Option<(char, &str)>
    ensures found { IfSome result (λ parts. chars after.now ≡ minus_sign ∷ parts.0 ∷ chars parts.1.now) }
    ensures none { IfNone result ((high : ℕ) (rest : List ℕ) → chars after.now ≡ minus_sign ∷ high ∷ rest → ⊥) }
    ensures shorter { IfSome result (λ parts. length parts.1.now < length after.now) }
{
    if after.is_empty() || after.as_bytes()[0] != b'-' {
        return None;
    }
    split_first_char(&after[1..])
}
