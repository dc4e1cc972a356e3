//! What stands in front of a text, of which only as much is looked at as a script then takes.

ghost use Rattle.std.specs.Prelude.{◌≡◌, ◌≢◌, ◌<◌, ◌≤◌, ◌+◌, ◌-◌, ℕ, length, slice_index, MatchOption, IsTrue, true};
ghost use Rattle.tcl_text.specs.Bytes.{close_brace};
ghost use Rattle.tcl_words.specs.Kinds.{kind_before, name_bytes, name_length, to_brace, dollar_of};
ghost use Rattle.tcl_words.specs.Classes.{class_of, begins_newline, begins_expansion, is_name_byte};
ghost use Rattle.tcl_words.specs.Parts.{DollarFits};

use crate::kind::{Dollar, Kind};

/// What a byte can mean by itself.
#[tactic(auto, unfolding(crate::specs::Classes::class_of))]
fn class_of(byte: u8) -> Kind
    ensures class { result ≡ class_of byte }
    ensures ascii { result ≢ Kind.Other → byte < 128 }
    ensures alone { (result ≢ Kind.Expansion) × (result ≢ Kind.Continuation) }
{
    match byte {
        b'\n' => Kind::Newline,
        b' ' | b'\t' | 11 | 12 | b'\r' => Kind::Blank,
        b';' => Kind::Semicolon,
        b'#' => Kind::Hash,
        b'$' => Kind::Dollar,
        b'"' => Kind::Quote,
        b'[' => Kind::OpenBracket,
        b']' => Kind::CloseBracket,
        b'{' => Kind::OpenBrace,
        b'}' => Kind::CloseBrace,
        b')' => Kind::CloseParen,
        b'\\' => Kind::Backslash,
        _ => Kind::Other,
    }
}

/// Whether a newline is the first byte.
fn begins_newline(text: &[u8]) -> bool
    ensures { result ≡ begins_newline text.now }
{
    text.starts_with(b"\n")
}

/// Whether the text is what stands behind the `{` of a `{*}`.
fn begins_expansion(behind: &[u8]) -> bool
    ensures { result ≡ begins_expansion behind.now }
{
    behind.starts_with(b"*}")
}

/// What a byte means before the text behind it; `inside` says that a `]` or a `)` ends what is read.
pub fn kind_before(inside: bool, byte: u8, behind: &[u8]) -> Kind
    ensures kind { result ≡ kind_before inside byte behind.now }
    ensures ascii { result ≢ Kind.Other → byte < 128 }
    ensures expansion { result ≡ Kind.Expansion → begins_expansion behind.now ≡ true }
    ensures continuation { result ≡ Kind.Continuation → begins_newline behind.now ≡ true }
{
    match class_of(byte) {
        Kind::OpenBrace => {
            if begins_expansion(behind) {
                Kind::Expansion
            } else {
                Kind::OpenBrace
            }
        }
        Kind::Backslash => {
            if begins_newline(behind) {
                Kind::Continuation
            } else {
                Kind::Backslash
            }
        }
        Kind::CloseBracket => {
            if inside {
                Kind::CloseBracket
            } else {
                Kind::Other
            }
        }
        Kind::CloseParen => {
            if inside {
                Kind::CloseParen
            } else {
                Kind::Other
            }
        }
        class => class,
    }
}

/// Whether the byte is one of a variable's name.
fn is_name_byte(byte: u8) -> bool
    ensures name_byte { result ≡ is_name_byte byte }
    ensures ascii { IsTrue result → byte < 128 }
{
    byte.is_ascii_lowercase() || byte.is_ascii_uppercase() || byte.is_ascii_digit() || byte == b'_'
}

/// How many bytes of a name stand in front.
#[tactic(auto, using(crate::proofs::Fronts::letter_next, crate::proofs::Fronts::letter_last))]
fn name_bytes(text: &[u8]) -> usize
    ensures count { result ≡ name_bytes text.now }
    ensures within { result ≤ length text.now }
    ensures last { 0 < result → slice_index text.now (result - 1) < 128 }
{
    for (count, &byte) in text.iter().enumerate() {
        if !is_name_byte(byte) {
            return count;
        }
    }
    text.len()
}

/// How long the variable's name in front is.
fn name_length(text: &[u8]) -> usize
    ensures length { result ≡ name_length text.now }
    ensures within { result ≤ length text.now }
    ensures last { 0 < result → slice_index text.now (result - 1) < 128 }
{
    if text.starts_with(b"::") {
        match name_bytes(&text[2..]) {
            0 => 0,
            count => count + 2,
        }
    } else {
        name_bytes(text)
    }
}

/// How many bytes stand before the first `}`.
#[tactic(auto, using(crate::proofs::Fronts::brace_next, crate::proofs::Fronts::brace_last))]
fn to_brace(text: &[u8]) -> Option<usize>
    ensures count { result ≡ to_brace text.now }
    ensures within { MatchOption result (Unit {0}) (λ count. count < length text.now) }
    ensures found { MatchOption result (Unit {0}) (λ count. slice_index text.now count ≡ close_brace) }
{
    for (count, &byte) in text.iter().enumerate() {
        if byte == b'}' {
            return Some(count);
        }
    }
    None
}

/// What a `$` is before the text.
#[tactic(auto, unfolding(crate::specs::Kinds::dollar_of))]
pub fn dollar_of(behind: &[u8]) -> Dollar
    ensures form { result ≡ dollar_of behind.now }
    ensures fits { DollarFits behind.now result }
{
    if behind.starts_with(b"{") {
        return match to_brace(&behind[1..]) {
            None => Dollar::Unclosed,
            Some(count) => Dollar::Braced(count),
        };
    }
    match name_length(behind) {
        0 => Dollar::Alone,
        count => {
            if behind[count..].starts_with(b"(") {
                Dollar::Indexed(count)
            } else {
                Dollar::Named(count)
            }
        }
    }
}
