//! What a byte does where it stands: each function makes the definition's move on what is open.

ghost use Rattle.std.specs.Prelude.{◌≡◌, ◌≢◌, ◌<◌, ◌≤◌, ◌+◌, ◌-◌, ℕ, [], ◌∷◌, length, drop, take, slice_index, IfOk, OnOk, IsTrue, true, false, Err, ◌↔◌, encode_utf8};
ghost use Rattle.std.specs.List.{slice_range};
ghost use Rattle.std.specs.Str.{IsCharBoundary};
ghost use Rattle.tcl_text.specs.Backslash.{escape};
ghost use Rattle.tcl_text.specs.Escaped.{bytes_meant};
ghost use Rattle.tcl_words.specs.Kinds.{kind_before as kind_meant, dollar_of as dollar_meant};
ghost use Rattle.tcl_words.specs.Classes.{begins_expansion, begins_newline};
ghost use Rattle.tcl_words.specs.Moves.{ByteMove, word_over, in_text, at_dollar, in_bare, in_quotes, in_parens, in_braces, at_word, in_expanded, in_between, in_start, in_comment, move_of, move_at, at_fault};
ghost use Rattle.tcl_words.specs.Parts.{DoesMove, DollarFits, IsFine, IsCut, IsExpansion, StandsAt, EndsWord, Escaped, FinishesScript, is_index, with_piece, with_literal};
ghost use Rattle.tcl_words.specs.Reading.{read_at_end};
ghost use Rattle.tcl_words.specs.declared.script.Piece.TheVariants.{Variable};
ghost use Rattle.tcl_text.specs.Limits.{most_bytes};

use crate::kind::{BytePlace, Dollar, Kind, Mode, Opener, Step};
use crate::look::{dollar_of, kind_before};
use crate::open::{Open, text_of};
use crate::script::{Piece, WordForm};
use std::alloc::{AllocError, Global};
use tcl_text::{Escape, Meaning, ParseFault, escape_behind};

/// What the backslash at a place stands for.
fn escape_at(source: &str, at: usize) -> Escape
    requires within { at < length source.now }
    ensures meaning { bytes_meant result.meaning ≡ (escape (drop (at + 1) source.now)).meaning }
    ensures length { result.length ≡ (escape (drop (at + 1) source.now)).length }
    ensures within { at + 1 + result.length ≤ length source.now }
{
    escape_behind(&source.as_bytes()[at + 1..])
}

/// How many bytes a backslash before a newline takes behind it.
fn blanks_behind(source: &str, at: usize) -> usize
    requires within { at < length source.now }
    ensures length { result ≡ (escape (drop (at + 1) source.now)).length }
    ensures within { at + 1 + result ≤ length source.now }
{
    escape_at(source, at).length
}

/// How many bytes a backslash takes behind it where it is not substituted: one, or none at the end.
fn one_behind(source: &str, at: usize) -> usize
    requires within { at < length source.now }
    ensures length { result ≡ length (take 1 (drop (at + 1) source.now)) }
    ensures within { at + 1 + result ≤ length source.now }
{
    if at + 1 < source.len() { 1 } else { 0 }
}

/// What the `$` at a place is.
pub fn dollar_at(source: &str, at: usize) -> Dollar
    requires within { at < length source.now }
    ensures form { result ≡ dollar_meant (drop (at + 1) source.now) }
    ensures fits { DollarFits (drop (at + 1) source.now) result }
{
    dollar_of(&source.as_bytes()[at + 1..])
}

/// Whether no byte of a longer character follows.
fn is_ascii_behind(source: &str, at: usize) -> bool
    requires within { at < length source.now }
    ensures { IsTrue result ↔ slice_index (drop (at + 1) source.now) 0 < 128 }
{
    match source.as_bytes()[at + 1..].first() {
        Some(byte) => byte.is_ascii(),
        None => true,
    }
}

/// The character that a backslash stands for, before one of ASCII, and how many bytes it takes behind it.
fn escaped_char(source: &str, at: usize) -> (char, usize)
    requires within { at < length source.now }
    requires ascii { slice_index (drop (at + 1) source.now) 0 < 128 }
    ensures meaning { encode_utf8 result.0 ≡ (escape (drop (at + 1) source.now)).meaning }
    ensures length { result.1 ≡ (escape (drop (at + 1) source.now)).length }
    ensures within { at + 1 + result.1 ≤ length source.now }
{
    let escape = escape_at(source, at);
    match escape.meaning {
        Meaning::Byte(byte) => (char::from(byte), escape.length),
        Meaning::Character(character) => (character, escape.length),
    }
}

/// What a backslash stands for is part of the literal that is open.
fn push_escape(parts: &mut Open, source: &str, at: usize) -> Result<usize, AllocError>
    requires within { at < length source.now }
    requires short { length source.now ≤ most_bytes }
    requires cut { IsCut parts.old source.now at }
    requires begins { IsCharBoundary source.now at }
    requires behind { IsCharBoundary source.now (at + 1) }
    ensures { IfOk result (λ taken. Escaped parts.old parts.new source.now at taken) }
{
    parts.keep_literal(source, at)?;
    if !is_ascii_behind(source, at) {
        // The first byte of a longer character stands for itself, and the others follow as they are.
        parts.set_mark(at + 1);
        return Ok(1);
    }
    let (character, taken) = escaped_char(source, at);
    parts.push_char(character, at + 1 + taken)?;
    Ok(taken)
}

/// A variable's name is the next piece.
fn push_name(
    parts: &mut Open,
    alloc: Global,
    source: &str,
    at: usize,
    start: usize,
    end: usize,
    mark: usize,
) -> Result<(), AllocError>
    requires within { at ≤ length source.now }
    requires short { length source.now ≤ most_bytes }
    requires cut { IsCut parts.old source.now at }
    requires ends { IsCharBoundary source.now at }
    requires name_ordered { start ≤ end }
    requires name_within { end ≤ length source.now }
    requires name_begins { IsCharBoundary source.now start }
    requires name_ends { IsCharBoundary source.now end }
    ensures ok { OnOk result (parts.new ≡ with_piece (with_literal parts.old source.now at) (Variable (slice_range source.now start end)) mark) }
{
    parts.end_literal(alloc, source, at)?;
    let name = text_of(alloc, source, start, end)?;
    parts.push_piece(Piece::Variable(name), mark)?;
    Ok(())
}

/// A `$` in a text with substitution.
fn read_dollar(
    parts: &mut Open,
    alloc: Global,
    source: &str,
    at: usize,
    byte: u8,
    mode: Mode,
) -> Result<Step, ParseFault>
    requires stands { StandsAt source.now at byte Kind.Dollar }
    requires fine { IsCut parts.old source.now at }
    ensures { DoesMove parts.old parts.new source.now at (BytePlace.Text mode) (in_text mode Kind.Dollar byte (drop (at + 1) source.now)) result }
{
    match dollar_at(source, at) {
        Dollar::Alone => Ok(Step::On(0, BytePlace::Text(mode))),
        Dollar::Named(count) => {
            let start = at + 1;
            push_name(
                parts,
                alloc,
                source,
                at,
                start,
                start + count,
                start + count,
            )?;
            Ok(Step::On(count, BytePlace::Text(mode)))
        }
        Dollar::Indexed(count) => {
            parts.end_literal(alloc, source, at)?;
            Ok(Step::Within(Opener::Index(count), mode))
        }
        Dollar::Braced(count) => {
            let start = at + 2;
            push_name(
                parts,
                alloc,
                source,
                at,
                start,
                start + count,
                start + count + 1,
            )?;
            Ok(Step::On(count + 2, BytePlace::Text(mode)))
        }
        Dollar::Unclosed => Err(ParseFault::MissingBrace),
    }
}

/// A byte in a text with substitution.
pub fn read_text(
    parts: &mut Open,
    alloc: Global,
    source: &str,
    at: usize,
    byte: u8,
    kind: Kind,
    mode: Mode,
) -> Result<Step, ParseFault>
    requires stands { StandsAt source.now at byte kind }
    requires fine { IsCut parts.old source.now at }
    ensures { DoesMove parts.old parts.new source.now at (BytePlace.Text mode) (in_text mode kind byte (drop (at + 1) source.now)) result }
{
    match kind {
        Kind::Dollar => read_dollar(parts, alloc, source, at, byte, mode),
        Kind::OpenBracket => {
            parts.end_literal(alloc, source, at)?;
            Ok(Step::Within(Opener::Bracket, mode))
        }
        Kind::Backslash | Kind::Continuation => {
            let taken = push_escape(parts, source, at)?;
            Ok(Step::On(taken, BytePlace::Text(mode)))
        }
        _ => Ok(Step::On(0, BytePlace::Text(mode))),
    }
}

/// A byte that ends a word, once its pieces have ended.
fn end_word(
    parts: &mut Open,
    alloc: Global,
    source: &str,
    at: usize,
    byte: u8,
    kind: Kind,
) -> Result<Step, ParseFault>
    requires stands { StandsAt source.now at byte kind }
    requires ends { EndsWord kind }
    ensures { (other : ByteMove) → DoesMove parts.old parts.new source.now at BytePlace.PastBraces (word_over kind at (drop (at + 1) source.now) other) result }
{
    parts.end_word(alloc, at)?;
    match kind {
        Kind::Newline | Kind::Semicolon => {
            parts.end_command(alloc)?;
            Ok(Step::On(0, BytePlace::Start))
        }
        Kind::CloseBracket => {
            parts.end_command(alloc)?;
            Ok(Step::Ends)
        }
        Kind::Continuation => Ok(Step::On(blanks_behind(source, at), BytePlace::Between)),
        _ => Ok(Step::On(0, BytePlace::Between)),
    }
}

/// A byte past the brace or the quote that ends a word.
fn read_past(
    parts: &mut Open,
    alloc: Global,
    source: &str,
    at: usize,
    byte: u8,
    kind: Kind,
    fault: ParseFault,
) -> Result<Step, ParseFault>
    requires stands { StandsAt source.now at byte kind }
    ensures { DoesMove parts.old parts.new source.now at BytePlace.PastBraces (word_over kind at (drop (at + 1) source.now) (at_fault fault)) result }
{
    match kind {
        Kind::Blank | Kind::Newline | Kind::Semicolon | Kind::Continuation | Kind::CloseBracket =>
            end_word(parts, alloc, source, at, byte, kind),
        _ => Err(fault),
    }
}

/// A byte in a bare word.
fn read_bare(
    parts: &mut Open,
    alloc: Global,
    source: &str,
    at: usize,
    byte: u8,
    kind: Kind,
) -> Result<Step, ParseFault>
    requires stands { StandsAt source.now at byte kind }
    requires fine { IsCut parts.old source.now at }
    ensures { DoesMove parts.old parts.new source.now at (BytePlace.Text Mode.Bare) (in_bare kind byte at (drop (at + 1) source.now)) result }
{
    match kind {
        Kind::Blank | Kind::Newline | Kind::Semicolon | Kind::Continuation | Kind::CloseBracket => {
            parts.end_literal(alloc, source, at)?;
            end_word(parts, alloc, source, at, byte, kind)
        }
        _ => read_text(parts, alloc, source, at, byte, kind, Mode::Bare),
    }
}

/// A byte in a word in quotes.
fn read_quotes(
    parts: &mut Open,
    alloc: Global,
    source: &str,
    at: usize,
    byte: u8,
    kind: Kind,
) -> Result<Step, ParseFault>
    requires stands { StandsAt source.now at byte kind }
    requires fine { IsCut parts.old source.now at }
    ensures { DoesMove parts.old parts.new source.now at (BytePlace.Text Mode.Quotes) (in_quotes kind byte (drop (at + 1) source.now)) result }
{
    match kind {
        Kind::Quote => {
            parts.end_literal(alloc, source, at)?;
            Ok(Step::On(0, BytePlace::PastQuotes))
        }
        _ => read_text(parts, alloc, source, at, byte, kind, Mode::Quotes),
    }
}

/// A byte in an index.
fn read_parens(
    parts: &mut Open,
    alloc: Global,
    source: &str,
    at: usize,
    byte: u8,
    kind: Kind,
) -> Result<Step, ParseFault>
    requires stands { StandsAt source.now at byte kind }
    requires fine { IsCut parts.old source.now at }
    ensures { DoesMove parts.old parts.new source.now at (BytePlace.Text Mode.Parens) (in_parens kind byte (drop (at + 1) source.now)) result }
{
    match kind {
        Kind::CloseParen => {
            parts.end_literal(alloc, source, at)?;
            Ok(Step::Ends)
        }
        _ => read_text(parts, alloc, source, at, byte, kind, Mode::Parens),
    }
}

/// A byte in a word in braces.
fn read_braces(
    parts: &mut Open,
    alloc: Global,
    source: &str,
    at: usize,
    byte: u8,
    kind: Kind,
    depth: usize,
) -> Result<Step, ParseFault>
    requires stands { StandsAt source.now at byte kind }
    requires fine { IsFine parts.old source.now (BytePlace.InBraces depth) at }
    ensures { DoesMove parts.old parts.new source.now at (BytePlace.InBraces depth) (in_braces depth kind byte (drop (at + 1) source.now)) result }
{
    match kind {
        Kind::CloseBrace => {
            if depth > 0 {
                return Ok(Step::On(0, BytePlace::InBraces(depth - 1)));
            }
            parts.end_braced(alloc, source, at)?;
            Ok(Step::On(0, BytePlace::PastBraces))
        }
        Kind::OpenBrace | Kind::Expansion => Ok(Step::On(0, BytePlace::InBraces(depth + 1))),
        Kind::Backslash => Ok(Step::On(one_behind(source, at), BytePlace::InBraces(depth))),
        Kind::Continuation => {
            let taken = push_escape(parts, source, at)?;
            Ok(Step::On(taken, BytePlace::InBraces(depth)))
        }
        _ => Ok(Step::On(0, BytePlace::InBraces(depth))),
    }
}

/// A byte with which a word begins; the word starts there, or at the `{*}` before it.
fn read_word(
    parts: &mut Open,
    alloc: Global,
    source: &str,
    at: usize,
    byte: u8,
    kind: Kind,
    expand: bool,
    start: usize,
) -> Result<Step, ParseFault>
    requires stands { StandsAt source.now at byte kind }
    requires begins { IsCharBoundary source.now at }
    requires before { start ≤ at }
    ensures { DoesMove parts.old parts.new source.now at BytePlace.Between (at_word expand start kind byte at (drop (at + 1) source.now)) result }
{
    match kind {
        Kind::OpenBrace | Kind::Expansion => {
            parts.begin_word(alloc, WordForm::Braced, expand, start, at + 1);
            Ok(Step::On(0, BytePlace::InBraces(0)))
        }
        Kind::Quote => {
            parts.begin_word(alloc, WordForm::Quoted, expand, start, at + 1);
            Ok(Step::On(0, BytePlace::Text(Mode::Quotes)))
        }
        _ => {
            parts.begin_word(alloc, WordForm::Bare, expand, start, at);
            read_bare(parts, alloc, source, at, byte, kind)
        }
    }
}

/// A byte past `{*}`, which is a word of its own where the word ends there.
fn read_expanded(
    parts: &mut Open,
    alloc: Global,
    source: &str,
    at: usize,
    byte: u8,
    kind: Kind,
) -> Result<Step, ParseFault>
    requires stands { StandsAt source.now at byte kind }
    requires expansion { IsExpansion source.now at }
    ensures { DoesMove parts.old parts.new source.now at BytePlace.Expanded (in_expanded kind byte at (drop (at + 1) source.now)) result }
{
    match kind {
        Kind::Blank | Kind::Newline | Kind::Semicolon | Kind::Continuation | Kind::CloseBracket => {
            parts.begin_word(alloc, WordForm::Braced, false, at - 3, at - 2);
            parts.end_braced(alloc, source, at - 1)?;
            end_word(parts, alloc, source, at, byte, kind)
        }
        _ => read_word(parts, alloc, source, at, byte, kind, true, at - 3),
    }
}

/// A byte in a command, past a word and a blank.
fn read_between(
    parts: &mut Open,
    alloc: Global,
    source: &str,
    at: usize,
    byte: u8,
    kind: Kind,
) -> Result<Step, ParseFault>
    requires stands { StandsAt source.now at byte kind }
    requires begins { IsCharBoundary source.now at }
    ensures { DoesMove parts.old parts.new source.now at BytePlace.Between (in_between kind byte at (drop (at + 1) source.now)) result }
{
    match kind {
        Kind::Blank => Ok(Step::On(0, BytePlace::Between)),
        Kind::Newline | Kind::Semicolon => {
            parts.end_command(alloc)?;
            Ok(Step::On(0, BytePlace::Start))
        }
        Kind::Continuation => Ok(Step::On(blanks_behind(source, at), BytePlace::Between)),
        Kind::CloseBracket => {
            parts.end_command(alloc)?;
            Ok(Step::Ends)
        }
        Kind::Expansion => Ok(Step::On(2, BytePlace::Expanded)),
        _ => read_word(parts, alloc, source, at, byte, kind, false, at),
    }
}

/// A byte where a command may begin.
fn read_start(
    parts: &mut Open,
    alloc: Global,
    source: &str,
    at: usize,
    byte: u8,
    kind: Kind,
) -> Result<Step, ParseFault>
    requires stands { StandsAt source.now at byte kind }
    requires begins { IsCharBoundary source.now at }
    ensures { DoesMove parts.old parts.new source.now at BytePlace.Start (in_start kind byte at (drop (at + 1) source.now)) result }
{
    match kind {
        Kind::Blank | Kind::Newline | Kind::Semicolon => Ok(Step::On(0, BytePlace::Start)),
        Kind::Continuation => Ok(Step::On(blanks_behind(source, at), BytePlace::Start)),
        Kind::CloseBracket => Ok(Step::Ends),
        Kind::Hash => Ok(Step::On(0, BytePlace::Comment)),
        _ => {
            parts.begin_command(at);
            read_between(parts, alloc, source, at, byte, kind)
        }
    }
}

/// A byte in a comment.
fn read_comment(
    parts: &Open,
    source: &str,
    at: usize,
    byte: u8,
    kind: Kind,
) -> Result<Step, ParseFault>
    requires stands { StandsAt source.now at byte kind }
    ensures { DoesMove parts.now parts.now source.now at BytePlace.Comment (in_comment kind (drop (at + 1) source.now)) result }
{
    match kind {
        Kind::Newline => Ok(Step::On(0, BytePlace::Start)),
        Kind::Backslash | Kind::Continuation => {
            Ok(Step::On(one_behind(source, at), BytePlace::Comment))
        }
        _ => Ok(Step::On(0, BytePlace::Comment)),
    }
}

/// What a byte at a place means.
fn kind_at(source: &str, at: usize, byte: u8, inside: bool) -> Kind
    requires within { at < length source.now }
    ensures kind { result ≡ kind_meant inside byte (drop (at + 1) source.now) }
    ensures ascii { result ≢ Kind.Other → byte < 128 }
    ensures expansion { result ≡ Kind.Expansion → begins_expansion (drop (at + 1) source.now) ≡ true }
    ensures continuation { result ≡ Kind.Continuation → begins_newline (drop (at + 1) source.now) ≡ true }
{
    kind_before(inside, byte, &source.as_bytes()[at + 1..])
}

/// The byte at a place, and what it means there.
pub fn look(source: &str, at: usize, inside: bool) -> (u8, Kind)
    requires within { at < length source.now }
    requires short { length source.now ≤ most_bytes }
    ensures stands { StandsAt source.now at result.0 result.1 }
    ensures byte { result.0 ≡ slice_index source.now at }
    ensures kind { result.1 ≡ kind_meant inside result.0 (drop (at + 1) source.now) }
{
    let bytes = source.as_bytes();
    let byte = bytes[at];
    (byte, kind_at(source, at, byte, inside))
}

/// A byte of a script or an index, at this place of it; `inside` says whether a bracket or a parenthesis ends it.
pub fn read_byte(
    parts: &mut Open,
    alloc: Global,
    source: &str,
    at: usize,
    inside: bool,
    place: BytePlace,
) -> Result<Step, ParseFault>
    requires within { at < length source.now }
    requires short { length source.now ≤ most_bytes }
    requires fine { IsFine parts.old source.now place at }
    ensures { DoesMove parts.old parts.new source.now at place (move_at source.now at inside place) result }
{
    let (byte, kind) = look(source, at, inside);
    match place {
        BytePlace::Start => read_start(parts, alloc, source, at, byte, kind),
        BytePlace::Comment => read_comment(parts, source, at, byte, kind),
        BytePlace::Between => read_between(parts, alloc, source, at, byte, kind),
        BytePlace::Expanded => read_expanded(parts, alloc, source, at, byte, kind),
        BytePlace::Text(Mode::Bare) => read_bare(parts, alloc, source, at, byte, kind),
        BytePlace::Text(Mode::Quotes) => read_quotes(parts, alloc, source, at, byte, kind),
        BytePlace::Text(Mode::Parens) => read_parens(parts, alloc, source, at, byte, kind),
        BytePlace::PastQuotes => read_past(
            parts,
            alloc,
            source,
            at,
            byte,
            kind,
            ParseFault::ExtraAfterQuote,
        ),
        BytePlace::InBraces(depth) => read_braces(parts, alloc, source, at, byte, kind, depth),
        BytePlace::PastBraces => read_past(
            parts,
            alloc,
            source,
            at,
            byte,
            kind,
            ParseFault::ExtraAfterBrace,
        ),
    }
}

/// The text of a script ends, and what is open of it: not in quotes, braces or an index.
pub fn finish(
    parts: &mut Open,
    alloc: Global,
    source: &str,
    place: BytePlace,
) -> Result<(), ParseFault>
    requires short { length source.now ≤ most_bytes }
    requires fine { IsFine parts.old source.now place (length source.now) }
    requires script { is_index place ≡ false }
    ensures { FinishesScript parts.old parts.new source.now place (length source.now) result }
{
    let at = source.len();
    match place {
        BytePlace::Start | BytePlace::Comment => Ok(()),
        BytePlace::Between => {
            parts.end_command(alloc)?;
            Ok(())
        }
        BytePlace::Expanded => {
            parts.begin_word(alloc, WordForm::Braced, false, at - 3, at - 2);
            parts.end_braced(alloc, source, at - 1)?;
            parts.end_word(alloc, at)?;
            parts.end_command(alloc)?;
            Ok(())
        }
        BytePlace::Text(Mode::Bare) => {
            parts.end_literal(alloc, source, at)?;
            parts.end_word(alloc, at)?;
            parts.end_command(alloc)?;
            Ok(())
        }
        BytePlace::PastQuotes | BytePlace::PastBraces => {
            parts.end_word(alloc, at)?;
            parts.end_command(alloc)?;
            Ok(())
        }
        BytePlace::Text(Mode::Quotes) => Err(ParseFault::MissingQuote),
        BytePlace::Text(Mode::Parens) => unreachable!(),
        BytePlace::InBraces(_) => Err(ParseFault::MissingBrace),
    }
}

/// The fault of a text that ends where a bracket or a parenthesis is to come.
pub fn unfinished(place: BytePlace) -> ParseFault
    ensures { (at : ℕ) → read_at_end true place at ≡ Err result }
{
    match place {
        BytePlace::Text(Mode::Quotes) => ParseFault::MissingQuote,
        BytePlace::Text(Mode::Parens) => ParseFault::MissingParen,
        BytePlace::InBraces(_) => ParseFault::MissingBrace,
        _ => ParseFault::MissingBracket,
    }
}
