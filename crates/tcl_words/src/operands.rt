//! What a `$`, a bracket or a quote begins in a text that is no script.

ghost use Rattle.std.specs.Prelude.{◌≡◌, ◌≢◌, ◌<◌, ◌≤◌, ◌+◌, ◌⊎◌, [], length, drop, Err, true, false, IfOk, IfErr};
ghost use Rattle.std.specs.Str.{IsCharBoundary};
ghost use Rattle.tcl_words.specs.Kinds.{kind_before as kind_meant};
ghost use Rattle.tcl_words.specs.Parts.{IsCut, IsOpenerCut, StandsAt, no_parts};
ghost use Rattle.tcl_words.specs.Reading.{first_skip};
ghost use Rattle.tcl_words.specs.Chain.{own, opened as opened_origin, IsReading};
ghost use Rattle.tcl_words.specs.Operands.{opened_of, bracket_of, substitution_of, quoted_of, quoted_rest, outer, IsReadAs, EndsAt, ReadsOn, MayOpen};
ghost use Rattle.tcl_text.specs.Limits.{most_bytes, most_nested};

use crate::kind::{BytePlace, Dollar, Kind, Mode, Opener, Step};
use crate::nesting::{Origin, Reader};
use crate::open::{Open, text_of};
use crate::read::{dollar_at, look, read_text, unfinished};
use crate::reader::{opened, piece_of};
use crate::script::{Piece, Pieces};
use crate::source::SourceText;
use tcl_text::ParseFault;

/// What was found, and how many bytes are read with it.
pub type Found<T> = Result<(T, usize), ParseFault>;

/// How what an opener at a place opens begins, where so many may be opened in one another.
fn opened_at(at: usize, opener: Opener, room: usize) -> Origin
    requires room { 0 < room }
    requires within { at < most_bytes }
    requires name { first_skip opener ≤ most_bytes }
    ensures { result ≡ opened_origin (outer room) at opener }
{
    let outer = Origin {
        base: 0,
        inside: true,
        room,
        skip: 0,
        place: BytePlace::Start,
    };
    opened(outer, at, opener)
}

/// What begins so, up to the bracket or the parenthesis that ends it, and how many bytes behind its base that stands.
fn read_inside(whole: &SourceText, source: &str, first: Origin) -> Result<(Open, usize), ParseFault>
    requires short { length source.now ≤ most_bytes }
    requires inside { first.inside ≡ true }
    requires begins { IsReading first source.now [] first (no_parts first.skip) first.place first.skip }
    ensures ends { IfOk result (λ found. EndsAt first source.now found.0 found.1) }
    ensures fault { IfErr result (λ fault. (own source.now first ≡ Err fault) ⊎ (fault ≡ ParseFault.NoMemory)) }
{
    let mut reader = Reader::new(whole.alloc(), first);
    while reader.origin.base + reader.next < source.len() {
        if reader.read_next(whole, source)? {
            return Ok((reader.parts, reader.next));
        }
    }
    Err(unfinished(reader.place))
}

/// What an opener at a place opens.
fn read_opened(
    whole: &SourceText,
    source: &str,
    at: usize,
    opener: Opener,
    room: usize,
) -> Found<Piece>
    requires short { length source.now ≤ most_bytes }
    requires within { at < length source.now }
    requires room { room ≤ most_nested }
    requires cut { IsOpenerCut source.now at opener }
    ensures found { IsReadAs result (opened_of room opener (drop (at + 1) source.now)) }
    ensures past { IfOk result (λ found. IsCharBoundary source.now (at + 1 + found.1)) }
{
    if room == 0 {
        return Err(ParseFault::TooLong);
    }
    let (parts, close) = read_inside(whole, source, opened_at(at, opener, room))?;
    let piece = piece_of(whole, source, at, close, opener, parts)?;
    Ok((piece, close + 1))
}

/// The script that a bracket at a place opens, where so many brackets and indices may be opened in one another, and how many bytes
/// behind the place are read with the bracket that closes it (Tcl(n), "Command substitution"). A place counts the bytes before it.
/// `TooLong` (4) where there is no room; else the first fault of the script (4 to 10), or `MissingBracket` (6) where it never ends.
/// The source has at most 65,536 bytes, an ASCII byte stands at the place, and the room is at most 200. Parts share the memory of `whole`,
/// where that is the source.
pub fn bracket_behind(whole: &SourceText, source: &str, at: usize, room: usize) -> Found<Piece>
    requires { MayOpen room source.now at }
    ensures { IsReadAs result (bracket_of room (drop (at + 1) source.now)) }
{
    read_opened(whole, source, at, Opener::Bracket, room)
}

/// What a `$` at a place begins, and how many bytes behind the place are read; nothing where it stands for itself (Tcl(n), "Variable
/// substitution"). `room` is how many brackets and indices may be opened in one another. `MissingBrace` (5) where a name in braces never
/// ends; of an index `TooLong` (4) where there is no room, else the first fault of what stands in it (4 to 10), or `MissingParen` (10).
/// The source has at most 65,536 bytes, an ASCII byte stands at the place, and the room is at most 200. Parts share the memory of `whole`,
/// where that is the source.
pub fn substitution_behind(
    whole: &SourceText,
    source: &str,
    at: usize,
    room: usize,
) -> Result<Option<(Piece, usize)>, ParseFault>
    requires { MayOpen room source.now at }
    ensures { IsReadAs result (substitution_of room (drop (at + 1) source.now)) }
{
    let start = at + 1;
    match dollar_at(source, at) {
        Dollar::Alone => Ok(None),
        Dollar::Named(count) => {
            let name = text_of(whole.alloc(), source, start, start + count)?;
            Ok(Some((Piece::Variable(name), count)))
        }
        Dollar::Indexed(count) => {
            let found = read_opened(whole, source, at, Opener::Index(count), room)?;
            Ok(Some(found))
        }
        Dollar::Braced(count) => {
            let name = text_of(whole.alloc(), source, start + 1, start + 1 + count)?;
            Ok(Some((Piece::Variable(name), count + 2)))
        }
        Dollar::Unclosed => Err(ParseFault::MissingBrace),
    }
}

/// A byte in quotes that doesn't end them, with what it opens; the place past both.
fn read_quoted(
    parts: &mut Open,
    whole: &SourceText,
    source: &str,
    at: usize,
    byte: u8,
    kind: Kind,
    room: usize,
) -> Result<usize, ParseFault>
    requires stands { StandsAt source.now at byte kind }
    requires kind { kind ≡ kind_meant false byte (drop (at + 1) source.now) }
    requires text { kind ≢ Kind.Quote }
    requires fine { IsCut parts.old source.now at }
    requires room { room ≤ most_nested }
    ensures ok { IfOk result (λ next. ReadsOn room source.now parts.old at parts.new next) }
    ensures fault { IfErr result (λ fault. (quoted_rest room (drop at source.now) 0 at ≡ Err fault) ⊎ (fault ≡ ParseFault.NoMemory)) }
{
    match read_text(parts, whole.alloc(), source, at, byte, kind, Mode::Parens)? {
        Step::On(skip, _) => Ok(at + 1 + skip),
        Step::Within(opener, _) => {
            let (piece, taken) = read_opened(whole, source, at, opener, room)?;
            let next = at + 1 + taken;
            parts.push_piece(piece, next)?;
            Ok(next)
        }
        Step::Ends => unreachable!(),
    }
}

/// The pieces between a quote at a place and the next one, where so many brackets and indices may be opened in one another,
/// and how many bytes behind the place are read with the quote that ends them (Tcl(n), "Double quotes"). The first fault of what
/// stands in them is told (4 to 10), as `TooLong` (4) where there is no room; else `MissingQuote` (7) where no quote ends them.
/// The source has at most 65,536 bytes, an ASCII byte stands at the place, and the room is at most 200. Parts share the memory of `whole`,
/// where that is the source.
pub fn quotes_behind(whole: &SourceText, source: &str, at: usize, room: usize) -> Found<Pieces>
    requires { MayOpen room source.now at }
    ensures { IsReadAs result (quoted_of room (drop (at + 1) source.now)) }
{
    let text = &source[at + 1..];
    let mut parts = Open::new(whole.alloc(), 0);
    let mut next = 0;
    while next < text.len() {
        let (byte, kind) = look(text, next, false);
        match kind {
            Kind::Quote => {
                parts.end_literal(whole.alloc(), text, next)?;
                return Ok((parts.into_pieces(whole.alloc()), next + 1));
            }
            _ => next = read_quoted(&mut parts, whole, text, next, byte, kind, room)?,
        }
    }
    Err(ParseFault::MissingQuote)
}
