//! Reading of a script with all that stands within it, byte by byte and without recursion.

ghost use Rattle.std.specs.Prelude.{◌≡◌, ◌<◌, ◌≤◌, ◌+◌, ◌-◌, ◌⊎◌, [], ◌∷◌, ◌^◌, suc, length, drop, take, true, Ok, Err, IfOk, IfErr, OnOk};
ghost use Rattle.std.specs.Str.{IsCharBoundary};
ghost use Rattle.tcl_words.specs.Reading.{commands_in, rest_of, outermost as outermost_level, opened_piece, first_skip};
ghost use Rattle.tcl_words.specs.Parts.{IsOpenerCut, no_parts};
ghost use Rattle.tcl_words.specs.Chain.{outset, own, opened as opened_origin, IsReading, IsOpening, IsClosing, IsParse, Goes};
ghost use Rattle.tcl_text.specs.Limits.{most_bytes};

use crate::kind::{BytePlace, Mode, Opener, Step};
use crate::nesting::{Origin, Reader, Waiting};
use crate::open::Open;
use crate::read::{finish, read_byte, unfinished};
use crate::script::{Command, Index, Piece, Script};
use crate::source::{SourceText, name_of, part_of};
use std::alloc::Global;
use std::mem;
use tcl_text::ParseFault;

/// How many brackets and indices, and parentheses of an expression, stand in one another at most.
pub const MAX_DEPTH: usize = 200;

/// How a whole script begins.
fn outermost() -> Origin
    ensures { result ≡ outset }
{
    Origin {
        base: 0,
        inside: false,
        room: MAX_DEPTH,
        skip: 0,
        place: BytePlace::Start,
    }
}

/// How what is opened at a place begins.
pub fn opened(origin: Origin, at: usize, opener: Opener) -> Origin
    requires room { 0 < origin.room }
    requires within { origin.base + at < most_bytes }
    requires name { first_skip opener ≤ most_bytes }
    ensures { result ≡ opened_origin origin at opener }
{
    let (skip, place) = match opener {
        Opener::Bracket => (0, BytePlace::Start),
        Opener::Index(count) => (count + 1, BytePlace::Text(Mode::Parens)),
    };
    Origin {
        base: origin.base + (at + 1),
        inside: true,
        room: origin.room - 1,
        skip,
        place,
    }
}

/// The piece whose opener stands at a place of the source, and that ends so many bytes behind it.
pub fn piece_of(
    whole: &SourceText,
    source: &str,
    at: usize,
    close: usize,
    opener: Opener,
    parts: Open,
) -> Result<Piece, ParseFault>
    requires short { length source.now ≤ most_bytes }
    requires cut { IsOpenerCut source.now at opener }
    requires ends { IsCharBoundary source.now (at + 1 + close) }
    requires parse { IsParse opener (drop (at + 1) source.now) close parts }
    ensures ok { IfOk result (λ piece. piece ≡ opened_piece opener (drop (at + 1) source.now) close) }
    ensures fault { IfErr result (λ fault. fault ≡ ParseFault.NoMemory) }
{
    let base = at + 1;
    match opener {
        Opener::Bracket => {
            let text = part_of(whole, source, base, base + close)?;
            let script = Script::new(whole.alloc(), text, parts.into_commands())?;
            Ok(Piece::Bracket(script))
        }
        Opener::Index(count) => {
            let name = name_of(whole, source, base, base + count)?;
            let text = part_of(whole, source, base + count + 1, base + close)?;
            let index = Index::new(whole.alloc(), text, parts.into_pieces(whole.alloc()))?;
            Ok(Piece::Element(name, index))
        }
    }
}

impl Reader {
    /// What begins so, of which nothing is read yet.
    pub fn new(alloc: Global, first: Origin) -> Reader
        ensures first { result.first ≡ first }
        ensures waiting { result.waiting.items ≡ [] }
        ensures origin { result.origin ≡ first }
        ensures parts { result.parts ≡ no_parts first.skip }
        ensures place { result.place ≡ first.place }
        ensures next { result.next ≡ first.skip }
    {
        Reader {
            first,
            waiting: Vec::new(alloc),
            origin: first,
            parts: Open::new(alloc, first.skip),
            place: first.place,
            next: first.skip,
        }
    }

    /// A bracket or a parenthesis opens at the next byte.
    fn open_within(
        &mut self,
        whole: &SourceText,
        source: &str,
        opener: Opener,
        mode: Mode,
    ) -> Result<(), ParseFault>
        requires short { length source.now ≤ most_bytes }
        requires opening { IsOpening self.old.first source.now self.old.waiting.items self.old.origin self.old.parts self.old.next opener mode }
        ensures ok { OnOk result (IsReading self.old.first source.now self.new.waiting.items self.new.origin self.new.parts self.new.place self.new.next
            × (self.old.origin.base + self.old.next < self.new.origin.base + self.new.next)) }
        ensures fault { IfErr result (λ fault. (own source.now self.old.first ≡ Err fault) ⊎ (fault ≡ ParseFault.NoMemory)) }
        ensures first { self.new.first ≡ self.old.first }
    {
        if self.origin.room == 0 {
            return Err(ParseFault::TooLong);
        }
        let origin = opened(self.origin, self.next, opener);
        let parts = mem::replace(&mut self.parts, Open::new(whole.alloc(), origin.skip));
        self.waiting.push(Waiting {
            origin: self.origin,
            parts,
            at: self.next,
            opener,
            mode,
        })?;
        self.origin = origin;
        self.place = origin.place;
        self.next = origin.skip;
        Ok(())
    }

    /// What is open ends at the next byte, and what waits for it goes on.
    fn end_within(&mut self, whole: &SourceText, source: &str) -> Result<(), ParseFault>
        requires short { length source.now ≤ most_bytes }
        requires waits { 0 < length self.old.waiting.items }
        requires ending { IsClosing self.old.first source.now self.old.waiting.items self.old.origin self.old.parts self.old.place self.old.next }
        ensures ok { OnOk result (IsReading self.old.first source.now self.new.waiting.items self.new.origin self.new.parts self.new.place self.new.next
            × (self.old.origin.base + self.old.next < self.new.origin.base + self.new.next)) }
        ensures fault { IfErr result (λ fault. fault ≡ ParseFault.NoMemory) }
        ensures first { self.new.first ≡ self.old.first }
    {
        let Some(waiting) = self.waiting.pop() else {
            unreachable!()
        };
        let close = self.next;
        let at = waiting.origin.base + waiting.at;
        let inner = mem::replace(&mut self.parts, waiting.parts);
        let piece = piece_of(whole, source, at, close, waiting.opener, inner)?;
        let next = waiting.at + 1 + close + 1;
        self.parts.push_piece(piece, next)?;
        self.origin = waiting.origin;
        self.place = BytePlace::Text(waiting.mode);
        self.next = next;
        Ok(())
    }

    /// The next byte, and whether what began first has ended there.
    pub fn read_next(&mut self, whole: &SourceText, source: &str) -> Result<bool, ParseFault>
        requires short { length source.now ≤ most_bytes }
        requires reading { IsReading self.old.first source.now self.old.waiting.items self.old.origin self.old.parts self.old.place self.old.next }
        requires within { self.old.origin.base + self.old.next < length source.now }
        ensures ok { IfOk result (λ ended. Goes ended self.old.first source.now self.new.waiting.items self.new.origin self.new.parts
            self.new.place self.new.next (self.old.origin.base + self.old.next)) }
        ensures fault { IfErr result (λ fault. (own source.now self.old.first ≡ Err fault) ⊎ (fault ≡ ParseFault.NoMemory)) }
        ensures first { self.new.first ≡ self.old.first }
    {
        let text = &source[self.origin.base..];
        let inside = self.origin.inside;
        let step = read_byte(
            &mut self.parts,
            whole.alloc(),
            text,
            self.next,
            inside,
            self.place,
        )?;
        match step {
            Step::On(skip, place) => {
                self.next = self.next + 1 + skip;
                self.place = place;
                Ok(false)
            }
            Step::Within(opener, mode) => {
                self.open_within(whole, source, opener, mode)?;
                Ok(false)
            }
            Step::Ends => {
                if self.waiting.is_empty() {
                    return Ok(true);
                }
                self.end_within(whole, source)?;
                Ok(false)
            }
        }
    }

    /// The source ends.
    fn finish(mut self, whole: &SourceText, source: &str) -> Result<Vec<Command>, ParseFault>
        requires short { length source.now ≤ most_bytes }
        requires reading { IsReading outset source.now self.waiting.items self.origin self.parts self.place self.next }
        requires end { length source.now ≤ self.origin.base + self.next }
        ensures commands { IfOk result (λ commands. commands_in (rest_of source.now outermost_level 0 BytePlace.Start 0) ≡ Ok commands.items) }
        ensures fault { IfErr result (λ fault. (commands_in (rest_of source.now outermost_level 0 BytePlace.Start 0) ≡ Err fault)
            ⊎ (fault ≡ ParseFault.NoMemory)) }
    {
        if self.origin.inside {
            return Err(unfinished(self.place));
        }
        finish(&mut self.parts, whole.alloc(), source, self.place)?;
        Ok(self.parts.into_commands())
    }
}

/// The commands of a text, in one pass over its bytes.
pub fn read_all(whole: &SourceText, source: &str) -> Result<Vec<Command>, ParseFault>
    requires { length source.now ≤ most_bytes }
    ensures commands { IfOk result (λ commands. commands_in (rest_of source.now outermost_level 0 BytePlace.Start 0) ≡ Ok commands.items) }
    ensures fault { IfErr result (λ fault. (commands_in (rest_of source.now outermost_level 0 BytePlace.Start 0) ≡ Err fault) ⊎ (fault ≡ ParseFault.NoMemory)) }
{
    let mut reader = Reader::new(whole.alloc(), outermost());
    while reader.origin.base + reader.next < source.len() {
        if reader.read_next(whole, source)? {
            // A whole script ends with its text alone.
            unreachable!()
        }
    }
    reader.finish(whole, source)
}
