//! A text that is read, and its parts, which share its memory.

ghost use Rattle.std.specs.Prelude.{◌≡◌, ◌≤◌, length, IfOk, IfSome};
ghost use Rattle.std.specs.List.{slice_range};
ghost use Rattle.std.specs.Str.{IsCharBoundary};
ghost use Rattle.tcl_text.specs.Limits.{most_bytes};

use crate::span::Span;
use std::alloc::{AllocError, Global};
use std::marker::Model;
use std::rc::Rc;
use tcl_text::Text;

/// How long a name is at most that a `Text` keeps in place: a longer one is a text of its own, so that who takes it shares it.
const SHORT_BYTES: usize = 22;

/// A part of a text that was read, in 16 bytes. Contracts see its own bytes.
#[derive(Drop)]
pub struct Excerpt {
    whole: Rc<Text>,
    place: Span,
    alloc: Global,
}

impl Model for Excerpt {
    ghost use Rattle.std.specs.Prelude.{ℕ, List};
    ghost use Rattle.tcl_words.specs.Sources.{part_at, IsPart};

    ghost Value = { List ℕ };

    ghost view = { λ e. part_at e.whole.value e.place };

    ghost invariant = { λ e. IsPart e.whole.value e.place };
}

/// A text that is being read, for its parts to share. Contracts see its bytes.
#[derive(Drop)]
pub struct SourceText {
    whole: Rc<Text>,
    alloc: Global,
}

impl Model for SourceText {
    ghost use Rattle.std.specs.Prelude.{ℕ, List};

    ghost Value = { List ℕ };

    ghost view = { λ s. s.whole.value };
}

impl Excerpt {
    /// These characters, as a text of their own.
    #[tactic(auto, using(crate::proofs::Excerpts::whole_is_part, crate::proofs::Excerpts::part_is_whole))]
    pub fn new(alloc: Global, characters: &str) -> Result<Excerpt, AllocError>
        requires { length characters.now ≤ most_bytes }
        ensures { IfOk result (λ excerpt. excerpt ≡ characters.now) }
    {
        let text = Text::of_short(alloc, characters)?;
        Ok(Excerpt {
            whole: Rc::new(alloc, text)?,
            place: Span::new(0, characters.len()),
            alloc,
        })
    }

    /// The characters.
    #[tactic(auto, using(crate::proofs::Excerpts::part_short))]
    pub fn as_str(&self) -> &str
        ensures bytes { result.now ≡ self.now }
        ensures short { length self.now ≤ most_bytes }
    {
        &self.whole.as_ref().as_str()[self.place.start()..self.place.end()]
    }

    /// As a text, which shares the memory where it is all of one.
    #[tactic(auto, using(crate::proofs::Excerpts::whole_as_part))]
    pub fn to_text(&self) -> Result<Text, AllocError>
        ensures { IfOk result (λ text. text ≡ self.now) }
    {
        let whole = self.whole.as_ref();
        if self.place.start() == 0 && self.place.end() == whole.as_str().len() {
            return whole.copy();
        }
        Text::of_short(self.alloc, self.as_str())
    }

    /// The same, shared. It takes no memory; it is refused only where the count of its sharers is full.
    pub fn copy(&self) -> Result<Excerpt, AllocError>
        ensures { IfOk result (λ excerpt. excerpt ≡ self.now) }
    {
        Ok(Excerpt {
            whole: self.whole.clone()?,
            place: self.place.copy(),
            alloc: self.alloc,
        })
    }
}

impl SourceText {
    /// These characters.
    pub fn new(alloc: Global, characters: &str) -> Result<SourceText, AllocError>
        requires { length characters.now ≤ most_bytes }
        ensures { IfOk result (λ source. source ≡ characters.now) }
    {
        let text = Text::of_short(alloc, characters)?;
        Ok(SourceText {
            whole: Rc::new(alloc, text)?,
            alloc,
        })
    }

    /// Where memory comes from for what is read of it.
    pub fn alloc(&self) -> Global {
        let _ = &self.whole;
        self.alloc
    }

    /// All of it, as a part.
    #[tactic(auto, using(crate::proofs::Excerpts::whole_is_part, crate::proofs::Excerpts::part_is_whole))]
    pub fn excerpt(&self) -> Result<Excerpt, AllocError>
        ensures { IfOk result (λ excerpt. excerpt ≡ self.now) }
    {
        let length = self.whole.as_ref().as_str().len();
        Ok(Excerpt {
            whole: self.whole.clone()?,
            place: Span::new(0, length),
            alloc: self.alloc,
        })
    }

    /// As a text, which shares the memory.
    pub fn to_text(&self) -> Result<Text, AllocError>
        ensures { IfOk result (λ text. text ≡ self.now) }
    {
        self.whole.as_ref().copy()
    }

    /// These characters as a part of the source, where it has them so many bytes before its end.
    #[tactic(auto, using(crate::proofs::Excerpts::is_part, crate::proofs::Excerpts::part_is))]
    fn part(&self, characters: &str, before_end: usize) -> Result<Option<Excerpt>, AllocError>
        ensures { IfOk result (λ part. IfSome part (λ excerpt. excerpt ≡ characters.now)) }
    {
        let whole = self.whole.as_ref().as_str();
        let start = whole.len().saturating_sub(before_end);
        let end = start + characters.len();
        if !whole.is_char_boundary(start) {
            return Ok(None);
        }
        if !whole.is_char_boundary(end) {
            return Ok(None);
        }
        if &whole[start..end] == characters {
            return Ok(Some(Excerpt {
                whole: self.whole.clone()?,
                place: Span::new(start, end),
                alloc: self.alloc,
            }));
        }
        Ok(None)
    }
}

/// The bytes from one place up to another of a text with which the source ends: a part of it, and a text of its own of any other.
pub fn part_of(
    whole: &SourceText,
    source: &str,
    start: usize,
    end: usize,
) -> Result<Excerpt, AllocError>
    requires ordered { start ≤ end }
    requires within { end ≤ length source.now }
    requires short { length source.now ≤ most_bytes }
    requires begins { IsCharBoundary source.now start }
    requires ends { IsCharBoundary source.now end }
    ensures ok { IfOk result (λ text. text ≡ slice_range source.now start end) }
{
    let characters = &source[start..end];
    match whole.part(characters, source.len() - start)? {
        Some(part) => Ok(part),
        None => Excerpt::new(whole.alloc(), characters),
    }
}

/// The same of a name; a long one is a text of its own.
pub fn name_of(
    whole: &SourceText,
    source: &str,
    start: usize,
    end: usize,
) -> Result<Excerpt, AllocError>
    requires ordered { start ≤ end }
    requires within { end ≤ length source.now }
    requires short { length source.now ≤ most_bytes }
    requires begins { IsCharBoundary source.now start }
    requires ends { IsCharBoundary source.now end }
    ensures ok { IfOk result (λ name. name ≡ slice_range source.now start end) }
{
    if end - start <= SHORT_BYTES {
        return part_of(whole, source, start, end);
    }
    Excerpt::new(whole.alloc(), &source[start..end])
}
