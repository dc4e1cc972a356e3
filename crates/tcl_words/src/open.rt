ghost use Rattle.std.specs.Prelude.{◌≡◌, ◌<◌, ◌≤◌, ◌+◌, ◌-◌, [], ◌∷◌, ◌++◌, length, OnOk, IfOk, encode_utf8, false};
ghost use Rattle.std.specs.List.{slice_range};
ghost use Rattle.std.specs.Str.{IsCharBoundary};
ghost use Rattle.tcl_words.specs.Parts.{MayEnd, with_word, with_command, with_piece, with_literal, with_braced, so_far, no_parts};
ghost use Rattle.tcl_text.specs.Limits.{most_bytes};

use crate::script::{Command, Piece, Pieces, Word, WordForm};
use crate::span::Span;
use std::alloc::{AllocError, Global};
use std::marker::Model;
use std::mem;
use tcl_text::Text;

/// What was read of a script or an index so far: its commands, and the parts that are still open. Places are
/// counted from where the script begins.
#[derive(Drop)]
pub struct Open {
    commands: Vec<Command>,
    command_start: usize,
    words: Vec<Word>,
    last_end: usize,
    word_start: usize,
    form: WordForm,
    expand: bool,
    pieces: Vec<Piece>,
    literal: String,
    mark: usize,
}

impl Model for Open {
    ghost use Rattle.tcl_words.specs.Parts.{Parts};
    ghost use Rattle.std.specs.Prelude.{◌≡◌, ◌≤◌, string_bytes};
    ghost use Rattle.tcl_text.specs.Limits.{most_bytes};
    ghost use Rattle.tcl_words.specs.Spans.{words_end};

    ghost Value = { Parts };

    ghost view = { λ o. record {
      commands = o.commands.items;
      command_start = o.command_start;
      words = o.words.items;
      word_start = o.word_start;
      form = o.form;
      expand = o.expand;
      pieces = o.pieces.items;
      literal = string_bytes o.literal;
      mark = o.mark;
    } };

    ghost invariant = { λ o.
        (o.last_end ≡ words_end o.command_start o.words.items)
        × ((o.command_start ≤ most_bytes) × ((o.last_end ≤ most_bytes) × (o.word_start ≤ most_bytes))) };
}

impl Open {
    /// Nothing yet.
    pub fn new(alloc: Global, mark: usize) -> Open
        ensures { result ≡ no_parts mark }
    {
        Open {
            commands: Vec::new(alloc),
            command_start: 0,
            words: Vec::new(alloc),
            last_end: 0,
            word_start: 0,
            form: WordForm::Bare,
            expand: false,
            pieces: Vec::new(alloc),
            literal: String::new(alloc),
            mark,
        }
    }

    /// The commands.
    pub fn into_commands(self) -> Vec<Command>
        ensures { result.items ≡ self.commands }
    {
        let Open { commands, .. } = self;
        commands
    }

    /// The pieces.
    pub fn into_pieces(self, alloc: Global) -> Pieces
        ensures { result ≡ self.pieces }
    {
        let Open { mut pieces, .. } = self;
        Pieces::taken(alloc, &mut pieces)
    }

    /// A command begins here.
    pub fn begin_command(&mut self, at: usize)
        requires { at ≤ most_bytes }
        ensures { self.new ≡ record self.old { command_start = at; words = [] } }
    {
        self.command_start = at;
        self.words.clear();
        self.last_end = at;
    }

    /// A word of this form begins here, and a literal of it at `mark`.
    pub fn begin_word(
        &mut self,
        alloc: Global,
        form: WordForm,
        expand: bool,
        at: usize,
        mark: usize,
    )
        requires { at ≤ most_bytes }
        ensures { self.new ≡ record self.old { word_start = at; form = form; expand = expand; pieces = []; literal = []; mark = mark } }
    {
        self.word_start = at;
        self.form = form;
        self.expand = expand;
        self.pieces.clear();
        self.literal = String::new(alloc);
        self.mark = mark;
    }

    /// The literal that is open goes on past the mark with bytes that aren't the source's: it is kept up to here.
    pub fn keep_literal(&mut self, source: &str, end: usize) -> Result<(), AllocError>
        requires ordered { self.old.mark ≤ end }
        requires begins { IsCharBoundary source.now self.old.mark }
        requires ends { IsCharBoundary source.now end }
        ensures ok { OnOk result (self.new ≡ record self.old { literal = so_far self.old source.now end; mark = end }) }
    {
        self.literal.push_str(&source[self.mark..end])?;
        self.mark = end;
        Ok(())
    }

    /// A character that the source writes otherwise, up to the new mark.
    pub fn push_char(&mut self, character: char, mark: usize) -> Result<(), AllocError>
        ensures ok { OnOk result (self.new ≡ record self.old { literal = self.old.literal ++ encode_utf8 character; mark = mark }) }
    {
        self.literal.push(character)?;
        self.mark = mark;
        Ok(())
    }

    /// The literal that is open goes on as the source does from here.
    pub fn set_mark(&mut self, mark: usize)
        ensures { self.new ≡ record self.old { mark = mark } }
    {
        self.mark = mark;
    }

    /// The word that is open has one more piece, up to the mark.
    pub fn push_piece(&mut self, piece: Piece, mark: usize) -> Result<(), AllocError>
        ensures ok { OnOk result (self.new ≡ with_piece self.old piece mark) }
    {
        self.pieces.push(piece)?;
        self.mark = mark;
        Ok(())
    }

    /// The text of the literal that is open.
    fn take_literal(&mut self, alloc: Global, source: &str, end: usize) -> Result<Text, AllocError>
        requires { MayEnd self.old source.now end }
        ensures text { IfOk result (λ text. text ≡ so_far self.old source.now end) }
        ensures ok { OnOk result (self.new ≡ record self.old { literal = []; mark = end }) }
    {
        if self.literal.is_empty() {
            let text = text_of(alloc, source, self.mark, end)?;
            self.mark = end;
            return Ok(text);
        }
        self.keep_literal(source, end)?;
        let literal = mem::replace(&mut self.literal, String::new(alloc));
        Text::of_short(alloc, literal.as_str())
    }

    /// The literal that is open ends; it is a piece where it has bytes.
    pub fn end_literal(&mut self, alloc: Global, source: &str, end: usize) -> Result<(), AllocError>
        requires { MayEnd self.old source.now end }
        ensures ok { OnOk result (self.new ≡ with_literal self.old source.now end) }
    {
        if self.literal.is_empty() && self.mark == end {
            return Ok(());
        }
        let text = self.take_literal(alloc, source, end)?;
        self.push_piece(Piece::Literal(text), end)?;
        Ok(())
    }

    /// The literal that is open ends, which is all of a word in braces.
    pub fn end_braced(&mut self, alloc: Global, source: &str, end: usize) -> Result<(), AllocError>
        requires { MayEnd self.old source.now end }
        ensures ok { OnOk result (self.new ≡ with_braced self.old source.now end) }
    {
        let text = self.take_literal(alloc, source, end)?;
        self.push_piece(Piece::Literal(text), end)?;
        Ok(())
    }

    /// The word that is open ends.
    pub fn end_word(&mut self, alloc: Global, end: usize) -> Result<(), AllocError>
        requires { end ≤ most_bytes }
        ensures ok { OnOk result (self.new ≡ with_word self.old end) }
    {
        let span = Span::new(self.word_start, end);
        let word = Word::taken(alloc, self.form, self.expand, span, &mut self.pieces);
        self.words.push(word)?;
        self.last_end = end;
        Ok(())
    }

    /// The command that is open ends.
    pub fn end_command(&mut self, alloc: Global) -> Result<(), AllocError>
        ensures ok { OnOk result (self.new ≡ with_command self.old) }
    {
        let end = mem::replace(&mut self.last_end, self.command_start);
        let span = Span::new(self.command_start, end);
        let command = Command::taken(alloc, span, &mut self.words);
        self.commands.push(command)?;
        Ok(())
    }
}

/// The bytes of the source from one place up to another, as a text.
pub fn text_of(alloc: Global, source: &str, start: usize, end: usize) -> Result<Text, AllocError>
    requires ordered { start ≤ end }
    requires within { end ≤ length source.now }
    requires short { length source.now ≤ most_bytes }
    requires begins { IsCharBoundary source.now start }
    requires ends { IsCharBoundary source.now end }
    ensures ok { IfOk result (λ text. text ≡ slice_range source.now start end) }
{
    Text::of_short(alloc, &source[start..end])
}
