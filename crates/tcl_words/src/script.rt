ghost use Rattle.std.specs.Prelude.{◌≡◌, ◌⊎◌, [], length, IfOk, IfErr, IsOk};

use crate::source::Excerpt;
use crate::span::Span;
use crate::taking::{take_all, take_only};
use std::alloc::{AllocError, Global};
use std::marker::Model;
use std::rc::Rc;
use std::slice;
use tcl_text::{ParseFault, Text};

/// How a word is written (Tcl(n)).
#[derive(Clone, Copy, Debug, PartialEq, Eq, Drop)]
pub enum WordForm {
    /// In braces: its text is one literal, also where it is empty.
    Braced,
    /// In quotes.
    Quoted,
    /// Without either.
    Bare,
}

/// How a word is written, and whether `{*}` stands before it.
#[derive(Clone, Copy, Drop)]
enum Look {
    Braced,
    Quoted,
    Bare,
    ExpandedBraced,
    ExpandedQuoted,
    ExpandedBare,
}

/// How a word is kept: most often it has one piece, which takes no memory of its own.
#[derive(Drop)]
#[cycle(script)]
enum WordLayout {
    One(Look, Span, Piece),
    /// Any others, in as much memory as they take.
    Many(Look, Span, Vec<Piece>),
}

/// A word. Its value is its pieces' values, one after another. Contracts see its form, its expansion, its span and its pieces.
#[derive(Drop)]
#[cycle(script)]
pub struct Word {
    layout: WordLayout,
}

impl Model for Word {
    ghost use Rattle.tcl_words.specs.Parsed.{ParsedWord};

    ghost Value = { ParsedWord };

    ghost use Rattle.tcl_words.specs.Lists.{word_kept};

    ghost view = { λ w. word_kept w.layout };

    ghost use Rattle.tcl_words.specs.Room.{word_room};

    ghost size = { word_room };

    ghost use Rattle.tcl_words.specs.Falls.{word_falls};

    ghost size_decreases = { λ a h. word_falls a };
}

/// How a command is kept: a command of one word takes no memory for a list.
#[derive(Drop)]
#[cycle(script)]
enum CommandLayout {
    One(Span, Word),
    /// Any others, in as much memory as they take.
    Many(Span, Vec<Word>),
}

/// A command. Contracts see its span and its words.
#[derive(Drop)]
#[cycle(script)]
pub struct Command {
    layout: CommandLayout,
}

impl Model for Command {
    ghost use Rattle.tcl_words.specs.Parsed.{ParsedCommand};

    ghost Value = { ParsedCommand };

    ghost use Rattle.tcl_words.specs.Lists.{command_kept};

    ghost view = { λ c. command_kept c.layout };

    ghost use Rattle.tcl_words.specs.Room.{command_room};

    ghost size = { command_room };

    ghost use Rattle.tcl_words.specs.Falls.{command_falls};

    ghost size_decreases = { λ a h. command_falls a };
}

/// A part of a word or of an index.
#[derive(Drop)]
#[cycle(script)]
pub enum Piece {
    /// The text itself, whose backslashes are substituted; in braces only one before a newline (Tcl(n)). No two stand side by side.
    Literal(Text),
    /// The value of the variable of this name.
    Variable(Text),
    /// The value of an element: the array's name, and the index that gives the key.
    Element(Excerpt, Index),
    /// The result of a script in brackets.
    Bracket(Script),
}

/// How pieces are kept: most often there is one, which takes no memory of its own.
#[derive(Drop)]
#[cycle(script)]
enum PieceList {
    One(Piece),
    /// Any others, in as much memory as they take.
    Many(Vec<Piece>),
}

/// Pieces in order.
#[derive(Drop)]
#[cycle(script)]
pub struct Pieces {
    list: PieceList,
}

impl Model for Pieces {
    ghost use Rattle.std.specs.Prelude.{ℕ, List};
    ghost use Rattle.tcl_words.specs.declared.script.Piece.{Piece};

    ghost Value = { List Piece };

    ghost use Rattle.tcl_words.specs.Lists.{piece_items};

    ghost view = { λ w. piece_items w.list };

    ghost use Rattle.tcl_words.specs.Room.{pieces_room};

    ghost size = { pieces_room };

    ghost use Rattle.tcl_words.specs.Falls.{pieces_fall};

    ghost size_decreases = { λ a h. pieces_fall a };
}

/// What stands between the parentheses of `$name(index)`, read and shared by its copies. Contracts see its source, of which
/// the pieces are the parse.
#[derive(Drop)]
#[cycle(script)]
pub struct Index {
    parsed: Rc<ParsedIndex>,
}

#[derive(Drop)]
#[cycle(script)]
struct ParsedIndex {
    text: Excerpt,
    pieces: Pieces,
}

impl Model for Index {
    ghost use Rattle.std.specs.Prelude.{ℕ, List, length};

    ghost Value = { List ℕ };

    ghost view = { λ i. i.parsed.value.text };

    ghost use Rattle.std.specs.Prelude.{◌≡◌, ◌<◌, Ok};
    ghost use Rattle.tcl_words.specs.Reading.{index_pieces_of};
    ghost use Rattle.tcl_words.specs.Room.{text_room, pieces_room};

    ghost invariant = { λ i.
        (index_pieces_of i.parsed.value.text ≡ Ok i.parsed.value.pieces) × (pieces_room i.parsed.value.pieces < text_room i.parsed.value.text) };

    ghost size = { text_room };

    ghost use Rattle.tcl_words.specs.Falls.{index_falls};

    ghost size_decreases = { λ a h. index_falls a h.1 };
}

/// How commands are kept, for the copies of a script to share: none take no memory, and one takes none for a list.
#[derive(Drop)]
#[cycle(script)]
enum CommandList {
    Empty,
    One(Rc<Command>),
    /// More, in as much memory as they take.
    Many(Rc<Vec<Command>>),
}

/// A script, read and shared by its copies. Contracts see its source alone, of which the commands are the parse:
/// the script in a bracket is as its text, also where that text is read by itself.
#[derive(Drop)]
#[cycle(script)]
pub struct Script {
    text: Excerpt,
    commands: CommandList,
}

impl Model for Script {
    ghost use Rattle.std.specs.Prelude.{ℕ, List, length};

    ghost Value = { List ℕ };

    ghost view = { λ s. s.text };

    ghost use Rattle.std.specs.Prelude.{◌≡◌, ◌≤◌, Ok};
    ghost use Rattle.tcl_words.specs.Reading.{commands_of};
    ghost use Rattle.tcl_words.specs.Lists.{command_items};
    ghost use Rattle.tcl_words.specs.Room.{text_room, commands_room};

    ghost invariant = { λ s.
        (commands_of s.text ≡ Ok (command_items s.commands)) × (commands_room (command_items s.commands) ≤ text_room s.text) };

    ghost size = { text_room };

    ghost use Rattle.tcl_words.specs.Falls.{script_falls};

    ghost size_decreases = { λ a h. script_falls a h.1 };
}

impl Look {
    ghost use Rattle.std.specs.Prelude.{◌≡◌};
    ghost use Rattle.tcl_words.specs.Lists.{form_of, expands};

    /// Of this form, with `{*}` or not.
    fn new(form: WordForm, expand: bool) -> Look
        ensures form { form_of result ≡ form }
        ensures expand { expands result ≡ expand }
    {
        match (form, expand) {
            (WordForm::Braced, false) => Look::Braced,
            (WordForm::Quoted, false) => Look::Quoted,
            (WordForm::Bare, false) => Look::Bare,
            (WordForm::Braced, true) => Look::ExpandedBraced,
            (WordForm::Quoted, true) => Look::ExpandedQuoted,
            (WordForm::Bare, true) => Look::ExpandedBare,
        }
    }

    /// How the word is written.
    fn form(self) -> WordForm
        ensures { result ≡ form_of self }
    {
        match self {
            Look::Braced | Look::ExpandedBraced => WordForm::Braced,
            Look::Quoted | Look::ExpandedQuoted => WordForm::Quoted,
            Look::Bare | Look::ExpandedBare => WordForm::Bare,
        }
    }

    /// Whether `{*}` stands before it.
    fn expands(self) -> bool
        ensures { result ≡ expands self }
    {
        match self {
            Look::Braced | Look::Quoted | Look::Bare => false,
            Look::ExpandedBraced | Look::ExpandedQuoted | Look::ExpandedBare => true,
        }
    }
}

impl Word {
    ghost use Rattle.std.specs.Prelude.{◌≡◌, []};

    /// A word of these pieces, of which none are left.
    pub(crate) fn taken(
        alloc: Global,
        form: WordForm,
        expand: bool,
        span: Span,
        pieces: &mut Vec<Piece>,
    ) -> Word
        ensures word { result ≡ record { form = form; expand = expand; span = span; pieces = pieces.old.items } }
        ensures none_left { pieces.new.items ≡ [] }
    {
        let look = Look::new(form, expand);
        match take_only(pieces) {
            Some(piece) => Word {
                layout: WordLayout::One(look, span, piece),
            },
            None => {
                let all = take_all(alloc, pieces);
                Word {
                    layout: WordLayout::Many(look, span, all),
                }
            }
        }
    }

    /// How it is written.
    pub fn form(&self) -> WordForm
        ensures { result ≡ self.now.form }
    {
        match &self.layout {
            WordLayout::One(look, _, _) | WordLayout::Many(look, _, _) => look.form(),
        }
    }

    /// Whether its value is a list whose elements are words, as `{*}` asks for.
    pub fn expand(&self) -> bool
        ensures { result ≡ self.now.expand }
    {
        match &self.layout {
            WordLayout::One(look, _, _) | WordLayout::Many(look, _, _) => look.expands(),
        }
    }

    /// Where it stands, with the braces, the quotes and the `{*}`.
    pub fn span(&self) -> &Span
        ensures { result.now ≡ self.now.span }
    {
        match &self.layout {
            WordLayout::One(_, span, _) | WordLayout::Many(_, span, _) => span,
        }
    }

    /// The pieces of which it is made, in order.
    pub fn pieces(&self) -> &[Piece]
        ensures { result.now ≡ self.now.pieces }
    {
        match &self.layout {
            WordLayout::One(_, _, piece) => slice::from_ref(piece),
            WordLayout::Many(_, _, pieces) => pieces.as_slice(),
        }
    }
}

impl Command {
    ghost use Rattle.std.specs.Prelude.{◌≡◌, []};

    /// A command of these words, of which none are left.
    pub(crate) fn taken(alloc: Global, span: Span, words: &mut Vec<Word>) -> Command
        ensures command { result ≡ record { span = span; words = words.old.items } }
        ensures none_left { words.new.items ≡ [] }
    {
        match take_only(words) {
            Some(word) => Command {
                layout: CommandLayout::One(span, word),
            },
            None => {
                let all = take_all(alloc, words);
                Command {
                    layout: CommandLayout::Many(span, all),
                }
            }
        }
    }

    /// Where it stands, from its first word's first byte up to its last word's end.
    pub fn span(&self) -> &Span
        ensures { result.now ≡ self.now.span }
    {
        match &self.layout {
            CommandLayout::One(span, _) | CommandLayout::Many(span, _) => span,
        }
    }

    /// Its words, in order.
    pub fn words(&self) -> &[Word]
        ensures { result.now ≡ self.now.words }
    {
        match &self.layout {
            CommandLayout::One(_, word) => slice::from_ref(word),
            CommandLayout::Many(_, words) => words.as_slice(),
        }
    }
}

impl Pieces {
    /// These pieces, of which none are left.
    pub(crate) fn taken(alloc: Global, pieces: &mut Vec<Piece>) -> Pieces
        ensures pieces { result ≡ pieces.old.items }
        ensures none_left { pieces.new.items ≡ [] }
    {
        let list = match take_only(pieces) {
            Some(piece) => PieceList::One(piece),
            None => PieceList::Many(take_all(alloc, pieces)),
        };
        Pieces { list }
    }

    /// The pieces, in order.
    pub fn as_slice(&self) -> &[Piece]
        ensures { result.now ≡ self.now }
    {
        match &self.list {
            PieceList::One(piece) => slice::from_ref(piece),
            PieceList::Many(pieces) => pieces.as_slice(),
        }
    }
}

impl CommandList {
    ghost use Rattle.std.specs.Prelude.{◌≡◌, IfOk};
    ghost use Rattle.tcl_words.specs.Lists.{command_items};

    /// These commands.
    fn new(alloc: Global, mut commands: Vec<Command>) -> Result<CommandList, AllocError>
        ensures { IfOk result (λ list. command_items list ≡ commands.items) }
    {
        match take_only(&mut commands) {
            Some(command) => Ok(CommandList::One(Rc::new(alloc, command)?)),
            None => {
                if commands.is_empty() {
                    return Ok(CommandList::Empty);
                }
                commands.shrink_to_fit();
                Ok(CommandList::Many(Rc::new(alloc, commands)?))
            }
        }
    }

    /// The commands, in order.
    fn as_slice(&self) -> &[Command]
        ensures { result.now ≡ command_items self.now }
    {
        match self {
            CommandList::Empty => &[],
            CommandList::One(command) => slice::from_ref(command.as_ref()),
            CommandList::Many(commands) => commands.as_ref().as_slice(),
        }
    }

    /// The same, shared.
    fn copy(&self) -> Result<CommandList, AllocError>
        ensures { IfOk result (λ list. command_items list ≡ command_items self.now) }
    {
        match self {
            CommandList::Empty => Ok(CommandList::Empty),
            CommandList::One(command) => Ok(CommandList::One(command.clone()?)),
            CommandList::Many(commands) => Ok(CommandList::Many(commands.clone()?)),
        }
    }
}

impl Script {
    ghost use Rattle.std.specs.Prelude.{◌≡◌, List, Ok, IfOk};
    ghost use Rattle.tcl_words.specs.Grammar.{IsScriptOf};
    ghost use Rattle.tcl_words.specs.Reading.{commands_of};
    ghost use Rattle.tcl_words.specs.declared.script.Command.{Command};

    /// The commands, in order.
    #[tactic(auto, using(crate::proofs::Parses::walk_is_script, crate::proofs::Parses::script_is_walk))]
    pub fn commands(&self) -> &[Command]
        ensures script { IsScriptOf self.now result.now }
        ensures only { (commands : List Command) → IsScriptOf self.now commands → commands ≡ result.now }
        ensures walk { commands_of self.now ≡ Ok result.now }
    {
        self.commands.as_slice()
    }

    /// The source.
    pub fn text(&self) -> &Excerpt
        ensures { result.now ≡ self.now }
    {
        &self.text
    }

    /// A script of this text, of which these are the commands.
    #[tactic(auto, using(crate::proofs::Texts::commands_of_fit))]
    pub(crate) fn new(
        alloc: Global,
        text: Excerpt,
        commands: Vec<Command>,
    ) -> Result<Script, AllocError>
        requires { commands_of text ≡ Ok commands.items }
        ensures { IfOk result (λ script. script ≡ text) }
    {
        let commands = CommandList::new(alloc, commands)?;
        Ok(Script { text, commands })
    }

    /// The same script, shared. It takes no memory; it is refused only where the count of its copies is full.
    pub fn copy(&self) -> Result<Script, AllocError>
        ensures ok { IfOk result (λ script. script ≡ self.now) }
    {
        Ok(Script {
            text: self.text.copy()?,
            commands: self.commands.copy()?,
        })
    }
}

impl Index {
    ghost use Rattle.std.specs.Prelude.{◌≡◌, List, Ok, IfOk};
    ghost use Rattle.tcl_words.specs.Grammar.{IsIndexOf};
    ghost use Rattle.tcl_words.specs.Reading.{index_pieces_of};
    ghost use Rattle.tcl_words.specs.declared.script.Piece.{Piece};

    /// The source, that is what stands between the parentheses.
    pub fn text(&self) -> &Excerpt
        ensures { result.now ≡ self.now }
    {
        &self.parsed.text
    }

    /// Its pieces, in order.
    #[tactic(auto, using(crate::proofs::Parses::walk_is_index, crate::proofs::Parses::index_is_walk))]
    pub fn pieces(&self) -> &[Piece]
        ensures index { IsIndexOf self.now result.now }
        ensures only { (pieces : List Piece) → IsIndexOf self.now pieces → pieces ≡ result.now }
        ensures walk { index_pieces_of self.now ≡ Ok result.now }
    {
        Pieces::as_slice(&self.parsed.pieces)
    }

    /// An index of this text, of which these are the pieces.
    #[tactic(auto, using(crate::proofs::Rooms::pieces_fit))]
    pub(crate) fn new(alloc: Global, text: Excerpt, pieces: Pieces) -> Result<Index, AllocError>
        requires { index_pieces_of text ≡ Ok pieces }
        ensures { IfOk result (λ index. index ≡ text) }
    {
        Ok(Index {
            parsed: Rc::new(alloc, ParsedIndex { text, pieces })?,
        })
    }

    /// The same index, shared. It takes no memory; it is refused only where the count of its copies is full.
    pub fn copy(&self) -> Result<Index, AllocError>
        ensures ok { IfOk result (λ index. index ≡ self.now) }
    {
        Ok(Index {
            parsed: self.parsed.clone()?,
        })
    }
}
