//! The commands of a script, those of its bodies too, as they are written.

ghost use Rattle.std.specs.Prelude.{◌≡◌, ◌++◌, ◌∷◌, [], flat_map, length, map, option_map, unwrap_or, is_some, IfNone, IfOk, IfSome, OnOk};
ghost use Rattle.std.specs.String.{string_bytes};
ghost use Rattle.panels_text.specs.Roles.{texts_of};
ghost use Rattle.panels_text.specs.Scripts.{between, body_of, brackets_in, calls_of, commands_in, form_of, inner_as, inner_as_form, inner_by, inner_of, inner_of_cases, inner_of_command, inner_of_words, is_case_body, is_open, line_of, literal, only_literal, passage_of, piece_text, said, said_as, said_by, source_of, without_ends, without_plus, written, written_as};
ghost use Rattle.panels_text.specs.Unread.{is_readable, misread, unread_as, unread_of};
ghost use Rattle.panels_text.specs.declared.calls.Form.TheVariants.{Cases, Commands};

use crate::brackets::brackets_of;
use crate::fault_place::fault_place;
use crate::place::count_breaks;
use crate::roles::{Role, role_of};
use std::alloc::{AllocError, Global};
use tcl_text::ParseFault;
use tcl_words::{Command, Piece, Script, Word, WordForm, parse};

/// How many bodies of a script are read.
const MOST_BODIES: usize = 100_000;

/// A command as it is written.
#[derive(Drop)]
pub(crate) struct Call {
    /// Its line, counted from 1.
    pub line: usize,
    /// The text of each word; nothing where the word isn't literal.
    pub words: Vec<Option<String>>,
    /// Whether a word is a list whose elements are words.
    pub is_open: bool,
}

/// A script that can't be read.
#[derive(Drop)]
pub struct Unread {
    /// The line of its first fault, counted from 1.
    pub line: usize,
    pub fault: String,
}

/// What a script says.
#[derive(Drop)]
pub(crate) struct Calls {
    pub calls: Vec<Call>,
    pub unread: Vec<Unread>,
}

/// How a text is read.
#[derive(Clone, Copy)]
pub(crate) enum Form {
    Commands,
    /// An expression, whose brackets have commands.
    Condition,
    /// The patterns and bodies of `switch`.
    Cases,
}

/// A part of a script that is still to be read.
#[derive(Drop)]
pub(crate) struct Body {
    pub text: Vec<u8>,
    /// The line in which it begins.
    pub line: usize,
    pub form: Form,
}

/// The bytes of a text between two places.
fn between(text: &[u8], from: usize, to: usize) -> &[u8]
    ensures { result.now ≡ between text.now from to }
{
    let front = match text.get(..to) {
        Some(front) => front,
        None => text,
    };
    match front.get(from..) {
        Some(between) => between,
        None => &[],
    }
}

/// The line of a place in a text whose first line is this one.
pub(crate) fn line_of(text: &[u8], at: usize, line: usize) -> usize
    ensures { result ≡ line_of line text.now at }
{
    line.saturating_add(count_breaks(between(text, 0, at)))
}

/// The text of a piece that is literal.
fn piece_text(alloc: Global, piece: &Piece) -> Result<Option<String>, AllocError>
    ensures { IfOk result (λ text. option_map string_bytes text ≡ piece_text piece.now) }
{
    match piece {
        Piece::Literal(text) => Ok(Some(String::from_str(alloc, text.as_str())?)),
        Piece::Variable(_) | Piece::Element(_, _) | Piece::Bracket(_) => Ok(None),
    }
}

/// The text of pieces that are one literal.
fn only_literal(alloc: Global, pieces: &[Piece]) -> Result<Option<String>, AllocError>
    ensures { IfOk result (λ text. option_map string_bytes text ≡ only_literal pieces.now) }
{
    match pieces {
        [] => Ok(Some(String::new(alloc))),
        [piece] => piece_text(alloc, piece),
        [_, _, ..] => Ok(None),
    }
}

/// The text of a word that is literal.
fn literal(alloc: Global, word: &Word) -> Result<Option<String>, AllocError>
    ensures { IfOk result (λ text. option_map string_bytes text ≡ literal word.now) }
{
    if word.expand() {
        return Ok(None);
    }
    only_literal(alloc, word.pieces())
}

/// A word of a text, as it is written.
fn source_of<'a>(text: &'a [u8], word: &Word) -> &'a [u8]
    ensures { result.now ≡ source_of text.now word.now }
{
    between(text, word.span().start(), word.span().end())
}

/// A text without its first byte and its last.
fn without_ends(text: &[u8]) -> &[u8]
    ensures { result.now ≡ without_ends text.now }
{
    between(text, 1, text.len().saturating_sub(1))
}

/// A text without the plus that it begins with.
pub(crate) fn without_plus(text: &[u8]) -> &[u8]
    ensures { result.now ≡ without_plus text.now }
{
    match text {
        [b'+', rest @ ..] => rest,
        _ => text,
    }
}

/// The bytes of a text, or else these.
fn text_or(alloc: Global, text: Option<String>, source: &[u8]) -> Result<Vec<u8>, AllocError>
    ensures { IfOk result (λ bytes. bytes.items ≡ unwrap_or (option_map string_bytes text) source.now) }
{
    match text {
        Some(text) => Ok(Vec::from_slice(alloc, text.as_str().as_bytes())?),
        None => Ok(Vec::from_slice(alloc, source)?),
    }
}

/// The same of a word of this form, which stands without its braces.
fn written_as(
    alloc: Global,
    form: WordForm,
    text: Option<String>,
    source: &[u8],
) -> Result<Vec<u8>, AllocError>
    ensures { IfOk result (λ bytes. bytes.items ≡ written_as form (option_map string_bytes text) source.now) }
{
    match form {
        WordForm::Braced => Ok(Vec::from_slice(alloc, without_ends(source))?),
        WordForm::Quoted => text_or(alloc, text, source),
        WordForm::Bare => text_or(alloc, text, source),
    }
}

/// The text of a word of a body, as it is written.
fn written(alloc: Global, body: &Body, word: &Word) -> Result<Vec<u8>, AllocError>
    ensures { IfOk result (λ text. text.items ≡ written body.now.text.items word.now) }
{
    let source = source_of(body.text.as_slice(), word);
    let text = literal(alloc, word)?;
    written_as(alloc, word.form(), text, source)
}

/// A word that is a script or has one.
fn body_of(alloc: Global, outer: &Body, word: &Word, form: Form) -> Result<Body, AllocError>
    ensures { IfOk result (λ body. passage_of body ≡ body_of form (passage_of outer.now) word.now) }
{
    let line = line_of(outer.text.as_slice(), word.span().start(), outer.line);
    let written = written(alloc, outer, word)?;
    let text = Vec::from_slice(alloc, without_plus(written.as_slice()))?;
    Ok(Body { text, line, form })
}

/// How a word of a command is read that is literal.
fn form_of(role: Role) -> Option<Form>
    ensures { result ≡ form_of role }
{
    match role {
        Role::Plain => None,
        Role::Script => Some(Form::Commands),
        Role::Condition => Some(Form::Condition),
        Role::Cases => Some(Form::Cases),
    }
}

/// Adds the scripts in the brackets of a word.
fn push_brackets(
    alloc: Global,
    outer: &Body,
    word: &Word,
    bodies: &mut Vec<Body>,
) -> Result<(), AllocError>
    ensures { OnOk result (map passage_of bodies.new.items ≡ map passage_of bodies.old.items ++ brackets_in (line_of outer.now.line outer.now.text.items word.now.span.start) (source_of outer.now.text.items word.now)) }
{
    let line = line_of(outer.text.as_slice(), word.span().start(), outer.line);
    let source = source_of(outer.text.as_slice(), word);
    brackets_of(alloc, source, line, bodies)
}

/// Adds a word that is literal as a body, where it is read so.
fn push_form(
    alloc: Global,
    outer: &Body,
    word: &Word,
    form: Option<Form>,
    bodies: &mut Vec<Body>,
) -> Result<(), AllocError>
    ensures { OnOk result (map passage_of bodies.new.items ≡ map passage_of bodies.old.items ++ inner_as_form form (passage_of outer.now) word.now) }
{
    match form {
        Some(form) => Ok(bodies.push(body_of(alloc, outer, word, form)?)?),
        None => Ok(()),
    }
}

/// Adds the bodies that a word is or has, whose text this is where it is literal, and which is read so then.
fn push_by(
    alloc: Global,
    outer: &Body,
    word: &Word,
    text: Option<String>,
    form: Option<Form>,
    bodies: &mut Vec<Body>,
) -> Result<(), AllocError>
    ensures { OnOk result (map passage_of bodies.new.items ≡ map passage_of bodies.old.items ++ inner_by (option_map string_bytes text) form (passage_of outer.now) word.now) }
{
    match text {
        None => push_brackets(alloc, outer, word, bodies),
        Some(_) => push_form(alloc, outer, word, form, bodies),
    }
}

/// Adds the bodies that a word of a command is or has.
fn push_inner(
    alloc: Global,
    outer: &Body,
    word: &Word,
    role: Role,
    bodies: &mut Vec<Body>,
) -> Result<(), AllocError>
    ensures { OnOk result (map passage_of bodies.new.items ≡ map passage_of bodies.old.items ++ inner_of role (passage_of outer.now) word.now) }
{
    let text = literal(alloc, word)?;
    push_by(alloc, outer, word, text, form_of(role), bodies)
}

/// The texts of words.
fn texts_of(alloc: Global, words: &[Word]) -> Result<Vec<Option<String>>, AllocError>
    ensures { IfOk result (λ texts. texts_of texts.items ≡ map literal words.now) }
{
    let mut texts = Vec::new(alloc);
    for word in words {
        texts.push(literal(alloc, word)?)?;
    }
    Ok(texts)
}

/// Adds the bodies of the words of a command.
fn push_inners(
    alloc: Global,
    outer: &Body,
    words: &[Word],
    texts: &[Option<String>],
    bodies: &mut Vec<Body>,
) -> Result<(), AllocError>
    requires { length texts.now ≡ length words.now }
    ensures { OnOk result (map passage_of bodies.new.items ≡ map passage_of bodies.old.items ++ inner_of_words (texts_of texts.now) 0 (passage_of outer.now) words.now) }
{
    for (index, word) in words.iter().enumerate() {
        push_inner(alloc, outer, word, role_of(texts, index), bodies)?;
    }
    Ok(())
}

/// Whether one of these words is a list whose elements are words.
fn is_open(words: &[Word]) -> bool
    ensures { result ≡ is_open words.now }
{
    words.iter().any(|word| word.expand())
}

/// Adds a command, and the bodies of its words.
fn push_call(
    alloc: Global,
    outer: &Body,
    command: &Command,
    calls: &mut Vec<Call>,
    bodies: &mut Vec<Body>,
) -> Result<(), AllocError>
    ensures calls { OnOk result (map said calls.new.items ≡ map said calls.old.items ++ said_by (passage_of outer.now) command.now ∷ []) }
    ensures bodies { OnOk result (map passage_of bodies.new.items ≡ map passage_of bodies.old.items ++ inner_of_command (passage_of outer.now) command.now) }
{
    let own = command.words();
    let words = texts_of(alloc, own)?;
    push_inners(alloc, outer, own, words.as_slice(), bodies)?;
    let line = line_of(outer.text.as_slice(), command.span().start(), outer.line);
    let is_open = is_open(own);
    Ok(calls.push(Call {
        line,
        words,
        is_open,
    })?)
}

/// Adds commands, and the bodies of their words.
fn push_calls(
    alloc: Global,
    outer: &Body,
    commands: &[Command],
    calls: &mut Vec<Call>,
    bodies: &mut Vec<Body>,
) -> Result<(), AllocError>
    ensures calls { OnOk result (map said calls.new.items ≡ map said calls.old.items ++ map (said_by (passage_of outer.now)) commands.now) }
    ensures bodies { OnOk result (map passage_of bodies.new.items ≡ map passage_of bodies.old.items ++ flat_map (inner_of_command (passage_of outer.now)) commands.now) }
{
    for command in commands {
        push_call(alloc, outer, command, calls, bodies)?;
    }
    Ok(())
}

/// Whether a word of the patterns and bodies of `switch` is a body: every second one, but for a `-`.
fn is_case_body(text: &[u8], word: &Word, index: usize) -> bool
    ensures { result ≡ is_case_body text.now index word.now }
{
    index % 2 == 1 && source_of(text, word) != b"-".as_slice()
}

/// Adds the bodies of the cases of `switch`.
fn push_cases(
    alloc: Global,
    outer: &Body,
    words: &[Word],
    bodies: &mut Vec<Body>,
) -> Result<(), AllocError>
    ensures { OnOk result (map passage_of bodies.new.items ≡ map passage_of bodies.old.items ++ inner_of_cases 0 (passage_of outer.now) words.now) }
{
    for (index, word) in words.iter().enumerate() {
        if is_case_body(outer.text.as_slice(), word, index) {
            push_inner(alloc, outer, word, Role::Script, bodies)?;
        }
    }
    Ok(())
}

/// The same of all commands of a text.
fn push_all_cases(
    alloc: Global,
    outer: &Body,
    commands: &[Command],
    bodies: &mut Vec<Body>,
) -> Result<(), AllocError>
    ensures { OnOk result (map passage_of bodies.new.items ≡ map passage_of bodies.old.items ++ flat_map (λ command. inner_of_cases 0 (passage_of outer.now) command.words) commands.now) }
{
    for command in commands {
        push_cases(alloc, outer, command.words(), bodies)?;
    }
    Ok(())
}

/// The script that a text is; nothing where it is none.
fn script_of(alloc: Global, text: &[u8]) -> Result<Option<Script>, AllocError>
    ensures some { IfOk result (λ found. IfSome found (λ script. script ≡ text.now)) }
    ensures none { IfOk result (λ found. IfNone found (commands_in text.now ≡ [])) }
    ensures readable { IfOk result (λ found. is_some found ≡ is_readable text.now) }
{
    match parse(alloc, text) {
        Ok(script) => Ok(Some(script)),
        Err(ParseFault::NoMemory) => Err(AllocError),
        Err(_) => Ok(None),
    }
}

/// The commands of a script.
fn commands_in(script: &Script) -> &[Command]
    ensures { result.now ≡ commands_in script.now }
{
    script.commands()
}

/// Adds the commands of a body, and their bodies; that it can't be read where it is no script.
fn push_commands(
    alloc: Global,
    body: &Body,
    found: &mut Calls,
    bodies: &mut Vec<Body>,
) -> Result<(), AllocError>
    ensures calls { OnOk result (map said found.new.calls.items ≡ map said found.old.calls.items ++ said_as Commands (passage_of body.now)) }
    ensures unread { OnOk result (map misread found.new.unread.items ≡ map misread found.old.unread.items ++ unread_as Commands (passage_of body.now)) }
    ensures bodies { OnOk result (map passage_of bodies.new.items ≡ map passage_of bodies.old.items ++ inner_as Commands (passage_of body.now)) }
{
    let text = body.text.as_slice();
    match script_of(alloc, text)? {
        Some(script) => {
            let commands = commands_in(&script);
            push_calls(alloc, body, commands, &mut found.calls, bodies)
        }
        None => Ok(found.unread.push(fault_place(alloc, text, body.line)?)?),
    }
}

/// Adds the bodies of the patterns and bodies of `switch`.
fn push_cases_of(alloc: Global, body: &Body, bodies: &mut Vec<Body>) -> Result<(), AllocError>
    ensures { OnOk result (map passage_of bodies.new.items ≡ map passage_of bodies.old.items ++ inner_as Cases (passage_of body.now)) }
{
    match script_of(alloc, body.text.as_slice())? {
        Some(script) => push_all_cases(alloc, body, commands_in(&script), bodies),
        None => Ok(()),
    }
}

/// Adds what a body says that is read so.
fn push_said(
    alloc: Global,
    form: Form,
    body: &Body,
    found: &mut Calls,
    bodies: &mut Vec<Body>,
) -> Result<(), AllocError>
    ensures calls { OnOk result (map said found.new.calls.items ≡ map said found.old.calls.items ++ said_as form (passage_of body.now)) }
    ensures unread { OnOk result (map misread found.new.unread.items ≡ map misread found.old.unread.items ++ unread_as form (passage_of body.now)) }
    ensures bodies { OnOk result (map passage_of bodies.new.items ≡ map passage_of bodies.old.items ++ inner_as form (passage_of body.now)) }
{
    match form {
        Form::Commands => push_commands(alloc, body, found, bodies),
        Form::Condition => brackets_of(alloc, body.text.as_slice(), body.line, bodies),
        Form::Cases => push_cases_of(alloc, body, bodies),
    }
}

/// The commands of a script and of all scripts in it that are literal, and which of them can't be read.
pub(crate) fn calls_of(alloc: Global, script: &str) -> Result<Calls, AllocError>
    ensures calls { IfOk result (λ found. map said found.calls.items ≡ calls_of script.now) }
    ensures unread { IfOk result (λ found. map misread found.unread.items ≡ unread_of script.now) }
{
    let mut found = Calls {
        calls: Vec::new(alloc),
        unread: Vec::new(alloc),
    };
    let mut bodies = Vec::new(alloc);
    bodies.push(Body {
        text: Vec::from_slice(alloc, script.as_bytes())?,
        line: 1,
        form: Form::Commands,
    })?;
    'passages: for _number in 0..MOST_BODIES {
        match bodies.pop() {
            None => return Ok(found),
            Some(body) => push_said(alloc, body.form, &body, &mut found, &mut bodies)?,
        }
    }
    Ok(found)
}
