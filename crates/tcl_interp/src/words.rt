ghost use Rattle.std.specs.Prelude.{◌≡◌, ◌<◌, ◌≤◌, ◌+◌, [], ◌++◌, length, drop, nat_le, if◌then◌else◌, Some, None, option_map, MatchResult, Ok, Err, ◌∷◌, OnOk, IfOk, IfSome};
ghost use Rattle.tcl_vars.specs.Store.{variable_in, element_in};
ghost use Rattle.tcl_text.specs.Readings.{list_of};
ghost use Rattle.tcl_table.specs.Source.{script_of};
ghost use Rattle.tcl_table.specs.Texts.{element_name};
ghost use Rattle.tcl_interp.specs.Evaluation.{items_or_text, words_of};
ghost use Rattle.tcl_control.specs.declared.code.Code.TheVariants.{Error};
ghost use Rattle.tcl_interp.specs.Finish.{Begins, Ends};
ghost use Rattle.tcl_interp.specs.Moves.{moved, with_more_words, piece_text, word_end, called_move, words_move, element_begins, element_end, indexes_move, longer_index, part_begins, part_move, word_part, go_on_move};
ghost use Rattle.tcl_interp.specs.Rests.{commands_in, doing_of, expand_in_front, indexing_of, IsSingle, left_in, moved_of, part_of, pieces_in, pieces_in_front, put_end, value_of, waiting_of, waits_of, wording_of, words_in_front};
ghost use Rattle.tcl_text.specs.Limits.{most_bytes};

use crate::machine::{Frame, Indexing, Next, Now, ScriptPlace, Wording};
use crate::stopped::note_error;
use std::alloc::{AllocError, Global};
use tcl_control::Code;
use tcl_table::texts::cannot_read_element;
use tcl_table::{CommandTable, Source};
use tcl_text::message::limit;
use tcl_text::{SplitFault, Text, TextFault, TextList};
use tcl_vars::Scopes;
use tcl_words::{Command, Index, MAX_DEPTH, Piece, Script, Word};

/// A part of a word that is evaluated by itself: a script in brackets, or an element, by the array's name and the index.
#[derive(Drop)]
pub enum Part {
    Script(Script),
    Element(Text, Index),
}

/// A piece by itself: a text, an error, or a part whose result it is.
#[derive(Drop)]
pub enum Value {
    Plain(Text),
    Fails(Text),
    Waits(Part),
}

/// How far a word or an index came: it is whole, it fails, or a part is to be evaluated whose result comes next.
#[derive(Drop)]
pub enum Put {
    Whole(Text),
    Failed(Text),
    AtPart {
        part: Part,
        next: usize,
        so_far: Text,
    },
}

/// How many indices are gone down from a word: one more than stand in one another in any index that can be read.
const INDEX_DEPTH: u64 = MAX_DEPTH as u64 + 1;

/// A piece's value, where variables are those of a level.
fn piece_value(
    alloc: Global,
    scopes: &Scopes,
    level: usize,
    piece: &Piece,
) -> Result<Value, AllocError>
    requires { level < length scopes.now }
    ensures { IfOk result (λ value. value_of value ≡ piece_text level scopes.now piece.now) }
{
    match piece {
        Piece::Literal(text) => Ok(Value::Plain(text.copy()?)),
        Piece::Variable(name) => match scopes.get(level, name) {
            Ok(value) => Ok(Value::Plain(value.copy()?)),
            Err(fault) => Ok(Value::Fails(fault.text(alloc, name.as_str())?)),
        },
        Piece::Element(name, index) => {
            Ok(Value::Waits(Part::Element(name.to_text()?, index.copy()?)))
        }
        Piece::Bracket(script) => Ok(Value::Waits(Part::Script(script.copy()?))),
    }
}

/// A word's text with one more piece, none where it is too long.
fn joined(alloc: Global, so_far: Text, text: Text) -> Result<Option<Text>, AllocError>
    ensures { IfOk result (λ joined. joined ≡ (if nat_le (length (so_far ++ text)) most_bytes then Some (so_far ++ text) else None)) }
{
    if so_far.as_str().is_empty() {
        let _short = text.as_str();
        return Ok(Some(text));
    }
    let mut all = so_far;
    match all.push_str(alloc, text.as_str()) {
        Ok(()) => Ok(Some(all)),
        Err(TextFault::TooLong) => Ok(None),
        Err(TextFault::NoMemory) => Err(AllocError),
    }
}

pub fn put_pieces(
    alloc: Global,
    scopes: &Scopes,
    level: usize,
    pieces: &[Piece],
    from: usize,
    so_far: Text,
) -> Result<Put, AllocError>
    requires { level < length scopes.now }
    ensures { IfOk result (λ put. put_end pieces.now put ≡ word_end level scopes.now (drop from pieces.now) so_far) }
{
    let mut next = from;
    let mut text_so_far = so_far;
    while next < pieces.len() {
        let value = piece_value(alloc, scopes, level, &pieces[next])?;
        next += 1;
        match value {
            Value::Plain(text) => match joined(alloc, text_so_far, text)? {
                Some(more) => text_so_far = more,
                None => return Ok(Put::Failed(limit(alloc)?)),
            },
            Value::Fails(text) => return Ok(Put::Failed(text)),
            Value::Waits(part) => {
                return Ok(Put::AtPart {
                    part,
                    next,
                    so_far: text_so_far,
                });
            }
        }
    }
    Ok(Put::Whole(text_so_far))
}

/// The commands of a script.
#[tactic(auto, using(tcl_table::proofs::SourceLemmas::script_walk))]
pub fn commands(script: &Script) -> &[Command]
    ensures { result.now ≡ commands_in script.now }
{
    script.commands()
}

/// The words of the command at a place of a script.
pub fn words_at(script: &Script, place: usize) -> &[Word]
    ensures { result.now ≡ words_in_front (drop place (commands_in script.now)) }
{
    match commands(script).get(place) {
        Some(command) => command.words(),
        None => &[],
    }
}

/// The words of the command that is next.
pub fn next_words(place: &ScriptPlace) -> &[Word]
    ensures { result.now ≡ words_in_front (left_in place.now) }
{
    words_at(&place.script, place.next)
}

/// The pieces of a word.
pub fn pieces_at(words: &[Word], index: usize) -> &[Piece]
    ensures { result.now ≡ pieces_in_front (drop index words.now) }
{
    match words.get(index) {
        Some(word) => word.pieces(),
        None => &[],
    }
}

/// Whether the word at an index is a list of words.
pub fn expand_at(words: &[Word], index: usize) -> bool
    ensures { result ≡ expand_in_front (drop index words.now) }
{
    match words.get(index) {
        Some(word) => word.expand(),
        None => false,
    }
}

/// From how many bytes on a word is compared with the one in front of it.
const SHARED_FROM: usize = 1_024;

/// A word. Where the one in front of it is the same long text, it shares that one: what brackets and pieces make again and again takes room once.
pub fn shared_word(whole: &TextList, text: Text) -> Result<Text, AllocError>
    ensures { IfOk result (λ word. word ≡ text) }
{
    if text.as_str().len() < SHARED_FROM {
        return Ok(text);
    }
    match whole.as_slice().last() {
        Some(last) if last.as_str() == text.as_str() => last.copy(),
        _ => Ok(text),
    }
}

/// The words so far, and those that a word of this text gives; or the error's text.
fn with_words(
    alloc: Global,
    whole: TextList,
    expand: bool,
    text: Text,
) -> Result<Result<TextList, Text>, AllocError>
    ensures { IfOk result (λ all. all ≡ with_more_words whole (words_of expand text)) }
{
    if expand {
        with_elements(alloc, whole, &text)
    } else {
        let word = shared_word(&whole, text)?;
        let mut all = whole;
        all.push(word)?;
        Ok(Ok(all))
    }
}

/// The words so far, and those that the word at an index gives, which has this text; or the error's text.
fn with_word(
    alloc: Global,
    whole: TextList,
    words: &[Word],
    index: usize,
    text: Text,
) -> Result<Result<TextList, Text>, AllocError>
    ensures { IfOk result (λ all. all ≡ with_more_words whole (words_of (expand_in_front (drop index words.now)) text)) }
{
    with_words(alloc, whole, expand_at(words, index), text)
}

/// The words so far, and the elements of a list.
fn with_elements(
    alloc: Global,
    whole: TextList,
    list: &Text,
) -> Result<Result<TextList, Text>, AllocError>
    ensures { IfOk result (λ all. all ≡ with_more_words whole (items_or_text (list_of list.now))) }
{
    match list.split_list(alloc) {
        Ok(elements) => {
            let mut all = whole;
            let items = elements.as_slice();
            for element in items {
                all.push(element.copy()?)?;
            }
            Ok(Ok(all))
        }
        Err(SplitFault::BadList(fault)) => Ok(Err(fault.told(alloc)?)),
        Err(SplitFault::NoMemory) => Err(AllocError),
    }
}

/// Lets something wait.
#[tactic(auto, unfolding(crate::specs::Rests::waits_of))]
pub fn wait<K: Drop>(frames: &mut Vec<Frame<K>>, frame: Frame<K>) -> Result<(), AllocError>
    ensures { OnOk result (waits_of frames.new.items ≡ waiting_of frame ∷ waits_of frames.old.items) }
{
    frames.push(frame)?;
    Ok(())
}

/// A script begins, and this waits for it.
pub fn begin_for<K: Drop>(
    frames: &mut Vec<Frame<K>>,
    frame: Frame<K>,
    room: u64,
    script: Source,
) -> Next<K>
    ensures { IfOk result (λ now. moved_of now frames.new.items ≡ moved (Begins room script) (waiting_of frame ∷ waits_of frames.old.items)) }
{
    wait(frames, frame)?;
    Ok(Now::Begins { room, script })
}

/// A script past the command that is next.
pub fn past_command(place: ScriptPlace) -> ScriptPlace
    ensures room { result.room ≡ place.room }
    ensures left { left_in result ≡ drop (place.next + 1) (commands_in place.script) }
{
    let ScriptPlace { script, next, room } = place;
    let count = commands(&script).len();
    let next = if next < count { next + 1 } else { next };
    ScriptPlace { script, next, room }
}

/// The command that is next has its words: it is called, or does nothing where it has none.
fn called<K: Drop>(
    alloc: Global,
    frames: &mut Vec<Frame<K>>,
    place: ScriptPlace,
    whole: TextList,
) -> Next<K>
    ensures { IfOk result (λ now. moved_of now frames.new.items
        ≡ called_move place.room (drop (place.next + 1) (commands_in place.script)) whole (waits_of frames.old.items)) }
{
    let room = place.room;
    let place = past_command(place);
    if whole.is_empty() {
        return Ok(Now::GoesOn {
            place,
            result: Text::empty(),
        });
    }
    wait(frames, Frame::ForCommand(place))?;
    Ok(Now::Calls { room, words: whole })
}

/// The text of the word at an index, where that is one text or the value of one variable, as most words are: it needs no text
/// of its own.
pub fn single_text(
    scopes: &Scopes,
    level: usize,
    words: &[Word],
    index: usize,
) -> Result<Option<Text>, AllocError>
    requires { level < length scopes.now }
    ensures { IfOk result (λ single. IfSome single (IsSingle level scopes.now (drop index words.now))) }
{
    let Some(word) = words.get(index) else {
        return Ok(None);
    };
    match word.pieces() {
        [Piece::Literal(text)] if !word.expand() => Ok(Some(text.copy()?)),
        [Piece::Variable(name)] if !word.expand() => match scopes.get(level, name) {
            Ok(value) => Ok(Some(value.copy()?)),
            Err(_) => Ok(None),
        },
        _ => Ok(None),
    }
}

/// Whether a piece is a text or the value of a variable.
fn is_plain_piece(piece: &Piece) -> bool {
    matches!(piece, Piece::Literal(_) | Piece::Variable(_))
}

/// Whether a word is made of texts and values of variables.
fn is_simple_word(word: &Word) -> bool {
    !word.expand() && word.pieces().iter().all(is_plain_piece)
}

/// Whether a command of so many words has a name, as it is written, that one on texts or lists has at first, or is `expr` with one argument.
/// What the name calls isn't looked up.
fn has_plain_name(name: &Word, count: usize) -> bool {
    match name.pieces() {
        [Piece::Literal(text)] => match text.as_str() {
            "expr" => count == 2,
            "concat"
            | "join"
            | "lindex"
            | "linsert"
            | "list"
            | "llength"
            | "lrange"
            | "lreplace"
            | "lsearch"
            | "lsort"
            | "split"
            | "string" => true,
            _ => false,
        },
        _ => false,
    }
}

/// The words in the brackets that a word is, where they are those of one command of such a name, and none otherwise.
fn words_in_brackets(word: &Word) -> &[Word] {
    match word.pieces() {
        [Piece::Bracket(script)] if !word.expand() => match script.commands() {
            [command] => {
                let words = command.words();
                match words {
                    [name, ..] if has_plain_name(name, words.len()) => words,
                    _ => &[],
                }
            }
            _ => &[],
        },
        _ => &[],
    }
}

/// Whether a word in brackets may be put together at once.
fn is_plain_inside(word: &Word) -> bool {
    if is_simple_word(word) {
        return true;
    }
    let words = words_in_brackets(word);
    !words.is_empty() && words.iter().all(is_simple_word)
}

/// Whether a word may be put together at once: its pieces are texts and values of variables, or it is one command in brackets, whose words are so.
fn is_plain_word(word: &Word) -> bool {
    if is_simple_word(word) {
        return true;
    }
    let words = words_in_brackets(word);
    !words.is_empty() && words.iter().all(is_plain_inside)
}

/// Whether there is a next command whose words may be put together at once. It may be any answer: where they can't be, a try is lost.
pub fn is_plain(place: &ScriptPlace) -> bool {
    let words = next_words(place);
    !words.is_empty() && words.iter().all(is_plain_word)
}

/// The words of the command that is next can't be put together: it ends with this error.
fn words_fail<K: Drop>(
    table: &mut CommandTable,
    frames: &[Frame<K>],
    place: &ScriptPlace,
    text: Text,
) -> Next<K>
    ensures table { table.new ≡ table.old }
    ensures now { IfOk result (λ now. doing_of now ≡ Ends Error text) }
{
    note_error(table, frames, place, place.next)?;
    Ok(Now::Ends {
        code: Code::Error,
        text,
    })
}

/// Puts the words of the command that is next together, from this one on, until a script is to be run.
fn put_words<K: Drop>(
    alloc: Global,
    scopes: &Scopes,
    level: usize,
    table: &mut CommandTable,
    frames: &mut Vec<Frame<K>>,
    place: ScriptPlace,
    from: usize,
    so_far: TextList,
) -> Next<K>
    requires { level < length scopes.now }
    ensures table { table.new ≡ table.old }
    ensures now { IfOk result (λ now. moved_of now frames.new.items
        ≡ words_move level scopes.now place.room (drop (place.next + 1) (commands_in place.script)) (drop from (words_in_front (left_in place))) so_far
        (waits_of frames.old.items)) }
{
    let mut whole = so_far;
    let mut word = from;
    while word < next_words(&place).len() {
        let words = next_words(&place);
        if let Some(text) = single_text(scopes, level, words, word)? {
            whole.push(text)?;
            word += 1;
            continue;
        }
        let pieces = pieces_at(words, word);
        match put_pieces(alloc, scopes, level, pieces, 0, Text::empty())? {
            Put::Whole(text) => {
                let more = with_word(alloc, whole, words, word, text)?;
                match more {
                    Ok(all) => whole = all,
                    Err(text) => return words_fail(table, frames.as_slice(), &place, text),
                }
            }
            Put::Failed(text) => return words_fail(table, frames.as_slice(), &place, text),
            Put::AtPart { part, next, so_far } => {
                return word_part(alloc, frames, place, word, next, whole, so_far, part);
            }
        }
        word += 1;
    }
    called(alloc, frames, place, whole)
}

/// The place behind a word, where there is one.
fn past_word(words: &[Word], word: usize) -> usize
    ensures { drop result words.now ≡ drop (word + 1) words.now }
{
    if word < words.len() { word + 1 } else { word }
}

/// The element of this array is to be read, with indices at most so deep in its index.
#[tactic(auto, using(crate::proofs::IndexLemmas::index_walk))]
fn element_begins<K: Drop>(
    alloc: Global,
    room: u64,
    depth: u64,
    name: Text,
    index: Index,
) -> Next<K>
    ensures { IfOk result (λ now. doing_of now ≡ element_begins room depth name index) }
{
    if depth == 0 {
        return Ok(Now::Ends {
            code: Code::Error,
            text: limit(alloc)?,
        });
    }
    let _pieces = index.pieces();
    let indexing = Indexing {
        room,
        depth: depth - 1,
        name,
        index,
        piece: 0,
        so_far: Text::empty(),
    };
    Ok(Now::Indexes(Box::new(alloc, indexing)?))
}

/// A part of a word or of an index is to be evaluated.
fn part_begins<K: Drop>(alloc: Global, room: u64, depth: u64, part: Part) -> Next<K>
    ensures { IfOk result (λ now. doing_of now ≡ part_begins room depth (part_of part)) }
{
    match part {
        Part::Script(script) => Ok(Now::Begins {
            room,
            script: Source::of_script(script),
        }),
        Part::Element(name, index) => element_begins(alloc, room, depth, name, index),
    }
}

/// A part of the words of the command that is next is to be evaluated.
#[tactic(auto, unfolding(crate::specs::Moves::index_depth))]
fn word_part<K: Drop>(
    alloc: Global,
    frames: &mut Vec<Frame<K>>,
    place: ScriptPlace,
    word: usize,
    piece: usize,
    whole: TextList,
    so_far: Text,
    part: Part,
) -> Next<K>
    ensures { IfOk result (λ now. moved_of now frames.new.items
        ≡ word_part place.room (drop (place.next + 1) (commands_in place.script)) (expand_in_front (drop word (words_in_front (left_in place))))
        (drop (word + 1) (words_in_front (left_in place))) whole (drop piece (pieces_in_front (drop word (words_in_front (left_in place))))) so_far
        (part_of part) (waits_of frames.old.items)) }
{
    let room = place.room;
    let wording = Wording {
        place,
        word,
        piece,
        whole,
        so_far,
    };
    wait(frames, Frame::ForPart(Box::new(alloc, wording)?))?;
    part_begins(alloc, room, INDEX_DEPTH, part)
}

/// The pieces of an index.
#[tactic(auto, using(crate::proofs::IndexLemmas::index_walk))]
fn pieces_of(index: &Index) -> &[Piece]
    ensures { result.now ≡ pieces_in index.now }
{
    index.pieces()
}

/// The element of this index, where variables are those of a level.
fn element<K: Drop>(
    alloc: Global,
    scopes: &Scopes,
    level: usize,
    name: &Text,
    index: &Text,
) -> Next<K>
    requires { level < length scopes.now }
    ensures { IfOk result (λ now. doing_of now ≡ element_end (element_name name.now index.now) (element_in scopes.now level name.now index.now)) }
{
    match scopes.get_element(level, name, index) {
        Ok(value) => Ok(Now::Ends {
            code: Code::Normal,
            text: value.copy()?,
        }),
        Err(fault) => Ok(Now::Ends {
            code: Code::Error,
            text: cannot_read_element(alloc, name, index, fault)?,
        }),
    }
}

/// Puts an index together, until a part of it is to be evaluated, and then reads its element.
pub fn put_index<K: Drop>(
    alloc: Global,
    scopes: &Scopes,
    level: usize,
    frames: &mut Vec<Frame<K>>,
    indexing: Box<Indexing>,
) -> Next<K>
    requires { level < length scopes.now }
    ensures { IfOk result (λ now. moved_of now frames.new.items ≡ indexes_move level scopes.now (indexing_of indexing.value) (waits_of frames.old.items)) }
{
    let Indexing {
        room,
        depth,
        name,
        index,
        piece,
        so_far,
    } = Box::into_inner(indexing);
    match put_pieces(alloc, scopes, level, pieces_of(&index), piece, so_far)? {
        Put::Whole(text) => element(alloc, scopes, level, &name, &text),
        Put::Failed(text) => Ok(Now::Ends {
            code: Code::Error,
            text,
        }),
        Put::AtPart { part, next, so_far } => {
            let indexing = Indexing {
                room,
                depth,
                name,
                index,
                piece: next,
                so_far,
            };
            wait(frames, Frame::ForIndex(Box::new(alloc, indexing)?))?;
            part_begins(alloc, room, depth, part)
        }
    }
}

/// A part of an index has ended normally.
pub fn longer_index<K: Drop>(alloc: Global, indexing: Box<Indexing>, text: Text) -> Next<K>
    ensures { IfOk result (λ now. doing_of now ≡ longer_index (indexing_of indexing.value) text) }
{
    let indexing = Box::into_inner(indexing);
    match joined(alloc, indexing.so_far, text)? {
        Some(so_far) => {
            let indexing = Indexing { so_far, ..indexing };
            Ok(Now::Indexes(Box::new(alloc, indexing)?))
        }
        None => Ok(Now::Ends {
            code: Code::Error,
            text: limit(alloc)?,
        }),
    }
}

/// A part of the words of a command has ended normally.
pub fn longer_word<K: Drop>(
    alloc: Global,
    scopes: &Scopes,
    level: usize,
    table: &mut CommandTable,
    frames: &mut Vec<Frame<K>>,
    wording: Box<Wording>,
    text: Text,
) -> Next<K>
    requires { level < length scopes.now }
    ensures table { table.new ≡ table.old }
    ensures now { IfOk result (λ now. moved_of now frames.new.items ≡ part_move level scopes.now (wording_of wording.value) (waits_of frames.old.items) text) }
{
    let Wording {
        place,
        word,
        piece,
        whole,
        so_far,
    } = Box::into_inner(wording);
    let Some(so_far) = joined(alloc, so_far, text)? else {
        return words_fail(table, frames.as_slice(), &place, limit(alloc)?);
    };
    match put_pieces(
        alloc,
        scopes,
        level,
        pieces_at(next_words(&place), word),
        piece,
        so_far,
    )? {
        Put::Whole(text) => {
            let more = with_word(alloc, whole, next_words(&place), word, text)?;
            match more {
                Ok(whole) => {
                    let next = past_word(next_words(&place), word);
                    put_words(alloc, scopes, level, table, frames, place, next, whole)
                }
                Err(text) => words_fail(table, frames.as_slice(), &place, text),
            }
        }
        Put::Failed(text) => words_fail(table, frames.as_slice(), &place, text),
        Put::AtPart { part, next, so_far } => {
            word_part(alloc, frames, place, word, next, whole, so_far, part)
        }
    }
}

/// The next command of a script, or its end.
pub fn go_on<K: Drop>(
    alloc: Global,
    scopes: &Scopes,
    level: usize,
    table: &mut CommandTable,
    frames: &mut Vec<Frame<K>>,
    place: ScriptPlace,
    previous: Text,
) -> Next<K>
    requires { level < length scopes.now }
    ensures table { table.new ≡ table.old }
    ensures now { IfOk result (λ now. moved_of now frames.new.items ≡ go_on_move level scopes.now place.room (left_in place) previous (waits_of frames.old.items)) }
{
    if place.next < commands(&place.script).len() {
        let words = TextList::with_capacity(alloc, next_words(&place).len())?;
        put_words(alloc, scopes, level, table, frames, place, 0, words)
    } else {
        Ok(Now::Ends {
            code: Code::Normal,
            text: previous,
        })
    }
}
