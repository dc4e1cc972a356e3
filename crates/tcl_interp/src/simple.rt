//! Commands whose words are put together at once. A word is plain where it is made of texts and values of variables, or is in brackets an expression that
//! straight code evaluates or a command on texts or lists: none of these changes anything.
ghost use Rattle.std.specs.Prelude.{◌≡◌, ◌<◌, ◌≤◌, ◌+◌, [], ◌∷◌, ◌++◌, length, drop, List, ℕ, false, Some, Ok, IfOk, IfSome, OnErr};
ghost use Rattle.std.specs.Option.{option_copied};
ghost use Rattle.tcl_words.specs.declared.script.Piece.TheVariants.{Bracket};
ghost use Rattle.tcl_vars.specs.Store.{Store};
ghost use Rattle.tcl_table.specs.Names.{plain_name};
ghost use Rattle.tcl_table.specs.Table.{command_of};
ghost use Rattle.tcl_control.specs.declared.code.Code.TheVariants.{Normal};
ghost use Rattle.tcl_table.specs.Levels.{here};
ghost use Rattle.tcl_control.specs.Variables.{answer_code, answer_text};
ghost use Rattle.tcl_interp.specs.Finish.{Calls, ForCommand, GoesOn};
ghost use Rattle.tcl_interp.specs.Moves.{moved, standing};
ghost use Rattle.tcl_interp.specs.Rests.{IsSingle, expand_in_front, left_in, pieces_in_front, standing_of, waits_of, words_in_front};
ghost use Rattle.tcl_interp.specs.Simple.{CommandEnds, Computes, EndsCall, ExprGives, GivesScript, GivesWord, HasValue, IsWritten, WordsLead};
ghost use Rattle.tcl_interp.specs.Steps.{TakesStep, TakesSteps};
ghost use Rattle.tcl_text.specs.Limits.{most_bytes};

use crate::machine::{Frame, Front, Next, Now, ScriptPlace};
use crate::seen::Seen;
use crate::steps::call;
use crate::tasks::Tasks;
use crate::words::{
    Put, commands, expand_at, next_words, past_command, pieces_at, put_pieces, shared_word,
    single_text, wait,
};
use std::alloc::{AllocError, Global};
use tcl_control::{Code, Context, End, Plan, info_plan, integer_of};
use tcl_table::{Builtin, Command, is_dotted, plain_name};
use tcl_text::{Text, TextCommand, TextList};
use tcl_vars::Scopes;
use tcl_words::{Piece, Script, Word};

/// How deep brackets of commands on texts stand in one another in a word that is plain. Where one of them isn't plain after all, those before it run
/// again, once for each level at most.
pub const DEPTH: u64 = 2;

/// The text of a word, and the steps that were taken for it.
#[derive(Drop)]
pub struct Worth {
    pub text: Text,
    pub steps: u64,
}

/// The words of a command, and the steps that were taken for them.
#[derive(Drop)]
pub struct Worded {
    pub words: TextList,
    pub steps: u64,
}

/// What is to be done once commands have run, the steps that they took, and what is known of the next command.
#[derive(Drop)]
pub struct Gone<K> {
    pub now: Now<K>,
    pub steps: u64,
    pub front: Front,
}

/// The text that the word at an index is, if it is written so.
pub fn written(words: &[Word], index: usize) -> Option<&Text>
    ensures { IfSome result (λ text. IsWritten (drop index words.now) text.now × (length text.now ≤ most_bytes)) }
{
    let word = words.get(index)?;
    match word.pieces() {
        [Piece::Literal(text)] if !word.expand() => {
            let _short = text.as_str();
            Some(text)
        }
        _ => None,
    }
}

/// The script in brackets that the word at an index is, if it is one.
fn bracketed(words: &[Word], index: usize) -> Option<&Script>
    ensures { IfSome result (λ script. (expand_in_front (drop index words.now) ≡ false) × (pieces_in_front (drop index words.now) ≡ Bracket script.now ∷ [])) }
{
    let word = words.get(index)?;
    match word.pieces() {
        [Piece::Bracket(script)] if !word.expand() => Some(script),
        _ => None,
    }
}

/// What a name calls.
pub fn command_named<'a>(context: &'a Context, name: &Text) -> Option<&'a Command>
    ensures { IfSome result (λ command. command_of context.now.commands (plain_name name.now) ≡ Some command.now) }
{
    let plain = plain_name(name.as_str());
    if is_dotted(plain) {
        return None;
    }
    context.commands.get(plain)
}

/// The value of an expression, where it was read before and straight code says it.
fn straight_text(
    alloc: Global,
    scopes: &Scopes,
    context: &Context,
    level: usize,
    text: &Text,
) -> Result<Option<Text>, AllocError>
    requires { level < length scopes.now }
    ensures { IfOk result (λ value. IfSome value (λ value. HasValue scopes.now level text.now value × (length value ≤ most_bytes))) }
{
    let Some(expr) = context.commands.known_expression(text) else {
        return Ok(None);
    };
    match integer_of(expr, &Seen { scopes, level }) {
        Some(number) => {
            let value = Text::from_integer(alloc, number)?;
            let _short = value.as_str();
            Ok(Some(value))
        }
        None => Ok(None),
    }
}

/// What `expr` makes of one argument, where it was read before and straight code says its value.
fn computed(
    alloc: Global,
    scopes: &Scopes,
    context: &Context,
    level: usize,
    argument: &Text,
) -> Result<Option<Text>, AllocError>
    requires { level < length scopes.now }
    ensures { IfOk result (λ value. IfSome value (λ text. Computes scopes.now level argument.now text × (length text ≤ most_bytes))) }
{
    if argument.is_trimmed() {
        return straight_text(alloc, scopes, context, level, argument);
    }
    match TextCommand::Concat.answer(alloc, &[argument.copy()?])? {
        Ok(text) => straight_text(alloc, scopes, context, level, &text),
        Err(_) => Ok(None),
    }
}

/// What `expr`, by this name, gives with one argument.
fn expression_of(
    alloc: Global,
    scopes: &Scopes,
    context: &Context,
    level: usize,
    words: &[Word],
    name: &Text,
) -> Result<Option<Text>, AllocError>
    requires name { IsWritten words.now name.now × (length name.now ≤ most_bytes) }
    requires calls { command_of context.now.commands (plain_name name.now) ≡ Some (Command.Builtin Builtin.Expr) }
    requires there { level < length scopes.now }
    ensures { IfOk result (λ value. IfSome value (ExprGives scopes.now context.now level words.now)) }
{
    if words.len() != 2 {
        return Ok(None);
    }
    let Some(argument) = written(words, 1) else {
        return Ok(None);
    };
    let _name = name.as_str();
    computed(alloc, scopes, context, level, argument)
}

/// The text of the word at an index, where it isn't one piece and all are texts or values of variables.
fn joined_text(
    alloc: Global,
    scopes: &Scopes,
    level: usize,
    words: &[Word],
    index: usize,
) -> Result<Option<Text>, AllocError>
    requires { level < length scopes.now }
    ensures { IfOk result (λ joined. IfSome joined (IsSingle level scopes.now (drop index words.now))) }
{
    let pieces = pieces_at(words, index);
    if pieces.len() == 1 || expand_at(words, index) {
        return Ok(None);
    }
    match put_pieces(alloc, scopes, level, pieces, 0, Text::empty())? {
        Put::Whole(text) => Ok(Some(text)),
        Put::Failed(_) | Put::AtPart { .. } => Ok(None),
    }
}

/// The text of the word at an index, where its pieces are texts or values of variables.
fn plain_text(
    alloc: Global,
    scopes: &Scopes,
    level: usize,
    words: &[Word],
    index: usize,
) -> Result<Option<Text>, AllocError>
    requires { level < length scopes.now }
    ensures { IfOk result (λ plain. IfSome plain (IsSingle level scopes.now (drop index words.now))) }
{
    match single_text(scopes, level, words, index)? {
        Some(text) => Ok(Some(text)),
        None => joined_text(alloc, scopes, level, words, index),
    }
}

/// Calls a command on texts or lists of this name with these words behind it.
pub fn call_texts<T: Tasks>(
    alloc: Global,
    context: &Context,
    name: &Text,
    command: TextCommand,
    arguments: &[Text],
) -> Result<End, AllocError>
    requires { command_of context.now.commands (plain_name name.now) ≡ Some (Command.Texts command) }
    ensures { IfOk result (λ end. (store : Store) → EndsCall T.outside (name.now ∷ arguments.now) store context.now store end.code end.text) }
{
    let _ = &context.commands;
    let _ = name.as_str();
    Ok(end_of(command.answer(alloc, arguments)?))
}

/// What a command on texts or lists of this name gives, where its words are plain and it ends with no error.
#[cycle(words)]
fn text_worth<T: Tasks>(
    alloc: Global,
    scopes: &Scopes,
    context: &Context,
    words: &[Word],
    name: &Text,
    command: TextCommand,
    room: u64,
    most: u64,
    depth: u64,
) -> Result<Option<Worth>, AllocError>
    requires name { IsWritten words.now name.now × (length name.now ≤ most_bytes) }
    requires calls { command_of context.now.commands (plain_name name.now) ≡ Some (Command.Texts command) }
    requires some { 0 < most }
    ensures ends { IfOk result (λ found. IfSome found (λ worth.
        CommandEnds T.outside room words.now scopes.now context.now worth.steps scopes.now Normal worth.text)) }
    ensures most { IfOk result (λ found. IfSome found (λ worth. worth.steps ≤ most)) }
    ensures short { IfOk result (λ found. IfSome found (λ worth. length worth.text ≤ most_bytes)) }
{
    let few = most - 1;
    let found = plain_words::<T>(alloc, scopes, context, words, 1, room, few, depth)?;
    let Some(found) = found else {
        return Ok(None);
    };
    let arguments = found.words.as_slice();
    let End { code, text } = call_texts::<T>(alloc, context, name, command, arguments)?;
    match code {
        Code::Normal => {
            let _short = text.as_str();
            Ok(Some(Worth {
                text,
                steps: found.steps + 1,
            }))
        }
        _ => Ok(None),
    }
}

/// Calls `info` by this name with these words behind it, which ends at once.
fn call_info<T: Tasks>(
    alloc: Global,
    scopes: &Scopes,
    context: &Context,
    name: &Text,
    arguments: &[Text],
) -> Result<Option<End>, AllocError>
    requires { command_of context.now.commands (plain_name name.now) ≡ Some (Command.Builtin Builtin.Info) }
    ensures { IfOk result (λ found. IfSome found (λ end. EndsCall T.outside (name.now ∷ arguments.now) scopes.now context.now scopes.now end.code end.text)) }
{
    let _ = &context.commands;
    let _ = name.as_str();
    let count = context.levels.count();
    let level = context.levels.here(scopes);
    match info_plan(alloc, scopes, count, level, arguments)? {
        Plan::Ends(code, text) => Ok(Some(End { code, text })),
        _ => Ok(None),
    }
}

/// What `info` by this name gives, where its words are plain and it ends with no error.
#[cycle(words)]
fn info_worth<T: Tasks>(
    alloc: Global,
    scopes: &Scopes,
    context: &Context,
    words: &[Word],
    name: &Text,
    room: u64,
    most: u64,
    depth: u64,
) -> Result<Option<Worth>, AllocError>
    requires name { IsWritten words.now name.now × (length name.now ≤ most_bytes) }
    requires calls { command_of context.now.commands (plain_name name.now) ≡ Some (Command.Builtin Builtin.Info) }
    requires some { 0 < most }
    ensures ends { IfOk result (λ found. IfSome found (λ worth.
        CommandEnds T.outside room words.now scopes.now context.now worth.steps scopes.now Normal worth.text)) }
    ensures most { IfOk result (λ found. IfSome found (λ worth. worth.steps ≤ most)) }
    ensures short { IfOk result (λ found. IfSome found (λ worth. length worth.text ≤ most_bytes)) }
{
    let few = most - 1;
    let found = plain_words::<T>(alloc, scopes, context, words, 1, room, few, depth)?;
    let Some(found) = found else {
        return Ok(None);
    };
    let arguments = found.words.as_slice();
    let ended = call_info::<T>(alloc, scopes, context, name, arguments)?;
    let Some(End { code, text }) = ended else {
        return Ok(None);
    };
    match code {
        Code::Normal => {
            let _short = text.as_str();
            Ok(Some(Worth {
                text,
                steps: found.steps + 1,
            }))
        }
        _ => Ok(None),
    }
}

/// What a script gives that is one command, `expr` with one argument, `info` or one on texts or lists, with brackets at most so deep in its words.
#[cycle(words)]
pub fn script_value<T: Tasks>(
    alloc: Global,
    scopes: &Scopes,
    context: &Context,
    level: usize,
    script: &Script,
    room: u64,
    most: u64,
    depth: u64,
) -> Result<Option<Worth>, AllocError>
    requires level { level ≡ here context.now.levels scopes.now }
    requires there { level < length scopes.now }
    requires room { 0 < room }
    requires some { 0 < most }
    ensures gives { IfOk result (λ found. IfSome found (λ worth. GivesScript T.outside room script.now scopes.now context.now worth.steps worth.text)) }
    ensures most { IfOk result (λ found. IfSome found (λ worth. worth.steps ≤ most)) }
    ensures short { IfOk result (λ found. IfSome found (λ worth. length worth.text ≤ most_bytes)) }
{
    let [command] = commands(script) else {
        return Ok(None);
    };
    let words = command.words();
    let Some(name) = written(words, 0) else {
        return Ok(None);
    };
    match command_named(context, name) {
        Some(Command::Builtin(Builtin::Expr)) => {
            let value = expression_of(alloc, scopes, context, level, words, name)?;
            match value {
                Some(text) => Ok(Some(Worth { text, steps: 1 })),
                None => Ok(None),
            }
        }
        Some(Command::Texts(command)) if depth > 0 => text_worth::<T>(
            alloc,
            scopes,
            context,
            words,
            name,
            *command,
            room - 1,
            most,
            depth - 1,
        ),
        Some(Command::Builtin(Builtin::Info)) if depth > 0 => info_worth::<T>(
            alloc,
            scopes,
            context,
            words,
            name,
            room - 1,
            most,
            depth - 1,
        ),
        _ => Ok(None),
    }
}

/// The value of the word at an index, where it is plain, with brackets at most so deep in one another.
#[cycle(words)]
pub fn word_value<T: Tasks>(
    alloc: Global,
    scopes: &Scopes,
    context: &Context,
    level: usize,
    words: &[Word],
    index: usize,
    room: u64,
    most: u64,
    depth: u64,
) -> Result<Option<Worth>, AllocError>
    requires level { level ≡ here context.now.levels scopes.now }
    requires there { level < length scopes.now }
    ensures gives { IfOk result (λ found. IfSome found (λ worth. GivesWord T.outside room (drop index words.now) scopes.now context.now worth.steps worth.text)) }
    ensures most { IfOk result (λ found. IfSome found (λ worth. worth.steps ≤ most)) }
{
    if let Some(text) = plain_text(alloc, scopes, level, words, index)? {
        return Ok(Some(Worth { text, steps: 0 }));
    }
    if room == 0 || most == 0 {
        return Ok(None);
    }
    let Some(script) = bracketed(words, index) else {
        return Ok(None);
    };
    script_value::<T>(alloc, scopes, context, level, script, room, most, depth)
}

/// The words of a command from one on, where all are plain, for so many steps at most, with brackets at most so deep in one another.
#[cycle(words)]
pub fn plain_words<T: Tasks>(
    alloc: Global,
    scopes: &Scopes,
    context: &Context,
    words: &[Word],
    from: usize,
    room: u64,
    most: u64,
    depth: u64,
) -> Result<Option<Worded>, AllocError>
    ensures leads { IfOk result (λ found. IfSome found (λ all. (before : List (List ℕ)) →
        WordsLead T.outside room scopes.now context.now (drop from words.now) before all.steps [] (before ++ all.words))) }
    ensures most { IfOk result (λ found. IfSome found (λ all. all.steps ≤ most)) }
{
    let level = context.levels.here(scopes);
    let mut whole = TextList::with_capacity(alloc, words.len())?;
    let mut steps = 0;
    let mut word = from;
    while word < words.len() {
        let left = most - steps;
        let Some(found) = word_value::<T>(
            alloc, scopes, context, level, words, word, room, left, depth,
        )?
        else {
            return Ok(None);
        };
        let text = shared_word(&whole, found.text)?;
        whole.push(text)?;
        steps += found.steps;
        word += 1;
    }
    Ok(Some(Worded {
        words: whole,
        steps,
    }))
}

/// How a command ends that answers this.
pub fn end_of(answer: Result<Text, Text>) -> End
    ensures code { result.code ≡ answer_code answer }
    ensures text { result.text ≡ answer_text answer }
{
    match answer {
        Ok(text) => End {
            code: Code::Normal,
            text,
        },
        Err(text) => End {
            code: Code::Error,
            text,
        },
    }
}

/// Calls a command with these words, behind which a script goes on.
fn call_behind<T: Tasks>(
    alloc: Global,
    tasks: &mut T,
    scopes: &mut Scopes,
    context: &mut Context,
    frames: &mut Vec<Frame<T::Task>>,
    place: ScriptPlace,
    words: &[Text],
) -> Next<T::Task>
    ensures ok { IfOk result (λ now. TakesStep T.outside
        (standing (moved (Calls place.room words.now) (ForCommand place.room (left_in place) ∷ waits_of frames.old.items)) scopes.old context.old)
        (T.shows tasks.old) (standing_of now frames.new.items scopes.new context.new) (T.shows tasks.new)) }
    ensures left { T.left_alone tasks.new ≡ T.left_alone tasks.old }
{
    let room = place.room;
    wait(frames, Frame::ForCommand(place))?;
    call(alloc, tasks, scopes, context, frames, words, room)
}

/// The words of the next command of a script, where there is one and all are plain, for so many steps at most.
fn next_plain<T: Tasks>(
    alloc: Global,
    scopes: &Scopes,
    context: &Context,
    place: &ScriptPlace,
    most: u64,
) -> Result<Option<Worded>, AllocError>
    ensures front { IfOk result (λ found. IfSome found (λ all. 0 < length (words_in_front (left_in place.now)))) }
    ensures leads { IfOk result (λ found. IfSome found (λ all.
        WordsLead T.outside place.now.room scopes.now context.now (words_in_front (left_in place.now)) [] all.steps [] all.words)) }
    ensures most { IfOk result (λ found. IfSome found (λ all. all.steps ≤ most)) }
{
    match next_words(place) {
        [] => Ok(None),
        words => plain_words::<T>(alloc, scopes, context, words, 0, place.room, most, DEPTH),
    }
}

/// Calls the next command of a script, where its words are plain, for so many steps at most. No step is taken, and nothing is done, where they
/// aren't. Its steps are counted before it is called: where memory is refused and none was counted, nothing that scripts can learn has changed.
pub fn run_one<T: Tasks>(
    alloc: Global,
    tasks: &mut T,
    scopes: &mut Scopes,
    context: &mut Context,
    frames: &mut Vec<Frame<T::Task>>,
    place: ScriptPlace,
    previous: Text,
    most: u64,
    left: &mut u64,
) -> Result<Gone<T::Task>, AllocError>
    requires some { 0 < most }
    requires there { most ≤ left.old }
    ensures ok { IfOk result (λ gone. TakesSteps T.outside gone.steps
        (standing (moved (GoesOn place.room (left_in place) previous) (waits_of frames.old.items)) scopes.old context.old) (T.shows tasks.old)
        (standing_of gone.now frames.new.items scopes.new context.new) (T.shows tasks.new)) }
    ensures most { IfOk result (λ gone. gone.steps ≤ most) }
    ensures counted { IfOk result (λ gone. gone.steps + left.new ≡ left.old) }
    ensures taken { left.new ≤ left.old }
    ensures within { left.old ≤ left.new + most }
    ensures uncounted { OnErr result (left.new ≡ left.old → (scopes.new ≡ scopes.old) × (context.new ≡ context.old) × (T.shows tasks.new ≡ T.shows tasks.old)) }
    ensures left { T.left_alone tasks.new ≡ T.left_alone tasks.old }
{
    match next_plain::<T>(alloc, scopes, context, &place, most - 1)? {
        Some(found) if !found.words.is_empty() => {
            let steps = found.steps + 1;
            *left -= steps;
            let place = past_command(place);
            let words = found.words.as_slice();
            let now = call_behind(alloc, tasks, scopes, context, frames, place, words)?;
            let front = Front::New;
            Ok(Gone { now, steps, front })
        }
        _ => Ok(Gone {
            now: Now::GoesOn {
                place,
                result: previous,
            },
            steps: 0,
            front: Front::Unplain,
        }),
    }
}
