ghost use Rattle.std.specs.Prelude.{◌≡◌, ◌<◌, ◌≤◌, [], ◌∷◌, length, codes, Some, IfOk, IfSome};
ghost use Rattle.std.specs.Option.{option_copied};
ghost use Rattle.tcl_text.specs.Commands.{command_answer};
ghost use Rattle.tcl_text.specs.Readings.{integer_of};
ghost use Rattle.tcl_text.specs.StringCommands.{concat_words};
ghost use Rattle.tcl_vars.specs.Store.{Store, with_variable};
ghost use Rattle.tcl_control.specs.Commands.{code_number, stored_ending, caught_ending, break_plan, catch_plan, continue_plan, error_plan, eval_plan, expr_plan, for_plan, foreach_plan, info_plan, return_plan, texts_plan, uplevel_plan, while_plan, on_joined, code_of, code_of_integer, code_numbered, unsigned_of, absolute, relative, runs_up, returns_as, returns_code, is_level, levels_left, bad_level, runs_at, level_plan};
ghost use Rattle.tcl_control.specs.declared.context.Context.{Context as SpecContext};
ghost use Rattle.tcl_control.specs.Control.{recorded_plan, proc_call, rename_call, builtin_call, by_command, call_of, keeps_all};
ghost use Rattle.tcl_text.specs.Limits.{most_bytes};

use crate::choices::{bad_option_plan, if_plan, switch_plan};
use crate::code::{Code, ReturnCode};
use crate::context::Context;
use crate::define::{make_procedure, rename};
use crate::expression::Expression;
use crate::loops::{Loop, Looping, Test};
use crate::plan::{Plan, fails};
use crate::procedure::call_procedure;
use crate::usages::{Usage, misused};
use crate::variables::{upvar_end, variable_end};
use std::alloc::{AllocError, Global};
use tcl_commands::{foreach_groups, has_body, info_exists};
use tcl_table::{Builtin, Command, CommandTable, Source, is_dotted, plain_name};
use tcl_text::message::about;
use tcl_text::{Text, TextCommand};
use tcl_vars::{Scopes, SetFault};

/// What is to be done for a command that is called.
#[derive(Drop)]
pub enum Call {
    /// What the command says.
    Plans(Plan),
    /// An outside command is called, which first had this name.
    Outside(Text),
    /// There is no command of the name.
    Unknown,
}

/// `break` (break(n)).
fn break_plan(alloc: Global, words: &[Text]) -> Result<Plan, AllocError>
    ensures { IfOk result (λ plan. plan ≡ break_plan words.now) }
{
    match words {
        [] => Ok(Plan::Ends(Code::Break, Text::empty())),
        _ => misused(alloc, Usage::Break),
    }
}

/// `continue` (continue(n)).
fn continue_plan(alloc: Global, words: &[Text]) -> Result<Plan, AllocError>
    ensures { IfOk result (λ plan. plan ≡ continue_plan words.now) }
{
    match words {
        [] => Ok(Plan::Ends(Code::Continue, Text::empty())),
        _ => misused(alloc, Usage::Continue),
    }
}

/// `error` (error(n)).
fn error_plan(alloc: Global, words: &[Text]) -> Result<Plan, AllocError>
    ensures { IfOk result (λ plan. plan ≡ error_plan words.now) }
{
    match words {
        [text] => Ok(fails(text.copy()?)),
        _ => misused(alloc, Usage::Error),
    }
}

/// `catch` (catch(n)).
fn catch_plan(alloc: Global, words: &[Text]) -> Result<Plan, AllocError>
    ensures { IfOk result (λ plan. plan ≡ catch_plan words.now) }
{
    match words {
        [script] => Ok(Plan::Catches(Source::of_text(script.copy()?), None)),
        [script, name] => Ok(Plan::Catches(Source::of_text(script.copy()?), Some(name.copy()?))),
        _ => misused(alloc, Usage::Catch),
    }
}

/// A loop with this condition and body, and what runs behind the body.
fn conditional(
    alloc: Global,
    table: &mut CommandTable,
    condition: &Text,
    body: &Text,
    next: Option<&Text>,
) -> Result<Looping, AllocError>
    ensures table { table.new ≡ table.old }
    ensures looping { IfOk result (λ looping. looping ≡ record { test = Test.Holds condition.now; body = body.now; next = option_copied next.entry }) }
{
    let test = Test::Holds(Expression::read_by(alloc, table, condition)?);
    let body = Source::read_by(table, body)?;
    let next = match next {
        Some(next) => Some(Source::read_by(table, next)?),
        None => None,
    };
    Looping::new(alloc, Loop { test, body, next })
}

/// `while` (while(n)).
fn while_plan(alloc: Global, table: &mut CommandTable, words: &[Text]) -> Result<Plan, AllocError>
    ensures table { table.new ≡ table.old }
    ensures plan { IfOk result (λ plan. plan ≡ while_plan words.now) }
{
    match words {
        [condition, body] => {
            let looping = conditional(alloc, table, condition, body, None)?;
            Ok(Plan::Loops(looping))
        }
        _ => misused(alloc, Usage::While),
    }
}

/// `for` (for(n)).
fn for_plan(alloc: Global, table: &mut CommandTable, words: &[Text]) -> Result<Plan, AllocError>
    ensures table { table.new ≡ table.old }
    ensures plan { IfOk result (λ plan. plan ≡ for_plan words.now) }
{
    match words {
        [start, condition, next, body] => {
            let looping = conditional(alloc, table, condition, body, Some(next))?;
            Ok(Plan::Starts(Source::of_text(start.copy()?), looping))
        }
        _ => misused(alloc, Usage::For),
    }
}

/// `foreach` (foreach(n)).
fn foreach_plan(alloc: Global, table: &mut CommandTable, words: &[Text]) -> Result<Plan, AllocError>
    ensures table { table.new ≡ table.old }
    ensures plan { IfOk result (λ plan. plan ≡ foreach_plan words.now) }
{
    if !(has_body(words) && words.len() > 2) {
        return misused(alloc, Usage::Foreach);
    }
    let body = Source::read_by(table, &words[words.len() - 1])?;
    match foreach_groups(alloc, words)? {
        Ok(groups) => {
            let looping = Loop {
                test: Test::Items(groups),
                body,
                next: None,
            };
            Ok(Plan::Loops(Looping::new(alloc, looping)?))
        }
        Err(text) => Ok(fails(text)),
    }
}

/// The table of commands has changed, unless that was refused.
fn recorded(alloc: Global, refused: Option<Text>) -> Result<Plan, AllocError>
    ensures { IfOk result (λ plan. plan ≡ recorded_plan refused) }
{
    match refused {
        None => Ok(Plan::Ends(Code::Normal, Text::empty())),
        Some(text) => Ok(fails(text)),
    }
}

/// `proc` (proc(n)).
fn proc_plan(alloc: Global, context: &mut Context, words: &[Text]) -> Result<Plan, AllocError>
    ensures { IfOk result (λ plan. (store : Store) → record { store = store; context = context.new; call = Call.Plans plan }
        ≡ proc_call words.now store context.old) }
{
    match words {
        [name, parameters, body] => {
            let refused = make_procedure(alloc, &mut context.commands, name, parameters, body)?;
            recorded(alloc, refused)
        }
        _ => misused(alloc, Usage::Proc),
    }
}

/// `rename` (rename(n)).
fn rename_plan(alloc: Global, context: &mut Context, words: &[Text]) -> Result<Plan, AllocError>
    ensures { IfOk result (λ plan. (store : Store) → record { store = store; context = context.new; call = Call.Plans plan }
        ≡ rename_call words.now store context.old) }
{
    match words {
        [old, new] => {
            let refused = rename(alloc, &mut context.commands, old, new)?;
            recorded(alloc, refused)
        }
        _ => misused(alloc, Usage::Rename),
    }
}

/// Words joined as by `concat` (concat(n)).
fn concatenated(alloc: Global, words: &[Text]) -> Result<Result<Text, Text>, AllocError>
    ensures { IfOk result (λ answer. answer ≡ concat_words words.now) }
{
    TextCommand::Concat.answer(alloc, words)
}

/// `eval` (eval(n)).
fn eval_plan(alloc: Global, words: &[Text]) -> Result<Plan, AllocError>
    ensures { IfOk result (λ plan. plan ≡ eval_plan words.now) }
{
    match words {
        [] => misused(alloc, Usage::Eval),
        [_, ..] => match concatenated(alloc, words)? {
            Ok(script) => Ok(Plan::Runs(Source::of_text(script))),
            Err(text) => Ok(fails(text)),
        },
    }
}

/// `expr` (expr(n)).
fn expr_plan(alloc: Global, table: &mut CommandTable, words: &[Text]) -> Result<Plan, AllocError>
    ensures table { table.new ≡ table.old }
    ensures plan { IfOk result (λ plan. plan ≡ expr_plan words.now) }
{
    match words {
        [] => misused(alloc, Usage::Expr),
        [_, ..] => match concatenated(alloc, words)? {
            Ok(text) => Ok(Plan::Evaluates(Expression::read_by(alloc, table, &text)?)),
            Err(text) => Ok(fails(text)),
        },
    }
}

/// The completion code of a word.
fn code_of(word: &Text) -> Option<ReturnCode>
    ensures { result ≡ code_of word.now }
{
    let name = word.as_str();
    if name == "ok" {
        Some(ReturnCode::Normal)
    } else if name == "error" {
        Some(ReturnCode::Error)
    } else if name == "return" {
        Some(ReturnCode::Return)
    } else if name == "break" {
        Some(ReturnCode::Break)
    } else if name == "continue" {
        Some(ReturnCode::Continue)
    } else {
        match word.integer() {
            Ok(number) => code_of_number(number),
            Err(_) => None,
        }
    }
}

fn code_of_number(number: i64) -> Option<ReturnCode>
    ensures { result ≡ code_of_integer (Some number) }
{
    if number < 0 {
        return None;
    }
    code_numbered(number as u64)
}

fn code_numbered(number: u64) -> Option<ReturnCode>
    ensures { result ≡ code_numbered number }
{
    if number == 0 {
        Some(ReturnCode::Normal)
    } else if number == 1 {
        Some(ReturnCode::Error)
    } else if number == 2 {
        Some(ReturnCode::Return)
    } else if number == 3 {
        Some(ReturnCode::Break)
    } else if number == 4 {
        Some(ReturnCode::Continue)
    } else {
        None
    }
}

/// `return` with a code, and a text.
#[tactic(auto, unfolding(crate::specs::Commands::returns_as))]
fn returns_as(alloc: Global, option: &Text, word: &Text, text: Text) -> Result<Plan, AllocError>
    ensures { IfOk result (λ plan. plan ≡ returns_as option.now word.now text) }
{
    if option.as_str() != "-code" {
        return bad_option_plan(alloc, option);
    }
    match code_of(word) {
        Some(code) => Ok(Plan::Ends(Code::Return(code), text)),
        None => Ok(fails(about(alloc, "bad completion code ", word.as_str())?)),
    }
}

/// `return` of one value.
fn returns_value(alloc: Global, text: &Text) -> Result<Plan, AllocError>
    ensures { IfOk result (λ plan. plan ≡ return_plan (text.now ∷ [])) }
{
    if text.as_str() == "-code" {
        Ok(fails(Text::of_short(alloc, "value for \"-code\" missing")?))
    } else {
        Ok(Plan::Ends(Code::Return(ReturnCode::Normal), text.copy()?))
    }
}

/// `return` (return(n)).
fn return_plan(alloc: Global, words: &[Text]) -> Result<Plan, AllocError>
    ensures { IfOk result (λ plan. plan ≡ return_plan words.now) }
{
    match words {
        [] => Ok(Plan::Ends(Code::Return(ReturnCode::Normal), Text::empty())),
        [text] => returns_value(alloc, text),
        [option, word] => returns_as(alloc, option, word, Text::empty()),
        [option, word, text] => returns_as(alloc, option, word, text.copy()?),
        _ => misused(alloc, Usage::Return),
    }
}

/// What `break`, `continue` and `return` do with their words, whatever the variables are; none for another command.
pub fn leaving_plan(
    alloc: Global,
    builtin: Builtin,
    words: &[Text],
) -> Result<Option<Plan>, AllocError>
    ensures { IfOk result (λ found. IfSome found (λ plan. (store : Store) (context : SpecContext) →
        builtin_call builtin words.now store context ≡ keeps_all store context plan)) }
{
    match builtin {
        Builtin::Break => Ok(Some(break_plan(alloc, words)?)),
        Builtin::Continue => Ok(Some(continue_plan(alloc, words)?)),
        Builtin::Return => Ok(Some(return_plan(alloc, words)?)),
        _ => Ok(None),
    }
}

/// Whether a word is a level: it begins with a digit or `#`.
fn is_level(word: &[u8]) -> bool
    ensures { result ≡ is_level word.now }
{
    match word {
        [] => false,
        [byte, ..] => (b'0' <= *byte && *byte <= b'9') || *byte == b'#',
    }
}

/// A number from 0 on, as a word gives it.
fn unsigned(word: &Text) -> Option<u64>
    ensures { result ≡ unsigned_of (integer_of word.now) }
{
    match word.integer() {
        Ok(number) if number >= 0 => Some(number as u64),
        _ => None,
    }
}

/// How many of so many levels a word leaves.
pub fn levels_left(alloc: Global, count: usize, word: &Text) -> Result<Option<usize>, AllocError>
    ensures { IfOk result (λ left. left ≡ levels_left count word.now) }
{
    match word.as_str().strip_prefix("#") {
        Some(rest) => Ok(absolute(count, unsigned(&Text::of_short(alloc, rest)?))),
        None => Ok(relative(count, unsigned(word))),
    }
}

fn absolute(count: usize, number: Option<u64>) -> Option<usize>
    ensures { result ≡ absolute count number }
{
    match number {
        Some(number) if number < count as u64 => Some(number as usize + 1),
        _ => None,
    }
}

fn relative(count: usize, number: Option<u64>) -> Option<usize>
    ensures { result ≡ relative count number }
{
    match number {
        Some(number) if number < count as u64 => Some(count - number as usize),
        _ => None,
    }
}

/// The text of the error that there is no such level. It has no number.
pub fn bad_level(alloc: Global, word: &str) -> Result<Text, AllocError>
    ensures { IfOk result (λ text. text ≡ bad_level word.now) }
{
    about(alloc, "bad level ", word)
}

fn runs_at(
    alloc: Global,
    word: &str,
    words: &[Text],
    count: Option<usize>,
) -> Result<Plan, AllocError>
    ensures { IfOk result (λ plan. plan ≡ runs_at word.now words.now count) }
{
    match count {
        Some(count) => match concatenated(alloc, words)? {
            Ok(script) => Ok(Plan::RunsAt(count, Source::of_text(script))),
            Err(text) => Ok(fails(text)),
        },
        None => Ok(fails(bad_level(alloc, word)?)),
    }
}

/// One level up.
fn runs_up(alloc: Global, count: usize, words: &[Text]) -> Result<Plan, AllocError>
    ensures { IfOk result (λ plan. plan ≡ runs_up count words.now) }
{
    runs_at(alloc, "1", words, relative(count, Some(1)))
}

/// `uplevel` at so many levels (uplevel(n)).
fn uplevel_plan(alloc: Global, count: usize, words: &[Text]) -> Result<Plan, AllocError>
    ensures { IfOk result (λ plan. plan ≡ uplevel_plan count words.now) }
{
    let [first, rest @ ..] = words else {
        return misused(alloc, Usage::Uplevel);
    };
    if !is_level(first.as_str().as_bytes()) {
        return runs_up(alloc, count, words);
    }
    if rest.is_empty() {
        return misused(alloc, Usage::Uplevel);
    }
    let left = levels_left(alloc, count, first)?;
    runs_at(alloc, first.as_str(), rest, left)
}

/// `info level` at so many levels (info(n)).
#[tactic(auto, unfolding(tcl_text::specs::Messages::bounded))]
fn level_plan(alloc: Global, count: usize, words: &[Text]) -> Result<Plan, AllocError>
    ensures { IfOk result (λ plan. plan ≡ level_plan count words.now) }
{
    match words {
        [] => {
            let number = if count == 0 { 0 } else { count - 1 };
            let digits = format!(in alloc; "{number}")?;
            Ok(Plan::Ends(Code::Normal, Text::of_message(alloc, digits.as_str())?))
        }
        _ => misused(alloc, Usage::InfoLevel),
    }
}

/// `info` at so many levels (info(n)).
pub fn info_plan(
    alloc: Global,
    scopes: &Scopes,
    count: usize,
    frame: usize,
    words: &[Text],
) -> Result<Plan, AllocError>
    requires { frame < length scopes.now }
    ensures { IfOk result (λ plan. plan ≡ info_plan count frame scopes.now words.now) }
{
    let [option, rest @ ..] = words else {
        return misused(alloc, Usage::Info);
    };
    if option.as_str() == "level" {
        level_plan(alloc, count, rest)
    } else if option.as_str() == "exists" {
        Ok(plan_of(info_exists(alloc, scopes, frame, rest)?))
    } else {
        bad_option_plan(alloc, option)
    }
}

/// How a command that only reads and writes variables ends.
#[derive(Drop)]
pub struct End {
    pub code: Code,
    /// Its result, or the error's text.
    pub text: Text,
}

pub fn error_end(text: Text) -> End
    ensures { result ≡ record { code = Code.Error; text = text } }
{
    End {
        code: Code::Error,
        text,
    }
}

/// A command on texts or lists.
fn texts_plan(alloc: Global, command: TextCommand, words: &[Text]) -> Result<Plan, AllocError>
    ensures { IfOk result (λ plan. plan ≡ texts_plan (command_answer command words.now)) }
{
    Ok(plan_of(command.answer(alloc, words)?))
}

/// A command ends that answers this.
fn plan_of(answer: Result<Text, Text>) -> Plan
    ensures { result ≡ texts_plan answer }
{
    match answer {
        Ok(text) => Plan::Ends(Code::Normal, text),
        Err(text) => fails(text),
    }
}

/// Calls a command of this crate with these words behind its name.
fn builtin_call(
    alloc: Global,
    builtin: Builtin,
    scopes: &mut Scopes,
    context: &mut Context,
    words: &[Text],
) -> Result<Call, AllocError>
    ensures { IfOk result (λ call. record { store = scopes.new; context = context.new; call = call } ≡ builtin_call builtin words.now scopes.old context.old) }
{
    match builtin {
        Builtin::Break => Ok(Call::Plans(break_plan(alloc, words)?)),
        Builtin::Catch => Ok(Call::Plans(catch_plan(alloc, words)?)),
        Builtin::Continue => Ok(Call::Plans(continue_plan(alloc, words)?)),
        Builtin::Error => Ok(Call::Plans(error_plan(alloc, words)?)),
        Builtin::Eval => Ok(Call::Plans(eval_plan(alloc, words)?)),
        Builtin::Expr => Ok(Call::Plans(expr_plan(alloc, &mut context.commands, words)?)),
        Builtin::For => Ok(Call::Plans(for_plan(alloc, &mut context.commands, words)?)),
        Builtin::Foreach => Ok(Call::Plans(foreach_plan(alloc, &mut context.commands, words)?)),
        Builtin::If => Ok(Call::Plans(if_plan(alloc, words)?)),
        Builtin::Info => {
            let frame = context.levels.here(scopes);
            let count = context.levels.count();
            Ok(Call::Plans(info_plan(alloc, scopes, count, frame, words)?))
        }
        Builtin::Proc => Ok(Call::Plans(proc_plan(alloc, context, words)?)),
        Builtin::Rename => Ok(Call::Plans(rename_plan(alloc, context, words)?)),
        Builtin::Return => Ok(Call::Plans(return_plan(alloc, words)?)),
        Builtin::Switch => Ok(Call::Plans(switch_plan(alloc, words)?)),
        Builtin::Uplevel => {
            let count = context.levels.count();
            Ok(Call::Plans(uplevel_plan(alloc, count, words)?))
        }
        Builtin::Upvar => {
            let End { code, text } = upvar_end(alloc, scopes, &context.levels, words)?;
            Ok(Call::Plans(Plan::Ends(code, text)))
        }
        Builtin::Variable(command) => {
            let End { code, text } = variable_end(alloc, scopes, &context.levels, command, words)?;
            Ok(Call::Plans(Plan::Ends(code, text)))
        }
        Builtin::While => Ok(Call::Plans(while_plan(alloc, &mut context.commands, words)?)),
    }
}

/// Calls a command of this name, perhaps with a leading `::`, with these words behind it (Tcl(n)). What it does with variables, levels and
/// commands is done; the scripts and expressions that it runs are left to its plan. A script's error is a plan that ends with code 1 and
/// its text.
pub fn call_command(
    alloc: Global,
    scopes: &mut Scopes,
    context: &mut Context,
    name: &Text,
    words: &[Text],
) -> Result<Call, AllocError>
    ensures { IfOk result (λ call. record { store = scopes.new; context = context.new; call = call } ≡ call_of name.now words.now scopes.old context.old) }
{
    let plain = plain_name(name.as_str());
    if is_dotted(plain) {
        return Ok(Call::Outside(Text::of_short(alloc, plain)?));
    }
    match context.commands.get(plain) {
        Some(Command::Builtin(builtin)) => builtin_call(alloc, *builtin, scopes, context, words),
        Some(Command::Texts(command)) => Ok(Call::Plans(texts_plan(alloc, *command, words)?)),
        Some(Command::Procedure(procedure)) => {
            let plan = call_procedure(alloc, scopes, &mut context.levels, name, procedure, words)?;
            Ok(Call::Plans(plan))
        }
        Some(Command::Outside(first)) => Ok(Call::Outside(first.copy()?)),
        None => Ok(Call::Unknown),
    }
}

fn code_number(code: Code) -> &'static str
    ensures number { result.now ≡ code_number code }
    ensures short { length result.now ≤ most_bytes }
{
    match code {
        Code::Normal => "0",
        Code::Error => "1",
        Code::Return(_) => "2",
        Code::Break => "3",
        Code::Continue => "4",
    }
}

/// The result of a script whose code is answered is put into a variable.
fn caught_into(
    alloc: Global,
    scopes: &mut Scopes,
    frame: usize,
    name: &Text,
    number: Text,
    text: Text,
) -> Result<End, AllocError>
    requires { frame < length scopes.old }
    ensures { IfOk result (λ end. record { store = scopes.new; code = end.code; text = end.text }
        ≡ stored_ending number name.now scopes.old (with_variable scopes.old frame name.now text)) }
{
    match scopes.set(frame, name, text) {
        Ok(()) => Ok(End {
            code: Code::Normal,
            text: number,
        }),
        Err(SetFault::NoMemory) => Err(AllocError),
        Err(fault) => Ok(error_end(fault.text(alloc, name.as_str())?)),
    }
}

/// How `catch` ends, by how its script did: it answers the code, 0 to 4, and puts the result into the variable of a name, in the frame at a
/// level (catch(n)). Where that can't be set, it is that error (17 to 19).
pub fn caught(
    alloc: Global,
    scopes: &mut Scopes,
    frame: usize,
    name: Option<Text>,
    code: Code,
    text: Text,
) -> Result<End, AllocError>
    requires { frame < length scopes.old }
    ensures { IfOk result (λ end. record { store = scopes.new; code = end.code; text = end.text } ≡ caught_ending frame name code text scopes.old) }
{
    let number = Text::of_short(alloc, code_number(code))?;
    match name {
        None => Ok(End {
            code: Code::Normal,
            text: number,
        }),
        Some(name) => caught_into(alloc, scopes, frame, &name, number, text),
    }
}
