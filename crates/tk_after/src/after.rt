//! The command `after`, on the list of one application.
ghost use Rattle.std.specs.Prelude.{◌≡◌, ◌+◌, ◌<◌, ◌≤◌, IfOk, OnOk, OnErr, Ok, Err, [], ◌∷◌, map};
ghost use Rattle.tcl_text.specs.Answers.{answers};
ghost use Rattle.tcl_text.specs.Readings.{integer_of, list_form};
ghost use Rattle.tcl_text.specs.StringCommands.{concat_words};
ghost use Rattle.tk_after.specs.Timers.{ids};
ghost use Rattle.tk_after.specs.Shared.{own_of, entries_of, LeavesOthers};
ghost use Rattle.tk_after.specs.After.{after_words, add_words, add_script, cancel_words, info_words, kind_told, name_of, delay_of, delay_words};
ghost use Rattle.tk_base.specs.Limits.{last_moment};

use crate::answers::{name_of, no_event};
use crate::timers::Timers;
use crate::waiting::WaitingScript;
use std::alloc::{AllocError, Global};
use tcl_text::answers::{answered, bad_option, wrong_args};
use tcl_text::message::{Answer, limit, short_text};
use tcl_text::{Text, TextCommand, TextFault};
use tk_base::MAX_MOMENT;

const DELAY_USAGE: &str = "after ms script ?script ..?";

const IDLE_USAGE: &str = "after idle script ?script ..?";

const CANCEL_USAGE: &str = "after cancel id|script ?script ..?";

const INFO_USAGE: &str = "after info ?id?";

/// The command `after` (after(n)), which an application calls at a moment, in milliseconds: with a delay in milliseconds and a script,
/// `idle`, `cancel` or `info`. A delay below 0 counts as 0, and one past 10^12 as that. `words` are those after the command's name. The
/// answer is the command's result, or the text of its error: 4 where the words joined, or the result, pass 65,536 bytes; other errors have
/// no number.
#[tactic(auto, unfolding(crate::specs::After::after_words))]
pub fn after_command(
    alloc: Global,
    timers: &mut Timers,
    owner: usize,
    moment: u64,
    words: &[Text],
) -> Result<Result<Text, Text>, AllocError>
    requires { moment ≤ last_moment }
    ensures answer { IfOk result (λ answer.
        answer ≡ (after_words moment words.now (own_of owner timers.old)).1) }
    ensures own { OnOk result (own_of owner timers.new
        ≡ (after_words moment words.now (own_of owner timers.old)).0) }
    ensures others { LeavesOthers owner timers.old timers.new }
    ensures err { OnErr result (timers.new ≡ timers.old) }
{
    let Some((first, words)) = words.split_first() else {
        return answered(wrong_args(alloc, DELAY_USAGE));
    };
    match first.as_str() {
        "cancel" => cancel(alloc, timers, owner, words),
        "info" => info(alloc, timers, owner, words),
        "idle" => add(alloc, timers, owner, None, IDLE_USAGE, words),
        _ => add_delayed(alloc, timers, owner, moment, first, words),
    }
}

/// Lists the scripts joined as a timer that is due so many milliseconds from a moment.
fn add_delayed(
    alloc: Global,
    timers: &mut Timers,
    owner: usize,
    moment: u64,
    delay: &Text,
    scripts: &[Text],
) -> Result<Answer, AllocError>
    requires { moment ≤ last_moment }
    ensures answer { IfOk result (λ answer.
        answer ≡ (delay_words moment delay.now (integer_of delay.now) scripts.now (own_of owner timers.old)).1) }
    ensures own { OnOk result (own_of owner timers.new
        ≡ (delay_words moment delay.now (integer_of delay.now) scripts.now (own_of owner timers.old)).0) }
    ensures others { LeavesOthers owner timers.old timers.new }
    ensures err { OnErr result (timers.new ≡ timers.old) }
{
    match delay.integer() {
        Ok(ms) => {
            let due = moment + delay_of(ms);
            add(alloc, timers, owner, Some(due), DELAY_USAGE, scripts)
        }
        Err(_) => answered(bad_option(alloc, delay)),
    }
}

/// How long to wait: not less than no time, and not more than `MAX_MOMENT`.
fn delay_of(ms: i64) -> u64
    ensures value { result ≡ delay_of ms }
    ensures bound { result ≤ last_moment }
{
    u64::try_from(ms).map_or(0, |ms| ms.min(MAX_MOMENT))
}

/// Lists the scripts joined, as a timer or, where no moment is given, as an idle script.
fn add(
    alloc: Global,
    timers: &mut Timers,
    owner: usize,
    due: Option<u64>,
    usage: &str,
    scripts: &[Text],
) -> Result<Answer, AllocError>
    ensures answer { IfOk result (λ answer.
        answer ≡ (add_words due usage.now scripts.now (own_of owner timers.old)).1) }
    ensures own { OnOk result (own_of owner timers.new
        ≡ (add_words due usage.now scripts.now (own_of owner timers.old)).0) }
    ensures others { LeavesOthers owner timers.old timers.new }
    ensures err { OnErr result (timers.new ≡ timers.old) }
{
    if scripts.is_empty() {
        return answered(wrong_args(alloc, usage));
    }
    match joined(alloc, scripts)? {
        Ok(script) => add_joined(alloc, timers, owner, due, script),
        Err(text) => Ok(Err(text)),
    }
}

fn add_joined(
    alloc: Global,
    timers: &mut Timers,
    owner: usize,
    due: Option<u64>,
    script: Text,
) -> Result<Answer, AllocError>
    ensures answer { IfOk result (λ answer.
        answer ≡ (add_script due (Ok script) (own_of owner timers.old)).1) }
    ensures own { OnOk result (own_of owner timers.new
        ≡ (add_script due (Ok script) (own_of owner timers.old)).0) }
    ensures others { LeavesOthers owner timers.old timers.new }
    ensures err { OnErr result (timers.new ≡ timers.old) }
{
    if timers.is_full(owner) {
        return Ok(Err(short_text(alloc, "limit reached: timers")?));
    }
    let name = name_of(alloc, timers.next_number(owner))?;
    timers.insert(owner, due, script)?;
    Ok(Ok(name))
}

/// Takes out what the words joined mean: the entry of that name, or else the first with that script.
fn cancel(
    alloc: Global,
    timers: &mut Timers,
    owner: usize,
    words: &[Text],
) -> Result<Answer, AllocError>
    ensures answer { IfOk result (λ answer.
        answer ≡ (cancel_words words.now (own_of owner timers.old)).1) }
    ensures own { OnOk result (own_of owner timers.new
        ≡ (cancel_words words.now (own_of owner timers.old)).0) }
    ensures others { LeavesOthers owner timers.old timers.new }
    ensures err { OnErr result (timers.new ≡ timers.old) }
{
    if words.is_empty() {
        return answered(wrong_args(alloc, CANCEL_USAGE));
    }
    match joined(alloc, words)? {
        Ok(text) => {
            timers.cancel_meant(owner, text.as_str());
            Ok(Ok(Text::empty()))
        }
        Err(text) => Ok(Err(text)),
    }
}

/// The names of what is listed, or what is listed under a name.
fn info(alloc: Global, timers: &Timers, owner: usize, words: &[Text]) -> Result<Answer, AllocError>
    ensures { IfOk result (λ answer.
        answer ≡ info_words words.now (entries_of owner timers.now)) }
{
    match words {
        [] => list_text(alloc, names(alloc, timers, owner)?.as_slice()),
        [name] => match timers.entry_named(owner, name.as_str()) {
            Some(entry) => entry_info(alloc, entry),
            None => no_event(alloc, name.as_str()),
        },
        _ => answered(wrong_args(alloc, INFO_USAGE)),
    }
}

/// The names of what is listed, in order.
fn names(alloc: Global, timers: &Timers, owner: usize) -> Result<Vec<Text>, AllocError>
    ensures { IfOk result (λ list. list.items ≡ map name_of (ids (entries_of owner timers.now))) }
{
    let mut names = Vec::new(alloc);
    for id in &timers.info(owner)? {
        names.push(name_of(alloc, *id)?)?;
    }
    Ok(names)
}

/// The script and whether it is a timer's or an idle one.
fn entry_info(alloc: Global, entry: &WaitingScript) -> Result<Answer, AllocError>
    ensures { IfOk result (λ answer.
        answer ≡ answers (list_form (entry.now.script ∷ kind_told entry.now.due ∷ []))) }
{
    let kind = match entry.due {
        Some(_) => "timer",
        None => "idle",
    };
    list_text(alloc, &[entry.script.copy()?, short_text(alloc, kind)?])
}

/// The list of the words, or the error of a text that is too long.
#[tactic(auto, unfolding(tcl_text::specs::Answers::answers))]
fn list_text(alloc: Global, words: &[Text]) -> Result<Answer, AllocError>
    ensures { IfOk result (λ answer. answer ≡ answers (list_form words.now)) }
{
    match Text::join_list(alloc, words) {
        Ok(text) => Ok(Ok(text)),
        Err(TextFault::TooLong) => Ok(Err(limit(alloc)?)),
        Err(TextFault::NoMemory) => Err(AllocError),
    }
}

/// The words joined as `concat` joins them, or the error of a text that is too long.
fn joined(alloc: Global, words: &[Text]) -> Result<Answer, AllocError>
    ensures { IfOk result (λ answer. answer ≡ concat_words words.now) }
{
    TextCommand::Concat.answer(alloc, words)
}
