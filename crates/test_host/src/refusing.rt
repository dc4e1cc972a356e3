//! The questions of `refusing`: hosts that an application breaks whose alias has no memory to reply.
//!
//! The first line is the most steps of a turn, the second the script of an application `a`, for which the program serves `refuse`: it replies
//! `NoMemory` whenever it is called. Behind it stand the calls of the host, as in `calls.rt`. It is answered `=` and what they tell, each on a
//! line: `!memory` where the alias had no memory, and from then on what the broken host tells.
//!
//! With `each` and a blank before the steps `refuse` is served by a closure: it replies `NoMemory` where its first argument is a number, and else the
//! empty text. That number is counted up from 1, until a run meets no refusal; the script counts the calls (`refuse [incr n]`). It is answered `=` and
//! how many runs met one, if each of them told the same up to its refusal as the last, and behind it what a broken host tells; else what a run told.
ghost use Rattle.std.specs.Prelude.{◌≢◌, ℕ, List, Ok};
ghost use Rattle.tk_alias.specs.Replies.{IsReply};
ghost use Rattle.tk_alias.specs.declared.reply.AliasReply.{AliasReply as Reply};
ghost use Rattle.tk_host.specs.declared.phase.Phase.TheVariants.{Adding};

use crate::calls::{BREAKS, host_of, late, tells_broken};
use anyhow::{Result, bail};
use asking::words_of;
use std::alloc::Global;
use tcl_text::Text;
use tk_host::{
    Alias, AliasCode, AliasMeaning, AliasReply, AliasService, Aliases, Budget, Host, HostFault,
    NoAlias, Rect,
};

const SIZE: Rect = Rect {
    x: 0,
    y: 0,
    width: 100,
    height: 50,
};

const BUDGET: Budget = Budget {
    total: 1_000,
    refill: 0,
};

/// More calls than any script of a table makes.
const MOST_CALLS: u32 = 1_000;

/// What the alias is set up with: the text that it answers.
#[derive(Drop)]
struct Answering {
    text: Text,
}

impl AliasMeaning for Answering {
    ghost use Rattle.std.specs.Prelude.{Ok};

    ghost answer = { λ answering args. Ok answering.text };
}

/// Replies to the call of this number that there is no memory, and to any other a text.
fn reply(args: &[Text], number: &str, text: &Text) -> AliasReply
    ensures { IsReply (Ok text.now) result }
{
    match args {
        [call, ..] if call.as_str() == number => AliasReply::NoMemory,
        _ => match text.copy() {
            Ok(text) => AliasReply::Ok(text),
            Err(_) => AliasReply::NoMemory,
        },
    }
}

fn add<A: AliasService>(
    alloc: Global,
    host: &mut Host<A>,
    script: &str,
    alias: Alias<A>,
) -> Result<()> {
    let mut aliases = Aliases::new(alloc);
    aliases.push(alias)?;
    let (name, script) = (Text::new(alloc, "a")?, Text::new(alloc, script)?);
    host.add_app(name, SIZE, script, BUDGET, aliases)?;
    Ok(())
}

/// What the calls of a host that was started tell.
fn all_told<A: AliasService>(
    alloc: Global,
    host: &mut Host<A>,
    calls: &[&str],
    told: &mut String,
) -> Result<()>
    requires { host.old.held.phase ≢ Adding }
{
    for call in calls.iter() {
        told.push_str(late(alloc, host, call)?.as_str())?;
        told.push_str("\n")?;
    }
    Ok(())
}

/// What the calls of a host tell whose application has this alias.
fn told_with<A: AliasService>(alloc: Global, lines: &[&str], alias: Alias<A>) -> Result<String> {
    let [slice, script, calls @ ..] = lines else {
        bail!("no script");
    };
    let mut host = host_of(alloc, slice)?;
    add(alloc, &mut host, script, alias)?;
    let mut told = String::new(alloc);
    match host.start() {
        Ok(()) => {}
        Err(HostFault::NoMemory) => told.push_str(BREAKS)?,
        Err(_) => bail!("the start was refused"),
    }
    told.push_str("\n")?;
    all_told(alloc, &mut host, calls, &mut told)?;
    Ok(told)
}

/// What they tell where the alias is served by this closure.
fn told_by<F: AliasCode>(
    alloc: Global,
    lines: &[&str],
    answering: Answering,
    code: F,
) -> Result<String>
    requires callable { F.may_call code }
    requires replies { (args : List (List ℕ)) (reply : Reply) → F.may_reply code args reply → IsReply (Ok answering.text) reply }
{
    let alias = Alias::new(Text::new(alloc, "refuse")?, answering, code);
    told_with(alloc, lines, alias)
}

/// What they tell where the alias has no memory at its call of this number.
fn told_at(alloc: Global, lines: &[&str], number: u32) -> Result<String> {
    let number = format!(in alloc; "{number}")?;
    let text = Text::new(alloc, "")?;
    let kept = text.copy()?;
    told_by(
        alloc,
        lines,
        Answering { text },
        move |args: &[Text]| reply(args, number.as_str(), &kept),
    )
}

/// Whether a run told this that was refused memory: what another told up to the refusal, and behind it what a broken host tells.
fn is_cut(told: &str, whole: &str) -> bool {
    let Some((before, behind)) = told.split_once(BREAKS) else {
        return false;
    };
    for line in behind.lines().skip(1) {
        if !tells_broken(line) {
            return false;
        }
    }
    whole.starts_with(before)
}

/// How many calls of the alias there are of which each is refused memory in a run of its own.
fn each_told(alloc: Global, lines: &[&str]) -> Result<String> {
    let whole = told_at(alloc, lines, 0)?;
    for met in 0..MOST_CALLS {
        let told = told_at(alloc, lines, met + 1)?;
        if told.as_str() == whole.as_str() {
            return Ok(format!(in alloc; "={met}")?);
        }
        if !is_cut(told.as_str(), whole.as_str()) {
            return Ok(told);
        }
    }
    bail!("no end")
}

/// What a question is answered.
pub fn answer(alloc: Global, question: &str) -> Result<String> {
    if let Some(question) = question.strip_prefix("each ") {
        return each_told(alloc, words_of(alloc, question, '\n')?.as_slice());
    }
    let lines = words_of(alloc, question, '\n')?;
    let alias = Alias::of(Text::new(alloc, "refuse")?, NoAlias);
    let told = told_with(alloc, lines.as_slice(), alias)?;
    Ok(format!(in alloc; "={told}")?)
}
