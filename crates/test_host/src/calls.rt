//! The questions of `calls`: what the calls of a host tell.
//!
//! A question is a host and the calls that it gets, each on a line of its own. The first line is the most steps of a turn. Then come `app NAME X Y W H
//! TOTAL REFILL SCRIPT`, and `start`, which has to succeed; behind it `line MOMENT LINE` (`lines.rt`), `advance MOMENT` and `end MOMENT`.
//! `section SLOT`, `turns`, `app` and what looks at an application (`looks.rt`) may stand anywhere, and `start` again behind the first. It is answered `=` and what the calls tell, each on a line:
//! nothing where one succeeds that tells nothing, `!NUMBER` where one is refused, and of `turns` each as SLOT:STEPS.
//!
//! Where memory is refused to a call that leaves the host as it was, it is made once more. Where it is refused to one that breaks the host, each call
//! behind it but `turns` has to be refused with 42, or to tell `none`, which no table can ask; the question then fails.
ghost use Rattle.std.specs.Prelude.{◌≡◌, ◌≢◌, OnOk};
ghost use Rattle.tk_host.specs.declared.phase.Phase.TheVariants.{Adding};

use crate::lines::{line_of, rect_of};
use crate::looks::{NONE, look};
use anyhow::{Result, bail};
use asking::{first_word, number, words_of};
use std::alloc::Global;
use std::str;
use tcl_text::Text;
use tk_host::{AliasService, Aliases, Budget, Host, HostFault, NoAlias, Turn};

fn fault_told(alloc: Global, fault: HostFault) -> Result<String> {
    match fault.number() {
        Some(number) => Ok(format!(in alloc; "!{number}")?),
        None => bail!("memory was refused"),
    }
}

/// How it is told that memory was refused to a call that runs applications.
pub(crate) const BREAKS: &str = "!memory";

/// What a call that runs applications is told as.
fn told(alloc: Global, answer: Result<(), HostFault>) -> Result<String> {
    match answer {
        Ok(()) => Ok(String::new(alloc)),
        Err(HostFault::NoMemory) => Ok(String::from_str(alloc, BREAKS)?),
        Err(fault) => fault_told(alloc, fault),
    }
}

fn section<A: AliasService>(alloc: Global, host: &Host<A>, slot: &str) -> Result<String> {
    match host.section(number(slot)?) {
        Ok(bytes) => Ok(String::from_str(alloc, str::from_utf8(bytes.as_slice())?)?),
        Err(fault) => fault_told(alloc, fault),
    }
}

fn turns_told(alloc: Global, turns: &[Turn]) -> Result<String> {
    let mut told = String::from_str(alloc, "turns")?;
    for turn in turns {
        let one = format!(in alloc; " {}:{}", turn.slot, turn.steps)?;
        told.push_str(one.as_str())?;
    }
    Ok(told)
}

fn budget_of(total: &str, refill: &str) -> Result<Budget> {
    Ok(Budget {
        total: number(total)?,
        refill: number(refill)?,
    })
}

fn app<A: AliasService>(alloc: Global, host: &mut Host<A>, words: &str) -> Result<String>
    ensures { host.new.held.phase ≡ host.old.held.phase }
{
    let parts = words_of(alloc, words, ' ')?;
    let [name, x, y, width, height, total, refill, script @ ..] = parts.as_slice() else {
        bail!("an application that lacks a word");
    };
    let (rect, budget) = (rect_of(x, y, width, height)?, budget_of(total, refill)?);
    let script = Text::new(alloc, script.join(alloc, " ")?.as_str())?;
    match host.add_app(
        Text::new(alloc, name)?,
        rect,
        script,
        budget,
        Aliases::new(alloc),
    ) {
        Ok(_slot) => Ok(String::new(alloc)),
        Err(fault) => fault_told(alloc, fault),
    }
}

/// A call that may come before `start`, once.
fn early_once<A: AliasService>(alloc: Global, host: &mut Host<A>, call: &str) -> Result<String>
    ensures { host.new.held.phase ≡ host.old.held.phase }
{
    let (what, words) = first_word(call);
    match what {
        "app" => app(alloc, host, words),
        "section" => section(alloc, host, words),
        "turns" => turns_told(alloc, host.turns()),
        _ => look(alloc, host, what, words),
    }
}

/// A call that may come before `start`, and once more where it was refused memory, which changes nothing.
fn early<A: AliasService>(alloc: Global, host: &mut Host<A>, call: &str) -> Result<String>
    ensures { host.new.held.phase ≡ host.old.held.phase }
{
    if let Ok(told) = early_once(alloc, host, call) {
        return Ok(told);
    }
    early_once(alloc, host, call)
}

fn line<A: AliasService>(alloc: Global, host: &mut Host<A>, words: &str) -> Result<String>
    requires { host.old.held.phase ≢ Adding }
    ensures { OnOk result (host.new.held.phase ≢ Adding) }
{
    let (moment, words) = first_word(words);
    let line = line_of(words_of(alloc, words, ' ')?.as_slice())?;
    told(alloc, host.line(number(moment)?, line))
}

/// A call of a host that was started.
pub(crate) fn late<A: AliasService>(alloc: Global, host: &mut Host<A>, call: &str) -> Result<String>
    requires { host.old.held.phase ≢ Adding }
    ensures { OnOk result (host.new.held.phase ≢ Adding) }
{
    let (what, words) = first_word(call);
    match what {
        "start" => told(alloc, host.start()),
        "advance" => told(alloc, host.advance_to(number(words)?)),
        "end" => told(alloc, host.end(number(words)?)),
        "line" => line(alloc, host, words),
        _ => early(alloc, host, call),
    }
}

/// Whether a host tells this that was refused memory: 42 of a call that is refused, nothing of one that looks at an application, and any turns.
pub(crate) fn tells_broken(told: &str) -> bool {
    told == "!42" || told == NONE || told.starts_with("turns")
}

/// What the calls of a host tell that was refused memory: an error where each tells that, or else the first that doesn't.
fn broken(alloc: Global, host: &mut Host<NoAlias>, calls: &[&str]) -> Result<String>
    requires { host.old.held.phase ≢ Adding }
{
    for call in calls.iter() {
        let told = late(alloc, host, call)?;
        if !tells_broken(told.as_str()) {
            return Ok(format!(in alloc;
                "a host that was refused memory answers {call} with {told}"
            )?);
        }
    }
    bail!("memory was refused")
}

/// Makes the calls of a host that was started, and adds what they tell.
fn go_on(alloc: Global, host: &mut Host<NoAlias>, calls: &[&str], all: &mut String) -> Result<()>
    requires { host.old.held.phase ≢ Adding }
{
    for (place, call) in calls.iter().enumerate() {
        let told = late(alloc, host, call)?;
        if told.as_str() == BREAKS {
            all.push_str(broken(alloc, host, &calls[place + 1..])?.as_str())?;
            return Ok(());
        }
        all.push_str(told.as_str())?;
        all.push_str("\n")?;
    }
    Ok(())
}

/// Starts the host, and adds what this and the calls behind it tell.
fn run(alloc: Global, host: &mut Host<NoAlias>, calls: &[&str], all: &mut String) -> Result<()> {
    let Some((_start, calls)) = calls.split_first() else {
        bail!("no start");
    };
    match host.start() {
        Ok(()) => {
            all.push_str("\n")?;
            go_on(alloc, host, calls, all)
        }
        Err(HostFault::NoMemory) => {
            all.push_str(broken(alloc, host, calls)?.as_str())?;
            Ok(())
        }
        Err(_) => bail!("the start was refused"),
    }
}

/// A host that takes so many steps in a turn.
pub(crate) fn host_of<A: AliasService>(alloc: Global, slice: &str) -> Result<Host<A>> {
    let slice: u64 = number(slice)?;
    if slice == 0 {
        bail!("a turn of no step");
    }
    Ok(Host::new(alloc, slice)?)
}

/// What the calls tell, in two parts: those before `start`, and the others.
fn all_told(alloc: Global, host: &mut Host<NoAlias>, calls: &[&str]) -> Result<String> {
    let mut told = String::from_str(alloc, "=")?;
    for (place, call) in calls.iter().enumerate() {
        if *call == "start" {
            run(alloc, host, &calls[place..], &mut told)?;
            return Ok(told);
        }
        told.push_str(early(alloc, host, call)?.as_str())?;
        told.push_str("\n")?;
    }
    Ok(told)
}

/// What a question is answered.
pub fn answer(alloc: Global, question: &str) -> Result<String> {
    let calls = words_of(alloc, question, '\n')?;
    let [slice, calls @ ..] = calls.as_slice() else {
        bail!("no calls");
    };
    let mut host: Host<NoAlias> = host_of(alloc, slice)?;
    all_told(alloc, &mut host, calls)
}
