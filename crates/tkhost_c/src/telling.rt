//! What is told of a host, into buffers.
ghost use Rattle.std.specs.Prelude.{◌≡◌, ◌≤◌, ◌++◌, Result, None, drop, length, map};
ghost use Rattle.tkhost_c.specs.declared.refusal.Refusal.{Refusal as RefusalOf};
ghost use Rattle.tkhost_c.specs.Calls.{On, TellsAsker, TellsSection, TellsTurns, Told, turn_of};
ghost use Rattle.tkhost_c.specs.Numbers.{number_for, words_of};

use crate::kept::Kept;
use crate::place::Place;
use crate::refusal::{Refusal, number_for, words_of};
use crate::taking::{put, take};
use std::alloc::Global;
use tk_host::{LineFault, Turn};

/// A turn of an application: whose it was, and how many steps it took.
#[repr(C)]
#[derive(Clone, Copy, Debug, PartialEq, Eq)]
pub struct HostTurn {
    pub slot: usize,
    pub steps: u64,
}

/// Tells a text into a buffer.
pub(crate) fn tell(text: &[u8], buffer: &mut [u8], told: &mut usize) -> Result<(), Refusal>
    ensures { Told text.now buffer.old buffer.new told.new result }
{
    *told = text.len();
    if buffer.len() < text.len() {
        return Err(Refusal::TooSmall);
    }
    buffer[..text.len()].copy_from_slice(text);
    Ok(())
}

/// Tells the section of the application in a slot.
fn tell_section(
    kept: &Kept,
    slot: usize,
    buffer: &mut [u8],
    told: &mut usize,
) -> Result<(), Refusal>
    ensures { TellsSection slot buffer.old buffer.new told.old told.new kept.now kept.now result }
{
    match kept.host.section(slot) {
        Ok(section) => tell(section.as_slice(), buffer, told),
        Err(fault) => Err(Refusal::from(fault)),
    }
}

/// Puts turns in front of a buffer that has room for them.
fn copy_turns(taken: &[Turn], turns: &mut [HostTurn])
    requires { length taken.now ≤ length turns.old }
    ensures { turns.new ≡ map turn_of taken.now ++ drop (length taken.now) turns.old }
{
    for (place, turn) in taken.iter().enumerate() {
        turns[place] = HostTurn {
            slot: turn.slot,
            steps: turn.steps,
        };
    }
}

/// Tells the turns of the last call that ran applications.
fn tell_turns(kept: &Kept, turns: &mut [HostTurn], told: &mut usize) -> Result<(), Refusal>
    ensures { TellsTurns turns.old turns.new told.new kept.now kept.now result }
{
    let taken = kept.host.turns();
    *told = taken.len();
    if turns.len() < taken.len() {
        return Err(Refusal::TooSmall);
    }
    copy_turns(taken, turns);
    Ok(())
}

/// Tells the slot of the application that asked for the memory that was refused.
fn tell_asker(kept: &Kept, slot: &mut usize) -> Result<(), Refusal>
    ensures { TellsAsker slot.old slot.new kept.now kept.now result }
{
    match kept.host.asker() {
        Some(asker) => {
            *slot = asker;
            Ok(())
        }
        None => Err(Refusal::Fault(LineFault::NoApp)),
    }
}

/// Tells the section of the application in a slot into a buffer.
#[unsafe(no_mangle)]
pub extern "C" fn tkhost_section(
    alloc: Global,
    host: &mut Place,
    slot: usize,
    buffer: &mut [u8],
    told: &mut usize,
) -> u32
    ensures section { On host.old.kept host.new.kept result (TellsSection slot buffer.old buffer.new told.old told.new) }
    ensures none { host.old.kept ≡ None → (buffer.new ≡ buffer.old) × (told.new ≡ told.old) }
{
    match take(host, alloc) {
        Some(kept) => {
            let answer = tell_section(&kept, slot, buffer, told);
            put(host, kept);
            number_for(answer)
        }
        None => number_for(Err(Refusal::NoHost)),
    }
}

/// Tells the turns of the last call that ran applications.
#[unsafe(no_mangle)]
pub extern "C" fn tkhost_turns(
    alloc: Global,
    host: &mut Place,
    turns: &mut [HostTurn],
    told: &mut usize,
) -> u32
    ensures turns { On host.old.kept host.new.kept result (TellsTurns turns.old turns.new told.new) }
    ensures none { host.old.kept ≡ None → (turns.new ≡ turns.old) × (told.new ≡ told.old) }
{
    match take(host, alloc) {
        Some(kept) => {
            let answer = tell_turns(&kept, turns, told);
            put(host, kept);
            number_for(answer)
        }
        None => number_for(Err(Refusal::NoHost)),
    }
}

/// Tells the slot of the application that asked for the memory that was refused.
#[unsafe(no_mangle)]
pub extern "C" fn tkhost_asker(alloc: Global, host: &mut Place, slot: &mut usize) -> u32
    ensures asker { On host.old.kept host.new.kept result (TellsAsker slot.old slot.new) }
    ensures none { host.old.kept ≡ None → slot.new ≡ slot.old }
{
    match take(host, alloc) {
        Some(kept) => {
            let answer = tell_asker(&kept, slot);
            put(host, kept);
            number_for(answer)
        }
        None => number_for(Err(Refusal::NoHost)),
    }
}

/// Tells what a number says, in words.
#[unsafe(no_mangle)]
pub extern "C" fn tkhost_text(number: u32, buffer: &mut [u8], told: &mut usize) -> u32
    ensures { (answer : Result (Unit {0}) RefusalOf) × (result ≡ number_for answer) × Told (words_of number) buffer.old buffer.new told.new answer }
{
    number_for(tell(words_of(number), buffer, told))
}
