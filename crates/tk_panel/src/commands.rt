//! The commands `puts`, `clock` and `after`, by the words behind their names.
ghost use Rattle.std.specs.Prelude.{◌≡◌, IfOk, codes};
ghost use Rattle.tcl_text.specs.Answers.{wrong_args as wrong_args_of};
ghost use Rattle.tk_panel.specs.Commands.{after_told, clock_words, milliseconds, put_to, puts_words, written};
ghost use Rattle.tk_panel.specs.Shared.{LeavesOthers, panel_of};

use crate::report::write;
use crate::tables::Tables;
use crate::transcript::Stream;
use itoa::Buffer;
use std::alloc::{AllocError, Global};
use tcl_text::Text;
use tcl_text::answers::{answered, bad_option, wrong_args};
use tcl_text::message::{Answer, short_text};

/// Writes a line, and answers the empty text.
fn write_out(tables: &mut Tables, slot: usize, text: &Text) -> Result<Answer, AllocError>
    ensures own { IfOk result (λ answer. (panel_of slot tables.new, answer) ≡ written text.now (panel_of slot tables.old)) }
    ensures others { LeavesOthers slot tables.old tables.new }
{
    let line = text.copy()?;
    write(tables, slot, Stream::Out, line)?;
    Ok(Ok(Text::empty()))
}

/// Writes a line to a channel: to `stdout` alone.
fn put_to(
    tables: &mut Tables,
    slot: usize,
    channel: &Text,
    text: &Text,
) -> Result<Answer, AllocError>
    ensures own { IfOk result (λ answer. (panel_of slot tables.new, answer) ≡ put_to channel.now text.now (panel_of slot tables.old)) }
    ensures others { LeavesOthers slot tables.old tables.new }
{
    if channel.as_str() == "stdout" {
        return write_out(tables, slot, text);
    }
    let answer = answered(bad_option(tables.alloc, channel))?;
    Ok(answer)
}

/// The error for a wrong number of words.
fn misused(alloc: Global, usage: &str) -> Result<Answer, AllocError>
    ensures { IfOk result (λ answer. answer ≡ wrong_args_of usage.now) }
{
    answered(wrong_args(alloc, usage))
}

/// The command `puts` (puts(n)): one line of the transcript, at the moment.
#[tactic(auto, unfolding(crate::specs::Commands::puts_words))]
pub fn puts_command(tables: &mut Tables, slot: usize, words: &[Text]) -> Result<Answer, AllocError>
    ensures own { IfOk result (λ answer. (panel_of slot tables.new, answer) ≡ puts_words words.now (panel_of slot tables.old)) }
    ensures others { LeavesOthers slot tables.old tables.new }
{
    match words {
        [text] => write_out(tables, slot, text),
        [channel, text] => put_to(tables, slot, channel, text),
        [] => {
            let answer = misused(tables.alloc, "puts ?stdout? text")?;
            Ok(answer)
        }
        [_, _, _, ..] => {
            let answer = misused(tables.alloc, "puts ?stdout? text")?;
            Ok(answer)
        }
    }
}

/// `clock milliseconds`, with the words behind both.
fn milliseconds(alloc: Global, moment: u64, words: &[Text]) -> Result<Answer, AllocError>
    ensures { IfOk result (λ answer. answer ≡ milliseconds words.now moment) }
{
    match words {
        [] => {
            let mut buffer = Buffer::new();
            Ok(Ok(short_text(alloc, buffer.format(moment))?))
        }
        [_, ..] => misused(alloc, "clock milliseconds"),
    }
}

/// The command `clock` at a moment, in milliseconds (clock(n)): `clock milliseconds` answers it.
#[tactic(auto, unfolding(crate::specs::Commands::clock_words))]
pub fn clock_command(alloc: Global, moment: u64, words: &[Text]) -> Result<Answer, AllocError>
    ensures { IfOk result (λ answer. answer ≡ clock_words words.now moment) }
{
    let Some((option, words)) = words.split_first() else {
        return misused(alloc, "clock option ?arg ..?");
    };
    match option.as_str() {
        "milliseconds" => milliseconds(alloc, moment, words),
        _ => answered(bad_option(alloc, option)),
    }
}

/// The command `after` (after(n)) at the moment.
pub fn after_command(tables: &mut Tables, slot: usize, words: &[Text]) -> Result<Answer, AllocError>
    ensures own { IfOk result (λ answer. (panel_of slot tables.new, answer) ≡ after_told words.now (panel_of slot tables.old)) }
    ensures others { LeavesOthers slot tables.old tables.new }
{
    let moment = tables.clock.moment();
    tk_after::after_command(tables.alloc, &mut tables.timers, slot, moment, words)
}
