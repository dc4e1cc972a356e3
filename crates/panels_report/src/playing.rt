//! How benches are played, and why one isn't.

ghost use Rattle.std.specs.Prelude.{◌≡◌, ◌≤◌, map, IfOk, IfErr};
ghost use Rattle.tk_alias.specs.Services.{answer_of};
ghost use Rattle.tk_alias.specs.declared.service.Service.{Service as ServiceOf};
ghost use Rattle.tkhost.specs.Play.{services_in};
ghost use Rattle.tkhost.specs.Sections.{program_sections};
ghost use Rattle.panels.specs.Played.{plan_of};
ghost use Rattle.panels.specs.Refusals.{IsRefused};
ghost use Rattle.panels_report.specs.Faults.{IsMemory, IsTold, IsUnservedIn, entry_line, panel_line, words_of};

use panels::{Bench, BenchFault, Played, play};
use panels_bench::{Read, slot_at};
use panels_text::{Failure, fault};
use std::alloc::Global;
use tk_session::{AppBlock, LineFault, WritingFault};

/// Why panels are no session, in words.
fn words_of(fault: LineFault) -> &'static str
    ensures { result.now ≡ words_of fault }
{
    match fault {
        LineFault::Overlap => "its rectangle shares a pixel with that of a panel above",
        LineFault::NameTaken => "its name, or that of one of its aliases, is taken",
        LineFault::TooManyApps => "it is the seventeenth panel: a bench has sixteen at most",
        LineFault::TimeBack => "its moment is before that of a line above",
        LineFault::NoApp => "no panel has this name",
        LineFault::RectOverlap => "the new rectangle shares a pixel with another panel",
        LineFault::BadLine => {
            "a value is none that a session has: a name is a letter and then letters, digits and _, 32 at most; an alias's name is 1 to 64 \
             printing characters and begins neither with . nor with ::; there are 64 aliases at most; a size is 1 or more"
        }
        LineFault::Started | LineFault::Ended | LineFault::Broken => "the host refuses it",
    }
}

/// The line of a bench that says the panel with a line of its session; 0 where none does.
fn panel_line(read: &Read, line: usize) -> usize
    ensures { result ≡ panel_line read.now line }
{
    let slot = slot_at(read.bench.panels.as_slice(), line);
    match read.sides.as_slice().get(slot) {
        Some(side) => side.line,
        None => 0,
    }
}

/// The line of a bench that says an entry; 0 where none does.
fn entry_line(read: &Read, entry: usize) -> usize
    ensures { result ≡ entry_line read.now entry }
{
    match read.lines.as_slice().get(entry) {
        Some(line) => *line,
        None => 0,
    }
}

/// Memory was refused to the panel in a slot, which is named where there is one, and memory for its name.
pub fn unserved(panels: &[AppBlock], slot: usize) -> Failure
    ensures { IsUnservedIn panels.now slot result }
{
    let Some(panel) = panels.get(slot) else {
        return Failure::NoMemory;
    };
    match panel.name.copy() {
        Ok(name) => Failure::Unserved(name),
        Err(_) => Failure::NoMemory,
    }
}

/// What is wrong with a bench that isn't played, with its file and its line.
pub fn not_played(alloc: Global, file: &str, read: &Read, why: BenchFault) -> Failure
    ensures memory { IsMemory why → result ≡ Failure.NoMemory }
    ensures told { IsTold file.now read.now why result }
{
    match why {
        BenchFault::NoMemory | BenchFault::NoSession(WritingFault::NoMemory) => Failure::NoMemory,
        BenchFault::Unserved { slot } => unserved(read.bench.panels.as_slice(), slot),
        BenchFault::NoSession(WritingFault::Unlike) => {
            let words = "the configuration of an alias has a line feed, which a session hasn't";
            fault(alloc, file, 0, words)
        }
        BenchFault::NoSession(WritingFault::Refused { fault: why, line }) => {
            fault(alloc, file, panel_line(read, line), words_of(why))
        }
        BenchFault::Refused { entry, fault: why } => {
            fault(alloc, file, entry_line(read, entry), words_of(why))
        }
    }
}

/// Plays a bench with the program's own services. Refused as `play` of panels refuses it.
pub fn play_bench(alloc: Global, bench: &Bench, slice: u64) -> Result<Played, BenchFault>
    ensures output { IfOk result (λ played. played.output.items ≡ program_sections (plan_of bench.now played.events.items)) }
    ensures refused { IfErr result (IsRefused (λ (service : ServiceOf). answer_of service.kind service.config) bench.now (map services_in bench.now.panels.items)) }
{
    play(alloc, bench, slice.max(1))
}
