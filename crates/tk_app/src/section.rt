//! The section of an application.
ghost use Rattle.std.specs.Prelude.{◌≡◌, ◌++◌, IfOk, OnOk, flat_map};
ghost use Rattle.tk_panel.specs.Shared.{panel_of};
ghost use Rattle.tk_app.specs.Section.{head_line, section, transcript_line};
ghost use Rattle.tk_app.specs.Turns.{application_of};

use crate::runner::Runner;
use crate::state::AppState;
use std::alloc::{AllocError, Global};
use tk_alias::AliasService;
use tk_panel::{Line, Tables};
use tk_screen::{push_escaped, push_field, push_timers, push_tree};

/// Adds a line of a transcript.
fn push_transcript_line(out: &mut Vec<u8>, line: &Line) -> Result<(), AllocError>
    ensures { OnOk result (out.new.items ≡ out.old.items ++ transcript_line line.now) }
{
    out.extend_from_slice(line.stream.as_str().as_bytes())?;
    push_field(out, line.moment)?;
    out.push(b' ')?;
    push_escaped(out, line.text.as_str().as_bytes())?;
    Ok(out.push(b'\n')?)
}

/// Adds the lines that an application wrote.
fn push_transcript(out: &mut Vec<u8>, lines: &[Line]) -> Result<(), AllocError>
    ensures { OnOk result (out.new.items ≡ out.old.items ++ flat_map transcript_line lines.now) }
{
    for line in lines {
        push_transcript_line(out, line)?;
    }
    Ok(())
}

/// Adds the line that an application's section begins with.
fn push_head(out: &mut Vec<u8>, name: &str, state: AppState, steps: u64) -> Result<(), AllocError>
    ensures { OnOk result (out.new.items ≡ out.old.items ++ head_line name.now state steps) }
{
    out.extend_from_slice(b"app ")?;
    out.extend_from_slice(name.as_bytes())?;
    out.push(b' ')?;
    out.extend_from_slice(state.as_str().as_bytes())?;
    push_field(out, steps)?;
    Ok(out.push(b'\n')?)
}

/// The section of an application: what it wrote, its windows, and what it has waiting.
#[tactic(auto, unfolding(crate::specs::Section::section))]
pub fn section<M: AliasService>(
    alloc: Global,
    tables: &Tables,
    slot: usize,
    runner: &Runner<M>,
) -> Result<Vec<u8>, AllocError>
    ensures { IfOk result (λ bytes. bytes.items ≡ section (application_of (panel_of slot tables.now) runner.now)) }
{
    let mut out = Vec::new(alloc);
    push_head(
        &mut out,
        runner.name().as_str(),
        runner.state(),
        runner.steps_left(),
    )?;
    push_transcript(&mut out, tables.transcripts.of(slot))?;
    out.extend_from_slice(b"tree\n")?;
    let screen = tables.screen.shown();
    push_tree(alloc, &mut out, screen, runner.scopes(), slot)?;
    out.extend_from_slice(b"timers\n")?;
    push_timers(&mut out, &tables.timers, slot)?;
    out.extend_from_slice(b"done\n")?;
    Ok(out)
}
