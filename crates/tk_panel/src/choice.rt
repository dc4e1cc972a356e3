//! The scripts that an event runs (bind(n), bindtags(n)).
ghost use Rattle.std.specs.Prelude.{◌≡◌, IfOk, option_map};
ghost use Rattle.tk_tree.specs.Own.{window_at};
ghost use Rattle.tk_panel.specs.Choice.{chosen, scripts_of};
ghost use Rattle.tk_panel.specs.Shared.{LeavesOthers, panel_of};

use crate::Scripts;
use crate::report::write;
use crate::tables::Tables;
use crate::transcript::Stream;
use std::alloc::AllocError;
use tcl_text::{Text, TextList};
use tk_base::Win;
use tk_dispatch::scripts_for_tags;
use tk_sequences::Event;

/// The scripts of an event of a window, or the text of a refused substitution; none where the window is gone.
#[tactic(auto, unfolding(tk_dispatch::specs::Dispatch::scripts_for))]
fn scripts_at(
    tables: &Tables,
    win: Win,
    event: &Event,
) -> Result<Option<Result<TextList, Text>>, AllocError>
    requires { win.number ≡ event.now.number }
    ensures { IfOk result (λ scripts. scripts ≡ option_map (λ window. scripts_of event.now (panel_of win.owner tables.now))
        (window_at event.now.number (panel_of win.owner tables.now).windowing.tree)) }
{
    let windows = &tables.screen.shown().windows;
    let Some(window) = windows.window(win) else {
        return Ok(None);
    };
    let scripts = scripts_for_tags(
        tables.alloc,
        windows,
        &tables.bindings,
        &tables.virtuals,
        win.owner,
        window.tags.as_slice(),
        event,
        tables.histories.of(win.owner),
    )?;
    Ok(Some(scripts))
}

/// An event comes to its window: the scripts that are to run for it, in order. A refused substitution is told (4), and no script runs then. An event of
/// a key or a button enters the history either way. An event of a window that is gone is dropped.
#[tactic(auto, unfolding(crate::specs::Choice::chosen))]
pub fn choose(tables: &mut Tables, slot: usize, event: Event) -> Result<Scripts, AllocError>
    ensures own { IfOk result (λ scripts. (panel_of slot tables.new, scripts) ≡ chosen event (panel_of slot tables.old)) }
    ensures others { LeavesOthers slot tables.old tables.new }
{
    let win = Win {
        owner: slot,
        number: event.number,
    };
    match scripts_at(tables, win, &event)? {
        None => Ok(Scripts::none(tables.alloc)),
        Some(Ok(scripts)) => {
            let scripts = Scripts::of(scripts.into_vec());
            tables.histories.push(slot, event)?;
            Ok(scripts)
        }
        Some(Err(text)) => {
            write(tables, slot, Stream::Err, text)?;
            tables.histories.push(slot, event)?;
            Ok(Scripts::none(tables.alloc))
        }
    }
}
