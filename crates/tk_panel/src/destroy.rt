//! Windows that are destroyed (destroy(n)).
ghost use Rattle.std.specs.Prelude.{◌≡◌, IfOk, OnOk};
ghost use Rattle.tk_panel.specs.Destroy.{destroy_chosen, destroy_next, destroys, next_doomed, without_last};
ghost use Rattle.tk_panel.specs.Removal.{all_dying, all_dying_in, destroy_event, doomed_by, marked, removed};
ghost use Rattle.tk_panel.specs.Shared.{LeavesOthers, panel_of};
ghost use Rattle.tk_screen.specs.Shared as screens;
ghost use Rattle.tk_tree.specs.Change.{dying};
ghost use Rattle.tk_tree.specs.Own.{window_at, with_change};
ghost use Rattle.tk_tree.specs.Shared.{own_of, LeavesOthers as LeavesWindows};

use crate::choice::choose;
use crate::job::{Job, Rest};
use crate::tables::Tables;
use crate::{Numbers, Scripts};
use std::alloc::AllocError;
use tcl_text::Text;
use tk_base::Win;
use tk_screen::MarkedScreen;
use tk_sequences::{Event, EventKind, EventType};
use tk_tree::{Window, Windows};

/// A window is being destroyed from now on, if it is there.
fn mark_dying(windows: &mut Windows, win: Win)
    ensures own { own_of win.owner windows.new ≡ with_change win.number dying (own_of win.owner windows.old) }
    ensures others { LeavesWindows win.owner windows.old windows.new }
{
    if windows.holds(win) {
        windows.mark_dying(win);
    }
}

/// So are these.
#[tactic(auto, unfolding(crate::specs::Removal::all_dying))]
fn mark_all(windows: &mut Windows, slot: usize, numbers: &[u64])
    ensures own { own_of slot windows.new ≡ all_dying numbers.now (own_of slot windows.old) }
    ensures others { LeavesWindows slot windows.old windows.new }
{
    let mut rest = numbers;
    while let Some((number, later)) = rest.split_first() {
        mark_dying(
            windows,
            Win {
                owner: slot,
                number: *number,
            },
        );
        rest = later;
    }
}

/// So are these, on the screen.
#[tactic(auto, using(tk_screen::proofs::KeptMarks::kept))]
fn mark_shown(marked: &mut MarkedScreen, slot: usize, numbers: &[u64])
    ensures own { screens.own_of slot marked.new ≡ all_dying_in numbers.now (screens.own_of slot marked.old) }
    ensures others { screens.LeavesOthers slot marked.old marked.new }
{
    marked.marks.forget(slot);
    mark_all(&mut marked.screen.windows, slot, numbers);
}

/// The windows that a path means to destroy: a window that isn't being destroyed already, and all below it, each behind its children.
fn doomed_by(tables: &Tables, slot: usize, path: &Text) -> Result<Vec<u64>, AllocError>
    ensures { IfOk result (λ numbers. numbers.items ≡ doomed_by path.now (panel_of slot tables.now)) }
{
    let windows = &tables.screen.shown().windows;
    let Some(win) = windows.find(slot, path.as_str()) else {
        return Ok(Vec::new(tables.alloc));
    };
    match windows.window(win) {
        Some(window) if !window.dying => windows.post_order(win),
        Some(_) | None => Ok(Vec::new(tables.alloc)),
    }
}

/// The windows that a path means to destroy, which are marked now: a window that isn't being destroyed already, and all below it.
fn doom(tables: &mut Tables, slot: usize, path: &Text) -> Result<Numbers, AllocError>
    ensures numbers { IfOk result (λ numbers. numbers ≡ doomed_by path.now (panel_of slot tables.old)) }
    ensures own { IfOk result (λ numbers. panel_of slot tables.new ≡ marked numbers (panel_of slot tables.old)) }
    ensures others { LeavesOthers slot tables.old tables.new }
{
    let numbers = doomed_by(tables, slot, path)?;
    mark_shown(&mut tables.screen, slot, numbers.as_slice());
    Ok(Numbers::of(numbers))
}

/// A window goes, if it is still there, and the bindings for its path with it. The keys, the pointer and a press no longer mean it.
#[tactic(auto, unfolding(crate::specs::Removal::removed))]
fn remove(tables: &mut Tables, slot: usize, number: u64) -> Result<(), AllocError>
    ensures own { OnOk result (panel_of slot tables.new ≡ removed number (panel_of slot tables.old)) }
    ensures others { LeavesOthers slot tables.old tables.new }
{
    let win = Win {
        owner: slot,
        number,
    };
    let Some(window) = tables.screen.shown().windows.window(win) else {
        return Ok(());
    };
    let path = window.path.copy()?;
    if tables.screen.shown().windows.children(win).is_empty() {
        tables.screen.remove(win);
        tables.bindings.unbind_all(slot, path.as_str());
        tables.inputs.forget(slot, number);
    }
    Ok(())
}

/// A window's Destroy event.
fn destroy_event(window: &Window, moment: u64) -> Result<Event, AllocError>
    ensures { IfOk result (λ event. event ≡ destroy_event window.now moment) }
{
    let path = window.path.copy()?;
    Ok(Event::new(
        EventKind::Physical(EventType::Destroy),
        window.number,
        path,
        moment,
    ))
}

/// The scripts of the Destroy event of a window, if it is still there.
fn choose_destroy(tables: &mut Tables, slot: usize, number: u64) -> Result<Scripts, AllocError>
    ensures own { IfOk result (λ scripts. (panel_of slot tables.new, scripts) ≡ destroy_chosen number (panel_of slot tables.old)) }
    ensures others { LeavesOthers slot tables.old tables.new }
{
    let moment = tables.clock.moment();
    match tables.screen.shown().windows.window(Win {
        owner: slot,
        number,
    }) {
        None => Ok(Scripts::none(tables.alloc)),
        Some(window) => {
            let event = destroy_event(window, moment)?;
            choose(tables, slot, event)
        }
    }
}

/// Takes windows, one after another, up to one whose Destroy event has scripts, and answers its number and these. The windows before it go.
#[tactic(auto, unfolding(crate::specs::Destroy::next_doomed))]
fn next_doomed(
    tables: &mut Tables,
    slot: usize,
    doomed: &mut Numbers,
) -> Result<Option<(u64, Scripts)>, AllocError>
    ensures own { IfOk result (λ found. record { panel = panel_of slot tables.new; found = found; rest = doomed.new }
        ≡ next_doomed doomed.old (panel_of slot tables.old)) }
    ensures others { LeavesOthers slot tables.old tables.new }
{
    while let Some(number) = doomed.take_next() {
        let scripts = choose_destroy(tables, slot, number)?;
        if scripts.next().is_some() {
            return Ok(Some((number, scripts)));
        }
        remove(tables, slot, number)?;
    }
    Ok(None)
}

/// The scripts of a window's Destroy event are next.
fn on_found(found: (u64, Scripts), doomed: Numbers, paths: Scripts) -> Option<Job>
    ensures { result ≡ Some (record { event = Some found.1; rest = Rest.Destroys (Some found.0) doomed paths }) }
{
    let (window, scripts) = found;
    Some(Job {
        event: Some(scripts),
        rest: Rest::Destroys {
            window: Some(window),
            doomed,
            paths,
        },
    })
}

/// Looks up paths, one after another, and destroys the windows that they mean, up to one whose Destroy event has scripts.
#[tactic(auto, unfolding(crate::specs::Destroy::destroys))]
fn destroy_paths(
    tables: &mut Tables,
    slot: usize,
    paths: Scripts,
) -> Result<Option<Job>, AllocError>
    ensures own { IfOk result (λ job. (panel_of slot tables.new, job) ≡ destroys paths (panel_of slot tables.old)) }
    ensures others { LeavesOthers slot tables.old tables.new }
{
    let mut paths = paths;
    while let Some(path) = paths.take_next() {
        let mut doomed = doom(tables, slot, &path)?;
        if let Some(found) = next_doomed(tables, slot, &mut doomed)? {
            return Ok(on_found(found, doomed, paths));
        }
    }
    Ok(None)
}

/// The window whose Destroy event was under way goes, if there is one.
fn remove_last(tables: &mut Tables, slot: usize, window: Option<u64>) -> Result<(), AllocError>
    ensures own { OnOk result (panel_of slot tables.new ≡ without_last window (panel_of slot tables.old)) }
    ensures others { LeavesOthers slot tables.old tables.new }
{
    match window {
        Some(number) => remove(tables, slot, number),
        None => Ok(()),
    }
}

/// What comes next of `destroy`: the window whose Destroy event was under way goes, and then come those behind it, and the paths.
pub fn destroy_next(
    tables: &mut Tables,
    slot: usize,
    window: Option<u64>,
    doomed: Numbers,
    paths: Scripts,
) -> Result<Option<Job>, AllocError>
    ensures own { IfOk result (λ job. (panel_of slot tables.new, job) ≡ destroy_next window doomed paths (panel_of slot tables.old)) }
    ensures others { LeavesOthers slot tables.old tables.new }
{
    remove_last(tables, slot, window)?;
    let mut doomed = doomed;
    match next_doomed(tables, slot, &mut doomed)? {
        Some(found) => Ok(on_found(found, doomed, paths)),
        None => destroy_paths(tables, slot, paths),
    }
}
