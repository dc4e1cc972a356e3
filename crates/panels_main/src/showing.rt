//! Pictures and pages of benches.

use crate::playing::session_played;
use panels::picture;
use panels_bench::load;
use panels_film::{STYLE, Story, bindings_of, filmed, frame_at, notes_of, page, scene, trace};
use panels_text::{Failure, fault, write};
use std::rt::Files;

/// Writes a picture of a bench at a moment.
pub(crate) fn draw<R: Files + AllocGlobal>(
    rt: &R,
    file: &str,
    moment: u64,
    to: &str,
) -> Result<u8, Failure> {
    let alloc = rt.alloc();
    let read = load(rt, file)?;
    let end = read.bench.end;
    if moment > end {
        let words = format!(in alloc; "--at {moment} is behind the end, which is {end}")?;
        return Err(fault(alloc, file, 0, words.as_str()));
    }
    let session = session_played(alloc, file, &read)?;
    let frame = frame_at(alloc, &session, read.slice, moment)?;
    let scene = scene(alloc, session.apps(), session.events(), &frame)?;
    let picture = picture(alloc, &scene, STYLE.as_bytes())?;
    write(rt, alloc, to, picture.as_slice())?;
    Ok(0)
}

/// Writes a page of a bench.
pub(crate) fn show<R: Files + AllocGlobal + Print>(
    rt: &R,
    file: &str,
    to: &str,
) -> Result<u8, Failure> {
    let alloc = rt.alloc();
    let read = load(rt, file)?;
    let session = session_played(alloc, file, &read)?;
    let film = filmed(alloc, &session, read.slice)?;
    let page = page(alloc, file, session.apps(), session.events(), &film)?;
    write(rt, alloc, to, page.as_slice())?;
    let text = format!(in alloc; "{to}: {} moments", film.frames.len())?;
    rt.println(text.as_str())?;
    Ok(0)
}

/// Prints what happens on a bench, moment by moment.
pub(crate) fn tell<R: Files + AllocGlobal + Print>(rt: &R, file: &str) -> Result<u8, Failure> {
    let alloc = rt.alloc();
    let read = load(rt, file)?;
    let session = session_played(alloc, file, &read)?;
    let film = filmed(alloc, &session, read.slice)?;
    let notes = notes_of(alloc, &session)?;
    let ran = bindings_of(alloc, &session)?;
    let story = Story {
        panels: session.apps(),
        events: session.events(),
        notes: notes.as_slice(),
        ran: ran.as_slice(),
    };
    let text = trace(alloc, story, film.frames.as_slice())?;
    rt.print(text.as_str())?;
    if !film.is_whole {
        rt.println("the bench goes on, and there are too many moments to tell")?;
    }
    Ok(0)
}
