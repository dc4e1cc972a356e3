//! Benches that are played.

use panels::Played;
use panels_bench::Read;
use panels_film::session_of;
use panels_report::{not_played, play_bench};
use panels_text::Failure;
use std::alloc::Global;
use tk_session::Session;

/// Plays a bench.
pub(crate) fn played(alloc: Global, file: &str, read: &Read) -> Result<Played, Failure> {
    match play_bench(alloc, &read.bench, read.slice) {
        Ok(played) => Ok(played),
        Err(why) => Err(not_played(alloc, file, read, why)),
    }
}

/// The session as which a bench is played.
pub(crate) fn session_played(alloc: Global, file: &str, read: &Read) -> Result<Session, Failure> {
    let played = played(alloc, file, read)?;
    Ok(session_of(alloc, &played)?)
}
