//! Plays stored sessions, and tells of each whether what came out is what is stored beside it.
//!
//! Beside a session `NAME.session` lies `NAME.expected`, the bytes that it writes, or `NAME.fault`, its exit status and its line on standard error. Each
//! is played at six slices; `--once` before the names plays each at one slice alone, for a run without proof.
use anyhow::{Context, Result, bail};
use std::alloc::Global;
use std::fs;
use std::rt::Files;
use tcl_text::Text;
use tkhost::{Outcome, ServiceKind, own_services, play, read_session, run};

/// Slices that no section may depend on, in steps.
const SLICES: [u64; 6] = [1, 2, 3, 7, 64, 1_000_000];

/// The bytes of a file of the session's, or none where it has none.
fn stored<R: Files + AllocGlobal>(rt: &R, name: &str, ending: &str) -> Result<Option<Vec<u8>>> {
    let path = format!(in rt.alloc(); "{name}.{ending}")?;
    Ok(fs::read(rt, path).ok())
}

/// What the program would write, and what it would say on standard error behind its exit status.
fn told(alloc: Global, session: &[u8]) -> Result<(Vec<u8>, Vec<u8>)> {
    let mut reader = session;
    let mut sections = Vec::new(alloc);
    let ending = run(
        alloc,
        &mut reader,
        &mut sections,
        |kind: ServiceKind, config: Text| { move |args: &[Text]| kind.reply(alloc, &config, args) },
    );
    let outcome = ending.outcome;
    let mut fault = Vec::new(alloc);
    if !matches!(outcome, Outcome::Done) {
        let status = format!(in alloc; "{}\n", outcome.status())?;
        fault.extend_from_slice(status.as_bytes())?;
        if outcome.write_to(&mut fault).is_err() {
            bail!("no memory for a fault's line");
        }
    }
    Ok((sections, fault))
}

/// Whether the session's sections are the same at each slice.
fn same_at_each_slice(alloc: Global, session: &[u8], expected: &[u8]) -> Result<bool> {
    let Ok(session) = read_session(alloc, session) else {
        return Ok(false);
    };
    for slice in SLICES {
        let mut sections = Vec::new(alloc);
        let aliases = own_services(alloc, &session)?;
        if play(alloc, &session, aliases, slice, &mut sections).is_err()
            || sections.as_slice() != expected
        {
            return Ok(false);
        }
    }
    Ok(true)
}

/// Whether a session writes what is stored beside it, once or at each slice.
fn is_as_expected<R: Files + AllocGlobal>(rt: &R, name: &str, once: bool) -> Result<bool> {
    let Some(session) = stored(rt, name, "session")? else {
        bail!("no such session");
    };
    let (sections, fault) = told(rt.alloc(), session.as_slice())?;
    if let Some(expected) = stored(rt, name, "expected")? {
        return Ok(
            fault.is_empty()
                && sections == expected
                && (once
                    || same_at_each_slice(rt.alloc(), session.as_slice(), expected.as_slice())?),
        );
    }
    let Some(expected) = stored(rt, name, "fault")? else {
        bail!("nothing is expected of it");
    };
    Ok(sections.is_empty() && fault == expected)
}

/// Plays sessions, and prints of each whether it is as expected. It fails where one differs.
pub fn play_sessions<R: Files + Print + AllocGlobal>(
    rt: &R,
    names: &[String],
    once: bool,
) -> Result<()> {
    let mut differs = false;
    for name in names {
        let as_expected = is_as_expected(rt, name.as_str(), once).context(format_args!(
            "session {name}"
        ))?;
        let verdict = if as_expected {
            "as expected"
        } else {
            "differs"
        };
        println!(rt; "{name}: {verdict}")?;
        differs = differs || !as_expected;
    }
    if differs {
        bail!("some sessions differ");
    }
    Ok(())
}
