//! Sessions that come line by line.
use panels::{BenchFault, Live, live_panels};
use panels_report::{Blocks, Reply, Taken, answered, unserved};
use panels_text::{Failure, as_text};
use std::io::Input;
use tk_host::AliasService;
use tk_session::{AppBlock, Session};

/// Prints the last line of an answer.
fn close<R: Print + AllocGlobal>(rt: &R, words: Option<&str>) -> Result<(), Failure> {
    match words {
        None => Ok(rt.println("ok")?),
        Some(words) => {
            let mut text = String::from_str(rt.alloc(), "refused:")?;
            for row in words.split('\n') {
                text.push_str(" ")?;
                text.push_str(row)?;
            }
            Ok(rt.println(text.as_str())?)
        }
    }
}

/// Prints what is told of a line, and whether the panels go on.
fn tell<R: Print + AllocGlobal>(rt: &R, reply: &Reply) -> Result<bool, Failure> {
    match reply {
        Reply::Told(text) => {
            rt.print(as_text(text.as_slice()))?;
            close(rt, None)?;
            Ok(true)
        }
        Reply::Ended(text) => {
            rt.print(as_text(text.as_slice()))?;
            close(rt, None)?;
            Ok(false)
        }
        Reply::Refused(words) => {
            close(rt, Some(*words))?;
            Ok(true)
        }
    }
}

/// Memory was refused, to the panel in this slot where it is known.
fn without_memory(asker: Option<usize>, panels: &[AppBlock]) -> Failure {
    match asker {
        Some(slot) => unserved(panels, slot),
        None => Failure::NoMemory,
    }
}

/// Answers the lines that come once the scripts of all panels have run.
fn follow<R: Input + Print + AllocGlobal, M: AliasService>(
    rt: &R,
    mut live: Live<M>,
    panels: &[AppBlock],
) -> Result<(), Failure> {
    let alloc = rt.alloc();
    for line in rt.lines(alloc) {
        let Ok(reply) = answered(alloc, &mut live, panels, line?.as_str()) else {
            return Err(without_memory(live.asker(), panels));
        };
        if !tell(rt, &reply)? {
            return Ok(());
        }
    }
    Ok(())
}

/// Plays panels with the program's own services.
fn play<R: Input + Print + AllocGlobal>(rt: &R, session: &Session) -> Result<(), Failure> {
    match live_panels(rt.alloc(), session, 64) {
        Ok(live) => {
            close(rt, None)?;
            follow(rt, live, session.apps())
        }
        Err(BenchFault::Unserved { slot }) => Err(unserved(session.apps(), slot)),
        Err(_) => Err(Failure::NoMemory),
    }
}

/// Takes lines until a session's front is whole, and answers each: none where the input ends before.
fn begun<R: Input + Print + AllocGlobal>(rt: &R) -> Result<Option<Session>, Failure> {
    let alloc = rt.alloc();
    let mut blocks = Blocks::new(alloc);
    for line in rt.lines(alloc) {
        match blocks.take(alloc, line?.as_str())? {
            Taken::Silent => {}
            Taken::Accepted => close(rt, None)?,
            Taken::Refused(words) => close(rt, Some(words.as_str()))?,
            Taken::Begun(session) => return Ok(Some(session)),
        }
    }
    Ok(None)
}

/// Plays a session that comes line by line on standard input, and answers each line at once.
pub(crate) fn live<R: Input + Print + AllocGlobal>(rt: &R) -> Result<u8, Failure> {
    // (a file is read ahead: only once the first lines are let go are the others read from behind them)
    if let Some(session) = begun(rt)? {
        play(rt, &session)?;
    }
    Ok(0)
}
