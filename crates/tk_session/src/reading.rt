ghost use Rattle.std.specs.Prelude.{◌≡◌, ℕ, ◌<◌, ◌∷◌, ◌⊎◌, length};
ghost use Rattle.tk_route.specs.declared.fault.LineFault.{LineFault};
ghost use Rattle.tk_session.specs.Session.{lines_of, Plan, IsSession, HasFault, IsAnswer};
ghost use Rattle.tk_session.specs.Reading.{Reads, finished, run};

use crate::fault::SessionFault;
use crate::line::cut;
use crate::listing::Listing;
use crate::session::{AppBlock, EventLine, Session};
use crate::stage::Stage;
use std::alloc::Global;
use tk_route::{HostFault, LineFault};

/// The applications of a session, what happens, and the moment of the end.
type Parts = (Listing<AppBlock>, Listing<EventLine>, u64);

/// The first line without its LF, and what stands after it.
fn cut_line(bytes: &[u8]) -> (&[u8], &[u8])
    requires { 0 < length bytes.now }
    ensures lines { lines_of bytes.now ≡ result.0.now ∷ lines_of result.1.now }
    ensures shorter { length result.1.now < length bytes.now }
{
    match cut(bytes, b'\n') {
        Some(parts) => parts,
        None => (bytes, &bytes[bytes.len()..]),
    }
}

/// The parts of a session, where the text may end at this stage; the line that is told otherwise is the one after the last.
fn finish(stage: Stage, line: usize) -> Result<Parts, SessionFault>
    ensures { Reads result (finished stage line) }
{
    match stage {
        Stage::Whole { apps, told, end } => Ok((apps, told, end)),
        _ => Err(SessionFault::Refused {
            fault: LineFault::BadLine,
            line,
        }),
    }
}

fn read_lines(alloc: Global, bytes: &[u8]) -> Result<Parts, SessionFault>
    ensures { Reads result (run Stage.Heading 0 (lines_of bytes.now)) }
{
    let mut stage = Stage::Heading;
    let mut rest = bytes;
    let mut number = 0;
    while !rest.is_empty() {
        let (line, after) = cut_line(rest);
        rest = after;
        number += 1;
        stage = match stage.step(alloc, line) {
            Ok(next) => next,
            Err(HostFault::Refused(fault)) => {
                return Err(SessionFault::Refused {
                    fault,
                    line: number,
                });
            }
            Err(HostFault::NoMemory) => return Err(SessionFault::NoMemory),
        };
    }
    finish(stage, number + 1)
}

/// Reads a session of either format. The first faulty line is told, counted from 1. A line is refused as a `BadLine` (36), and then beside
/// the lines before it: an application's first for `TooManyApps` (38), `NameTaken` (39) and `Overlap` (34); that of an alias as a `BadLine`
/// too, where it is the 65th, and for `NameTaken`; that of an event for `TimeBack` (35), `NoApp` (37) and `RectOverlap` (43), and the end for
/// `TimeBack`. Where the text ends too soon, 36 at the line after the last.
///
/// It takes time in proportion to the bytes, and memory for the names, configurations, scripts and events alone.
pub fn read_session(alloc: Global, bytes: &[u8]) -> Result<Session, SessionFault>
    ensures answer { IsAnswer bytes.now result }
    ensures whole { (plan : Plan) → IsSession bytes.now plan
        → (result ≡ Ok plan) ⊎ (result ≡ Err SessionFault.NoMemory) }
    ensures faulty { (fault : LineFault) (line : ℕ) → HasFault bytes.now fault line
        → (result ≡ Err (SessionFault.Refused fault line)) ⊎ (result ≡ Err SessionFault.NoMemory) }
{
    let (apps, events, end) = read_lines(alloc, bytes)?;
    Ok(Session::new(apps, events, end))
}
