//! Whole sessions.
ghost use Rattle.std.specs.Prelude.{◌≡◌, ◌≤◌, Result, IfOk};
ghost use Rattle.tkhost.specs.Sections.{program_sections};
ghost use Rattle.tkhost_c.specs.declared.refusal.Refusal.{Refusal as RefusalOf};
ghost use Rattle.tkhost_c.specs.Calls.{Plays};
ghost use Rattle.tkhost_c.specs.Numbers.{number_for};

use crate::refusal::{Refusal, number_for};
use crate::telling::tell;
use std::alloc::Global;
use tk_host::LineFault;
use tkhost::{PlayFault, Session, SessionFault, own_services, play, read_session};

/// What a session writes, as the program serves its aliases.
fn played(alloc: Global, session: &Session, slice: u64) -> Result<Vec<u8>, PlayFault>
    requires { 1 ≤ slice }
    ensures { IfOk result (λ text. text.items ≡ program_sections session.now) }
{
    let aliases = own_services(alloc, session)?;
    let mut text = Vec::new(alloc);
    play(alloc, session, aliases, slice, &mut text)?;
    Ok(text)
}

/// Plays a session, and tells its sections.
fn tell_played(
    alloc: Global,
    input: &[u8],
    slice: u64,
    output: &mut [u8],
    told: &mut usize,
) -> Result<(), Refusal>
    ensures { Plays slice input.now output.old output.new told.old told.new result }
{
    if slice == 0 {
        *told = 0;
        return Err(Refusal::Fault(LineFault::BadLine));
    }
    match read_session(alloc, input) {
        Ok(session) => match played(alloc, &session, slice) {
            Ok(text) => tell(text.as_slice(), output, told),
            Err(_) => Err(Refusal::NoMemory),
        },
        Err(SessionFault::Refused { fault, line }) => {
            *told = line;
            Err(Refusal::Fault(fault))
        }
        Err(SessionFault::NoMemory) => Err(Refusal::NoMemory),
    }
}

/// Plays a session as the program does, each application at most `slice` steps at a time, and tells its sections.
#[unsafe(no_mangle)]
pub extern "C" fn tkhost_play(
    alloc: Global,
    input: &[u8],
    slice: u64,
    output: &mut [u8],
    told: &mut usize,
) -> u32
    ensures { (answer : Result (Unit {0}) RefusalOf) × (result ≡ number_for answer) × Plays slice input.now output.old output.new told.old told.new answer }
{
    number_for(tell_played(alloc, input, slice, output, told))
}
