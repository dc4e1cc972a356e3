ghost use Rattle.std.specs.Prelude.{◌≡◌, ℕ, Any, IfSome};
ghost use Rattle.std.specs.Io.KnownBytes.{Appends};
ghost use Rattle.tk_alias.specs.Services.{answer_of};
ghost use Rattle.tk_route.specs.Fault.{number_of as number_of_fault};
ghost use Rattle.tk_session.specs.Session.{Plan, IsSession, HasFault};
ghost use Rattle.tk_route.specs.declared.fault.LineFault.{LineFault};
ghost use Rattle.tkhost.specs.Output.{AppendsFront};
ghost use Rattle.tk_app.specs.Commands.{Update};
ghost use Rattle.tk_app.specs.Dispatch.{Action};
ghost use Rattle.tk_app.specs.Settle.{IsSettle, IsUpdate};
ghost use Rattle.tkhost.specs.Play.{MakesServices, program_sections_by};
ghost use Rattle.tkhost.specs.Sections.{program_sections};

use crate::input::{InputFault, read_input};
use crate::outcome::{Ending, Outcome};
use crate::playing::{Unplayed, play_or_tell};
use crate::services::services_of;
use std::alloc::Global;
use std::io::{Read, Write};
use tcl_text::Text;
use tk_host::AliasCode;
use tk_session::{ServiceKind, Session, SessionFault, read_session};

/// How many steps of an application the interpreter takes at a stretch.
const SLICE: u64 = 64;

/// The name of the application in a slot, if there is one, and memory for a copy of it now that the host is gone.
fn name_of(session: &Session, slot: Option<usize>) -> Option<Text>
    ensures { IfSome result (λ name. Any (λ app. app.name ≡ name) session.now.apps) }
{
    let app = session.apps().get(slot?)?;
    app.name.copy().ok()
}

/// What the program does without arguments: reads a session, plays it with the closures that are made for its alias lines, at most 64 steps
/// of an application at a time, and writes its sections. The first fault is the outcome; where it is want of memory while applications run, the name of
/// the one that asked for it is told beside it. What its sections are rests, as of `play`, on the two equations of `update` and *Settle* alone.
pub fn run<R: Read, W: Write, F: AliasCode, K: Fn(ServiceKind, Text) -> F>(
    alloc: Global,
    reader: &mut R,
    writer: &mut W,
    make: K,
) -> Ending
    requires make { K.IsAlwaysCallable make }
    requires services { MakesServices (K.post make) F.may_call F.may_reply }
    ensures sections { (update : Update) → IsUpdate update → (settle : Action) → IsSettle update settle → result.outcome ≡ Outcome.Done → (plan : Plan)
        × IfSome (R.remaining reader.old) (λ input. IsSession input plan)
        × Appends (W.contents writer.old) (W.contents writer.new) (program_sections_by update settle plan) }
    ensures front { (update : Update) → IsUpdate update → (settle : Action) → IsSettle update settle → result.outcome ≡ Outcome.Write → (plan : Plan)
        × IfSome (R.remaining reader.old) (λ input. IsSession input plan)
        × AppendsFront (W.contents writer.old) (W.contents writer.new) (program_sections_by update settle plan) }
    ensures done { result.outcome ≡ Outcome.Done → (plan : Plan)
        × IfSome (R.remaining reader.old) (λ input. IsSession input plan)
        × Appends (W.contents writer.old) (W.contents writer.new) (program_sections plan) }
    ensures refused { (number line : ℕ) → result.outcome ≡ Outcome.Refused number line → (fault : LineFault)
        × IfSome (R.remaining reader.old) (λ input. HasFault input fault line)
        × (number ≡ number_of_fault fault)
        × (writer.new ≡ writer.old) }
    ensures write { result.outcome ≡ Outcome.Write → (plan : Plan)
        × IfSome (R.remaining reader.old) (λ input. IsSession input plan)
        × AppendsFront (W.contents writer.old) (W.contents writer.new) (program_sections plan) }
    ensures read { result.outcome ≡ Outcome.Read → writer.new ≡ writer.old }
    ensures no_memory { result.outcome ≡ Outcome.NoMemory → writer.new ≡ writer.old }
    ensures asker { IfSome result.asker (λ name. (result.outcome ≡ Outcome.NoMemory) × (plan : Plan) × IfSome (R.remaining reader.old) (λ input. IsSession input plan)
        × Any (λ app. app.name ≡ name) plan.apps) }
    ensures argued { result.outcome ≡ Outcome.Usage → ⊥ }
{
    let input = match read_input(alloc, reader) {
        Ok(input) => input,
        Err(InputFault::Read) => return Ending::of(Outcome::Read),
        Err(InputFault::NoMemory) => return Ending::of(Outcome::NoMemory),
    };
    let session = match read_session(alloc, input.as_slice()) {
        Ok(session) => session,
        Err(SessionFault::Refused { fault, line }) => {
            let number = fault.number();
            return Ending::of(Outcome::Refused { number, line });
        }
        Err(SessionFault::NoMemory) => return Ending::of(Outcome::NoMemory),
    };
    let Ok(aliases) = services_of(alloc, &session, &make) else {
        return Ending::of(Outcome::NoMemory);
    };
    match play_or_tell(alloc, &session, aliases, SLICE, writer) {
        Ok(()) => Ending::of(Outcome::Done),
        Err(Unplayed::Write) => Ending::of(Outcome::Write),
        Err(Unplayed::NoMemory(asker)) => Ending {
            outcome: Outcome::NoMemory,
            asker: name_of(&session, asker),
        },
    }
}
