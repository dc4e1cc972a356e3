//! A session from standard input, played; its sections to standard output.
#![tactic(auto)]

use std::env::{Env, FillError};
use std::process::ExitCode;
use tcl_text::Text;
use tkhost::{Ending, Outcome, ServiceKind, run};

/// Whether the program was given an argument.
fn has_argument(rt: &impl Env) -> bool {
    !matches!(rt.arg(1, &mut []), Err(FillError::NotPresent))
}

fn main(rt: HostRuntime) -> ExitCode {
    let ending = if has_argument(&rt) {
        Ending::of(Outcome::Usage)
    } else {
        let alloc = rt.alloc();
        run(
            alloc,
            &mut rt.stdin(),
            &mut rt.stdout(),
            |kind: ServiceKind, config: Text| {
                move |args: &[Text]| kind.reply(alloc, &config, args)
            },
        )
    };
    // where standard error takes nothing, the status alone tells
    let _ = ending.write_to(&mut rt.stderr());
    ExitCode::from(ending.outcome.status())
}
