//! The command `panels`: benches are checked, run and accepted, and sessions explained.
#![tactic(auto)]

mod checking;
mod commands;
mod lines;
mod linting;
mod playing;
mod showing;

use commands::obeyed;
use panels_text::{Failure, options_of};
use std::env;
use std::io::IsTerminal;
use std::process::ExitCode;

const USAGE: &str = "\
usage: panels check [--format text|tap|junit|json] [--shard K/N] [--isolate] BENCH..
                               says whether benches show and do what they have to
       panels run [--trace] BENCH
                               prints the sections of its panels, or what happens moment by moment
       panels session BENCH    prints the session that it is
       panels accept BENCH..   writes the expected files, and tells what changes in them
       panels new FOLDER       writes a bench that passes
       panels explain SESSION  tells a session's fault in words
       panels lint SCRIPT|BENCH..
                               tells what isn't there of what scripts name by literal words
       panels live             plays a session that comes line by line, and answers each line
       panels draw BENCH --at TIME --to FILE.svg
                               writes a picture of its panels at a moment
       panels show BENCH --to FILE.html
                               writes a page that shows its panels from moment to moment
";

/// Does what the words of the command line ask for, and answers the exit status.
fn done(rt: &HostRuntime) -> Result<u8, Failure> {
    let alloc = rt.alloc();
    let mut words = Vec::new(alloc);
    for word in env::args(rt)? {
        words.push(word)?;
    }
    match options_of(alloc, words.as_slice())? {
        Some(options) => obeyed(rt, &options, rt.stderr().is_terminal()),
        None => {
            rt.eprint(USAGE)?;
            Ok(2)
        }
    }
}

fn main(rt: HostRuntime) -> ExitCode {
    let status = match done(&rt) {
        Ok(status) => status,
        Err(Failure::Said(text)) => {
            // where standard error takes nothing, the status alone tells
            let _ = rt.eprintln(text.as_str());
            2
        }
        Err(Failure::Unserved(name)) => {
            let _ = rt.eprint("panels: out of memory\npanels: memory was refused to ");
            let _ = rt.eprintln(name.as_str());
            4
        }
        Err(Failure::NoMemory) => {
            let _ = rt.eprintln("panels: out of memory");
            4
        }
        Err(Failure::Stream) => {
            let _ = rt.eprintln("panels: read or write fault");
            2
        }
    };
    ExitCode::from(status)
}
