//! What the program does.

use crate::checking::check;
use crate::lines::live;
use crate::linting::lint;
use crate::playing::played;
use crate::showing::{draw, show as show_page, tell};
use panels::{compared, is_same};
use panels_bench::{Side, load};
use panels_text::{
    Command, Failure, Options, as_text, differences, expected, explained, fault, file_beside, write,
};
use std::env::Env;
use std::fs;
use std::io::{Eprint, Input};
use std::rt::Files;

fn print<R: Print>(rt: &R, bytes: &[u8]) -> Result<(), Failure> {
    Ok(rt.print(as_text(bytes))?)
}

/// Prints what a bench writes, or the session that it is.
fn show<R: Files + AllocGlobal + Print>(
    rt: &R,
    file: &str,
    command: Command,
) -> Result<u8, Failure> {
    let read = load(rt, file)?;
    let played = played(rt.alloc(), file, &read)?;
    match command {
        Command::Session => print(rt, played.session.as_slice())?,
        _ => print(rt, played.output.as_slice())?,
    }
    Ok(0)
}

/// Writes the expected file of a panel, and tells what changes in it.
fn accept_panel<R: Files + AllocGlobal + Print>(
    rt: &R,
    file: &str,
    side: &Side,
    section: &[u8],
) -> Result<(), Failure> {
    let alloc = rt.alloc();
    let Some(name) = &side.expect else {
        return Ok(());
    };
    let path = file_beside(alloc, file, name.as_str())?;
    let now = compared(alloc, section, side.counts_steps)?;
    match expected(rt, file, name.as_str())? {
        None => {
            let text = format!(in alloc; "{}: new", path.as_str())?;
            rt.println(text.as_str())?;
        }
        Some(before) => {
            if is_same(before.as_slice(), now.as_slice()) {
                return Ok(());
            }
            for difference in differences(alloc, before.as_slice(), now.as_slice())? {
                let text = format!(in alloc; "{}: {}", path.as_str(), difference.as_str())?;
                rt.println(text.as_str())?;
            }
        }
    }
    write(rt, alloc, path.as_str(), now.as_slice())
}

/// Writes the expected files of a bench.
fn accept_one<R: Files + AllocGlobal + Print>(rt: &R, file: &str) -> Result<(), Failure> {
    let read = load(rt, file)?;
    let played = played(rt.alloc(), file, &read)?;
    for (slot, side) in read.sides.iter().enumerate() {
        if let Some(section) = played.sections.as_slice().get(slot) {
            accept_panel(rt, file, side, section.as_slice())?;
        }
    }
    Ok(())
}

fn accept<R: Files + AllocGlobal + Print>(rt: &R, files: &[String]) -> Result<u8, Failure> {
    for file in files {
        accept_one(rt, file.as_str())?;
    }
    Ok(0)
}

const NEW_BENCH: &str = "\
# A bench: panels side by side, what a person does with them, and what they have to show.
# panels check bench.toml says whether they do.
end = 1000

[[panel]]
name = \"lamp\"
script = \"lamp.tcl\"
at = [0, 0]
size = [160, 60]
steps = 1000
expect = \"lamp.shown\"

[[do]]
time = 200
click = { panel = \"lamp\", window = \".switch\" }

[[see]]
time = 300
panel = \"lamp\"
window = \".state\"
text = \"on\"
";

const NEW_SCRIPT: &str = "\
set lamp off
label .state -textvariable lamp -width 5
button .switch -text Switch -command {
    set lamp [expr {$lamp eq \"on\" ? \"off\" : \"on\"}]
    puts \"lamp is $lamp\"
}
pack .state .switch -side left -padx 4
";

const NEW_SHOWN: &str = "\
app lamp running
out 200 lamp is on
tree
win . Tk 0 0 160 60 1
win .state Label 4 20 44 20 1 on
win .switch Button 56 16 68 28 1 Switch
timers
done
";

/// Writes a bench that passes into a folder, which is made where it isn't there.
fn make<R: Files + AllocGlobal + Print>(rt: &R, folder: &str) -> Result<u8, Failure> {
    let alloc = rt.alloc();
    let bench = format!(in alloc; "{folder}/bench.toml")?;
    if fs::read(rt, bench.as_str()).is_ok() {
        return Err(fault(alloc, bench.as_str(), 0, "it is there already"));
    }
    if fs::create_dir_all(rt, folder).is_err() {
        return Err(fault(alloc, folder, 0, "the folder can't be made"));
    }
    let script = format!(in alloc; "{folder}/lamp.tcl")?;
    let shown = format!(in alloc; "{folder}/lamp.shown")?;
    write(rt, alloc, bench.as_str(), NEW_BENCH.as_bytes())?;
    write(rt, alloc, script.as_str(), NEW_SCRIPT.as_bytes())?;
    write(rt, alloc, shown.as_str(), NEW_SHOWN.as_bytes())?;
    let text = format!(in alloc; "{}: now panels check it", bench.as_str())?;
    rt.println(text.as_str())?;
    Ok(0)
}

fn explain<R: Files + AllocGlobal + Print>(rt: &R, file: &str) -> Result<u8, Failure> {
    let alloc = rt.alloc();
    let Ok(bytes) = fs::read(rt, file) else {
        let words = format!(in alloc; "{file} can't be read")?;
        return Err(fault(alloc, "panels", 0, words.as_str()));
    };
    match explained(alloc, bytes.as_slice())? {
        None => {
            rt.println("this is a session: nothing is wrong with it")?;
            Ok(0)
        }
        Some(text) => {
            let text = format!(in alloc; "{file}: {}", text.as_str())?;
            rt.print(text.as_str())?;
            Ok(1)
        }
    }
}

/// Does what is asked for, and answers the exit status.
pub(crate) fn obeyed<R: Env + Files + AllocGlobal + Input + Print + Eprint>(
    rt: &R,
    options: &Options,
    on_terminal: bool,
) -> Result<u8, Failure> {
    let files = options.files.as_slice();
    let Some(file) = files.first() else {
        return live(rt);
    };
    match options.command {
        Command::Check => check(rt, options, on_terminal),
        Command::Run if options.traces => tell(rt, file.as_str()),
        Command::Run | Command::Session => show(rt, file.as_str(), options.command),
        Command::Accept => accept(rt, files),
        Command::New => make(rt, file.as_str()),
        Command::Explain => explain(rt, file.as_str()),
        Command::Lint => lint(rt, files),
        Command::Live => live(rt),
        Command::Draw => match (options.at, &options.to) {
            (Some(moment), Some(to)) => draw(rt, file.as_str(), moment, to.as_str()),
            _ => Ok(2),
        },
        Command::Show => match &options.to {
            Some(to) => show_page(rt, file.as_str(), to.as_str()),
            None => Ok(2),
        },
    }
}
