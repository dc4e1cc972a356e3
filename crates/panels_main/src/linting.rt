//! What isn't there of what scripts name.

use panels_bench::{label_of, load};
use panels_report::{linted, served};
use panels_text::{Failure, fault, plain_script};
use std::fs;
use std::rt::Files;

/// Prints what a script has wrong, and answers how much that is.
fn lint_script<R: AllocGlobal + Print>(
    rt: &R,
    label: &str,
    script: &str,
    served: &[&str],
) -> Result<usize, Failure> {
    let alloc = rt.alloc();
    let wrong = linted(alloc, script, served)?;
    for wrong in &wrong {
        let text = format!(in alloc; "{label}:{}: {}", wrong.line, wrong.words.as_str())?;
        rt.println(text.as_str())?;
    }
    Ok(wrong.len())
}

/// The scripts of a bench.
fn lint_bench<R: Files + AllocGlobal + Print>(rt: &R, file: &str) -> Result<usize, Failure> {
    let alloc = rt.alloc();
    let read = load(rt, file)?;
    let mut count = 0usize;
    for (side, panel) in read.sides.iter().zip(read.bench.panels.as_slice()) {
        let label = label_of(alloc, file, side, panel.name.as_str())?;
        let served = served(alloc, panel)?;
        let own = panel.script.as_str();
        let found = lint_script(rt, label.as_str(), own, served.as_slice())?;
        count = count.saturating_add(found);
    }
    Ok(count)
}

/// One file: a bench, whose panels' scripts are meant, or a script.
fn lint_one<R: Files + AllocGlobal + Print>(rt: &R, file: &str) -> Result<usize, Failure> {
    if file.ends_with(".toml") {
        return lint_bench(rt, file);
    }
    let alloc = rt.alloc();
    let Ok(text) = fs::read_to_string(rt, file) else {
        let words = format!(in alloc; "{file} can't be read, or isn't UTF-8")?;
        return Err(fault(alloc, "panels", 0, words.as_str()));
    };
    let script = plain_script(alloc, text.as_str())?;
    lint_script(rt, file, script.as_str(), &[])
}

/// Tells what isn't there of what scripts name by literal words, and which of them can't be read. The status is 1 where there is such.
pub(crate) fn lint<R: Files + AllocGlobal + Print>(
    rt: &R,
    files: &[String],
) -> Result<u8, Failure> {
    let mut count = 0usize;
    for file in files {
        count = count.saturating_add(lint_one(rt, file.as_str())?);
    }
    Ok(u8::from(count > 0))
}
