//! Benches as files.

ghost use Rattle.std.specs.Prelude.{ℕ, List, IfOk};
ghost use Rattle.panels_bench.specs.Benches.{IsReadOf};

use crate::reading::{Read, read_bench};
use panels_text::{Failure, fault};
use std::fs;
use std::rt::Files;

/// A bench that the command line names.
pub fn load<R: Files + AllocGlobal>(rt: &R, file: &str) -> Result<Read, Failure>
    ensures { IfOk result (λ read. (text : List ℕ) × IsReadOf text read) }
{
    let alloc = rt.alloc();
    match fs::read_to_string(rt, file) {
        Ok(text) => read_bench(rt, file, text.as_str()),
        Err(_) => Err(fault(
            alloc,
            "panels",
            0,
            format!(in alloc; "{file} can't be read, or isn't UTF-8")?.as_str(),
        )),
    }
}
