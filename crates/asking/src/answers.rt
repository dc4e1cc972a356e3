//! Answers with their marks.
ghost use Rattle.std.specs.Prelude.{◌≡◌, ◌++◌, ◌==◌, [], Some, codes, if◌then◌else◌, option_map, IfOk, IfSome, OnOk, string_bytes};
ghost use Rattle.std.specs.Fmt.{decimal};

use anyhow::{Result, bail};
use std::alloc::{AllocError, Global};
use std::fmt::Display;

/// The answer that is a result.
pub fn result_of(alloc: Global, text: &str) -> Result<String>
    ensures { IfOk result (λ answer. string_bytes answer ≡ codes "=" ++ text.now) }
{
    Ok(marked(alloc, "=", text)?)
}

/// The answer that is an error.
pub fn error_of(alloc: Global, text: &str) -> Result<String>
    ensures { IfOk result (λ answer. string_bytes answer ≡ codes "!" ++ text.now) }
{
    Ok(marked(alloc, "!", text)?)
}

/// The answer that tells what a fault shows where a program prints it.
pub fn shown<F: Display + Drop>(alloc: Global, fault: F) -> Result<String>
    ensures { IfOk result (λ answer. IfSome (F.output fault) (λ text. string_bytes answer ≡ codes "=" ++ text)) }
{
    Ok(format!(in alloc; "={fault}")?)
}

/// The answer that is the number of a fault; an error where it has none, as memory was refused.
pub fn refused(alloc: Global, fault: Option<u32>) -> Result<String>
    ensures { IfOk result (λ answer. Some (string_bytes answer) ≡ option_map (λ number. codes "!" ++ decimal number) fault) }
{
    match fault {
        Some(number) => Ok(format!(in alloc; "!{number}")?),
        None => bail!("out of memory"),
    }
}

/// Adds to an answer the one of many texts that stands at this place among them, from 0 on: there is a bar between two. Where memory is refused,
/// the bar may stand without its text.
pub fn push_barred(told: &mut String, place: usize, text: &str) -> Result<(), AllocError>
    ensures { OnOk result (string_bytes told.new ≡ string_bytes told.old ++ ((if place == 0 then [] else codes "|") ++ text.now)) }
{
    told.push_str(if place == 0 { "" } else { "|" })?;
    told.push_str(text)
}

fn marked(alloc: Global, mark: &str, text: &str) -> Result<String, AllocError>
    ensures { IfOk result (λ answer. string_bytes answer ≡ mark.now ++ text.now) }
{
    let mut answer = String::from_str(alloc, mark)?;
    answer.push_str(text)?;
    Ok(answer)
}
