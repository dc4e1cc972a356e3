//! The questions of `sequences`: what texts are as event sequences.
//!
//! A question is a text. It is answered `=` and the sequence that it is read as in its canonical form, which is then read and written once more; or
//! `!NUMBER MESSAGE`, the fault.
use anyhow::{Result, bail};
use asking::result_of;
use std::alloc::Global;
use tcl_text::Text;
use tk_sequences::{Sequence, SequenceFault};

/// A fault with its number and its message.
fn fault_told(alloc: Global, fault: &SequenceFault) -> Result<String> {
    let Some(number) = fault.number() else {
        bail!("out of memory");
    };
    let message = fault.message(alloc)?;
    Ok(format!(in alloc; "!{number} {}", message.as_str())?)
}

/// What a question is answered. A canonical form that isn't read as itself is an error.
pub fn answer(alloc: Global, question: &str) -> Result<String> {
    let text = Text::new(alloc, question)?;
    match Sequence::parse(alloc, &text) {
        Ok(sequence) => {
            let canonical = sequence.canonical(alloc)?;
            let again = match Sequence::parse(alloc, &canonical) {
                Ok(again) => again.canonical(alloc)?,
                Err(_) => bail!("a canonical form that is refused"),
            };
            if again.as_str() != canonical.as_str() {
                bail!("a canonical form that is read as another sequence");
            }
            result_of(alloc, canonical.as_str())
        }
        Err(fault) => fault_told(alloc, &fault),
    }
}
