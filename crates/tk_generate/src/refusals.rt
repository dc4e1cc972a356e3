//! The errors of words.
ghost use Rattle.std.specs.Prelude.{◌≡◌, ◌++◌, IfOk, codes};
ghost use Rattle.tcl_text.specs.Answers.{Gives, Refuses, bounded, fails, quoted};
ghost use Rattle.tk_generate.specs.Refusals.{option_refused, or_bad_value, sequence_refused};
ghost use Rattle.tk_options.specs.FaultTexts.{fault_text};
ghost use Rattle.tk_sequences.specs.FaultTexts as sequences;
ghost use Rattle.tk_tree.specs.Path.{bad_path};

use std::alloc::{AllocError, Global};
use tcl_text::Text;
use tcl_text::answers::{Refusal, quoting_error};
use tk_options::OptionFault;
use tk_sequences::SequenceFault;

/// The error of an option (20, 22, 23).
pub fn option_refused<T>(alloc: Global, fault: OptionFault) -> Result<T, Refusal>
    ensures { Gives result (option_refused fault) }
{
    match fault.message(alloc) {
        Ok(message) => Err(Refusal::Error(message)),
        Err(AllocError) => Err(Refusal::NoMemory),
    }
}

/// The error of a pattern or a key (29, 30).
pub fn sequence_refused<T>(alloc: Global, fault: SequenceFault) -> Result<T, Refusal>
    ensures { Gives result (sequence_refused fault) }
{
    match fault.message(alloc) {
        Ok(message) => Err(Refusal::Error(message)),
        Err(AllocError) => Err(Refusal::NoMemory),
    }
}

/// What a value of an option was read as, or the error of a value that the option doesn't take (22).
pub fn or_bad_value<T: Drop>(
    alloc: Global,
    option: &Text,
    value: &Text,
    read: Option<T>,
) -> Result<T, Refusal>
    ensures { Gives result (or_bad_value option.now value.now read) }
{
    match read {
        Some(read) => Ok(read),
        None => option_refused(
            alloc,
            OptionFault::BadValue {
                value: value.copy()?,
                option: option.copy()?,
            },
        ),
    }
}
