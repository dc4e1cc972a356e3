//! What a program in C hands in as bytes and numbers.
ghost use Rattle.std.specs.Prelude.{◌≡◌};
ghost use Rattle.tkhost_c.specs.Calls.{IsText, ReadsText, kind_of};

use crate::refusal::Refusal;
use std::alloc::Global;
use tcl_text::{Text, TextFault};
use tk_host::LineFault;
use tk_session::ServiceKind;

/// These bytes as a text. `BadLine` (36) where they aren't UTF-8 or are more than 65,536.
pub(crate) fn text_of(alloc: Global, bytes: &[u8]) -> Result<Text, Refusal>
    ensures { ReadsText bytes.now result }
{
    let Ok(characters) = std::str::from_utf8(bytes) else {
        return Err(Refusal::Fault(LineFault::BadLine));
    };
    match Text::new(alloc, characters) {
        Ok(text) => Ok(text),
        Err(TextFault::TooLong) => Err(Refusal::Fault(LineFault::BadLine)),
        Err(_) => Err(Refusal::NoMemory),
    }
}

/// The kind of an alias by its number in the header.
pub(crate) fn kind_of(kind: u32) -> Option<ServiceKind>
    ensures { result ≡ kind_of kind }
{
    match kind {
        0 => Some(ServiceKind::Const),
        1 => Some(ServiceKind::Upper),
        2 => Some(ServiceKind::Table),
        3 => Some(ServiceKind::Sum),
        4 => Some(ServiceKind::Fail),
        _ => None,
    }
}
