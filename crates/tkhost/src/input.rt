ghost use Rattle.std.specs.Prelude.{◌≡◌, ◌≤◌, vec_len, IfOk, OnOk};
ghost use Rattle.std.specs.Io.KnownBytes.{Consumes, IsAtEnd};

use std::alloc::{AllocError, Global};
use std::io::Read;
use thiserror::Error;

/// How many bytes a session has at most.
const MAX_INPUT: usize = 16_777_216;
/// How often a reader is asked at most: so many bytes may come one at a time, and then the end.
const MAX_CALLS: usize = MAX_INPUT + 1;

/// Why the input was not read.
#[derive(Clone, Copy, Debug, PartialEq, Eq, Drop, Error)]
pub enum InputFault {
    /// The reader failed, or gave more than 16,777,216 bytes.
    #[error("read fault")]
    Read,
    /// Memory was refused.
    #[error("out of memory")]
    NoMemory,
}

impl From<AllocError> for InputFault {
    ghost use Rattle.tkhost.specs.declared.input.InputFault.{InputFault};

    ghost from_gives = { λ _ e. e ≡ InputFault.NoMemory };

    fn from(_refused: AllocError) -> InputFault {
        InputFault::NoMemory
    }
}

/// Reads to the end of the input, of 16,777,216 bytes at most and in 16,777,217 calls of `read` at most. `Read`, which has no number, where
/// the reader fails or gives more.
pub fn read_input<R: Read>(alloc: Global, reader: &mut R) -> Result<Vec<u8>, InputFault>
    ensures bytes { IfOk result (λ input. Consumes (R.remaining reader.old) (R.remaining reader.new) input.items) }
    ensures end { OnOk result (IsAtEnd (R.remaining reader.new)) }
    ensures short { IfOk result (λ input. vec_len input ≤ 16777216) }
{
    let mut input = Vec::new(alloc);
    let mut piece = [0u8; 8192];
    for _ in 0..MAX_CALLS {
        let Ok(count) = reader.read(&mut piece) else {
            return Err(InputFault::Read);
        };
        if count == 0 {
            return Ok(input);
        }
        if count > MAX_INPUT - input.len() {
            return Err(InputFault::Read);
        }
        input.extend_from_slice(&piece[..count])?;
    }
    Err(InputFault::Read)
}
