ghost use Rattle.std.specs.Prelude.{◌≡◌, ◌+◌, ◌≤◌, ◌++◌, take, length, IsUtf8};
ghost use Rattle.tcl_text.specs.Limits.{most_in_place};

/// How many bytes are kept in place: enough for each integer of 64 bits.
pub const SHORT_BYTES: usize = 22;

/// A few characters that are kept in place, without memory of their own.
#[derive(Clone, Copy)]
pub struct ShortText {
    bytes: [u8; SHORT_BYTES],
    length: u8,
    /// It takes no room: the bytes begin where a word does, so that a copy moves whole words.
    words: [u64; 0],
    ghost fits: { length ≤ most_in_place },
    ghost utf8: { ∥ IsUtf8 (take length bytes) ∥₁ },
}

/// Bytes with others in their place from one of them on.
fn written(mut bytes: [u8; SHORT_BYTES], at: usize, others: &[u8]) -> [u8; SHORT_BYTES]
    requires { at + length others.now ≤ most_in_place }
    ensures { take (at + length others.now) result ≡ take at bytes ++ others.now }
{
    bytes[at..at + others.len()].copy_from_slice(others);
    bytes
}

impl ShortText {
    ghost use Rattle.std.specs.Prelude.{◌≡◌, ◌+◌, ◌≤◌, ◌++◌, length};
    ghost use Rattle.tcl_text.specs.Limits.{most_in_place};
    ghost use Rattle.tcl_text.specs.TextForm.{short_bytes};

    /// These characters.
    pub fn new(characters: &str) -> ShortText
        requires { length characters.now ≤ most_in_place }
        ensures { short_bytes result ≡ characters.now }
    {
        let mut bytes = [0; SHORT_BYTES];
        bytes[..characters.len()].copy_from_slice(characters.as_bytes());
        ShortText {
            bytes,
            length: characters.len() as u8,
            words: [],
        }
    }

    /// These characters, and more behind them.
    pub fn joined(characters: &str, more: &str) -> ShortText
        requires { length characters.now + length more.now ≤ most_in_place }
        ensures { short_bytes result ≡ characters.now ++ more.now }
    {
        let length = characters.len() + more.len();
        let front = written([0; SHORT_BYTES], 0, characters.as_bytes());
        let bytes = written(front, characters.len(), more.as_bytes());
        ShortText {
            bytes,
            length: length as u8,
            words: [],
        }
    }

    /// The characters.
    pub fn as_str(&self) -> &str
        ensures { result.now ≡ short_bytes self.now }
    {
        let bytes = &self.bytes[..usize::from(self.length)];
        // SAFETY: the bytes are UTF-8, as the type's field `utf8` says.
        unsafe { str::from_utf8_unchecked(bytes) }
    }
}
