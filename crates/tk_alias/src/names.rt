//! The names that aliases may have.
ghost use Rattle.std.specs.Prelude.{◌≡◌};
ghost use Rattle.std.specs.List.{list_all};
ghost use Rattle.tk_alias.specs.Names.{begins_apart, is_command_name, is_printing};

/// How many aliases an application has at most.
pub const MAX_ALIASES: usize = 64;

/// How many bytes the name of an alias has at most.
pub const MAX_COMMAND_NAME: usize = 64;

/// Whether a text may name an alias: 1 to 64 printing ASCII characters, which don't begin as the path of a window or the name of a namespace.
pub fn is_command_name(text: &[u8]) -> bool
    ensures { result ≡ is_command_name text.now }
{
    1 <= text.len() && text.len() <= MAX_COMMAND_NAME && are_printing(text) && !begins_apart(text)
}

fn are_printing(text: &[u8]) -> bool
    ensures { result ≡ list_all is_printing text.now }
{
    text.iter().all(|byte| is_printing(*byte))
}

fn is_printing(byte: u8) -> bool
    ensures { result ≡ is_printing byte }
{
    33 <= byte && byte <= 126
}

/// Whether a text begins as the path of a window or the name of a namespace.
fn begins_apart(text: &[u8]) -> bool
    ensures { result ≡ begins_apart text.now }
{
    match text {
        [] => false,
        [only] => *only == b'.',
        [first, second, ..] => *first == b'.' || (*first == b':' && *second == b':'),
    }
}
