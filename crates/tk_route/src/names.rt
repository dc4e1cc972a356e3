//! The names of applications, and the ranges of what an application is begun with.
ghost use Rattle.std.specs.Prelude.{◌≡◌, ◌↔◌, IsTrue};
ghost use Rattle.std.specs.List.{list_all};
ghost use Rattle.tk_route.specs.Names.{IsAppInRange, is_name, is_name_byte};

use crate::limits::{MAX_BUDGET, MAX_NAME};
use crate::line::is_on_screen;
use tk_base::{Budget, Rect};

/// Whether a text may name an application: a letter, then letters, digits and underscores, all ASCII, 32 bytes at most.
pub fn is_name(text: &[u8]) -> bool
    ensures { result ≡ is_name text.now }
{
    match text {
        [first, rest @ ..] => {
            first.is_ascii_alphabetic() && are_name_bytes(rest) && rest.len() < MAX_NAME
        }
        [] => false,
    }
}

/// Whether all of the bytes may stand in a name behind its first.
fn are_name_bytes(bytes: &[u8]) -> bool
    ensures { result ≡ list_all is_name_byte bytes.now }
{
    bytes.iter().all(|byte| is_name_byte(*byte))
}

fn is_name_byte(byte: u8) -> bool
    ensures { result ≡ is_name_byte byte }
{
    byte.is_ascii_alphanumeric() || byte == b'_'
}

/// Whether an application's name, rectangle and budget lie in the ranges of a session.
pub fn is_app_in_range(name: &[u8], rect: Rect, budget: Budget) -> bool
    ensures { IsTrue result ↔ IsAppInRange name.now rect budget }
{
    is_name(name) && is_on_screen(rect) && budget.total <= MAX_BUDGET && budget.refill <= MAX_BUDGET
}
