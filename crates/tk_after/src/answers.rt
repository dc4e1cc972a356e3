//! The texts of names, answers and errors.
ghost use Rattle.std.specs.Prelude.{◌≡◌, ◌++◌, IfOk, Ok, Err, codes};
ghost use Rattle.std.specs.Str.{bytes_eq};
ghost use Rattle.tcl_text.specs.Answers.{quoted, fails};
ghost use Rattle.tk_after.specs.After.{name_of};

use itoa::Buffer;
use std::alloc::{AllocError, Global};
use tcl_text::Text;
use tcl_text::message::{Answer, short_text, with_quoted};

/// The name that scripts have for a number.
#[tactic(auto, unfolding(crate::specs::After::name_of))]
pub fn name_of(alloc: Global, id: u64) -> Result<Text, AllocError>
    ensures { IfOk result (λ text. text ≡ name_of id) }
{
    let mut name = String::from_str(alloc, "after#")?;
    let mut buffer = Buffer::new();
    name.push_str(buffer.format(id))?;
    short_text(alloc, name.as_str())
}

/// Whether the characters are the name of a number.
pub fn is_name_of(characters: &str, id: u64) -> bool
    ensures { result ≡ bytes_eq (name_of id) characters.now }
{
    match characters.as_bytes().strip_prefix(b"after#".as_slice()) {
        Some(digits) => {
            let mut buffer = Buffer::new();
            buffer.format(id).as_bytes() == digits
        }
        None => false,
    }
}

/// The number whose name the characters are, if they are a name; otherwise any.
pub fn number_told(characters: &str) -> u64 {
    let digits = characters.strip_prefix("after#").unwrap_or("");
    digits.parse::<u64>().unwrap_or(0)
}

/// The error for a name under which nothing is listed.
pub fn no_event(alloc: Global, name: &str) -> Result<Answer, AllocError>
    ensures { IfOk result (λ answer.
        answer ≡ fails (codes "event " ++ quoted name.now ++ codes " doesn't exist")) }
{
    let mut message = with_quoted(alloc, "event ", name)?;
    message.push_str(" doesn't exist")?;
    Ok(Err(Text::of_message(alloc, message.as_str())?))
}
