//! Substitutes in whole scripts.
ghost use Rattle.std.specs.Prelude.{◌≡◌, ◌≢◌, ◌+◌, ◌<◌, ◌++◌, ◌≤◌, true, false, length, drop, IfOk, IfErr, IfSome, MatchOption};
ghost use Rattle.std.specs.Str.{IsCharBoundary};
ghost use Rattle.tk_dispatch.specs.Percent.{substituted};
ghost use Rattle.tk_dispatch.specs.Substitution.{substituted_from};
ghost use Rattle.tcl_text.specs.Limits.{most_bytes};

use crate::field::push_replacement;
use memchr::memchr;
use std::alloc::Global;
use tcl_text::{Text, TextFault};
use tk_sequences::Event;

/// Adds what stands for a `%` and what is behind it, and tells how many bytes behind it were taken. A character that isn't ASCII is left: it
/// stands for itself with or without the `%`.
fn push_behind_percent(
    alloc: Global,
    text: &mut Text,
    event: &Event,
    behind: &str,
) -> Result<usize, TextFault>
    ensures ok { IfOk result (λ taken. text.new ++ substituted_from event.now false (drop taken behind.now)
        ≡ text.old ++ substituted_from event.now true behind.now) }
    ensures cut { IfOk result (λ taken. IsCharBoundary behind.now taken) }
    ensures shorter { IfOk result (λ taken. taken ≤ length behind.now) }
    ensures too_long { IfErr result (λ fault. fault ≢ TextFault.NoMemory → most_bytes < length (text.old ++ substituted_from event.now true behind.now)) }
{
    match behind.as_bytes() {
        [] => {
            text.push_str(alloc, "%")?;
            Ok(0)
        }
        [first, ..] if first.is_ascii() => {
            push_replacement(alloc, text, event, *first)?;
            Ok(1)
        }
        [_, ..] => Ok(0),
    }
}

/// The script with the event's fields in the place of `%` and a character (bind(n)): `%W` the path of the window, `%T` the number of the type,
/// `%t` the moment in milliseconds, `%s` the state, `%x %y %X %Y` places in pixels, `%b` the button, `%K` the key and `%A` what it types,
/// `%w %h` a size in pixels, `%d` the detail or the data, `%%` a `%`. Texts are put in as elements of a list, and `??` for what the event
/// lacks. `TooLong` (4) where that passes 65,536 bytes.
pub fn substitute(alloc: Global, script: &Text, event: &Event) -> Result<Text, TextFault>
    ensures ok { IfOk result (λ text. text ≡ substituted event.now script.now) }
    ensures too_long { IfErr result (λ fault. fault ≢ TextFault.NoMemory → most_bytes < length (substituted event.now script.now)) }
{
    if has_percent(script) {
        substitute_fields(alloc, script, event)
    } else {
        Ok(script.copy()?)
    }
}

/// Whether the script has a `%`. One without stays as it is.
fn has_percent(script: &Text) -> bool
    ensures { result ≡ false → (event : Event) → substituted event script.now ≡ script.now }
{
    match cut_percent(script.as_str()) {
        Some(_) => true,
        None => false,
    }
}

/// The same, read from `%` to `%`.
fn substitute_fields(alloc: Global, script: &Text, event: &Event) -> Result<Text, TextFault>
    ensures ok { IfOk result (λ text. text ≡ substituted event.now script.now) }
    ensures too_long { IfErr result (λ fault. fault ≢ TextFault.NoMemory → most_bytes < length (substituted event.now script.now)) }
{
    let mut text = Text::empty();
    let mut rest = script.as_str();
    while let Some((run, behind)) = cut_percent(rest) {
        text.push_str(alloc, run)?;
        let taken = push_behind_percent(alloc, &mut text, event, behind)?;
        rest = &behind[taken..];
    }
    text.push_str(alloc, rest)?;
    Ok(text)
}

/// The characters in front of the first `%`, and those behind it; nothing where there is none.
fn cut_percent(text: &str) -> Option<(&str, &str)>
    ensures cut { (event : Event) → MatchOption result
        (substituted_from event false text.now ≡ text.now)
        (λ parts. substituted_from event false text.now ≡ parts.0.now ++ substituted_from event true parts.1.now) }
    ensures shorter { IfSome result (λ parts. length parts.0.now + length parts.1.now < length text.now) }
{
    let place = memchr(b'%', text.as_bytes())?;
    Some((&text[..place], &text[place + 1..]))
}
