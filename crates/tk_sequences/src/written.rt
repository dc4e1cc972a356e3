//! Writes sequences in their canonical form.
ghost use Rattle.std.specs.Prelude.{◌≡◌, ◌++◌, IfOk, OnOk, string_bytes};
ghost use Rattle.std.specs.Fmt.{decimal};
ghost use Rattle.tk_sequences.specs.Words.{in_brackets};
ghost use Rattle.tk_sequences.specs.Writing.{detail_written, some_detail_written, held_written, modifier_written, pattern_written, patterns_written as all_written, repetition_written};

use crate::detail::Detail;
use crate::modifier::{Modifier, Modifiers};
use crate::pattern::{Pattern, Patterns, Repetition};
use itoa::Buffer;
use std::alloc::{AllocError, Global};

/// Adds a modifier with a `-` behind it, where a set has it.
fn push_modifier(text: &mut String, held: Modifiers, modifier: Modifier) -> Result<(), AllocError>
    ensures { OnOk result (string_bytes text.new ≡ string_bytes text.old ++ modifier_written held modifier) }
{
    if held.has(modifier) {
        text.push_str(modifier.name())?;
        text.push_str("-")?;
    }
    Ok(())
}

/// Adds the modifiers of a set, each with a `-` behind it.
fn push_modifiers(text: &mut String, held: Modifiers) -> Result<(), AllocError>
    ensures { OnOk result (string_bytes text.new ≡ string_bytes text.old ++ held_written held) }
{
    for modifier in Modifier::ALL {
        push_modifier(text, held, modifier)?;
    }
    Ok(())
}

/// Adds the word for how often an event comes, with a `-` behind it.
fn push_repetition(text: &mut String, times: Repetition) -> Result<(), AllocError>
    ensures { OnOk result (string_bytes text.new ≡ string_bytes text.old ++ repetition_written times) }
{
    match times {
        Repetition::Single => Ok(()),
        Repetition::Double => text.push_str("Double-"),
        Repetition::Triple => text.push_str("Triple-"),
        Repetition::Quadruple => text.push_str("Quadruple-"),
    }
}

/// Adds a button by its number.
fn push_button(text: &mut String, button: u8) -> Result<(), AllocError>
    ensures { OnOk result (string_bytes text.new ≡ string_bytes text.old ++ decimal button) }
{
    let mut buffer = Buffer::new();
    text.push_str(buffer.format(button))
}

/// Adds a key by its name, or a button by its number.
fn push_detail(text: &mut String, detail: Detail) -> Result<(), AllocError>
    ensures { OnOk result (string_bytes text.new ≡ string_bytes text.old ++ detail_written detail) }
{
    match detail {
        Detail::Key(key) => text.push_str(key.name()),
        Detail::Button(button) => push_button(text, button),
    }
}

/// Adds a detail, if there is one, with a `-` in front of it.
fn push_some_detail(text: &mut String, detail: Option<Detail>) -> Result<(), AllocError>
    ensures { OnOk result (string_bytes text.new ≡ string_bytes text.old ++ some_detail_written detail) }
{
    match detail {
        None => Ok(()),
        Some(detail) => {
            text.push_str("-")?;
            push_detail(text, detail)
        }
    }
}

/// Adds a pattern.
fn push_pattern(text: &mut String, pattern: &Pattern) -> Result<(), AllocError>
    ensures { OnOk result (string_bytes text.new ≡ string_bytes text.old ++ pattern_written pattern.now) }
{
    text.push_str("<")?;
    push_modifiers(text, pattern.modifiers)?;
    push_repetition(text, pattern.times)?;
    text.push_str(pattern.kind.name())?;
    push_some_detail(text, pattern.detail)?;
    text.push_str(">")?;
    Ok(())
}

/// Patterns in their canonical form.
pub fn patterns_written(alloc: Global, patterns: &Patterns) -> Result<String, AllocError>
    ensures { IfOk result (λ text. string_bytes text ≡ all_written patterns.now) }
{
    let mut text = String::new(alloc);
    for pattern in patterns.as_slice() {
        push_pattern(&mut text, pattern)?;
    }
    Ok(text)
}

/// The name of a virtual event in its brackets.
pub fn name_written(alloc: Global, name: &str) -> Result<String, AllocError>
    ensures { IfOk result (λ text. string_bytes text ≡ in_brackets name.now) }
{
    let mut text = String::from_str(alloc, "<<")?;
    text.push_str(name)?;
    text.push_str(">>")?;
    Ok(text)
}
