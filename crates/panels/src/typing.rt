//! What is typed, as lines of a session.

ghost use Rattle.std.specs.Prelude.{◌≡◌, ◌∷◌, [], ◌++◌, option_map, IfOk, OnOk};
ghost use Rattle.panels.specs.Typing.{chord, key_typing, pressing, releasing, typed};
ghost use Rattle.tk_route.specs.declared.line.HostLine.TheVariants.{Keydown as Down, Keyup as Up};

use std::alloc::{AllocError, Global};
use tk_base::Keysym;
use tk_session::HostLine;

/// Adds the press of a key.
fn push_down(lines: &mut Vec<HostLine>, key: Keysym) -> Result<(), AllocError>
    ensures { OnOk result (lines.new.items ≡ lines.old.items ++ Down key ∷ []) }
{
    Ok(lines.push(HostLine::Keydown(key))?)
}

/// Adds the release of a key.
fn push_up(lines: &mut Vec<HostLine>, key: Keysym) -> Result<(), AllocError>
    ensures { OnOk result (lines.new.items ≡ lines.old.items ++ Up key ∷ []) }
{
    Ok(lines.push(HostLine::Keyup(key))?)
}

/// The key that types a byte: Return a line feed, Tab a tab, and each printing ASCII character its own.
fn key_typing(byte: u8) -> Option<Keysym>
    ensures { result ≡ key_typing byte }
{
    match byte {
        b'\n' => Keysym::named("Return"),
        b'\t' => Keysym::named("Tab"),
        other => Keysym::of_character(char::from(other)),
    }
}

/// The keys that type a text, each pressed and let go; nothing where no key types one of its bytes. An error where memory is refused.
pub fn typed(alloc: Global, text: &[u8]) -> Result<Option<Vec<HostLine>>, AllocError>
    ensures { IfOk result (λ lines. option_map (λ lines. lines.items) lines ≡ typed text.now) }
{
    let mut lines = Vec::new(alloc);
    for byte in text {
        let Some(key) = key_typing(*byte) else {
            return Ok(None);
        };
        push_down(&mut lines, key)?;
        push_up(&mut lines, key)?;
    }
    Ok(Some(lines))
}

/// Adds the presses of keys, one after another.
fn push_all(lines: &mut Vec<HostLine>, keys: &[Keysym]) -> Result<(), AllocError>
    ensures { OnOk result (lines.new.items ≡ lines.old.items ++ pressing keys.now) }
{
    for key in keys {
        push_down(lines, *key)?;
    }
    Ok(())
}

/// Adds the releases of keys, the last of them first.
fn push_releases(lines: &mut Vec<HostLine>, keys: &[Keysym]) -> Result<(), AllocError>
    ensures { OnOk result (lines.new.items ≡ lines.old.items ++ releasing keys.now) }
{
    let mut rest = keys;
    while let [others @ .., key] = rest {
        push_up(lines, *key)?;
        rest = others;
    }
    Ok(())
}

/// A key that is struck while others are held. An error where memory is refused.
pub fn chord(alloc: Global, held: &[Keysym], key: Keysym) -> Result<Vec<HostLine>, AllocError>
    ensures { IfOk result (λ lines. lines.items ≡ chord held.now key) }
{
    let mut lines = Vec::new(alloc);
    push_all(&mut lines, held)?;
    push_down(&mut lines, key)?;
    push_up(&mut lines, key)?;
    push_releases(&mut lines, held)?;
    Ok(lines)
}
