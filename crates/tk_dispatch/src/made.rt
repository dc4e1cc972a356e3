//! What an event runs at a window whose tags repeat: long scripts are made once, and of many tags what was chosen for the last ones is kept.
ghost use Rattle.std.specs.Prelude.{◌≡◌, ℕ, List, Option, Some, Ok, IfOk, IfSome, OnOk, option_map};
ghost use Rattle.tcl_text.specs.Answers.{Answer};
ghost use Rattle.tk_dispatch.specs.Made.{AreChosen, AreMade};

use std::alloc::AllocError;
use std::collections::HashMap;
use tcl_text::Text;

/// From how many bytes on a script is long. A shorter one is made for each tag: those of all tags have at most 32 MiB of characters, in some 71 MB
/// of memory, since a text that grew by its fields has up to twice its room.
const LONG: usize = 1_024;

/// For how many tags what was chosen is kept, of those that stand last. With one more these are forgotten, so that an event takes at most 64 KB for
/// them. Between two choices for one tag there are then so many others, and all tags together have at most 4,096 bindings to choose from.
const MOST: usize = 512;

/// The script that was made for a tag of this name, found by hashing.
pub(crate) fn made_for<'a>(made: &'a HashMap<&str, Text>, tag: &str) -> Option<&'a Text>
    ensures { (script_of : List ℕ → Option Answer) → AreMade script_of made.now → IfSome result (λ script. script_of tag.now ≡ Some (Ok script.now)) }
{
    if made.is_empty() {
        return None;
    }
    made.get(tag)
}

/// Keeps the script of a tag for others of its name, if it is long.
pub(crate) fn keep_long<'a>(
    made: &mut HashMap<&'a str, Text>,
    tag: &'a str,
    script: &Text,
) -> Result<(), AllocError>
    ensures { OnOk result ((script_of : List ℕ → Option Answer) → script_of tag.now ≡ Some (Ok script.now) → AreMade script_of made.old → AreMade script_of made.new) }
{
    if script.as_str().len() >= LONG {
        made.insert(tag, script.copy()?)?;
    }
    Ok(())
}

/// What was chosen for a tag of this name, if it is kept.
pub(crate) fn chosen_for(
    chosen: &HashMap<&str, Option<Text>>,
    tag: &str,
) -> Result<Option<Option<Text>>, AllocError>
    ensures { (script_of : List ℕ → Option Answer) → AreChosen script_of chosen.now → IfOk result (λ kept. IfSome kept (λ script. script_of tag.now ≡ option_map Ok script)) }
{
    if chosen.is_empty() {
        return Ok(None);
    }
    match chosen.get(tag) {
        Some(Some(script)) => Ok(Some(Some(script.copy()?))),
        Some(None) => Ok(Some(None)),
        None => Ok(None),
    }
}

/// Keeps what was chosen for a tag for others of its name.
pub(crate) fn keep_chosen<'a>(
    chosen: &mut HashMap<&'a str, Option<Text>>,
    tag: &'a str,
    script: Option<Text>,
) -> Result<(), AllocError>
    ensures { OnOk result ((script_of : List ℕ → Option Answer) → script_of tag.now ≡ option_map Ok script → AreChosen script_of chosen.old → AreChosen script_of chosen.new) }
{
    make_room(chosen);
    chosen.insert(tag, script)?;
    Ok(())
}

/// Forgets what was chosen for all tags, where it is kept for so many.
fn make_room(chosen: &mut HashMap<&str, Option<Text>>)
    ensures { (script_of : List ℕ → Option Answer) → AreChosen script_of chosen.old → AreChosen script_of chosen.new }
{
    if chosen.len() >= MOST {
        chosen.clear();
    }
}
