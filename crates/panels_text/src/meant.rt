//! What was likely meant by a word that isn't there.

ghost use Rattle.std.specs.Prelude.{◌≡◌, ◌++◌, ◌∷◌, [], flat_map, map, take as front, IfOk, OnOk, option_map};
ghost use Rattle.std.specs.String.{string_bytes};
ghost use Rattle.panels_text.specs.Meant.{AreLikely, IsNearestFirst, beside, candidates, distinct, found_words, key_meant, likely_in, most_tried, plain, replacements, rows_of, with_word, words_of_kind};
ghost use Rattle.panels_text.specs.Keys.{here_for};
ghost use Rattle.panels_text.specs.Words.{words_of};
ghost use Rattle.tk_options.specs.Names.{name_of};

use crate::keys::here_for;
use crate::nearest::{distance_within, is_known};
use std::alloc::{AllocError, Global};
use tk_base::Kind;
use tk_options::{KINDS, OptionRow, row_of};

/// How many words are tried in place of one.
const MOST_TRIED: usize = 4;

/// Words that have a meaning somewhere; where they stand in place of another it is asked whether they are there.
const WORDS: [&str; 144] = [
    "after",
    "append",
    "array",
    "bind",
    "bindtags",
    "break",
    "button",
    "catch",
    "clock",
    "concat",
    "continue",
    "entry",
    "error",
    "eval",
    "event",
    "expr",
    "focus",
    "for",
    "foreach",
    "frame",
    "global",
    "if",
    "incr",
    "info",
    "join",
    "label",
    "lappend",
    "lindex",
    "linsert",
    "list",
    "listbox",
    "llength",
    "lrange",
    "lreplace",
    "lsearch",
    "lsort",
    "pack",
    "proc",
    "puts",
    "rename",
    "return",
    "set",
    "split",
    "string",
    "switch",
    "uplevel",
    "unset",
    "update",
    "upvar",
    "while",
    "winfo",
    "wm",
    "destroy",
    "stdout",
    "cancel",
    "idle",
    "exists",
    "get",
    "names",
    "size",
    "milliseconds",
    "level",
    "compare",
    "equal",
    "first",
    "index",
    "length",
    "match",
    "range",
    "repeat",
    "tolower",
    "toupper",
    "trim",
    "add",
    "delete",
    "generate",
    "idletasks",
    "title",
    "forget",
    "slaves",
    "propagate",
    "configure",
    "cget",
    "invoke",
    "insert",
    "icursor",
    "activate",
    "curselection",
    "selection",
    "clear",
    "includes",
    "anchor",
    "children",
    "class",
    "height",
    "width",
    "ismapped",
    "name",
    "parent",
    "rootx",
    "rooty",
    "toplevel",
    "reqheight",
    "reqwidth",
    "left",
    "right",
    "top",
    "bottom",
    "both",
    "none",
    "center",
    "raised",
    "sunken",
    "flat",
    "groove",
    "ridge",
    "solid",
    "normal",
    "disabled",
    "browse",
    "multiple",
    "single",
    "now",
    "head",
    "tail",
    "-side",
    "-fill",
    "-expand",
    "-padx",
    "-pady",
    "-anchor",
    "-before",
    "-after",
    "-integer",
    "-decreasing",
    "-exact",
    "-glob",
    "-nocomplain",
    "-code",
    "-keysym",
    "-state",
    "-when",
    "-button",
    "-data",
];

/// The types of events, their modifiers and keys with names.
const EVENTS: [&str; 42] = [
    "Button",
    "ButtonPress",
    "ButtonRelease",
    "Key",
    "KeyPress",
    "KeyRelease",
    "Motion",
    "Enter",
    "Leave",
    "FocusIn",
    "FocusOut",
    "Configure",
    "Map",
    "Unmap",
    "Destroy",
    "Double",
    "Triple",
    "Quadruple",
    "Control",
    "Shift",
    "Alt",
    "Return",
    "Tab",
    "BackSpace",
    "Escape",
    "Delete",
    "Left",
    "Right",
    "Up",
    "Down",
    "Home",
    "End",
    "Prior",
    "Next",
    "space",
    "minus",
    "plus",
    "period",
    "comma",
    "asterisk",
    "slash",
    "F1",
];

/// What to do with words of Tcl and Tk that have no meaning here.
const OTHERWISE: [(&str, &str); 29] = [
    ("package", "leave it out: Tk is there"),
    ("exit", "write destroy ., which closes the panel"),
    ("grid", "write a frame for each row, and pack"),
    ("place", "write pack, in frames"),
    ("labelframe", "write a frame with a label packed first"),
    ("canvas", "write a frame with -background, or labels"),
    ("scrollbar", "leave it out: a list can't be scrolled"),
    ("-yscrollcommand", "leave it out: a list can't be scrolled"),
    ("see", "leave it out: a list can't be scrolled"),
    ("-font", "leave it out: there is one font"),
    ("-justify", "leave it out"),
    ("-default", "leave it out"),
    ("-underline", "leave it out"),
    ("-takefocus", "leave it out"),
    (
        "-show",
        "write a label with the stars, and a binding that collects the code",
    ),
    (
        "-listvariable",
        "write delete 0 end and insert end {*}$items where the variable changes",
    ),
    (
        "trace",
        "write a call where the variable is set, or a binding behind the class's",
    ),
    ("bell", "write a label that tells it"),
    ("tk_messageBox", "write a label that tells it"),
    ("stderr", "leave it out: there is one channel"),
    (
        "format",
        "write a procedure of your own, as proc two {n} {if {$n < 10} {return 0$n}; return $n}",
    ),
    ("is", "write string match, as string match {[0-9]} $c"),
    ("lassign", "write foreach {x y} $list break"),
    ("namespace", "write one array, and global in its procedures"),
    ("variable", "write global"),
    (
        "vwait",
        "write after: a script that waits takes all its steps",
    ),
    ("geometry", "leave it out: the bench says the rectangle"),
    ("resizable", "leave it out: the bench says the rectangle"),
    ("config", "write configure"),
];

/// What stands beside a word in a table.
fn beside(word: &str, rows: &[(&'static str, &'static str)]) -> Option<&'static str>
    ensures { option_map (λ words. words.now) result ≡ beside word.now (rows_of rows.now) }
{
    for row in rows {
        if row.0 == word {
            return Some(row.1);
        }
    }
    None
}

/// What to do with a word of Tcl or Tk that has no meaning here.
pub fn otherwise(word: &str) -> Option<&'static str>
    ensures { option_map (λ words. words.now) result ≡ beside word.now replacements }
{
    beside(word, OTHERWISE.as_slice())
}

/// Words that may be meant, each with how many letters are changed for it.
type Likely<'a> = Vec<(usize, &'a str)>;

/// Adds a word that is near to another: at most half of its letters are changed.
fn take<'a>(
    alloc: Global,
    found: &mut Likely<'a>,
    word: &str,
    candidate: &'a str,
) -> Result<(), AllocError>
    ensures { OnOk result (plain found.new.items ≡ plain found.old.items ++ likely_in word.now (candidate.now ∷ [])) }
{
    match distance_within(alloc, word, candidate)? {
        Some(distance) if distance <= word.len() / 2 => Ok(found.push((distance, candidate))?),
        _ => Ok(()),
    }
}

/// Adds the words of a list that are near to another.
fn take_all<'a>(
    alloc: Global,
    found: &mut Likely<'a>,
    word: &str,
    candidates: &[&'a str],
) -> Result<(), AllocError>
    ensures { OnOk result (plain found.new.items ≡ plain found.old.items ++ likely_in word.now (words_of candidates.now)) }
{
    for candidate in candidates {
        take(alloc, found, word, *candidate)?;
    }
    Ok(())
}

/// Adds the options of widgets that are near to a word.
fn take_options<'a>(
    alloc: Global,
    found: &mut Likely<'a>,
    word: &str,
    rows: &'a [OptionRow],
) -> Result<(), AllocError>
    ensures { OnOk result (plain found.new.items ≡ plain found.old.items ++ likely_in word.now (map (λ row. name_of row.0) rows.now)) }
{
    for row in rows {
        take(alloc, found, word, row.0.name())?;
    }
    Ok(())
}

/// Adds a script's own procedures that are near to a word.
fn take_own<'a>(
    alloc: Global,
    found: &mut Likely<'a>,
    word: &str,
    own: &'a [String],
) -> Result<(), AllocError>
    ensures { OnOk result (plain found.new.items ≡ plain found.old.items ++ likely_in word.now (map string_bytes own.now)) }
{
    for name in own {
        take(alloc, found, word, name.as_str())?;
    }
    Ok(())
}

/// Adds the options of kinds of widgets that are near to a word.
fn take_kinds<'a>(
    alloc: Global,
    found: &mut Likely<'a>,
    word: &str,
    kinds: &[Kind],
) -> Result<(), AllocError>
    ensures { OnOk result (plain found.new.items ≡ plain found.old.items ++ likely_in word.now (flat_map words_of_kind kinds.now)) }
{
    for kind in kinds {
        take_options(alloc, found, word, row_of(*kind).options)?;
    }
    Ok(())
}

/// Adds the name that a key has here, where a word is one that another system gives it.
fn take_key<'a>(found: &mut Likely<'a>, word: &str) -> Result<(), AllocError>
    ensures { OnOk result (plain found.new.items ≡ plain found.old.items ++ key_meant (here_for word.now)) }
{
    match here_for(word) {
        Some(here) => Ok(found.push((0, here))?),
        None => Ok(()),
    }
}

/// All words that may be meant, in the order in which they are looked for.
fn found_for<'a>(alloc: Global, word: &str, own: &'a [String]) -> Result<Likely<'a>, AllocError>
    ensures { IfOk result (λ found. plain found.items ≡ candidates word.now (map string_bytes own.now)) }
{
    let mut found = Vec::new(alloc);
    take_own(alloc, &mut found, word, own)?;
    take_key(&mut found, word)?;
    take_all(alloc, &mut found, word, WORDS.as_slice())?;
    take_all(alloc, &mut found, word, EVENTS.as_slice())?;
    take_kinds(alloc, &mut found, word, KINDS)?;
    Ok(found)
}

/// Words that may be meant, the nearest first.
fn nearest_first<'a>(mut found: Likely<'a>) -> Result<Likely<'a>, AllocError>
    ensures { IfOk result (λ sorted. IsNearestFirst found.entry.items sorted.items) }
{
    found.sort_by_key(|found| found.0)?;
    Ok(found)
}

/// Adds a word, unless it is there or as many are as are tried.
fn push_new<'a>(words: &mut Vec<&'a str>, word: &'a str) -> Result<(), AllocError>
    ensures { OnOk result (map (λ word. word.now) words.new.items ≡ with_word word.now words.old.items) }
{
    if words.len() < MOST_TRIED && !is_known(word, words.as_slice()) {
        words.push(word)?;
    }
    Ok(())
}

/// The first words of those that may be meant, each once.
fn first_of<'a>(alloc: Global, found: &[(usize, &'a str)]) -> Result<Vec<&'a str>, AllocError>
    ensures { IfOk result (λ words. map (λ word. word.now) words.items ≡ front most_tried (distinct (found_words found.now))) }
{
    let mut words: Vec<&'a str> = Vec::new(alloc);
    for one in found {
        push_new(&mut words, one.1)?;
    }
    Ok(words)
}

/// The words that may be meant by one that isn't there, the nearest first: those that have a meaning somewhere, the options of widgets, the types of
/// events and the keys, and a script's own procedures. An error where memory is refused.
pub fn likely<'a>(alloc: Global, word: &str, own: &'a [String]) -> Result<Vec<&'a str>, AllocError>
    ensures { IfOk result (λ words. AreLikely word.now (map string_bytes own.now) (map (λ likely. likely.now) words.items)) }
{
    let found = found_for(alloc, word, own)?;
    let sorted = nearest_first(found)?;
    first_of(alloc, sorted.as_slice())
}
