//! The panels of a bench.

ghost use Rattle.std.specs.Prelude.{◌≡◌, ◌≤◌, codes, Some, option_map, IfErr, IfOk, IfSome};
ghost use Rattle.std.specs.String.{string_bytes};
ghost use Rattle.panels_bench.specs.Messages.{label_of};
ghost use Rattle.panels_bench.specs.Panels.{AreAliasesOf, ArePanels, IsAlias, IsBudget, IsPair, IsPanel, IsRect, IsScript, IsSide, IsSteps, is_said};
ghost use Rattle.panels_bench.specs.Values.{Says, pair_in, pair_of, rect_in, slot_in, slot_named};
ghost use Rattle.panels_text.specs.Tables.{IsRefused, value_of, values_of};
ghost use Rattle.tk_session.specs.Reading.{service_kind};
ghost use Rattle.toml.specs.Data.{string};
ghost use Rattle.toml.specs.View.{items_view, table_view, view};

use crate::values::{text_in, text_of};
use panels_text::{Failure, Part, file_beside, in_range, plain_script, serving};
use std::alloc::{AllocError, Global};
use std::fs;
use std::rt::Files;
use tcl_text::Text;
use tk_base::{Budget, Rect};
use tk_session::{AliasLine, AppBlock, Listing, Service, ServiceKind};
use toml::Value;

/// The largest place and size of a rectangle, in pixels.
const MAX_PIXELS: u64 = 32_767;

const MAX_BUDGET: u64 = 10_000_000;

const KEYS: [&str; 11] = [
    "name",
    "script",
    "text",
    "at",
    "size",
    "steps",
    "aliases",
    "expect",
    "expect-steps",
    "errors",
    "exhausted",
];

const ALIAS_KEYS: [&str; 3] = ["name", "kind", "config"];

const KINDS: [&str; 5] = ["const", "upper", "sum", "table", "fail"];

/// What is said of a panel beside its application.
#[derive(Drop)]
pub struct Side {
    /// Its line in the bench.
    pub line: usize,
    /// The file of its script, where it has one.
    pub script: Option<String>,
    /// The file of the section that it has to end with.
    pub expect: Option<String>,
    /// Whether the steps left have to be those of that file too.
    pub counts_steps: bool,
    /// Whether scripts may end with errors.
    pub may_fail: bool,
    /// Whether it may spend all its steps.
    pub may_run_out: bool,
}

/// What the script of a panel is told by: its file, or else the bench's with the panel's name.
pub fn label_of(alloc: Global, file: &str, side: &Side, panel: &str) -> Result<String, AllocError>
    ensures { IfOk result (λ label. string_bytes label ≡ label_of file.now side.now panel.now) }
{
    match &side.script {
        Some(name) => file_beside(alloc, file, name.as_str()),
        None => format!(in alloc; "{file}, panel {panel}"),
    }
}

/// The slot of the panel of this name.
pub(crate) fn slot_of(panels: &[AppBlock], name: &str) -> Option<usize>
    ensures { result ≡ slot_named panels.now name.now }
{
    for (slot, panel) in panels.iter().enumerate() {
        if panel.name.as_str() == name {
            return Some(slot);
        }
    }
    None
}

/// That no panel has this name, and which would serve.
fn no_panel(
    alloc: Global,
    part: &Part<'_>,
    key: &str,
    name: &str,
    panels: &[AppBlock],
) -> Result<Failure, AllocError> {
    let mut names = Vec::new(alloc);
    for panel in panels {
        names.push(panel.name.as_str())?;
    }
    let serves = serving(alloc, name, names.as_slice())?;
    let words = format!(in alloc; "there is no panel {name}: {serves}")?;
    Ok(part.fault(alloc, key, words.as_str()))
}

/// The slot of the panel of a name, which a key has.
pub(crate) fn slot_by(
    alloc: Global,
    part: &Part<'_>,
    key: &str,
    name: &str,
    panels: &[AppBlock],
) -> Result<usize, Failure>
    ensures { Says (λ slot. slot) result (slot_named panels.now name.now) }
{
    match slot_of(panels, name) {
        Some(slot) => Ok(slot),
        None => Err(no_panel(alloc, part, key, name, panels)?),
    }
}

/// The slot of the panel that a key names.
pub(crate) fn slot_named(
    alloc: Global,
    part: &Part<'_>,
    key: &str,
    panels: &[AppBlock],
) -> Result<usize, Failure>
    ensures { Says (λ slot. slot) result (slot_in panels.now (value_of part.now key.now)) }
{
    let name = text_in(alloc, part, key, "the name of a panel")?;
    slot_by(alloc, part, key, name, panels)
}

/// Two numbers, none larger than `most`.
fn pair_of(values: &[Value], most: u64) -> Option<(u64, u64)>
    ensures pair { result ≡ pair_of most (items_view values.now) }
    ensures most { IfSome result (λ pair. (pair.0 ≤ most) × (pair.1 ≤ most)) }
{
    let [one, other] = values else {
        return None;
    };
    let one = in_range(one, most)?;
    let other = in_range(other, most)?;
    Some((one, other))
}

/// Two numbers of an array, none larger than `most`.
fn pair(
    alloc: Global,
    part: &Part<'_>,
    key: &str,
    most: u64,
    wanted: &str,
) -> Result<(u64, u64), Failure>
    ensures said { Says (λ pair. pair) result (pair_in most (value_of part.now key.now)) }
    ensures pair { IfOk result (λ pair. IsPair most (value_of part.now key.now) pair.0 pair.1 × (pair.0 ≤ most) × (pair.1 ≤ most)) }
    ensures refused { IfErr result (λ failure. IsRefused part.now key.now wanted.now failure) }
{
    match pair_of(part.array(alloc, key, wanted)?, most) {
        Some(pair) => Ok(pair),
        None => Err(part.refused(alloc, key, wanted)),
    }
}

/// The rectangle of `at` and `size`.
pub(crate) fn rect(alloc: Global, part: &Part<'_>) -> Result<Rect, Failure>
    ensures rect { IfOk result (λ rect. IsRect (table_view part.now.table.now) rect) }
    ensures said { Says (λ rect. rect) result (rect_in (table_view part.now.table.now)) }
{
    let wanted = "two numbers of pixels up to 32767, as [100, 60]";
    let (x, y) = pair(alloc, part, "at", MAX_PIXELS, wanted)?;
    let (width, height) = pair(alloc, part, "size", MAX_PIXELS, wanted)?;
    Ok(Rect {
        x: x as u32,
        y: y as u32,
        width: width as u32,
        height: height as u32,
    })
}

/// The number that a text spells, up to the greatest budget.
fn steps_of(text: &str) -> Option<u64>
    ensures { IfSome result (IsSteps text.now) }
{
    let steps = text.parse::<u64>().ok()?;
    if steps <= MAX_BUDGET {
        Some(steps)
    } else {
        None
    }
}

/// The budget of `60` or `60/5`.
fn budget_of(value: &Value) -> Option<Budget>
    ensures { IfSome result (IsBudget (Some (view value.now))) }
{
    let Value::String(text) = value else {
        let total = in_range(value, MAX_BUDGET)?;
        return Some(Budget { total, refill: 0 });
    };
    let (total, refill) = text.as_str().split_once('/')?;
    Some(Budget {
        total: steps_of(total)?,
        refill: steps_of(refill)?,
    })
}

/// The budget of a panel.
fn budget(alloc: Global, part: &Part<'_>) -> Result<Budget, Failure>
    ensures { IfOk result (IsBudget (value_of part.now (codes "steps"))) }
{
    if let Some(value) = part.table.get("steps") {
        if let Some(budget) = budget_of(value) {
            return Ok(budget);
        }
    }
    let wanted = "steps up to 10000000, as 60, or \"60/5\" where each event gives 5 back";
    Err(part.refused(alloc, "steps", wanted))
}

/// A text that has to be there.
fn needed<'a>(alloc: Global, part: &Part<'a>, key: &str) -> Result<&'a str, Failure>
    ensures { IfOk result (λ text. value_of part.now key.now ≡ Some (string text.now)) }
{
    text_in(alloc, part, key, "a text between quotes")
}

fn kind_of(word: &str) -> Option<ServiceKind>
    ensures { result ≡ service_kind word.now }
{
    match word {
        "const" => Some(ServiceKind::Const),
        "upper" => Some(ServiceKind::Upper),
        "sum" => Some(ServiceKind::Sum),
        "table" => Some(ServiceKind::Table),
        "fail" => Some(ServiceKind::Fail),
        _ => None,
    }
}

fn alias(alloc: Global, part: &Part<'_>) -> Result<AliasLine, Failure>
    ensures { IfOk result (IsAlias (table_view part.now.table.now)) }
{
    part.check_keys(alloc, ALIAS_KEYS.as_slice())?;
    let word = needed(alloc, part, "kind")?;
    let Some(kind) = kind_of(word) else {
        let serves = serving(alloc, word, KINDS.as_slice())?;
        let words = format!(in alloc; "there is no kind of alias {word}: {serves}")?;
        return Err(part.fault(alloc, "kind", words.as_str()));
    };
    let name = text_of(alloc, part, "name", needed(alloc, part, "name")?)?;
    let config = part.text(alloc, "config")?.unwrap_or("");
    let config = text_of(alloc, part, "config", config)?;
    Ok(AliasLine {
        name,
        service: Service { kind, config },
    })
}

fn aliases(alloc: Global, part: &Part<'_>) -> Result<Listing<AliasLine>, Failure>
    ensures { IfOk result (AreAliasesOf (values_of (value_of part.now (codes "aliases")))) }
{
    let wanted = "tables, as [{ name = \"place\", kind = \"const\", config = \"Hall 7\" }]";
    let mut lines = Listing::new(alloc);
    for value in part.array(alloc, "aliases", wanted)? {
        let Value::Table(table) = value else {
            return Err(part.refused(alloc, "aliases", wanted));
        };
        lines.push(alias(alloc, &part.inner("aliases", table))?)?;
    }
    Ok(lines)
}

/// The script of a panel, of a file or of the bench itself.
fn script<R: Files + AllocGlobal>(rt: &R, part: &Part<'_>) -> Result<Text, Failure>
    ensures { IfOk result (IsScript (value_of part.now (codes "script")) (value_of part.now (codes "text"))) }
{
    let alloc = rt.alloc();
    let script = match (part.text(alloc, "script")?, part.text(alloc, "text")?) {
        (None, Some(text)) => plain_script(alloc, text)?,
        (Some(name), None) => {
            let path = file_beside(alloc, part.file, name)?;
            let Ok(text) = fs::read_to_string(rt, path.as_str()) else {
                let words = format!(in alloc;
                    "script {name} can't be read, or isn't UTF-8: a script's name is that of a file from the bench's folder on"
                )?;
                return Err(part.fault(alloc, "script", words.as_str()));
            };
            plain_script(alloc, text.as_str())?
        }
        _ => {
            let words =
                "a panel has one of script, the name of a file beside the bench, and text, the script itself";
            return Err(part.fault(alloc, "script", words));
        }
    };
    text_of(alloc, part, "script", script.as_str())
}

/// Whether a key is true; it isn't where it isn't there.
fn is_said(alloc: Global, part: &Part<'_>, key: &str) -> Result<bool, Failure>
    ensures { IfOk result (λ said. is_said (value_of part.now key.now) ≡ Some said) }
{
    Ok(part.boolean(alloc, key)?.unwrap_or(false))
}

fn copied(alloc: Global, text: Option<&str>) -> Result<Option<String>, AllocError>
    ensures { IfOk result (λ copy. option_map string_bytes copy ≡ option_map (λ text. text.now) text.entry) }
{
    match text {
        None => Ok(None),
        Some(text) => Ok(Some(String::from_str(alloc, text)?)),
    }
}

fn side_of(alloc: Global, part: &Part<'_>) -> Result<Side, Failure>
    ensures { IfOk result (IsSide part.now) }
{
    Ok(Side {
        line: part.line("name"),
        script: copied(alloc, part.text(alloc, "script")?)?,
        expect: copied(alloc, part.text(alloc, "expect")?)?,
        counts_steps: is_said(alloc, part, "expect-steps")?,
        may_fail: is_said(alloc, part, "errors")?,
        may_run_out: is_said(alloc, part, "exhausted")?,
    })
}

fn panel<R: Files + AllocGlobal>(rt: &R, part: &Part<'_>) -> Result<AppBlock, Failure>
    ensures { IfOk result (IsPanel (table_view part.now.table.now)) }
{
    let alloc = rt.alloc();
    part.check_keys(alloc, KEYS.as_slice())?;
    let name = text_of(alloc, part, "name", needed(alloc, part, "name")?)?;
    let script = script(rt, part)?;
    let rect = rect(alloc, part)?;
    let budget = budget(alloc, part)?;
    let aliases = aliases(alloc, part)?;
    Ok(AppBlock {
        name,
        rect,
        budget,
        aliases,
        script,
    })
}

/// The panels of a bench, and what is said of them beside.
pub(crate) fn sides<R: Files + AllocGlobal>(
    rt: &R,
    parts: &[Part<'_>],
) -> Result<(Vec<AppBlock>, Vec<Side>), Failure>
    ensures { IfOk result (λ read. ArePanels parts.now read.0.items read.1.items) }
{
    let alloc = rt.alloc();
    let mut panels = Vec::new(alloc);
    let mut sides = Vec::new(alloc);
    for part in parts {
        panels.push(panel(rt, part)?)?;
        sides.push(side_of(alloc, part)?)?;
    }
    Ok((panels, sides))
}
