//! Whether a panel shows the same beside other neighbours.

ghost use Rattle.std.specs.Prelude.{◌≡◌, ◌++◌, ◌∷◌, [], Some, map, IfOk, OnOk};
ghost use Rattle.std.specs.String.{string_bytes};
ghost use Rattle.panels.specs.Beside.{beside};
ghost use Rattle.panels_report.specs.Isolation.{IsUndisturbed, accompanied, different, disturbances, far_neighbour, other_name, section_beside, there_words};

use panels::{Bench, BenchFault, Neighbours, Played, beside, is_same, sections_with};
use panels_film::{copies, section_in};
use panels_text::differences;
use std::alloc::{AllocError, Global};
use tcl_text::Text;
use tk_base::{Budget, Rect};
use tk_session::{AppBlock, EventLine, Listing};

/// A name that a panel hasn't.
fn other_name(name: &str) -> &'static str
    ensures { result.now ≡ other_name name.now }
{
    if name == "neighbour" {
        "neighbour2"
    } else {
        "neighbour"
    }
}

/// A neighbour for a panel that has none, in the farthest pixel of the screen.
fn far_neighbour(alloc: Global, panel: &AppBlock) -> Result<AppBlock, AllocError>
    ensures { IfOk result (λ other. other ≡ far_neighbour panel.now) }
{
    Ok(AppBlock {
        name: Text::of_short(alloc, other_name(panel.name.as_str()))?,
        rect: Rect {
            x: 32_767,
            y: 32_767,
            width: 1,
            height: 1,
        },
        budget: Budget {
            total: 0,
            refill: 0,
        },
        aliases: Listing::new(alloc),
        script: Text::empty(),
    })
}

/// The same panels; with a neighbour where there is but one.
fn accompanied(alloc: Global, panels: &[AppBlock]) -> Result<Vec<AppBlock>, AllocError>
    ensures { IfOk result (λ others. others.items ≡ accompanied panels.now) }
{
    let mut others = copies(alloc, panels)?;
    if let [panel] = panels {
        others.push(far_neighbour(alloc, panel)?)?;
    }
    Ok(others)
}

/// A bench in which all panels but that of a slot are others; none of its entries.
fn bench_beside(
    alloc: Global,
    bench: &Bench,
    slot: usize,
    neighbours: Neighbours,
) -> Result<Bench, AllocError>
    ensures panels { IfOk result (λ other. other.panels.items ≡ beside neighbours (Some slot) (accompanied bench.now.panels.items)) }
    ensures end { IfOk result (λ other. other.end ≡ bench.now.end) }
{
    let panels = accompanied(alloc, bench.panels.as_slice())?;
    Ok(Bench {
        panels: beside(alloc, panels, slot, neighbours)?,
        entries: Vec::new(alloc),
        end: bench.end,
    })
}

/// What the section of a panel is beside other neighbours, with the same lines. Refused as `sections_with` of panels refuses.
fn section_beside(
    alloc: Global,
    bench: &Bench,
    events: &[EventLine],
    slice: u64,
    slot: usize,
    neighbours: Neighbours,
) -> Result<Vec<u8>, BenchFault>
    ensures { IfOk result (λ section. section.items ≡ section_beside neighbours bench.now events.now slot) }
{
    let other = bench_beside(alloc, bench, slot, neighbours)?;
    let sections = sections_with(alloc, &other, events, slice.max(1))?;
    Ok(Vec::from_slice(alloc, section_in(sections.as_slice(), slot))?)
}

/// Adds a difference there.
fn push_one(
    alloc: Global,
    problems: &mut Vec<String>,
    there: &str,
    difference: &str,
) -> Result<(), AllocError>
    ensures { OnOk result (map string_bytes problems.new.items ≡ map string_bytes problems.old.items ++ there_words there.now difference.now ∷ []) }
{
    let words = format!(in alloc; "{there} it shows something else: {difference}")?;
    Ok(problems.push(words)?)
}

/// Adds what a panel shows otherwise there.
fn push_there(
    alloc: Global,
    problems: &mut Vec<String>,
    there: &str,
    found: &[String],
) -> Result<(), AllocError>
    ensures { OnOk result (map string_bytes problems.new.items ≡ map string_bytes problems.old.items ++ map (there_words there.now) (map string_bytes found.now)) }
{
    for difference in found {
        push_one(alloc, problems, there, difference.as_str())?;
    }
    Ok(())
}

/// Adds what a panel shows otherwise there, where it isn't the same bytes.
fn push_different(
    alloc: Global,
    problems: &mut Vec<String>,
    there: &str,
    own: &[u8],
    other: &[u8],
) -> Result<(), AllocError>
    ensures same { own.now ≡ other.now → OnOk result (problems.new.items ≡ problems.old.items) }
    ensures different { OnOk result (map string_bytes problems.new.items ≡ map string_bytes problems.old.items ++ different there.now own.now other.now) }
{
    if is_same(own, other) {
        return Ok(());
    }
    let found = differences(alloc, own, other)?;
    push_there(alloc, problems, there, found.as_slice())
}

/// What the panel in a slot shows otherwise than it showed, where it is played alone and beside neighbours that never end, with the same lines. Nothing where
/// its sections are the same bytes. Refused as `sections_with` of panels refuses.
pub fn disturbances(
    alloc: Global,
    bench: &Bench,
    played: &Played,
    slice: u64,
    slot: usize,
) -> Result<Vec<String>, BenchFault>
    ensures undisturbed { IsUndisturbed bench.now played.now slot → IfOk result (λ problems. problems.items ≡ []) }
    ensures told { IfOk result (λ problems. map string_bytes problems.items ≡ disturbances bench.now played.now slot) }
{
    let mut problems = Vec::new(alloc);
    let events = played.events.as_slice();
    let own = section_in(played.sections.as_slice(), slot);
    let alone = section_beside(alloc, bench, events, slice, slot, Neighbours::Blank)?;
    push_different(alloc, &mut problems, "alone", own, alone.as_slice())?;
    let beside = section_beside(alloc, bench, events, slice, slot, Neighbours::Endless)?;
    let there = "beside endless neighbours";
    push_different(alloc, &mut problems, there, own, beside.as_slice())?;
    Ok(problems)
}
