//! A panel beside other neighbours than its own.

ghost use Rattle.std.specs.Prelude.{◌≡◌, Some, IfOk};
ghost use Rattle.panels.specs.Beside.{after, beside, budget_of, neighbour, script_of, stood};

use std::alloc::{AllocError, Global};
use tcl_text::Text;
use tk_base::Budget;
use tk_session::{AppBlock, Listing};

/// What stands in the place of a panel's neighbours.
#[derive(Clone, Copy, Debug, PartialEq, Eq)]
pub enum Neighbours {
    /// Panels with no script and no steps: it is alone.
    Blank,
    /// Panels whose scripts never end.
    Endless,
}

impl Neighbours {
    fn script(self) -> &'static str
        ensures { result.now ≡ script_of self }
    {
        match self {
            Neighbours::Blank => "",
            Neighbours::Endless => "while 1 {}",
        }
    }

    fn budget(self) -> Budget
        ensures { result ≡ budget_of self }
    {
        match self {
            Neighbours::Blank => Budget {
                total: 0,
                refill: 0,
            },
            Neighbours::Endless => Budget {
                total: 10_000,
                refill: 100,
            },
        }
    }
}

/// What stands in the place of a panel, with its name and its rectangle.
fn neighbour(alloc: Global, panel: AppBlock, neighbours: Neighbours) -> Result<AppBlock, AllocError>
    ensures { IfOk result (λ other. other ≡ neighbour neighbours panel) }
{
    let mut other = panel;
    other.budget = neighbours.budget();
    other.aliases = Listing::new(alloc);
    other.script = Text::of_short(alloc, neighbours.script())?;
    Ok(other)
}

/// What comes after a panel: how many more there are before the one that stays, while it hasn't come.
fn after(before: Option<usize>) -> Option<usize>
    ensures { result ≡ after before }
{
    match before {
        Some(0) => None,
        Some(count) => Some(count - 1),
        None => None,
    }
}

/// A panel, or what stands in its place, where so many come before the one that stays.
fn stood(
    alloc: Global,
    panel: AppBlock,
    before: Option<usize>,
    neighbours: Neighbours,
) -> Result<AppBlock, AllocError>
    ensures { IfOk result (λ other. other ≡ stood neighbours before panel) }
{
    match before {
        Some(0) => Ok(panel),
        Some(_) | None => neighbour(alloc, panel, neighbours),
    }
}

/// These panels, but in the place of each but the one in slot `kept` another. An error where memory is refused.
pub fn beside(
    alloc: Global,
    panels: Vec<AppBlock>,
    kept: usize,
    neighbours: Neighbours,
) -> Result<Vec<AppBlock>, AllocError>
    ensures { IfOk result (λ others. others.items ≡ beside neighbours (Some kept) panels.items) }
{
    let mut others = Vec::new(alloc);
    let mut before = Some(kept);
    for panel in panels {
        others.push(stood(alloc, panel, before, neighbours)?)?;
        before = after(before);
    }
    Ok(others)
}
