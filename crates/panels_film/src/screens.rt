//! What is known of a screen.

ghost use Rattle.std.specs.Prelude.{◌≡◌, IfOk};
ghost use Rattle.panels_film.specs.Screens.{after, at_first, grown, holding, holding_lines, known, pixel, placed};

use panels::Screen;
use std::alloc::{AllocError, Global};
use tk_base::Rect;
use tk_session::{AppBlock, EventLine, HostLine};

/// What is known of the screen of panels after lines. An error where memory is refused.
pub fn screen_after(
    alloc: Global,
    panels: &[AppBlock],
    events: &[EventLine],
) -> Result<Screen, AllocError>
    ensures { IfOk result (λ screen. known screen ≡ after events.now (at_first panels.now)) }
{
    let mut screen = Screen::new(alloc, panels)?;
    for event in events {
        screen.take(event.line);
    }
    Ok(screen)
}

/// A width and a height, in pixels.
#[derive(Clone, Copy, Debug, PartialEq, Eq)]
pub struct Extent {
    pub width: u64,
    pub height: u64,
}

impl Extent {
    /// One that holds a rectangle too.
    fn grown(self, rect: Rect) -> Extent
        ensures { result ≡ grown rect self }
    {
        let right = u64::from(rect.x) + u64::from(rect.width);
        let bottom = u64::from(rect.y) + u64::from(rect.height);
        Extent {
            width: self.width.max(right),
            height: self.height.max(bottom),
        }
    }

    /// One that holds what a line places too.
    fn with_line(self, line: HostLine) -> Extent
        ensures { result ≡ placed line self }
    {
        match line {
            HostLine::Rect { slot: _, rect } => self.grown(rect),
            HostLine::Move { .. }
            | HostLine::Press(_)
            | HostLine::Release(_)
            | HostLine::Keydown(_)
            | HostLine::Keyup(_)
            | HostLine::Focus(_) => self,
        }
    }
}

/// What holds the panels where they are at first.
fn first_extent(panels: &[AppBlock]) -> Extent
    ensures { result ≡ holding panels.now pixel }
{
    let mut extent = Extent {
        width: 1,
        height: 1,
    };
    for panel in panels {
        extent = extent.grown(panel.rect);
    }
    extent
}

/// The width and the height of a screen that holds panels wherever these lines place them.
pub fn extent_of(panels: &[AppBlock], events: &[EventLine]) -> Extent
    ensures { result ≡ holding_lines events.now (holding panels.now pixel) }
{
    let mut extent = first_extent(panels);
    for event in events {
        extent = extent.with_line(event.line);
    }
    extent
}
