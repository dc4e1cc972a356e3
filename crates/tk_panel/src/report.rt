//! Lines of a transcript.
ghost use Rattle.std.specs.Prelude.{◌≡◌, OnOk};
ghost use Rattle.tk_panel.specs.Shared.{LeavesOthers, panel_of};
ghost use Rattle.tk_panel.specs.Reports.{with_line};

use crate::tables::Tables;
use crate::transcript::{Line, Stream};
use std::alloc::AllocError;
use tcl_text::Text;

/// Adds a line to what an application wrote, at the moment.
pub fn write(tables: &mut Tables, slot: usize, stream: Stream, text: Text) -> Result<(), AllocError>
    ensures own { OnOk result (panel_of slot tables.new ≡ with_line stream text (panel_of slot tables.old)) }
    ensures others { LeavesOthers slot tables.old tables.new }
{
    let moment = tables.clock.moment();
    tables.transcripts.write(
        slot,
        Line {
            stream,
            moment,
            text,
        },
    )
}
