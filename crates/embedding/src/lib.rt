//! Two applications in one host, of which one never ends, and what the other has shown when both have run for ten milliseconds.
#![tactic(auto)]

mod greeting;

use anyhow::Result;
pub use greeting::section_of_the_greeted;
use std::alloc::Global;
use tcl_text::Text;
use tk_host::{Aliases, Budget, Host, NoAlias, Rect};

const LEFT: Rect = Rect {
    x: 0,
    y: 0,
    width: 100,
    height: 50,
};

const RIGHT: Rect = Rect { x: 100, ..LEFT };

/// So many steps, once and for all.
const BUDGET: Budget = Budget {
    total: 1_000,
    refill: 0,
};

/// What the application beside the one that never ends has shown after ten milliseconds.
pub fn section_beside_a_runaway(alloc: Global) -> Result<Vec<u8>> {
    let mut host: Host<NoAlias> = Host::new(alloc, 64)?;
    for (name, rect, script) in [
        ("runaway", LEFT, "while 1 {}"),
        ("gauge", RIGHT, "after 5 {puts ready}"),
    ] {
        let (name, script) = (Text::new(alloc, name)?, Text::new(alloc, script)?);
        host.add_app(name, rect, script, BUDGET, Aliases::new(alloc))?;
    }
    host.start()?;
    host.advance_to(10)?;
    Ok(host.section(1)?)
}
