ghost use Rattle.std.specs.Prelude.{◌≡◌, ℕ, IfOk};
ghost use Rattle.tk_panel.specs.Fresh.{nothing};
ghost use Rattle.tk_panel.specs.Shared.{panel_of};

use crate::clock::Clock;
use crate::transcript::Transcripts;
use std::alloc::{AllocError, Global};
use tcl_table::ScriptCache;
use tk_after::Timers;
use tk_dispatch::{EventQueue, Histories};
use tk_inputs::Inputs;
use tk_patterns::BindTable;
use tk_screen::MarkedScreen;
use tk_virtual::VirtualTable;

/// How many scripts that were read are kept for all applications.
const KEPT_SCRIPTS: usize = 256;

/// The tables of all applications. What one application has in each is told apart by its slot.
pub struct Tables {
    pub alloc: Global,
    pub clock: Clock,
    pub screen: MarkedScreen,
    pub bindings: BindTable,
    pub virtuals: VirtualTable,
    pub histories: Histories,
    pub queue: EventQueue,
    pub inputs: Inputs,
    pub timers: Timers,
    pub transcripts: Transcripts,
    /// What was read of scripts, which no application can tell.
    pub scripts: ScriptCache,
}

impl Tables {
    /// No application has anything, at moment 0.
    pub fn new(alloc: Global) -> Result<Tables, AllocError>
        ensures moment { IfOk result (λ tables. tables.clock ≡ 0) }
        ensures nothing { IfOk result (λ tables. (slot : ℕ) → panel_of slot tables ≡ nothing 0) }
    {
        Ok(Tables {
            alloc,
            clock: Clock::new(),
            screen: MarkedScreen::new(alloc),
            bindings: BindTable::new(alloc),
            virtuals: VirtualTable::new(alloc),
            histories: Histories::new(alloc)?,
            queue: EventQueue::new(alloc),
            inputs: Inputs::new(alloc),
            timers: Timers::new(alloc),
            transcripts: Transcripts::new(alloc),
            scripts: ScriptCache::new(alloc, KEPT_SCRIPTS)?,
        })
    }
}

/// By hand: a proof sees one call where it is dropped, and not its parts.
impl Drop for Tables {
    fn drop(self) {
        let Tables {
            alloc: _,
            clock: _,
            screen: _,
            bindings: _,
            virtuals: _,
            histories: _,
            queue: _,
            inputs: _,
            timers: _,
            transcripts: _,
            scripts: _,
        } = self;
    }
}
