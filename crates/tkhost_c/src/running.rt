//! The calls that run applications.
ghost use Rattle.tkhost_c.specs.Calls.{Advances, Ends, On, Starts};

use crate::doing::{Deed, done};
use crate::place::Place;
use std::alloc::Global;

/// Runs each application's script at moment 0, and what is due then.
#[unsafe(no_mangle)]
pub extern "C" fn tkhost_start(alloc: Global, host: &mut Place) -> u32
    ensures { On host.old.kept host.new.kept result (Starts) }
{
    done(alloc, host, &Deed::Start)
}

/// Goes on to a moment.
#[unsafe(no_mangle)]
pub extern "C" fn tkhost_advance(alloc: Global, host: &mut Place, moment: u64) -> u32
    ensures { On host.old.kept host.new.kept result (Advances moment) }
{
    done(alloc, host, &Deed::Advance(moment))
}

/// Goes on to the last moment.
#[unsafe(no_mangle)]
pub extern "C" fn tkhost_end(alloc: Global, host: &mut Place, moment: u64) -> u32
    ensures { On host.old.kept host.new.kept result (Ends moment) }
{
    done(alloc, host, &Deed::End(moment))
}
