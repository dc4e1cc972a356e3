//! Handles: how they are made and freed.
ghost use Rattle.std.specs.Prelude.{◌≡◌, Result, None};
ghost use Rattle.tkhost_c.specs.declared.refusal.Refusal.{Refusal as RefusalOf};
ghost use Rattle.tkhost_c.specs.Calls.{IsFreed, IsMade};
ghost use Rattle.tkhost_c.specs.Numbers.{number_for};

use crate::kept::Kept;
use crate::place::Place;
use crate::refusal::{Refusal, number_for};
use crate::taking::{put, take};
use std::alloc::Global;
use tk_host::LineFault;

/// Makes a host, of turns of at most `slice` steps, for a handle that has none.
#[unsafe(no_mangle)]
pub extern "C" fn tkhost_new(alloc: Global, host: &mut Place, slice: u64) -> u32
    ensures { (answer : Result (Unit {0}) RefusalOf) × (result ≡ number_for answer) × IsMade slice host.old.kept host.new.kept answer }
{
    match take(host, alloc) {
        Some(kept) => {
            put(host, kept);
            number_for(Err(Refusal::HasHost))
        }
        None => number_for(make(alloc, host, slice)),
    }
}

/// Makes a host for a place that keeps none.
fn make(alloc: Global, host: &mut Place, slice: u64) -> Result<(), Refusal>
    requires { host.old.kept ≡ None }
    ensures { IsMade slice host.old.kept host.new.kept result }
{
    if slice == 0 {
        return Err(Refusal::Fault(LineFault::BadLine));
    }
    let kept = Box::new(alloc, Kept::new(alloc, slice)?)?;
    put(host, kept);
    Ok(())
}

/// Frees a host, of which the handle then has none.
#[unsafe(no_mangle)]
pub extern "C" fn tkhost_free(alloc: Global, host: &mut Place) -> u32
    ensures { (answer : Result (Unit {0}) RefusalOf) × (result ≡ number_for answer) × IsFreed host.old.kept host.new.kept answer }
{
    number_for(free(alloc, host))
}

/// Lets what a place keeps go.
fn free(alloc: Global, host: &mut Place) -> Result<(), Refusal>
    ensures { IsFreed host.old.kept host.new.kept result }
{
    match take(host, alloc) {
        Some(kept) => {
            drop(kept);
            Ok(())
        }
        None => Err(Refusal::NoHost),
    }
}
