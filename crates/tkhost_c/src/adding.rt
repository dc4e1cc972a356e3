//! Adding applications and their aliases.
ghost use Rattle.tkhost_c.specs.Calls.{Adds, On, Waits, kind_of};

use crate::place::Place;
use crate::refusal::{Refusal, number_for};
use crate::taking::{put, take};
use std::alloc::Global;
use tk_host::{Budget, Rect};

/// An alias waits for the application that is added next.
#[unsafe(no_mangle)]
pub extern "C" fn tkhost_alias(
    alloc: Global,
    host: &mut Place,
    name: &[u8],
    kind: u32,
    config: &[u8],
) -> u32
    ensures { On host.old.kept host.new.kept result (Waits (kind_of kind) name.now config.now) }
{
    match take(host, alloc) {
        Some(mut kept) => {
            let answer = kept.wait(alloc, name, kind, config);
            put(host, kept);
            number_for(answer)
        }
        None => number_for(Err(Refusal::NoHost)),
    }
}

/// Adds an application with the aliases that wait.
#[unsafe(no_mangle)]
pub extern "C" fn tkhost_add(
    alloc: Global,
    host: &mut Place,
    name: &[u8],
    x: u32,
    y: u32,
    width: u32,
    height: u32,
    script: &[u8],
    total: u64,
    refill: u64,
) -> u32
    ensures { On host.old.kept host.new.kept result (Adds name.now (record { x = x; y = y; width = width; height = height }) script.now (record { total = total; refill = refill })) }
{
    match take(host, alloc) {
        Some(mut kept) => {
            let answer = kept.add(
                alloc,
                name,
                Rect {
                    x,
                    y,
                    width,
                    height,
                },
                script,
                Budget { total, refill },
            );
            put(host, kept);
            number_for(answer)
        }
        None => number_for(Err(Refusal::NoHost)),
    }
}
