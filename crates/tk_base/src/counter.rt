//! Counters of applications.
ghost use Rattle.std.specs.Prelude.{◌≡◌, ◌-◌, ◌<◌, OnOk, OnErr};
ghost use Rattle.tk_base.specs.Counters.{next_of, count_of, Counts};

use std::alloc::AllocError;
use std::collections::HashMap;

/// What is counted for one application, whose items have numbers of their own.
#[derive(Clone, Copy, Debug, PartialEq, Eq)]
pub struct Counter {
    /// The number that comes next. Numbers are never given again.
    pub next: u64,
    /// How many items it has.
    pub count: usize,
}

/// An application's counter; from 0 at first.
pub fn counter_of(counters: &HashMap<usize, Counter>, owner: usize) -> Counter
    ensures next { result.next ≡ next_of owner counters.now.entries }
    ensures count { result.count ≡ count_of owner counters.now.entries }
{
    match counters.get(&owner) {
        Some(counter) => *counter,
        None => Counter { next: 0, count: 0 },
    }
}

/// Gives an application this counter.
pub fn set_counter(
    counters: &mut HashMap<usize, Counter>,
    owner: usize,
    counter: Counter,
) -> Result<(), AllocError>
    ensures ok { OnOk result (Counts owner counter counters.old.entries counters.new.entries) }
    ensures err { OnErr result (counters.new.entries ≡ counters.old.entries) }
{
    counters.insert(owner, counter)?;
    Ok(())
}

/// Counts an item of an application less.
pub fn count_less(counters: &mut HashMap<usize, Counter>, owner: usize)
    requires { 0 < count_of owner counters.old.entries }
    ensures { Counts owner (record { next = next_of owner counters.old.entries; count = count_of owner counters.old.entries - 1 })
        counters.old.entries counters.new.entries }
{
    if let Some(counter) = counters.get_mut(&owner) {
        counter.count -= 1;
    }
}
