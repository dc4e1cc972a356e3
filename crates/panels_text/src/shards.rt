//! Shares of the benches of a check, for runs side by side.

ghost use Rattle.std.specs.Prelude.{◌≡◌, ◌<◌, IfNone, IfOk, IfSome, Ok};

use crate::failure::{Failure, fault};
use crate::files::write;
use std::env;
use std::env::{Env, VarError};
use std::rt::Files;

/// A share: of so many, the benches of each number that this one has.
#[derive(Clone, Copy, Debug, PartialEq, Eq)]
pub struct Shard {
    /// From 0 on.
    pub index: usize,
    pub count: usize,
}

impl Shard {
    ghost use Rattle.std.specs.Prelude.{◌≡◌, ℕ, ◌<◌, ◌≤◌, true, IfNone, IfSome, IsTrue};
    ghost use Rattle.panels_text.specs.declared.shards.Shard.{Shard};
    ghost use Rattle.panels_text.specs.Verdicts.{is_in_share};

    /// All benches.
    pub const WHOLE: Shard = Shard { index: 0, count: 1 };

    /// The share of this number, from 0 on, where there are so many.
    fn new(index: usize, count: usize) -> Option<Shard>
        ensures some { IfSome result (λ shard. (shard ≡ record { index = index; count = count }) × (index < count)) }
        ensures none { IfNone result (count ≤ index) }
    {
        if index < count {
            Some(Shard { index, count })
        } else {
            None
        }
    }

    /// Whether the bench of this number, from 0 on, is in the share.
    pub fn has(self, number: usize) -> bool
        ensures share { result ≡ is_in_share self number }

        // Of as many shares each bench is in one, and in no other.
        ensures once { (other : Shard) → 0 < self.count → other.count ≡ self.count → IsTrue result → is_in_share other number ≡ true → other.index ≡ self.index }
        ensures somewhere { 0 < self.count → (index : ℕ) × (index < self.count) × (is_in_share (record { index = index; count = self.count }) number ≡ true) }
    {
        self.count == 0 || number % self.count == self.index
    }
}

/// The share that a word names, as `1/4` the first of four.
pub fn shard_named(word: &str) -> Option<Shard>
    ensures { IfSome result (λ shard. shard.index < shard.count) }
{
    let (number, count) = word.split_once('/')?;
    let index = number.parse::<usize>().ok()?.checked_sub(1)?;
    Shard::new(index, count.parse::<usize>().ok()?)
}

/// The value of a variable of the environment, where it is there.
fn variable<R: Env + AllocGlobal>(rt: &R, name: &str) -> Result<Option<String>, Failure> {
    match env::var(rt, name) {
        Ok(value) => Ok(Some(value)),
        Err(VarError::OutOfMemory) => Err(Failure::NoMemory),
        Err(VarError::NotPresent | VarError::NotUnicode) => Ok(None),
    }
}

/// The share that Bazel's environment names: `TEST_TOTAL_SHARDS` says how many there are, and `TEST_SHARD_INDEX` which one this is, from 0 on.
fn shard_in_environment<R: Env + AllocGlobal>(rt: &R) -> Result<Option<Shard>, Failure>
    ensures { IfOk result (λ found. IfSome found (λ shard. shard.index < shard.count)) }
{
    let alloc = rt.alloc();
    let Some(total) = variable(rt, "TEST_TOTAL_SHARDS")? else {
        return Ok(None);
    };
    let index = variable(rt, "TEST_SHARD_INDEX")?;
    let index = index
        .as_ref()
        .and_then(|index| index.as_str().parse::<usize>().ok());
    let shard = match (index, total.as_str().parse::<usize>().ok()) {
        (Some(index), Some(count)) => Shard::new(index, count),
        _ => None,
    };
    match shard {
        Some(shard) => Ok(Some(shard)),
        None => {
            let words = "TEST_SHARD_INDEX is no number from 0 to one less than TEST_TOTAL_SHARDS";
            Err(fault(alloc, "panels", 0, words))
        }
    }
}

/// Says to Bazel that shares are known here: the file that `TEST_SHARD_STATUS_FILE` names is made.
fn touch_status_file<R: Env + Files + AllocGlobal>(rt: &R) -> Result<(), Failure> {
    if let Some(file) = variable(rt, "TEST_SHARD_STATUS_FILE")? {
        write(rt, rt.alloc(), file.as_str(), b"")?;
    }
    Ok(())
}

/// The share that is played: the one of the command line, or else of the environment, or else all.
pub fn shard_of<R: Env + Files + AllocGlobal>(rt: &R, said: Option<Shard>) -> Result<Shard, Failure>
    ensures said { IfSome said (λ shard. result ≡ Ok shard) }
    ensures number { IfNone said (IfOk result (λ shard. shard.index < shard.count)) }
{
    if let Some(shard) = said {
        return Ok(shard);
    }
    match shard_in_environment(rt)? {
        Some(shard) => {
            touch_status_file(rt)?;
            Ok(shard)
        }
        None => Ok(Shard::WHOLE),
    }
}
