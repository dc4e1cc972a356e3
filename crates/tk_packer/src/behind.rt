//! What of the windows behind one decides its share of the room along an axis.
ghost use Rattle.std.specs.Prelude.{◌≡◌, ◌-◌, ◌^◌, ◌<◌, ◌≤◌, ◌∷◌, ◌++◌, List, All, IfOk, IfSome, OnOk};
ghost use Rattle.tk_packer.specs.declared.ask.Ask.{Ask};
ghost use Rattle.tk_packer.specs.Behind.{no_tally, tallied, narrowed, narrows_left, IsTallied, IsWithin};
ghost use Rattle.tk_packer.specs.Parcels.{asks_of, share};

use crate::ask::{Ask, Axis};
use crate::request::Request;
use std::alloc::{AllocError, Global};

/// Windows together, as one in front of them that expands sees them.
#[derive(Clone, Copy)]
pub struct Tally {
    /// The room of those along the axis, cut to what 64 bits hold.
    along: u64,
    /// How many of those expand, and one more: the window in front.
    count: u64,
    /// The most that one of those across takes beyond all behind it along the axis.
    excess: u64,
}

/// A window across that takes more beyond those behind it than any of these does.
#[derive(Clone, Copy)]
pub struct Narrow {
    excess: u64,
    /// How many of those behind it expand, and one more.
    count: u64,
}

/// The windows behind a place, counted from the last on, so that the first of them can be taken away again. A window across that isn't
/// among the narrow ones leaves at least as much for each as one behind it, or as the end.
#[derive(Drop)]
pub struct Behind {
    tally: Tally,
    /// What it was without the first of them, without the first two, and so on, the fewest windows first.
    earlier: Vec<Tally>,
    narrows: Vec<Narrow>,
}

impl Tally {
    fn none() -> Tally
        ensures { result ≡ no_tally }
    {
        Tally {
            along: 0,
            count: 1,
            excess: 0,
        }
    }

    /// With one more in front.
    fn with(self, ask: &Ask) -> Tally
        requires { self.count < 2 ^ 64 - 1 }
        ensures { result ≡ tallied self ask.now }
    {
        let outer = ask.outer_length();
        if ask.edge.is_none() {
            return Tally {
                excess: self.excess.max(outer.saturating_sub(self.along)),
                ..self
            };
        }
        Tally {
            along: self.along.saturating_add(outer),
            count: self.count + u64::from(ask.expands),
            ..self
        }
    }
}

impl Behind {
    /// The windows of requests, none of which is packed yet.
    pub fn of(alloc: Global, axis: Axis, requests: &[Request]) -> Result<Behind, AllocError>
        ensures { IfOk result (λ behind. IsTallied behind (asks_of axis requests.now)) }
    {
        let mut behind = Behind {
            tally: Tally::none(),
            earlier: Vec::with_capacity(alloc, requests.len())?,
            narrows: Vec::new(alloc),
        };
        for index in (0..requests.len()).rev() {
            behind.add(&Ask::of(axis, &requests[index]))?;
        }
        Ok(behind)
    }

    /// One more in front.
    fn add(&mut self, ask: &Ask) -> Result<(), AllocError>
        requires { self.old.tally.count < 2 ^ 64 - 1 }
        ensures { OnOk result ((later : List Ask) → IsTallied self.old later → IsTallied self.new (ask.now ∷ later)) }
    {
        let tally = self.tally.with(ask);
        push_narrow(&mut self.narrows, self.tally, tally)?;
        self.earlier.push(self.tally)?;
        self.tally = tally;
        Ok(())
    }

    /// The first is packed.
    fn pass(&mut self)
        ensures { (ask : Ask) (later : List Ask) → IsTallied self.old (ask ∷ later) → IsTallied self.new later }
    {
        let Some(tally) = self.earlier.pop() else {
            return;
        };
        pop_narrow(&mut self.narrows, tally, self.tally);
        self.tally = tally;
    }

    /// The share of a window that expands, from what it leaves of the cavity: the least that falls to each of those that expand up to the
    /// end, or up to a narrow one.
    pub fn share(&self, free: u64) -> u64
        requires some { 0 < self.now.tally.count }
        requires within { All (IsWithin self.now.tally) self.now.narrows.items }
        ensures value { (later : List Ask) → IsTallied self.now later → result ≡ share free 1 later }
        ensures bound { result ≤ free }
    {
        let left = free.saturating_sub(self.tally.along);
        let count = self.tally.count;
        let mut least = left / count;
        for narrow in &self.narrows {
            let beside = left.saturating_sub(narrow.excess);
            least = least.min(beside / (count - narrow.count + 1));
        }
        least
    }
}

/// A window in front of others is narrow where it raises their excess.
#[tactic(auto, using(crate::proofs::Shares::raised, crate::proofs::Shares::not_raised))]
fn push_narrow(narrows: &mut Vec<Narrow>, behind: Tally, tally: Tally) -> Result<(), AllocError>
    ensures { OnOk result (narrows.new.items ≡ narrows.old.items ++ narrowed behind tally) }
{
    if behind.excess >= tally.excess {
        return Ok(());
    }
    narrows.push(Narrow {
        excess: tally.excess,
        count: tally.count,
    })?;
    Ok(())
}

/// The window in front is none of those any more, if it was narrow.
#[tactic(auto, using(crate::proofs::Tallies::left_fewer, crate::proofs::Tallies::left_all))]
fn pop_narrow(narrows: &mut Vec<Narrow>, behind: Tally, tally: Tally)
    ensures { narrows.new.items ≡ narrows_left behind tally narrows.old.items }
{
    if behind.excess >= tally.excess {
        return;
    }
    narrows.pop();
}

/// The first of the windows is packed, where they are counted.
pub fn pass_first(behind: &mut Option<Behind>)
    ensures { (ask : Ask) (later : List Ask) → IfSome behind.old (λ b. IsTallied b (ask ∷ later))
        → IfSome behind.new (λ b. IsTallied b later) }
{
    match behind {
        Some(counted) => counted.pass(),
        None => {}
    }
}
