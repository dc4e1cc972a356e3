ghost use Rattle.std.specs.Prelude.{◌≡◌, ◌<◌, ◌≤◌, ◌+◌, ◌-◌, [], ◌∷◌, ◌++◌, drop, length, insert, OnOk, OnErr};
ghost use Rattle.std.specs.List.{remove};
ghost use Rattle.std.specs.Vec.{vec_len, vec_capacity};

use std::alloc::{AllocError, Global};
use std::marker::Model;

/// Values in an order, which lie side by side.
///
/// Where one goes, those between it and the nearer end move: none, where it is the first or the last. Contracts see the values and the room,
/// which says how many more come in without memory.
#[derive(Drop)]
pub struct Siblings<T: Copy> {
    values: Vec<T>,
    /// Where the first one stands; those before it are gone. They are at most as many as those that are left.
    start: usize,
}

impl<T: Copy> Model for Siblings<T> {
    ghost use Rattle.std.specs.Prelude.{◌≤◌, ◌+◌, ◌-◌, drop, length};
    ghost use Rattle.std.specs.Vec.{vec_len, vec_capacity};
    ghost use Rattle.tk_base.specs.Line.{Line};

    ghost Value = { Line T };

    ghost view = { λ s. record { items = drop s.start s.values.items; room = vec_capacity s.values - vec_len s.values } };

    ghost invariant = { λ s. s.start + s.start ≤ length s.values.items };
}

impl<T: Copy> Siblings<T> {
    /// No values. It takes no memory.
    pub fn new(alloc: Global) -> Siblings<T>
        ensures { result.items ≡ [] }
    {
        Siblings {
            values: Vec::new(alloc),
            start: 0,
        }
    }

    /// The values, in order.
    pub fn as_slice(&self) -> &[T]
        ensures { result.now ≡ self.now.items }
    {
        &self.values[self.start..]
    }

    /// Makes room for one more.
    pub fn reserve(&mut self) -> Result<(), AllocError>
        ensures items { self.new.items ≡ self.old.items }
        ensures room { OnOk result (0 < self.new.room) }
    {
        self.values.reserve(1)
    }

    /// Adds a value behind the others.
    pub fn push(&mut self, value: T) -> Result<(), AllocError>
        ensures ok { OnOk result (self.new.items ≡ self.old.items ++ value ∷ []) }
        ensures err { OnErr result (self.new.items ≡ self.old.items) }
    {
        self.values.push(value)?;
        Ok(())
    }

    /// Puts a value at a place, where there is room; a place past the end is the end. It takes no memory.
    pub fn insert(&mut self, place: usize, value: T)
        requires { 0 < self.old.room }
        ensures { self.new.items ≡ insert self.old.items place value }
    {
        let behind = place.min(self.values.len() - self.start);
        put_at(&mut self.values, self.start + behind, value);
    }

    /// Takes out the value at a place. It takes no memory.
    pub fn remove(&mut self, place: usize)
        requires { place < length self.old.items }
        ensures items { self.new.items ≡ remove self.old.items place }
        ensures room { self.old.room ≤ self.new.room }
    {
        let start = take_out(&mut self.values, self.start, place);
        self.start = close_up(&mut self.values, start);
    }
}

/// Puts a value at a place, where there is room.
fn put_at<T: Copy>(values: &mut Vec<T>, place: usize, value: T)
    requires within { place ≤ length values.old.items }
    requires room { vec_len values.old < vec_capacity values.old }
    ensures items { values.new.items ≡ insert values.old.items place value }
    ensures length { length values.new.items ≡ length values.old.items + 1 }
{
    let _ = values.insert(place, value);
}

/// Takes out the value at a place, and answers where the first one stands then. Those on the shorter side move.
fn take_out<T: Copy>(values: &mut Vec<T>, start: usize, place: usize) -> usize
    requires { start + place < length values.old.items }
    ensures items { drop result values.new.items ≡ remove (drop start values.old.items) place }
    ensures start { result ≤ length values.new.items }
    ensures room { vec_capacity values.old - vec_len values.old ≤ vec_capacity values.new - vec_len values.new }
{
    let left = values.len() - start;
    if place < left / 2 {
        values.copy_within(start..start + place, start + 1);
        return start + 1;
    }
    values.remove(start + place);
    start
}

/// Brings the values to the beginning where more are gone than are left, and answers where the first one stands then.
fn close_up<T: Copy>(values: &mut Vec<T>, start: usize) -> usize
    requires { start ≤ length values.old.items }
    ensures items { drop result values.new.items ≡ drop start values.old.items }
    ensures half { result + result ≤ length values.new.items }
    ensures room { vec_capacity values.old - vec_len values.old ≤ vec_capacity values.new - vec_len values.new }
{
    let left = values.len() - start;
    if start <= left {
        return start;
    }
    values.copy_within(start.., 0);
    values.truncate(left);
    0
}
