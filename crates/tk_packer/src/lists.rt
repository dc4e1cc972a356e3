//! The slaves of each master, in a list of their own.
ghost use Rattle.std.specs.Prelude.{◌≡◌, ◌≢◌, ◌≤◌, ◌<◌, ℕ, length, insert, OnOk, MatchOption};
ghost use Rattle.std.specs.List.{AllWithin, HoldsAt};
ghost use Rattle.tk_packer.specs.Packs.{without};
ghost use Rattle.tk_packer.specs.Tables.{slaves_at, HasRoom, AreApart, taken_out, put_in};

use crate::packed::Packed;
use std::alloc::{AllocError, Global};
use std::collections::HashMap;
use tk_base::Siblings;

/// The slaves of a master.
pub fn slaves_at(masters: &HashMap<u64, Siblings<Packed>>, master: u64) -> &[Packed]
    ensures { result.now ≡ slaves_at master masters.now.entries }
{
    match masters.get(&master) {
        Some(slaves) => slaves.as_slice(),
        None => &[],
    }
}

/// Gives a master a list with room for one more.
pub fn open(
    alloc: Global,
    masters: &mut HashMap<u64, Siblings<Packed>>,
    master: u64,
) -> Result<(), AllocError>
    ensures same { (other : ℕ) → slaves_at other masters.new.entries ≡ slaves_at other masters.old.entries }
    ensures room { OnOk result (HasRoom master masters.new.entries) }
{
    if let Some(slaves) = masters.get_mut(&master) {
        return slaves.reserve();
    }
    let mut slaves = Siblings::new(alloc);
    slaves.reserve()?;
    masters.insert(master, slaves)?;
    Ok(())
}

/// Forgets the list of a master that has no slaves.
pub fn close(masters: &mut HashMap<u64, Siblings<Packed>>, master: u64)
    ensures { (other : ℕ) → slaves_at other masters.new.entries ≡ slaves_at other masters.old.entries }
{
    if slaves_at(masters, master).is_empty() {
        masters.remove(&master);
    }
}

/// Moves a window from the master that it had to the one that it gets.
pub fn move_slave(
    masters: &mut HashMap<u64, Siblings<Packed>>,
    before: Option<Packed>,
    place: usize,
    packed: Packed,
)
    requires room { HasRoom packed.master masters.old.entries }
    requires apart { (other : ℕ) → AreApart (slaves_at other masters.old.entries) }
    ensures { (other : ℕ) → slaves_at other masters.new.entries
        ≡ put_in place packed other (taken_out before packed.number other (slaves_at other masters.old.entries)) }
{
    take_slave(masters, before, packed.number);
    insert_slave(masters, place, packed);
    close_old(masters, before);
}

/// Takes a window out, and forgets the list of its master if that was its last.
pub fn drop_slave(masters: &mut HashMap<u64, Siblings<Packed>>, before: Option<Packed>, number: u64)
    requires { (other : ℕ) → AreApart (slaves_at other masters.old.entries) }
    ensures { (other : ℕ) → slaves_at other masters.new.entries
        ≡ taken_out before number other (slaves_at other masters.old.entries) }
{
    take_slave(masters, before, number);
    close_old(masters, before);
}

fn close_old(masters: &mut HashMap<u64, Siblings<Packed>>, before: Option<Packed>)
    ensures { (other : ℕ) → slaves_at other masters.new.entries ≡ slaves_at other masters.old.entries }
{
    if let Some(packed) = before {
        close(masters, packed.master);
    }
}

/// Takes a window out of the list of the master that it had.
fn take_slave(masters: &mut HashMap<u64, Siblings<Packed>>, before: Option<Packed>, number: u64)
    requires { (other : ℕ) → AreApart (slaves_at other masters.old.entries) }
    ensures rest { (other : ℕ) → slaves_at other masters.new.entries
        ≡ taken_out before number other (slaves_at other masters.old.entries) }
    ensures room { (other : ℕ) → HasRoom other masters.old.entries → HasRoom other masters.new.entries }
{
    if let Some(packed) = before {
        if let Some(slaves) = masters.get_mut(&packed.master) {
            take_out(slaves, number);
        }
    }
}

fn take_out(slaves: &mut Siblings<Packed>, number: u64)
    requires { AreApart slaves.old.items }
    ensures items { slaves.new.items ≡ without number slaves.old.items }
    ensures room { slaves.old.room ≤ slaves.new.room }
{
    if let Some(place) = place_of(slaves.as_slice(), number) {
        slaves.remove(place);
    }
}

/// The place of a window, looked for from both ends.
fn place_of(slaves: &[Packed], number: u64) -> Option<usize>
    ensures { MatchOption result (AllWithin (λ packed. packed.number ≢ number) slaves.now 0 (length slaves.now))
        (λ place. (place < length slaves.now) × HoldsAt (λ packed. packed.number ≡ number) slaves.now place) }
{
    let mut front = 0;
    let mut back = slaves.len();
    while front < back {
        if slaves[front].number == number {
            return Some(front);
        }
        back -= 1;
        if slaves[back].number == number {
            return Some(back);
        }
        front += 1;
    }
    None
}

/// Puts a window at a place among the slaves of its master, whose list has room.
fn insert_slave(masters: &mut HashMap<u64, Siblings<Packed>>, place: usize, packed: Packed)
    requires { HasRoom packed.master masters.old.entries }
    ensures { (other : ℕ) → slaves_at other masters.new.entries
        ≡ put_in place packed other (slaves_at other masters.old.entries) }
{
    if let Some(slaves) = masters.get_mut(&packed.master) {
        slaves.insert(place, packed);
    }
}
