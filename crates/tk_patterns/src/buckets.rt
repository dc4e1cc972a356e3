ghost use Rattle.std.specs.Prelude.{◌≡◌, ◌≢◌, ◌<◌, ◌-◌, ℕ, [], ◌∷◌, ◌++◌, length, take, Some, IfSome, OnOk, OnErr};
ghost use Rattle.std.specs.List.{remove};
ghost use Rattle.tk_patterns.specs.Filed.{numbers_of, stamps_of, has_class, has_whole, HasStampAt, bucket_in, stamp_under, without, IsRising};

use crate::filed::{Filed, Numbers};
use std::alloc::{AllocError, Global};
use std::collections::HashMap;
use std::marker::Model;

/// A list of numbers, and by hashing the stamps of each number's places.
#[derive(Drop)]
pub struct Buckets {
    list: Vec<Filed>,
    classes: HashMap<u64, Vec<u64>>,
    wholes: HashMap<u64, Vec<u64>>,
    next: u64,
}

impl Model for Buckets {
    ghost use Rattle.std.specs.Prelude.{◌≡◌, ℕ, List};
    ghost use Rattle.tk_patterns.specs.declared.filed.Filed.{Filed};
    ghost use Rattle.tk_patterns.specs.Filed.{stamps_of, has_class, has_whole, bucket_in, IsRising, AllBelow};

    ghost Value = { List Filed };

    ghost view = { λ b. b.list.items };

    ghost invariant = { λ b.
        (IsRising b.list.items × AllBelow b.next b.list.items)
        × ((number : ℕ) → bucket_in b.classes number ≡ stamps_of (has_class number) b.list.items)
        × ((number : ℕ) → bucket_in b.wholes number ≡ stamps_of (has_whole number) b.list.items) };
}

impl Buckets {
    /// No numbers. It takes no memory.
    pub fn new(alloc: Global) -> Buckets
        ensures { result ≡ [] }
    {
        Buckets {
            list: Vec::new(alloc),
            classes: HashMap::new(alloc),
            wholes: HashMap::new(alloc),
            next: 0,
        }
    }

    /// Files numbers at a place behind all others. It is refused too once 2^64 - 1 places were filed.
    pub fn push(&mut self, numbers: Numbers) -> Result<(), AllocError>
        ensures ok { OnOk result (numbers_of self.new ≡ numbers_of self.old ++ numbers ∷ []) }
        ensures err { OnErr result (self.new ≡ self.old) }
    {
        let stamp = self.next;
        if stamp == u64::MAX {
            return Err(AllocError);
        }
        self.list.push(Filed { stamp, numbers })?;
        match file_both(&mut self.classes, &mut self.wholes, numbers, stamp) {
            Ok(()) => {
                self.next = stamp + 1;
                Ok(())
            }
            Err(refused) => {
                self.list.pop();
                Err(refused)
            }
        }
    }

    /// Takes out a place; the places behind it come one forward. It takes no memory.
    pub fn remove(&mut self, place: usize)
        requires { place < length self.old }
        ensures { self.new ≡ remove self.old place }
    {
        let filed = self.list.remove(place);
        take_out(&mut self.classes, filed.numbers.class, filed.stamp);
        take_out(&mut self.wholes, filed.numbers.whole, filed.stamp);
    }

    /// The stamps of the places of a class, in order.
    pub fn of_class(&self, number: u64) -> &[u64]
        ensures stamps { result.now ≡ stamps_of (has_class number) self.now }
        ensures rising { IsRising self.now }
    {
        stamps_in(&self.classes, number)
    }

    /// The stamps of the places of a whole sequence, in order.
    pub fn of_whole(&self, number: u64) -> &[u64]
        ensures stamps { result.now ≡ stamps_of (has_whole number) self.now }
        ensures rising { IsRising self.now }
    {
        stamps_in(&self.wholes, number)
    }

    /// The place of a stamp; none where it stands nowhere.
    pub fn place(&self, stamp: u64) -> Option<usize>
        ensures found { (place : ℕ) → HasStampAt place stamp self.now → result ≡ Some place }
        ensures there { IfSome result (λ place. HasStampAt place stamp self.now) }
    {
        self.list
            .binary_search_by_key(&stamp, |filed| filed.stamp)
            .ok()
    }
}

/// The stamps of a number.
fn stamps_in(buckets: &HashMap<u64, Vec<u64>>, number: u64) -> &[u64]
    ensures { result.now ≡ bucket_in buckets.now number }
{
    match buckets.get(&number) {
        Some(stamps) => stamps.as_slice(),
        None => &[],
    }
}

/// Adds a stamp to those of a class and those of a whole sequence.
fn file_both(
    classes: &mut HashMap<u64, Vec<u64>>,
    wholes: &mut HashMap<u64, Vec<u64>>,
    numbers: Numbers,
    stamp: u64,
) -> Result<(), AllocError>
    ensures classes { OnOk result ((other : ℕ) → bucket_in classes.new other ≡ bucket_in classes.old other ++ stamp_under other numbers.class stamp) }
    ensures wholes { OnOk result ((other : ℕ) → bucket_in wholes.new other ≡ bucket_in wholes.old other ++ stamp_under other numbers.whole stamp) }
    ensures err { OnErr result (((other : ℕ) → bucket_in classes.new other ≡ bucket_in classes.old other) × ((other : ℕ) → bucket_in wholes.new other ≡ bucket_in wholes.old other)) }
{
    file(classes, numbers.class, stamp)?;
    match file(wholes, numbers.whole, stamp) {
        Ok(()) => Ok(()),
        Err(refused) => {
            take_last(classes, numbers.class);
            Err(refused)
        }
    }
}

/// Adds a stamp to those of a number.
fn file(buckets: &mut HashMap<u64, Vec<u64>>, number: u64, stamp: u64) -> Result<(), AllocError>
    ensures ok { OnOk result ((other : ℕ) → bucket_in buckets.new other ≡ bucket_in buckets.old other ++ stamp_under other number stamp) }
    ensures err { OnErr result ((other : ℕ) → bucket_in buckets.new other ≡ bucket_in buckets.old other) }
{
    buckets.entry(number)?.or_default().push(stamp)?;
    Ok(())
}

/// Takes the last stamp out of those of a number.
fn take_last(buckets: &mut HashMap<u64, Vec<u64>>, number: u64)
    ensures own { bucket_in buckets.new number ≡ take (length (bucket_in buckets.old number) - 1) (bucket_in buckets.old number) }
    ensures others { (other : ℕ) → other ≢ number → bucket_in buckets.new other ≡ bucket_in buckets.old other }
{
    if let Some(stamps) = buckets.get_mut(&number) {
        stamps.pop();
    }
}

/// Takes a stamp out of those of a number.
fn take_out(buckets: &mut HashMap<u64, Vec<u64>>, number: u64, stamp: u64)
    ensures own { bucket_in buckets.new number ≡ without stamp (bucket_in buckets.old number) }
    ensures others { (other : ℕ) → other ≢ number → bucket_in buckets.new other ≡ bucket_in buckets.old other }
{
    if let Some(stamps) = buckets.get_mut(&number) {
        leave_out(stamps, stamp);
    }
}

/// Leaves all stamps but one.
fn leave_out(stamps: &mut Vec<u64>, stamp: u64)
    ensures { stamps.new.items ≡ without stamp stamps.old.items }
{
    stamps.retain(|other| *other != stamp);
}
