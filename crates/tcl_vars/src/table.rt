ghost use Rattle.std.specs.Prelude.{◌≡◌, ◌<◌, ◌^◌, [], filter, length, not, position, slice_get, string_bytes, true, None, Some, IfSome, OnOk, OnErr};
ghost use Rattle.std.specs.Map.{keys_of, lookup};
ghost use Rattle.std.specs.Str.{bytes_eq, chars};
ghost use Rattle.indexmap.specs.IndexMap.{values};
ghost use Rattle.std.specs.Option.{option_copied};
ghost use Rattle.std.specs.Borrow.{LendsIf, sem};
ghost use Rattle.std.specs.Option.{option_copied_mut};
ghost use Rattle.tcl_vars.specs.contracts.table.Table.{the_row};
ghost use Rattle.tcl_text.specs.Glob.{glob_matches};
ghost use Rattle.tcl_vars.specs.Short.{IsShort};
ghost use Rattle.tcl_vars.specs.Table.{value_at, values_but, with_value, without};

use crate::hints::Hints;
use indexmap::IndexMap;
use std::alloc::{AllocError, Global};
use std::cell::Cell;
use std::marker::Model;
use tcl_text::Text;

/// How many names a table has at most of which places are hinted: among more, few are found where they stood.
const MOST_HINTED: usize = 32;

/// Values by name, in the order in which the names came.
#[derive(Drop)]
pub struct Table<V> {
    entries: IndexMap<String, V>,
    hints: Hints,
    alloc: Global,
}

impl<V> Model for Table<V> {
    ghost use Rattle.std.specs.Prelude.{ℕ, List};
    ghost use Rattle.tcl_vars.specs.Named.{named_entries};

    ghost Value = { List (List ℕ × V) };

    ghost view = { λ t. named_entries t.entries.entries };

    ghost use Rattle.tcl_vars.specs.Short.{ShortNames};

    ghost invariant = { λ t. ShortNames (named_entries t.entries.entries) };
}

/// Whether a name stands at a place of the order.
fn stands_at<V>(entries: &IndexMap<String, V>, place: usize, name: &str) -> bool
    ensures index { result ≡ true → position (λ k. bytes_eq name.now (string_bytes k)) (keys_of entries.now.entries) ≡ Some place }
    ensures value { result ≡ true → slice_get (values entries.now) place ≡ lookup (λ k. bytes_eq name.now (string_bytes k)) entries.now.entries }
{
    if place < entries.len() {
        let (held, _) = entries.get_index(place).unwrap();
        held.as_str() == name
    } else {
        false
    }
}

impl<V> Table<V> {
    /// No names. It takes no memory.
    pub(crate) fn new(alloc: Global) -> Table<V>
        ensures { result ≡ [] }
    {
        Table {
            entries: IndexMap::new(alloc),
            hints: Hints::new(),
            alloc,
        }
    }

    /// How many names there are.
    pub(crate) fn len(&self) -> usize
        ensures len { result ≡ length self.now }
        ensures small { result < 2 ^ 63 }
    {
        self.entries.len()
    }

    /// How many names there is memory for.
    pub(crate) fn capacity(&self) -> usize {
        self.entries.capacity()
    }

    /// The name and the value at a place of the order.
    pub(crate) fn at(&self, index: usize) -> (&str, &V)
        requires { index < length self.now }
        ensures entry { slice_get self.now index ≡ Some (result.0.now, result.1.now) }
        ensures short { IsShort result.0.now }
    {
        let (name, value) = self.entries.get_index(index).unwrap();
        (name.as_str(), value)
    }

    /// The value at a name, at the place where it stood when it was looked up last, or wherever it stands now.
    pub(crate) fn get(&self, name: &str) -> Option<&V>
        ensures { option_copied result ≡ value_at self.now name.now }
    {
        if self.entries.len() <= MOST_HINTED
            && let Some(value) = self.held_at(self.hints.place(name), name)
        {
            return Some(value);
        }
        self.find(name)
    }

    /// The value at a name, which is looked up by hashing. Its place is hinted from then on.
    fn find(&self, name: &str) -> Option<&V>
        ensures { option_copied result ≡ value_at self.now name.now }
    {
        match self.entries.get_index_of(name) {
            Some(place) => {
                self.hints.keep(name, place);
                let (_, value) = self.entries.get_index(place).unwrap();
                Some(value)
            }
            None => None,
        }
    }

    /// The value at a name, if that stands at a place of the order.
    fn held_at(&self, place: usize, name: &str) -> Option<&V>
        ensures { IfSome result (λ value. value_at self.now name.now ≡ Some value.now) }
    {
        if place < self.entries.len() {
            let (held, value) = self.entries.get_index(place).unwrap();
            if held.as_str() == name {
                return Some(value);
            }
        }
        None
    }

    /// The value at a name, which may stand at the place of the order that is hinted: where it doesn't, it is looked up, and its place is
    /// hinted from then on.
    pub(crate) fn near(&self, hint: &Cell<u32>, name: &str) -> Option<&V>
        ensures { option_copied result ≡ value_at self.now name.now }
    {
        if let Some(value) = self.held_at(hint.get() as usize, name) {
            return Some(value);
        }
        self.hint(hint, name);
        self.get(name)
    }

    /// Hints the place of a name, if it is there.
    fn hint(&self, hint: &Cell<u32>, name: &str) {
        if let Some(place) = self.entries.get_index_of(name)
            && let Ok(place) = u32::try_from(place)
        {
            hint.set(place);
        }
    }
}

impl<V: Drop> Table<V> {
    /// Takes all names out, and keeps the memory.
    pub(crate) fn clear(&mut self)
        ensures { self.new ≡ [] }
    {
        self.entries.clear();
    }

    /// Gives a name a value. A new name comes last; the other names keep their places and values.
    pub(crate) fn insert(&mut self, name: &str, value: V) -> Result<(), AllocError>
        requires { IsShort name.now }
        ensures ok { OnOk result (self.new ≡ with_value self.old name.now value) }
        ensures err { OnErr result (self.new ≡ self.old) }
    {
        let name = String::from_str(self.alloc, name)?;
        self.entries.insert(name, value)?;
        Ok(())
    }

    /// The value at a name, to write.
    pub(crate) fn get_mut(&mut self, name: &str) -> Option<&mut V>
        ensures* writes_back { sem 𝓛 (LendsIf (the_row V.row) V.row self.entry result (with_value self.old name.now) self.old) }
        ensures value { option_copied_mut result ≡ value_at self.old name.now }
    {
        let hinted = self.hints.place(name);
        if stands_at(&self.entries, hinted, name) {
            return self.entries.get_index_mut(hinted);
        }
        match self.entries.get_index_of(name) {
            Some(index) => {
                self.hints.keep(name, index);
                self.entries.get_index_mut(index)
            }
            None => None,
        }
    }

    /// Takes a name out, with its value. Those behind it move up.
    pub(crate) fn remove(&mut self, name: &str) -> Option<V>
        ensures value { result ≡ value_at self.old name.now }
        ensures rest { self.new ≡ without self.old name.now }
        ensures gone { value_at self.new name.now ≡ None }
    {
        self.entries.shift_remove(name)
    }

    /// Leaves the names that don't match a pattern, with their values and in their order. It takes no memory.
    pub(crate) fn leave_out(&mut self, pattern: &Text)
        ensures { self.new ≡ values_but pattern.now self.old }
    {
        leave_out(&mut self.entries, pattern);
    }
}

/// Leaves the entries whose keys don't match a pattern.
fn leave_out<V: Drop>(entries: &mut IndexMap<String, V>, pattern: &Text)
    ensures { entries.new.entries ≡ filter (λ entry. not (glob_matches (chars pattern.now) (chars (string_bytes entry.0)))) entries.old.entries }
{
    entries.retain(
        |name: &String, value: &mut V| -> bool
            ensures { (result ≡ not (glob_matches (chars pattern.entry.now) (chars (string_bytes name.now)))) × (value.new ≡ value.old) }
        { !Text::glob_match_str(pattern, name.as_str()) },
    );
}
