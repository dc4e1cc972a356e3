//! Where the windows stand in the arena, by application and number, and which number a path has.
ghost use Rattle.std.specs.Prelude.{◌≡◌, ◌≢◌, ◌==◌, not, filter, ℕ, List, None, Some, IsSome, nat_eq, OnOk, OnErr};
ghost use Rattle.std.specs.HashMap.{get};
ghost use Rattle.tk_tree.specs.Index.{AreRising};

use std::alloc::{AllocError, Global};
use std::collections::HashMap;
use tk_base::Siblings;

/// The windows of one application: the arena's key of each number, the number of each path, and the children
/// of each window in the order of creation.
#[derive(Drop)]
pub struct PathRow {
    keys: HashMap<u64, usize>,
    numbers: HashMap<String, u64>,
    children: HashMap<u64, Siblings<u64>>,
    alloc: Global,
}

/// The windows of all applications by number and by path.
#[derive(Drop)]
pub struct PathIndex {
    rows: HashMap<usize, PathRow>,
    alloc: Global,
}

impl PathRow {
    ghost use Rattle.tk_tree.specs.Index.{row_key, row_number, row_children, RowNames, RowForgets, RowChild, RowChildless, RowAdds, RowRemoves, SameRow, IsEmptyRow};

    fn new(alloc: Global) -> PathRow
        ensures { IsEmptyRow result }
    {
        PathRow {
            keys: HashMap::new(alloc),
            numbers: HashMap::new(alloc),
            children: HashMap::new(alloc),
            alloc,
        }
    }

    /// Adds a window, whose number and path are new, as a child of its parent.
    fn add(
        &mut self,
        path: &str,
        number: u64,
        key: usize,
        parent: Option<u64>,
    ) -> Result<(), AllocError>
        requires number { row_key self.old number ≡ None }
        requires path { row_number self.old path.now ≡ None }
        ensures ok { OnOk result (RowAdds self.old self.new path.now number key parent) }
        ensures err { OnErr result (SameRow self.old self.new) }
    {
        self.add_names(path, number, key)?;
        match self.add_child(number, parent) {
            Ok(()) => Ok(()),
            Err(refused) => {
                self.forget_names(path, number);
                Err(refused)
            }
        }
    }

    /// Takes a window out.
    fn remove(&mut self, path: &str, number: u64, parent: Option<u64>)
        requires { (n : ℕ) → AreRising (row_children self.old n) }
        ensures { RowRemoves self.old self.new path.now number parent }
    {
        self.forget_names(path, number);
        self.remove_child(number, parent);
    }

    /// Adds the number and the path of a window, which are new.
    fn add_names(&mut self, path: &str, number: u64, key: usize) -> Result<(), AllocError>
        requires number { row_key self.old number ≡ None }
        requires path { row_number self.old path.now ≡ None }
        ensures ok { OnOk result (RowNames self.old self.new path.now number key) }
        ensures err { OnErr result (SameRow self.old self.new) }
    {
        let name = String::from_str(self.alloc, path)?;
        self.keys.insert(number, key)?;
        match self.numbers.insert(name, number) {
            Ok(_) => Ok(()),
            Err(_) => {
                self.keys.remove(&number);
                Err(AllocError)
            }
        }
    }

    /// Takes the number and the path of a window out.
    fn forget_names(&mut self, path: &str, number: u64)
        ensures { RowForgets self.old self.new path.now number }
    {
        self.keys.remove(&number);
        self.numbers.remove(path);
    }

    /// Adds a child to its parent, the last.
    fn add_child(&mut self, number: u64, parent: Option<u64>) -> Result<(), AllocError>
        ensures ok { OnOk result (RowChild self.old self.new number parent) }
        ensures err { OnErr result (SameRow self.old self.new) }
    {
        if let Some(parent) = parent {
            let fresh = Siblings::new(self.alloc);
            self.children.entry(parent)?.or_insert(fresh).push(number)?;
        }
        Ok(())
    }

    /// Takes a child from its parent, and forgets the child's own children.
    fn remove_child(&mut self, number: u64, parent: Option<u64>)
        requires { (n : ℕ) → AreRising (row_children self.old n) }
        ensures { RowChildless self.old self.new number parent }
    {
        self.children.remove(&number);
        if let Some(parent) = parent
            && let Some(list) = self.children.get_mut(&parent)
        {
            take_out(list, number);
        }
    }
}

/// Takes a number out of a rising list.
fn take_out(list: &mut Siblings<u64>, number: u64)
    requires { AreRising list.old.items }
    ensures { list.new.items ≡ filter (λ other. not (other == number)) list.old.items }
{
    if let Ok(place) = list.as_slice().binary_search(&number) {
        list.remove(place);
    }
}

impl PathIndex {
    ghost use Rattle.tk_tree.specs.Index.{key_at, number_at, children_at, Adds, Removes, SameIndex, IsEmptyIndex};

    /// No windows. It takes no memory.
    pub fn new(alloc: Global) -> PathIndex
        ensures { IsEmptyIndex result }
    {
        PathIndex {
            rows: HashMap::new(alloc),
            alloc,
        }
    }

    /// The arena's key of a window.
    pub fn key(&self, owner: usize, number: u64) -> Option<usize>
        ensures { result ≡ key_at self.now owner number }
    {
        let row = self.rows.get(&owner)?;
        row.keys.get(&number).copied()
    }

    /// The number of the window at a path.
    pub fn number(&self, owner: usize, path: &str) -> Option<u64>
        ensures { result ≡ number_at self.now owner path.now }
    {
        let row = self.rows.get(&owner)?;
        row.numbers.get(path).copied()
    }

    /// The numbers of the children of a window, in the order of creation.
    pub fn children(&self, owner: usize, number: u64) -> &[u64]
        ensures { result.now ≡ children_at self.now owner number }
    {
        if let Some(row) = self.rows.get(&owner)
            && let Some(list) = row.children.get(&number)
        {
            return list.as_slice();
        }
        &[]
    }

    /// Adds a window, whose number and path are new, as a child of its parent.
    pub fn add(
        &mut self,
        owner: usize,
        path: &str,
        number: u64,
        key: usize,
        parent: Option<u64>,
    ) -> Result<(), AllocError>
        requires number { key_at self.old owner number ≡ None }
        requires path { number_at self.old owner path.now ≡ None }
        ensures ok { OnOk result (Adds self.old self.new owner path.now number key parent) }
        ensures err { OnErr result (SameIndex self.old self.new) }
    {
        self.open(owner)?;
        match self.rows.get_mut(&owner) {
            Some(row) => row.add(path, number, key, parent),
            None => unreachable!(),
        }
    }

    /// Gives an application a row, if it has none.
    fn open(&mut self, owner: usize) -> Result<(), AllocError>
        ensures same { SameIndex self.old self.new }
        ensures row { OnOk result (IsSome (get nat_eq self.new.rows owner)) }
    {
        if self.rows.contains_key(&owner) {
            return Ok(());
        }
        self.rows.insert(owner, PathRow::new(self.alloc))?;
        Ok(())
    }

    /// Takes a window out that has no children.
    pub fn remove(&mut self, owner: usize, path: &str, number: u64, parent: Option<u64>)
        requires { (n : ℕ) → AreRising (children_at self.old owner n) }
        ensures { Removes self.old self.new owner path.now number parent }
    {
        if let Some(row) = self.rows.get_mut(&owner) {
            row.remove(path, number, parent);
        }
    }
}
