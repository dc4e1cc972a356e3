//! The marks of applications.
ghost use Rattle.std.specs.Prelude.{◌≡◌, ◌≢◌, ℕ, true, None, Some, OnErr, OnOk};
ghost use Rattle.std.specs.Option.{option_copied};
ghost use Rattle.tk_screen.specs.Marks.{mark_of, IsRepacked, IsRepackedMark, IsTouched, IsTouchedMark, LeavesOtherMarks};

use crate::reads::TextRead;
use indexmap::IndexMap;
use std::alloc::{AllocError, Global};
use std::collections::{BTreeSet, HashMap};
use tk_packer::KeptLayout;

/// That an application was laid out.
#[derive(Drop)]
pub struct Mark {
    /// The variables that its windows show, by the numbers of these, each with the text that it had.
    pub reads: IndexMap<u64, TextRead>,
    /// The windows that may look otherwise since.
    pub touched: BTreeSet<u64>,
    /// Whether other windows may be packed since, or packed otherwise.
    pub repacked: bool,
    pub layout: KeptLayout,
}

impl Mark {
    ghost use Rattle.tk_screen.specs.Seen.{Rests};

    /// Whether nothing is to be looked at, whatever the variables are. It takes no memory.
    pub fn rests(&self) -> bool
        ensures { result ≡ true → Rests self.now }
    {
        !self.repacked && self.touched.is_empty() && self.reads.is_empty()
    }
}

/// The marks of all applications. `slot` is an application's number.
pub struct Marks {
    rows: HashMap<usize, Mark>,
}

impl Marks {
    /// No marks. It takes no memory.
    pub fn new(alloc: Global) -> Marks
        ensures { (slot : ℕ) → mark_of slot result ≡ None }
    {
        Marks {
            rows: HashMap::new(alloc),
        }
    }

    /// Takes the mark of an application away. It takes no memory.
    pub fn forget(&mut self, slot: usize)
        ensures gone { mark_of slot self.new ≡ None }
        ensures others { LeavesOtherMarks slot self.old self.new }
    {
        self.rows.remove(&slot);
    }

    /// The same, and answers the mark, if the application has one. It takes no memory.
    pub fn take(&mut self, slot: usize) -> Option<Mark>
        ensures own { result ≡ mark_of slot self.old }
        ensures gone { mark_of slot self.new ≡ None }
        ensures others { LeavesOtherMarks slot self.old self.new }
    {
        self.rows.remove(&slot)
    }

    /// The mark of an application, if it has one. It takes no memory.
    pub fn of(&self, slot: usize) -> Option<&Mark>
        ensures { option_copied result ≡ mark_of slot self.now }
    {
        self.rows.get(&slot)
    }

    /// A window of an application may look otherwise than when it was laid out. Where memory is refused the mark goes.
    #[tactic(auto, using(crate::proofs::MarkSteps::gone_touched))]
    pub fn touch(&mut self, slot: usize, number: u64)
        ensures own { IsTouched number (mark_of slot self.old) (mark_of slot self.new) }
        ensures others { LeavesOtherMarks slot self.old self.new }
    {
        match self.add(slot, number) {
            Ok(()) => {}
            Err(_) => self.forget(slot),
        }
    }

    /// A window is touched, if the application has a mark.
    fn add(&mut self, slot: usize, number: u64) -> Result<(), AllocError>
        ensures own { OnOk result (IsTouched number (mark_of slot self.old) (mark_of slot self.new)) }
        ensures others { LeavesOtherMarks slot self.old self.new }
    {
        match self.rows.get_mut(&slot) {
            Some(mark) => touch_mark(mark, number),
            None => Ok(()),
        }
    }

    /// Other windows of an application may be packed than when it was laid out, or packed otherwise. It takes no memory.
    pub fn repack(&mut self, slot: usize)
        ensures own { IsRepacked (mark_of slot self.old) (mark_of slot self.new) }
        ensures others { LeavesOtherMarks slot self.old self.new }
    {
        match self.rows.get_mut(&slot) {
            Some(mark) => repack_mark(mark),
            None => {}
        }
    }

    /// Marks an application.
    pub fn put(&mut self, slot: usize, mark: Mark) -> Result<(), AllocError>
        ensures own { OnOk result (mark_of slot self.new ≡ Some mark) }
        ensures others { LeavesOtherMarks slot self.old self.new }
        ensures err { OnErr result (mark_of slot self.new ≡ mark_of slot self.old) }
    {
        self.rows.insert(slot, mark)?;
        Ok(())
    }
}

#[tactic(auto, using(crate::proofs::MarkSteps::mark_touched))]
fn touch_mark(mark: &mut Mark, number: u64) -> Result<(), AllocError>
    ensures { OnOk result (IsTouchedMark number mark.old mark.new) }
{
    mark.touched.insert(number)?;
    Ok(())
}

#[tactic(auto, using(crate::proofs::MarkSteps::mark_repacked))]
fn repack_mark(mark: &mut Mark)
    ensures { IsRepackedMark mark.old mark.new }
{
    mark.repacked = true;
}

/// By hand: a proof sees one call where it is dropped, and not its parts.
impl Drop for Marks {
    fn drop(self) {
        let Marks { rows: _ } = self;
    }
}
