//! Searches of lists by `in` and `ni`. One expression may search the same long list thousands of times, and is then to read it a few times only.
ghost use Rattle.std.specs.Prelude.{◌≡◌, Ok, IfSome};
ghost use Rattle.tcl_expr.specs.Faults.{IsEvaluatedAs};
ghost use Rattle.tcl_expr.specs.Searches.{AreInOrder};
ghost use Rattle.tcl_expr.specs.Values as values;
ghost use Rattle.tcl_text.specs.Readings.{list_of};

use crate::fault::EvalFault;
use std::alloc::{AllocError, Global};
use std::marker::Model;
use tcl_text::{SplitFault, Text, TextList};

/// From how many bytes on a list is long: shorter ones are read at each search, and so are long ones at the first few.
const LONG: usize = 256;

/// After how many searches in a row a long list is put in order, which takes as long as a few of them.
const MANY: u32 = 8;

/// A list, and its items in the order of their bytes.
#[derive(Drop)]
struct OrderedList {
    list: Text,
    items: Vec<Text>,
}

impl Model for OrderedList {
    ghost use Rattle.std.specs.Prelude.{ℕ, List};
    ghost use Rattle.tcl_expr.specs.Searches.{AreInOrder};

    ghost Value = { List ℕ };

    ghost view = { λ o. o.list };

    ghost invariant = { λ o. AreInOrder o.list o.items.items };
}

impl OrderedList {
    /// The list of these items.
    fn new(list: Text, items: TextList) -> OrderedList
        requires { list_of list ≡ Ok items }
        ensures { result ≡ list }
    {
        let mut items = items.into_vec();
        items.sort_unstable();
        OrderedList { list, items }
    }

    /// Whether the text is an item, by halving; none of another list.
    fn found(&self, item: &Text, list: &Text) -> Option<bool>
        ensures { IfSome result (λ found. values.is_in item.now list.now ≡ Ok found) }
    {
        if self.list.as_str() == list.as_str() {
            Some(self.items.binary_search(item).is_ok())
        } else {
            None
        }
    }
}

/// What is kept of a list.
#[derive(Drop)]
enum Searched {
    /// How often it was searched.
    Times(Text, u32),
    /// Its items, since it was searched often.
    InOrder(OrderedList),
}

/// The long list that was searched last.
#[derive(Drop)]
pub struct Searches {
    last: Option<Box<Searched>>,
}

impl Searches {
    /// None was searched. It takes no memory.
    pub fn new() -> Searches {
        Searches { last: None }
    }

    /// Whether the text is an item of the list, where that is kept in order.
    fn found(&self, item: &Text, list: &Text) -> Option<bool>
        ensures { IfSome result (λ found. values.is_in item.now list.now ≡ Ok found) }
    {
        match self.last.as_ref()?.as_ref() {
            Searched::Times(_, _) => None,
            Searched::InOrder(ordered) => ordered.found(item, list),
        }
    }

    /// How often the list was searched in a row.
    fn times(&self, list: &Text) -> u32 {
        match &self.last {
            Some(searched) => match searched.as_ref() {
                Searched::Times(last, times) if last.as_str() == list.as_str() => *times,
                _ => 0,
            },
            None => 0,
        }
    }

    /// Keeps this of the list that was searched last.
    fn keep(&mut self, alloc: Global, searched: Searched) -> Result<(), AllocError> {
        self.last = Some(Box::new(alloc, searched)?);
        Ok(())
    }

    /// The list was searched so many times in a row.
    fn count(&mut self, alloc: Global, list: &Text, times: u32) -> Result<(), AllocError> {
        if list.as_str().len() < LONG {
            return Ok(());
        }
        let list = list.copy()?;
        self.keep(alloc, Searched::Times(list, times))
    }

    /// Whether an item of the list that the second text is equals the first.
    pub fn is_in(&mut self, alloc: Global, item: &Text, list: &Text) -> Result<bool, EvalFault>
        ensures { IsEvaluatedAs result (values.is_in item.now list.now) }
    {
        if let Some(found) = self.found(item, list) {
            return Ok(found);
        }
        let times = self.times(list);
        if times < MANY {
            let found = read_for(alloc, item, list)?;
            self.count(alloc, list, times + 1)?;
            return Ok(found);
        }
        let items = list.split_list(alloc)?;
        let found = is_among(item, items.as_slice());
        let ordered = OrderedList::new(list.copy()?, items);
        self.keep(alloc, Searched::InOrder(ordered))?;
        Ok(found)
    }
}

/// Whether an item of the list equals the text. The list is read once, and nothing of it is kept.
fn read_for(alloc: Global, item: &Text, list: &Text) -> Result<bool, EvalFault>
    ensures { IsEvaluatedAs result (values.is_in item.now list.now) }
{
    match list.has_item(alloc, item) {
        Ok(found) => Ok(found),
        Err(SplitFault::BadList(fault)) => Err(EvalFault::BadList(fault)),
        Err(SplitFault::NoMemory) => Err(EvalFault::NoMemory),
    }
}

/// Whether one of the items is the text.
fn is_among(text: &Text, items: &[Text]) -> bool
    ensures { result ≡ values.is_among text.now items.now }
{
    items.iter().any(|item| item.as_str() == text.as_str())
}
