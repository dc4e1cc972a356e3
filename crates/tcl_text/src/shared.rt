ghost use Rattle.std.specs.Prelude.{◌≡◌, ◌++◌, ℕ, List, Ok, IfOk, IfSome, OnOk, OnErr, MatchBool, string_bytes};
ghost use Rattle.tcl_text.specs.AsciiMarks.{MarksAscii};
ghost use Rattle.tcl_text.specs.ReadList.{IsKeptOf};
ghost use Rattle.tcl_text.specs.Readings.{list_of};
ghost use Rattle.tcl_text.specs.Searching.{has_item};

use crate::fault::{SplitFault, TextFault};
use crate::item_bytes::ItemBytes;
use crate::list_string::ListString;
use crate::splitting::items_of;
use crate::text::{MAX_BYTES, Text};
use std::alloc::{AllocError, Global};
use std::cell::{Cell, OnceCell};
use std::marker::Model;
use std::rc::Rc;

/// After how many searches for an item a list is kept, which takes as long as up to so many of them: whoever has many lists searched so often
/// gains no time by it.
const MANY_SEARCHES: u8 = 64;

/// What is kept of a text that was read as a list.
#[derive(Drop)]
enum KeptAs {
    /// The list.
    Forms(Rc<ListString>),
    /// Its items alone, where its form is longer than a text may be.
    Items(ItemBytes),
    /// Nothing, where it is no list.
    Nothing,
}

/// A text that was read as a list, and what is kept of that.
#[derive(Drop)]
struct ReadList {
    text: String,
    kept: KeptAs,
    ghost read: { IsKeptOf kept (string_bytes text) },
}

/// A text that copies share, whether it is all ASCII, and the list that it is, once it was read as one a second time, or was searched often.
#[derive(Drop)]
pub struct SharedText {
    string: String,
    ascii: bool,
    was_read: Cell<bool>,
    searches: Cell<u8>,
    read: OnceCell<Box<ReadList>>,
}

impl Model for SharedText {
    ghost use Rattle.std.specs.Prelude.{ℕ, List, string_bytes};
    ghost use Rattle.tcl_text.specs.AsciiMarks.{MarksAscii};

    ghost Value = { List ℕ };

    ghost view = { λ s. string_bytes s.string };

    ghost invariant = { λ s. MarksAscii s.ascii (string_bytes s.string) };
}

impl KeptAs {
    /// What is kept of a text that is the list of these items.
    fn of_items(alloc: Global, items: &[Text]) -> Result<KeptAs, AllocError>
        ensures { IfOk result (λ kept. (text : List ℕ) → list_of text ≡ Ok items.now → IsKeptOf kept text) }
    {
        match ListString::new(alloc, items) {
            Ok(list) => Ok(KeptAs::Forms(Rc::new(alloc, list)?)),
            Err(TextFault::TooLong) => Ok(KeptAs::Items(ItemBytes::new(alloc, items)?)),
            Err(TextFault::NoMemory) => Err(AllocError),
        }
    }

    /// What is kept of a text.
    fn of(alloc: Global, text: &str) -> Result<KeptAs, AllocError>
        ensures { IfOk result (λ kept. IsKeptOf kept text.now) }
    {
        if text.len() > MAX_BYTES {
            return Ok(KeptAs::Nothing);
        }
        match items_of(alloc, text) {
            Ok(items) => KeptAs::of_items(alloc, items.as_slice()),
            Err(SplitFault::BadList(_)) => Ok(KeptAs::Nothing),
            Err(SplitFault::NoMemory) => Err(AllocError),
        }
    }
}

impl ReadList {
    /// A text, and what is kept of it.
    fn of(alloc: Global, text: &str) -> Result<Box<ReadList>, AllocError> {
        let kept = KeptAs::of(alloc, text)?;
        let text = String::from_str(alloc, text)?;
        Ok(Box::new(alloc, ReadList { text, kept })?)
    }
}

impl SharedText {
    /// These characters, which it takes over.
    pub fn new(string: String) -> SharedText
        ensures { result ≡ string_bytes string }
    {
        let ascii = string.as_str().is_ascii();
        SharedText {
            string,
            ascii,
            was_read: Cell::new(false),
            searches: Cell::new(0),
            read: OnceCell::new(),
        }
    }

    /// The characters.
    pub fn as_str(&self) -> &str
        ensures { result.now ≡ self.now }
    {
        self.string.as_str()
    }

    /// Whether the characters are all ASCII, as was seen when they were written.
    pub fn is_ascii(&self) -> bool
        ensures { MarksAscii result self.now }
    {
        self.ascii
    }

    /// What is kept of the text, from now on at the latest. What a cell has is known by its text alone, which is compared.
    fn kept(&self, alloc: Global) -> Option<&KeptAs>
        ensures { IfSome result (λ kept. IsKeptOf kept.now self.now) }
    {
        let text = self.string.as_str();
        let Ok(read) = self.read.get_or_try_init(|| ReadList::of(alloc, text)) else {
            return None;
        };
        if read.text.as_str() == text {
            Some(&read.kept)
        } else {
            None
        }
    }

    /// The list that the text is, where it is kept: not at the first time.
    pub fn as_kept(&self, alloc: Global) -> Option<&Rc<ListString>>
        ensures { IfSome result (λ list. list_of self.now ≡ Ok list.now.value) }
    {
        if !self.was_read.get() {
            self.was_read.set(true);
            return None;
        }
        match self.kept(alloc)? {
            KeptAs::Forms(list) => Some(list),
            _ => None,
        }
    }

    /// Counts a search for an item, and says whether there were few.
    fn is_seldom_searched(&self) -> bool {
        let searches = self.searches.get();
        if searches < MANY_SEARCHES {
            self.searches.set(searches + 1);
            return true;
        }
        false
    }

    /// Whether an item of the list that the text is equals another text, where the list is kept: if not for other reasons, then after many searches.
    pub fn found(&self, alloc: Global, item: &str) -> Option<bool>
        ensures { IfSome result (λ found. has_item item.now (list_of self.now) ≡ Ok found) }
    {
        if self.read.get().is_none() && self.is_seldom_searched() {
            return None;
        }
        let Some(kept) = self.kept(alloc) else {
            self.searches.set(0);
            return None;
        };
        match kept {
            KeptAs::Forms(list) => list.as_ref().has(alloc, item).ok(),
            KeptAs::Items(items) => Some(items.has(item.as_bytes())),
            KeptAs::Nothing => None,
        }
    }

    /// Adds characters at the end.
    fn push_str(&mut self, characters: &str) -> Result<(), AllocError>
        ensures ok { OnOk result (self.new ≡ self.old ++ characters.now) }
        ensures err { OnErr result (self.new ≡ self.old) }
    {
        self.string.push_str(characters)?;
        self.ascii &= characters.is_ascii();
        self.was_read.set(false);
        self.searches.set(0);
        let _list = self.read.take();
        Ok(())
    }

    /// Adds characters to a text that has no other owner; false, and nothing is done, where it has one.
    pub fn push_alone(text: &mut Rc<SharedText>, characters: &str) -> Result<bool, AllocError>
        ensures ok { IfOk result (λ done. MatchBool done (text.new.value ≡ text.old.value ++ characters.now) (text.new.value ≡ text.old.value)) }
        ensures err { OnErr result (text.new.value ≡ text.old.value) }
    {
        match Rc::get_mut(text) {
            Some(alone) => {
                alone.push_str(characters)?;
                Ok(true)
            }
            None => Ok(false),
        }
    }
}
