ghost use Rattle.std.specs.Prelude.{◌≡◌, ◌≢◌, ◌+◌, ◌<◌, ◌≤◌, ◌++◌, ◌∷◌, [], ℕ, List, take, drop, length, slice_index_or, string_bytes, bytes_eq, IfOk, IfErr, OnOk, OnErr, MatchBool};
ghost use Rattle.std.specs.List.{list_any};
ghost use Rattle.tcl_text.specs.ListCommands.{spliced};
ghost use Rattle.tcl_text.specs.ListForm.{others_form};
ghost use Rattle.tcl_text.specs.AsciiMarks.{MarksAscii};
ghost use Rattle.tcl_text.specs.ListString.{AreEnds, KeepsList, ends_behind, items_kept};
ghost use Rattle.tcl_text.specs.Readings.{element_form, list_form};
ghost use Rattle.tcl_text.specs.Bytes.{space};
ghost use Rattle.tcl_text.specs.Limits.{most_bytes, most_string};

use crate::fault::TextFault;
use crate::list_form::{push_element, stands_bare};
use crate::short::{SHORT_BYTES, ShortText};
use crate::sought::is_same;
use crate::splitting::first_element;
use crate::text::{MAX_BYTES, Text};
use std::alloc::{AllocError, Global};
use std::marker::Model;
use std::rc::Rc;

/// How many bytes the string of a kept list may have.
const MAX_STRING: usize = MAX_BYTES + 1;

/// A list. Its form is kept, with a blank before each item's, where each item's ends, and whether it is all ASCII: so an item is found by its
/// number, and a part of what is kept is what is kept of that part of the list.
#[derive(Drop)]
pub struct ListString {
    string: String,
    ends: Vec<u32>,
    ascii: bool,
}

impl Model for ListString {
    ghost use Rattle.std.specs.Prelude.{ℕ, List, string_bytes};
    ghost use Rattle.tcl_text.specs.AsciiMarks.{MarksAscii};
    ghost use Rattle.tcl_text.specs.ListString.{KeepsList, items_kept};

    ghost Value = { List (List ℕ) };

    ghost view = { λ l. items_kept (string_bytes l.string) };

    ghost invariant = { λ l. KeepsList (string_bytes l.string) l.ends.items (items_kept (string_bytes l.string))
        × MarksAscii l.ascii (string_bytes l.string) };
}

/// Adds the form of an item, behind a blank.
fn push_form(string: &mut String, item: &str) -> Result<(), AllocError>
    ensures { OnOk result (string_bytes string.new ≡ (string_bytes string.old ++ space ∷ []) ++ element_form item.now) }
{
    string.push(' ')?;
    push_element(string, item)?;
    Ok(())
}

/// Adds the forms of items, each behind a blank, and where each ends. `TooLong` where the form of the list passes 65,536 bytes; it stops
/// soon after that.
fn push_forms(string: &mut String, ends: &mut Vec<u32>, items: &[Text]) -> Result<(), TextFault>
    requires { length (string_bytes string.old) ≤ most_string }
    ensures forms { OnOk result (string_bytes string.new ≡ string_bytes string.old ++ others_form items.now) }
    ensures places { OnOk result (ends.new.items ≡ ends.old.items ++ ends_behind (length (string_bytes string.old)) items.now) }
    ensures short { OnOk result (length (string_bytes string.new) ≤ most_string) }
    ensures too_long { IfErr result (λ fault. fault ≢ TextFault.NoMemory → most_string < length (string_bytes string.old ++ others_form items.now)) }
{
    for item in items {
        push_form(string, item.as_str())?;
        let end = string.as_str().len();
        if end > MAX_STRING {
            return Err(TextFault::TooLong);
        }
        ends.push(end as u32)?;
    }
    Ok(())
}

/// Adds ends, as far behind one place as they are behind another. On an error what was there stays in front.
fn push_ends(ends: &mut Vec<u32>, others: &[u32], from: u32, to: u32) -> Result<(), AllocError>
    requires { AreEnds from to others.now }
    ensures ok { OnOk result ((items : List (List ℕ)) → others.now ≡ ends_behind from items → ends.new.items ≡ ends.old.items ++ ends_behind to items) }
    ensures err { OnErr result (take (length ends.old.items) ends.new.items ≡ ends.old.items) }
{
    ends.reserve(others.len())?;
    for end in others {
        ends.push(*end - from + to)?;
    }
    Ok(())
}

/// Adds a list to the string and the ends of another. On an error the string is as it was, and the ends that were there stay in front.
fn push_kept(string: &mut String, ends: &mut Vec<u32>, more: &ListString) -> Result<(), AllocError>
    requires { length (string_bytes string.old) + length (others_form more.now) ≤ most_string }
    ensures forms { OnOk result (string_bytes string.new ≡ string_bytes string.old ++ others_form more.now) }
    ensures places { OnOk result (ends.new.items ≡ ends.old.items ++ ends_behind (length (string_bytes string.old)) more.now) }
    ensures same { OnErr result (string_bytes string.new ≡ string_bytes string.old) }
    ensures front { OnErr result (take (length ends.old.items) ends.new.items ≡ ends.old.items) }
{
    let behind = string.as_str().len();
    push_ends(ends, more.ends.as_slice(), 0, behind as u32)?;
    string.push_str(more.string.as_str())?;
    Ok(())
}

/// Adds the form of an item, with a blank in front, and where it ends. On an error the string is as it was, and the ends that were there stay in front.
fn push_one(string: &mut String, ends: &mut Vec<u32>, form: &str) -> Result<(), AllocError>
    requires { length (string_bytes string.old) + length form.now ≤ most_string }
    ensures forms { OnOk result (string_bytes string.new ≡ string_bytes string.old ++ form.now) }
    ensures places { OnOk result (ends.new.items ≡ ends.old.items ++ (length (string_bytes string.old) + length form.now) ∷ []) }
    ensures same { OnErr result (string_bytes string.new ≡ string_bytes string.old) }
    ensures front { OnErr result (take (length ends.old.items) ends.new.items ≡ ends.old.items) }
{
    let end = string.as_str().len() + form.len();
    ends.push(end as u32)?;
    string.push_str(form)?;
    Ok(())
}

impl ListString {
    /// The list of which this is the string, with a blank before each item's form, and these the ends.
    fn of_string(string: String, ends: Vec<u32>) -> ListString
        requires { KeepsList (string_bytes string) ends.items (items_kept (string_bytes string)) }
        ensures { result ≡ items_kept (string_bytes string) }
    {
        let ascii = string.as_str().is_ascii();
        ListString {
            string,
            ends,
            ascii,
        }
    }

    /// The list of these items. `TooLong` where its form passes 65,536 bytes; it stops soon after that.
    pub fn new(alloc: Global, items: &[Text]) -> Result<ListString, TextFault>
        ensures ok { IfOk result (λ list. list ≡ items.now) }
        ensures too_long { IfErr result (λ fault. fault ≢ TextFault.NoMemory → most_bytes < length (list_form items.now)) }
    {
        let mut string = String::new(alloc);
        let mut ends = Vec::with_capacity(alloc, items.len())?;
        push_forms(&mut string, &mut ends, items)?;
        Ok(ListString::of_string(string, ends))
    }

    /// The form of the list.
    pub fn as_str(&self) -> &str
        ensures form { result.now ≡ list_form self.now }
        ensures short { length (list_form self.now) ≤ most_bytes }
    {
        let string = self.string.as_str();
        if string.is_empty() {
            string
        } else {
            &string[1..]
        }
    }

    /// Whether the form is all ASCII, as was seen when it was written.
    pub fn is_ascii(&self) -> bool
        ensures { MarksAscii result (list_form self.now) }
    {
        self.ascii
    }

    /// How many items there are.
    pub fn len(&self) -> usize
        ensures { result ≡ length self.now }
    {
        self.ends.len()
    }

    /// How many bytes the string has: one more than the form, where there are items.
    fn width(&self) -> usize
        ensures value { result ≡ length (others_form self.now) }
        ensures within { result ≤ most_string }
    {
        self.string.as_str().len()
    }

    /// Where the item of this number begins in the string, with the blank before it, or where the last one ends.
    #[inline]
    fn place(&self, number: usize) -> usize
        requires { number ≤ length self.now }
        ensures value { result ≡ length (others_form (take number self.now)) }
        ensures within { result ≤ most_string }
    {
        if number == 0 {
            0
        } else {
            self.ends[number - 1] as usize
        }
    }

    /// The form of the item of this number, counted from 0.
    #[inline]
    fn form(&self, number: usize) -> &str
        requires { number < length self.now }
        ensures value { result.now ≡ element_form (slice_index_or self.now number []) }
        ensures short { length result.now ≤ most_bytes }
    {
        let string = self.string.as_str();
        let start = self.place(number);
        let next = number + 1;
        let end = self.place(next);
        &string[start + 1..end]
    }

    /// The item of this number, counted from 0.
    pub fn item(&self, alloc: Global, number: usize) -> Result<Text, AllocError>
        requires { number < length self.now }
        ensures { IfOk result (λ item. drop number (take (number + 1) self.now) ≡ item ∷ []) }
    {
        let form = self.form(number);
        match first_element(alloc, form) {
            Ok((item, _behind)) => Ok(item),
            Err(_) => Err(AllocError),
        }
    }

    /// Whether the form of an item is this one.
    fn has_form(&self, form: &str) -> bool
        ensures { result ≡ list_any (λ one. bytes_eq (element_form one) form.now) self.now }
    {
        for number in 0..self.len() {
            if is_same(self.form(number).as_bytes(), form.as_bytes()) {
                return true;
            }
        }
        false
    }

    /// Whether one of the items is this one: its form is told from theirs, so none is read.
    pub fn has(&self, alloc: Global, item: &str) -> Result<bool, AllocError>
        ensures { IfOk result (λ found. found ≡ list_any (λ one. bytes_eq one item.now) self.now) }
    {
        let mut form = String::new(alloc);
        push_element(&mut form, item)?;
        Ok(self.has_form(form.as_str()))
    }

    /// The items from one number up to another.
    pub fn part(&self, alloc: Global, from: usize, to: usize) -> Result<ListString, AllocError>
        requires in_order { from ≤ to }
        requires within { to ≤ length self.now }
        ensures { IfOk result (λ list. list ≡ drop from (take to self.now)) }
    {
        let kept = self.string.as_str();
        let start = self.place(from);
        let end = self.place(to);
        let string = String::from_str(alloc, &kept[start..end])?;
        let cut = &self.ends.as_slice()[from..to];
        let mut ends = Vec::new(alloc);
        push_ends(&mut ends, cut, start as u32, 0)?;
        Ok(ListString::of_string(string, ends))
    }

    /// The list with values in place of the items from one number up to another. `TooLong` where its form passes 65,536 bytes.
    pub fn spliced(
        &self,
        alloc: Global,
        from: usize,
        to: usize,
        values: &[Text],
    ) -> Result<ListString, TextFault>
        requires in_order { from ≤ to }
        requires within { to ≤ length self.now }
        ensures ok { IfOk result (λ list. list ≡ spliced self.now from to values.now) }
        ensures too_long { IfErr result (λ fault. fault ≢ TextFault.NoMemory → most_bytes < length (list_form (spliced self.now from to values.now))) }
    {
        let values = ListString::new(alloc, values)?;
        let mut list = self.part(alloc, 0, from)?;
        let behind = self.part(alloc, to, self.len())?;
        let width = list.width() + values.width() + behind.width();
        if width > MAX_STRING {
            return Err(TextFault::TooLong);
        }
        list.push(&values)?;
        list.push(&behind)?;
        Ok(list)
    }

    /// Adds the items of another list.
    fn push(&mut self, more: &ListString) -> Result<(), AllocError>
        requires { length (others_form self.old) + length (others_form more.now) ≤ most_string }
        ensures ok { OnOk result (self.new ≡ self.old ++ more.now) }
        ensures err { OnErr result (self.new ≡ self.old) }
    {
        let count = self.ends.len();
        match push_kept(&mut self.string, &mut self.ends, more) {
            Ok(()) => {
                self.ascii &= more.ascii;
                Ok(())
            }
            Err(refused) => {
                self.ends.truncate(count);
                Err(refused)
            }
        }
    }

    /// Adds an item, where it is written as it is, in few bytes, and there is room for it; false, and nothing is done, for another one.
    fn push_bare(&mut self, item: &str) -> Result<bool, AllocError>
        ensures ok { IfOk result (λ done. MatchBool done (self.new ≡ self.old ++ item.now ∷ []) (self.new ≡ self.old)) }
        ensures err { OnErr result (self.new ≡ self.old) }
    {
        if item.len() >= SHORT_BYTES {
            return Ok(false);
        }
        let bare = stands_bare(item);
        if !bare {
            return Ok(false);
        }
        let short = ShortText::joined(" ", item);
        let form = short.as_str();
        if form.len() > MAX_STRING - self.width() {
            return Ok(false);
        }
        let ascii = form.is_ascii();
        let count = self.ends.len();
        match push_one(&mut self.string, &mut self.ends, form) {
            Ok(()) => {
                self.ascii &= ascii;
                Ok(true)
            }
            Err(refused) => {
                self.ends.truncate(count);
                Err(refused)
            }
        }
    }

    /// Adds an item to a list that has no other owner, where it is written as it is, in few bytes, and there is room for it; false, and nothing is
    /// done, otherwise.
    fn push_alone(list: &mut Rc<ListString>, item: &str) -> Result<bool, AllocError>
        ensures ok { IfOk result (λ done. MatchBool done (list.new.value ≡ list.old.value ++ item.now ∷ []) (list.new.value ≡ list.old.value)) }
        ensures err { OnErr result (list.new.value ≡ list.old.value) }
    {
        match Rc::get_mut(list) {
            Some(alone) => alone.push_bare(item),
            None => Ok(false),
        }
    }

    /// The list with the items of another behind it.
    fn longer(&self, alloc: Global, more: &ListString) -> Result<ListString, AllocError>
        requires { length (others_form self.now) + length (others_form more.now) ≤ most_string }
        ensures { IfOk result (λ list. list ≡ self.now ++ more.now) }
    {
        let mut list = self.part(alloc, 0, self.len())?;
        list.push(more)?;
        Ok(list)
    }

    /// Adds items to a list; in place, where it has no other owner. `TooLong`, and nothing is added, where its form would pass 65,536 bytes.
    pub fn push_items(
        list: &mut Rc<ListString>,
        alloc: Global,
        items: &[Text],
    ) -> Result<(), TextFault>
        ensures ok { OnOk result (list.new.value ≡ list.old.value ++ items.now) }
        ensures too_long { IfErr result (λ fault. fault ≢ TextFault.NoMemory → most_bytes < length (list_form (list.old.value ++ items.now))) }
        ensures err { OnErr result (list.new.value ≡ list.old.value) }
    {
        if let [item] = items
            && ListString::push_alone(list, item.as_str())?
        {
            return Ok(());
        }
        ListString::push_all(list, alloc, items)
    }

    /// Adds items to a list by a list of them; in place, where it has no other owner. `TooLong`, and nothing is added, where its form would pass 65,536 bytes.
    fn push_all(list: &mut Rc<ListString>, alloc: Global, items: &[Text]) -> Result<(), TextFault>
        ensures ok { OnOk result (list.new.value ≡ list.old.value ++ items.now) }
        ensures too_long { IfErr result (λ fault. fault ≢ TextFault.NoMemory → most_bytes < length (list_form (list.old.value ++ items.now))) }
        ensures err { OnErr result (list.new.value ≡ list.old.value) }
    {
        let more = ListString::new(alloc, items)?;
        let width = Rc::as_ref(list).width() + more.width();
        if width > MAX_STRING {
            return Err(TextFault::TooLong);
        }
        if let Some(alone) = Rc::get_mut(list) {
            alone.push(&more)?;
            return Ok(());
        }
        let longer = Rc::as_ref(list).longer(alloc, &more)?;
        *list = Rc::new(alloc, longer)?;
        Ok(())
    }
}
