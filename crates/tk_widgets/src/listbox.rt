ghost use Rattle.std.specs.Prelude.{◌≡◌, ◌≢◌, ◌<◌, ◌≤◌, ◌++◌, [], min, length, IfOk, IfErr, OnOk, OnErr, drop, take, ◌+◌, ◌^◌};
ghost use Rattle.tcl_text.specs.Readings.{list_form};
ghost use Rattle.tcl_text.specs.Indices.{from_zero};
ghost use Rattle.tk_widgets.specs.Items.{texts, new_items, selected_from};
ghost use Rattle.tk_widgets.specs.Kept.{IsLengthened, IsFull};
ghost use Rattle.tk_widgets.specs.Listboxes.{part, kept, active_inserted, active_deleted, inserted, deleted, activated, selected_by, selected, has_selected, row_at};
ghost use Rattle.tcl_text.specs.Limits.{most_bytes};

use crate::choice::Choice;
use crate::items::{Item, first_items, items_behind, texts_of, with_copies, with_new};
use std::alloc::{AllocError, Global};
use std::marker::Model;
use tcl_text::{Edit, EditFault, Text, TextFault, TextList};

/// How many pixels high a row is.
const ROW: usize = 16;

/// The items of a listbox with their selection, and which is active (listbox(n)). Places count from 0. In an empty listbox the place 0 is
/// active. The list of all items is kept beside them, so that items added behind the last don't cost what stands before them.
pub struct Listbox {
    items: Vec<Item>,
    list: Text,
    active: usize,
}

impl Model for Listbox {
    ghost use Rattle.tk_widgets.specs.Listboxes.{ListboxState};
    ghost use Rattle.tk_widgets.specs.Kept.{IsKept};

    ghost Value = { ListboxState };

    ghost view = { λ b. record { items = b.items.items; active = b.active } };

    ghost invariant = { λ b. IsKept b.items.items b.list b.active };
}

impl Listbox {
    /// No items.
    pub fn new(alloc: Global) -> Result<Listbox, AllocError>
        ensures { IfOk result (λ listbox. listbox ≡ record { items = []; active = 0 }) }
    {
        let items = Vec::new(alloc);
        let list = list_text(alloc, &items)?;
        Ok(Listbox {
            items,
            list,
            active: 0,
        })
    }

    /// How many items there are (`size` of listbox(n)).
    pub fn size(&self) -> usize
        ensures { result ≡ length self.now.items }
    {
        self.items.len()
    }

    /// The place of the active item.
    pub fn active(&self) -> usize
        ensures { result ≡ self.now.active }
    {
        self.active
    }

    /// The texts of the items from a place on and before another (`get` of listbox(n)).
    pub fn get(&self, alloc: Global, from: usize, to: usize) -> Result<TextList, AllocError>
        ensures { IfOk result (λ list. list ≡ texts (part from to self.now.items)) }
    {
        texts_of(alloc, items_behind(first_items(&self.items, to), from))
    }

    /// The list of all items, which is not copied. It takes no memory.
    pub fn list(&self) -> &Text
        ensures { result.now ≡ list_form (texts self.now.items) }
    {
        &self.list
    }

    /// Inserts items before the one at a place, or behind the last (`insert` of listbox(n)). `TooLong` (4), and nothing is inserted, where the
    /// list of all items would pass 65,536 bytes.
    pub fn insert(&mut self, alloc: Global, at: usize, new: &[Text]) -> Result<(), TextFault>
        ensures ok { OnOk result (self.new ≡ inserted at new.now self.old) }
        ensures short { OnOk result (length (list_form (texts (inserted at new.now self.old).items)) ≤ most_bytes) }
        ensures too_long { IfErr result (λ fault. fault ≢ TextFault.NoMemory
            → most_bytes < length (list_form (texts (inserted at new.now self.old).items))) }
        ensures err { OnErr result (self.new ≡ self.old) }
    {
        if at < self.size() {
            self.insert_before(alloc, at, new)
        } else {
            self.push(alloc, at, new)
        }
    }

    /// Inserts items before the one at a place; all that are there are gone over.
    fn insert_before(&mut self, alloc: Global, at: usize, new: &[Text]) -> Result<(), TextFault>
        ensures ok { OnOk result (self.new ≡ inserted at new.now self.old) }
        ensures short { OnOk result (length (list_form (texts (inserted at new.now self.old).items)) ≤ most_bytes) }
        ensures too_long { IfErr result (λ fault. fault ≢ TextFault.NoMemory
            → most_bytes < length (list_form (texts (inserted at new.now self.old).items))) }
        ensures err { OnErr result (self.new ≡ self.old) }
    {
        let items = spliced(alloc, &self.items, at, new)?;
        let list = listed(alloc, &items)?;
        let active = active_inserted(at, new.len(), self.items.len(), self.active);
        *self = Listbox {
            items,
            list,
            active,
        };
        Ok(())
    }

    /// Adds items behind the last; those that are there aren't gone over.
    fn push(&mut self, alloc: Global, at: usize, new: &[Text]) -> Result<(), TextFault>
        requires { length self.old.items ≤ at }
        ensures ok { OnOk result (self.new ≡ inserted at new.now self.old) }
        ensures short { OnOk result (length (list_form (texts (inserted at new.now self.old).items)) ≤ most_bytes) }
        ensures too_long { IfErr result (λ fault. fault ≢ TextFault.NoMemory
            → most_bytes < length (list_form (texts (inserted at new.now self.old).items))) }
        ensures err { OnErr result (self.new ≡ self.old) }
    {
        push_items(alloc, &mut self.items, &mut self.list, new)?;
        Ok(())
    }

    /// Deletes the items from a place on and before another (`delete` of listbox(n)). Refused, it deletes none.
    pub fn delete(&mut self, alloc: Global, from: usize, to: usize) -> Result<(), AllocError>
        ensures ok { OnOk result (self.new ≡ deleted from to self.old) }
        ensures err { OnErr result (self.new ≡ self.old) }
    {
        let items = kept(alloc, &self.items, from, to)?;
        let list = rest_listed(alloc, &self.list, &self.items, from, to, &items)?;
        let last = items.len().saturating_sub(1);
        let active = active_deleted(from, to, self.active).min(last);
        *self = Listbox {
            items,
            list,
            active,
        };
        Ok(())
    }

    /// Makes the item at a place active, or the last (`activate` of listbox(n)). It takes no memory.
    pub fn activate(&mut self, place: usize)
        ensures { self.new ≡ activated place self.old }
    {
        self.active = place.min(self.items.len().saturating_sub(1));
    }

    /// Changes the selection (`selection set`, `selection clear` of listbox(n), and what keys and the pointer do). It takes no memory.
    pub fn select(&mut self, how: Choice)
        ensures { self.new ≡ selected how self.old }
    {
        choose_among(&mut self.items, how);
    }

    /// The places of the items that are selected, in order (`curselection` of listbox(n)).
    pub fn selection(&self, alloc: Global) -> Result<Vec<usize>, AllocError>
        ensures { IfOk result (λ list. list.items ≡ selected_from 0 self.now.items) }
    {
        chosen_places(alloc, &self.items)
    }

    /// Whether one of the items from a place on and before another is selected (`selection includes` of listbox(n)). It takes no memory.
    pub fn includes(&self, from: usize, to: usize) -> bool
        ensures { result ≡ has_selected (part from to self.now.items) }
    {
        items_behind(first_items(&self.items, to), from)
            .iter()
            .any(|item| item.selected)
    }

    /// The place of the item at a height, in pixels from the upper edge, inside a border of so many pixels; the nearest, where the height lies
    /// past the items. It takes no memory.
    pub fn row(&self, y: i64, border: u32) -> usize
        ensures { result ≡ row_at y border (length self.now.items) }
    {
        let inside = usize::try_from(y)
            .unwrap_or(0)
            .saturating_sub(border as usize);
        (inside / ROW).min(self.items.len().saturating_sub(1))
    }
}

/// The items with new ones before the one at a place, however long.
fn spliced(alloc: Global, items: &[Item], at: usize, new: &[Text]) -> Result<Vec<Item>, AllocError>
    ensures { IfOk result (λ all. all.items ≡ take at items.now ++ (new_items new.now ++ drop at items.now)) }
{
    let all = with_copies(Vec::new(alloc), first_items(items, at))?;
    let all = with_new(all, new)?;
    with_copies(all, items_behind(items, at))
}

/// The list of items.
fn listed(alloc: Global, items: &[Item]) -> Result<Text, TextFault>
    ensures ok { IfOk result (λ list. list ≡ list_form (texts items.now)) }
    ensures short { OnOk result (length (list_form (texts items.now)) ≤ most_bytes) }
    ensures too_long { IfErr result (λ fault. fault ≢ TextFault.NoMemory → most_bytes < length (list_form (texts items.now))) }
{
    let texts = texts_of(alloc, items)?;
    let list = Text::join_list(alloc, texts.as_slice())?;
    Ok(list)
}

/// The list of items that fit one.
fn list_of(alloc: Global, items: &[Item]) -> Result<Text, AllocError>
    requires { length (list_form (texts items.now)) ≤ most_bytes }
    ensures { IfOk result (λ list. list ≡ list_form (texts items.now)) }
{
    match listed(alloc, items) {
        Ok(list) => Ok(list),
        Err(TextFault::TooLong) => unreachable!(),
        Err(TextFault::NoMemory) => Err(AllocError),
    }
}

/// The list of no items.
fn list_text(alloc: Global, none: &[Item]) -> Result<Text, AllocError>
    requires { none.now ≡ [] }
    ensures { IfOk result (λ list. list ≡ list_form (texts none.now)) }
{
    list_of(alloc, none)
}

/// The list of the items that are left of others.
fn rest_listed(
    alloc: Global,
    list: &Text,
    items: &[Item],
    from: usize,
    to: usize,
    left: &[Item],
) -> Result<Text, AllocError>
    requires list { list.now ≡ list_form (texts items.now) }
    requires left { left.now ≡ kept from to items.now }
    ensures { IfOk result (λ rest. rest ≡ list_form (texts left.now)) }
{
    let _characters = list.as_str();
    list_of(alloc, left)
}

/// Adds items, and their elements to the list of all.
fn push_items(
    alloc: Global,
    items: &mut Vec<Item>,
    list: &mut Text,
    new: &[Text],
) -> Result<(), TextFault>
    requires { list.old ≡ list_form (texts items.old.items) }
    ensures items { OnOk result (items.new.items ≡ items.old.items ++ new_items new.now) }
    ensures list { OnOk result (list.new ≡ list_form (texts (items.old.items ++ new_items new.now))) }
    ensures short { OnOk result (length (list_form (texts (items.old.items ++ new_items new.now))) ≤ most_bytes) }
    ensures too_long { IfErr result (λ fault. fault ≢ TextFault.NoMemory
        → most_bytes < length (list_form (texts (items.old.items ++ new_items new.now)))) }
    ensures items_stay { OnErr result (items.new.items ≡ items.old.items) }
    ensures list_stays { OnErr result (list.new ≡ list.old) }
{
    let size = items.len();
    let mut more = with_new(Vec::new(alloc), new)?;
    items.append(&mut more)?;
    match push_elements(alloc, list, new) {
        Ok(()) => Ok(()),
        Err(fault) => {
            items.truncate(size);
            Err(fault)
        }
    }
}

/// Adds elements to a list in its one form.
fn push_elements(alloc: Global, list: &mut Text, new: &[Text]) -> Result<(), TextFault>
    ensures ok { OnOk result (IsLengthened new.now list.old list.new) }
    ensures too_long { IfErr result (λ fault. fault ≢ TextFault.NoMemory → IsFull new.now list.old) }
    ensures err { OnErr result (list.new ≡ list.old) }
{
    match list.edit(alloc, Edit::Items(new)) {
        Ok(()) => {
            let _characters = list.as_str();
            Ok(())
        }
        Err(EditFault::NoMemory) => Err(TextFault::NoMemory),
        Err(EditFault::TooLong) => Err(TextFault::TooLong),
        // (not answered, since the text is a list)
        Err(EditFault::BadList(_)) => Err(TextFault::TooLong),
    }
}

/// The items without those from a place on and before another.
fn kept(alloc: Global, items: &[Item], from: usize, to: usize) -> Result<Vec<Item>, AllocError>
    ensures { IfOk result (λ all. all.items ≡ kept from to items.now) }
{
    let all = with_copies(Vec::new(alloc), first_items(items, from))?;
    with_copies(all, items_behind(items, from.max(to)))
}

/// The place of the active item of so many, once others stand before a place.
fn active_inserted(at: usize, count: usize, size: usize, active: usize) -> usize
    requires { size + count < 2 ^ 64 }
    ensures { result ≡ active_inserted at count size active }
{
    if active < size && at <= active {
        active + count
    } else {
        active
    }
}

/// The place of the active item, once those from a place on and before another are gone.
fn active_deleted(from: usize, to: usize, active: usize) -> usize
    ensures { result ≡ active_deleted from to active }
{
    if to <= active {
        active - to.saturating_sub(from)
    } else {
        active.min(from)
    }
}

/// Changes the selection of all items.
fn choose_among(items: &mut Vec<Item>, how: Choice)
    ensures { items.new.items ≡ selected_by how items.old.items }
{
    choose(items, how);
}

/// Changes the selection of the items.
fn choose(items: &mut [Item], how: Choice)
    ensures { items.new ≡ selected_by how items.old }
{
    for (place, item) in items.iter_mut().enumerate() {
        item.selected = how.after(place, item.selected);
    }
}

/// The places of the items that are selected.
fn chosen_places(alloc: Global, items: &[Item]) -> Result<Vec<usize>, AllocError>
    ensures { IfOk result (λ list. list.items ≡ selected_from 0 items.now) }
{
    let mut list = Vec::new(alloc);
    for (place, item) in items.iter().enumerate() {
        if item.selected {
            list.push(place)?;
        }
    }
    Ok(list)
}

/// By hand: a proof sees one call where it is dropped, and not its parts.
impl Drop for Listbox {
    fn drop(self) {
        let Listbox {
            items: _,
            list: _,
            active: _,
        } = self;
    }
}
