//! Places in the list of a listbox.
ghost use Rattle.std.specs.Prelude.{◌≡◌};
ghost use Rattle.tcl_text.specs.Indices as list_indices;
ghost use Rattle.tk_widgets.specs.Indices as spec;

use tcl_text::Text;

/// An index of listbox(n).
#[derive(Clone, Copy, Debug, PartialEq, Eq)]
pub enum ItemIndex {
    /// So many items behind the first; below 0 it means a place before all, and past the last one behind all.
    Number(i64),
    /// The active item.
    Active,
    /// The last item; behind it for an insert.
    End,
}

impl ItemIndex {
    /// The index that a word is: an integer, `active` or `end`. It takes no memory.
    #[tactic(auto, unfolding(crate::specs::Indices::index_in))]
    pub fn read(word: &Text) -> Option<ItemIndex>
        ensures { result ≡ spec.index_in word.now }
    {
        match word.as_str() {
            "active" => Some(ItemIndex::Active),
            "end" => Some(ItemIndex::End),
            _ => number_in(word),
        }
    }

    /// How many of so many items stand before it, where one is active.
    pub fn before(self, size: usize, active: usize) -> usize
        ensures { result ≡ spec.before self size active }
    {
        match self {
            ItemIndex::Number(number) => from_zero(number).min(size),
            ItemIndex::Active => active,
            ItemIndex::End => size.saturating_sub(1),
        }
    }

    /// How many of them stand up to it and with it.
    pub fn through(self, size: usize, active: usize) -> usize
        ensures { result ≡ spec.through self size active }
    {
        match self {
            ItemIndex::Number(number) => through_number(number).min(size),
            ItemIndex::Active => active.saturating_add(1).min(size),
            ItemIndex::End => size,
        }
    }

    /// How many of them stand before what is inserted at it.
    pub fn before_inserted(self, size: usize, active: usize) -> usize
        ensures { result ≡ spec.before_inserted self size active }
    {
        match self {
            ItemIndex::Number(number) => from_zero(number).min(size),
            ItemIndex::Active => active,
            ItemIndex::End => size,
        }
    }
}

fn number_in(word: &Text) -> Option<ItemIndex>
    ensures { result ≡ spec.number_in word.now }
{
    match word.integer() {
        Ok(number) => Some(ItemIndex::Number(number)),
        Err(_) => None,
    }
}

/// The number, or 0 where it is below.
fn from_zero(number: i64) -> usize
    ensures { result ≡ list_indices.from_zero number }
{
    usize::try_from(number).unwrap_or(0)
}

/// How many items stand up to the one of a number and with it.
fn through_number(number: i64) -> usize
    ensures { result ≡ spec.through_number number }
{
    match usize::try_from(number) {
        Ok(number) => number.saturating_add(1),
        Err(_) => 0,
    }
}
