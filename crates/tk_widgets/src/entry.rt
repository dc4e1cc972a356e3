ghost use Rattle.std.specs.Prelude.{◌≡◌, ◌≢◌, ◌<◌, ◌≤◌, [], min, length, IfOk, IfErr, IfSome};
ghost use Rattle.std.specs.Option.{option_copied};
ghost use Rattle.tk_widgets.specs.Entries.{shown, cursor_in, index_in, inserted, deleted, edited};
ghost use Rattle.tcl_text.specs.Characters.{size};
ghost use Rattle.tcl_text.specs.Limits.{most_bytes};

use crate::entry_index::index_in;
use std::alloc::{AllocError, Global};
use tcl_text::{Text, TextFault, characters};

/// What an entry holds (entry(n)). Where its `-textvariable` names a variable that can be read, it shows that variable's text in place of its own;
/// the calls take it as `variable`. An edit starts from what the entry shows and gives another entry, whose own text is what it made; the caller
/// sets the variable to that, and then puts the entry in the place of this one.
pub struct Entry {
    pub text: Text,
    /// So many characters stand before the insertion cursor. Past the end of the text that is shown it stands at the end.
    pub cursor: usize,
}

impl Entry {
    /// An empty entry.
    pub fn new() -> Entry
        ensures { result ≡ record { text = []; cursor = 0 } }
    {
        Entry {
            text: Text::empty(),
            cursor: 0,
        }
    }

    /// What the entry shows, which is not copied (`get` of entry(n)).
    pub fn shown<'a>(&'a self, variable: Option<&'a Text>) -> &'a Text
        ensures { result.now ≡ shown (option_copied variable.entry) self.now }
    {
        match variable {
            Some(text) => text,
            None => &self.text,
        }
    }

    /// How many characters stand before the cursor. It takes no memory.
    pub fn cursor(&self, variable: Option<&Text>) -> usize
        ensures { result ≡ cursor_in (shown (option_copied variable.entry) self.now) self.now }
    {
        let text = self.shown(variable);
        self.cursor.min(characters::count(text.as_str()))
    }

    /// How many characters stand before an index (`index` of entry(n)); none where the word is no index. It takes no memory.
    pub fn index(&self, variable: Option<&Text>, word: &Text) -> Option<usize>
        ensures value { result ≡ index_in word.now (size (shown (option_copied variable.entry) self.now))
            (cursor_in (shown (option_copied variable.entry) self.now) self.now) }
        ensures bound { IfSome result (λ at. at ≤ most_bytes) }
    {
        let size = characters::count(self.shown(variable).as_str());
        index_in(word, size, self.cursor.min(size))
    }

    /// Puts the cursor behind so many characters (`icursor` of entry(n)).
    pub fn put_cursor(&mut self, at: usize)
        ensures { self.new ≡ record self.old { cursor = at } }
    {
        self.cursor = at;
    }

    /// The entry with a text inserted behind so many characters (`insert` of entry(n)). `TooLong` (4) where its text would pass 65,536 bytes.
    pub fn with_inserted(
        &self,
        alloc: Global,
        variable: Option<&Text>,
        at: usize,
        new: &Text,
    ) -> Result<Entry, TextFault>
        ensures ok { IfOk result (λ entry. entry ≡ edited (inserted at new.now) (option_copied variable.entry) self.now) }
        ensures short { IfOk result (λ entry. length entry.text ≤ most_bytes) }
        ensures too_long { IfErr result (λ fault. fault ≢ TextFault.NoMemory
            → most_bytes < length (edited (inserted at new.now) (option_copied variable.entry) self.now).text) }
    {
        with_inserted(alloc, self.shown(variable), self.cursor, at, new)
    }

    /// The entry without the characters from the place `first` on and before the place `last` (`delete` of entry(n)); none are taken where
    /// `last` isn't above `first`. It answers `NoMemory` alone.
    pub fn without(
        &self,
        alloc: Global,
        variable: Option<&Text>,
        first: usize,
        last: usize,
    ) -> Result<Entry, TextFault>
        ensures ok { IfOk result (λ entry. entry ≡ edited (deleted first last) (option_copied variable.entry) self.now) }
        ensures short { IfOk result (λ entry. length entry.text ≤ most_bytes) }
        ensures too_long { IfErr result (λ fault. fault ≢ TextFault.NoMemory
            → most_bytes < length (edited (deleted first last) (option_copied variable.entry) self.now).text) }
    {
        without(alloc, self.shown(variable), self.cursor, first, last)
    }
}

/// The text with another behind its first characters, and the cursor in it.
fn with_inserted(
    alloc: Global,
    text: &Text,
    cursor: usize,
    at: usize,
    new: &Text,
) -> Result<Entry, TextFault>
    ensures ok { IfOk result (λ entry. entry ≡ inserted at new.now text.now (min cursor (size text.now))) }
    ensures short { IfOk result (λ entry. length entry.text ≤ most_bytes) }
    ensures too_long { IfErr result (λ fault. fault ≢ TextFault.NoMemory
        → most_bytes < length (inserted at new.now text.now (min cursor (size text.now))).text) }
{
    let cursor = cursor.min(characters::count(text.as_str()));
    let passed = if at <= cursor {
        characters::count(new.as_str())
    } else {
        0
    };
    Ok(Entry {
        text: text.with_inserted(alloc, at, new.as_str())?,
        cursor: cursor + passed,
    })
}

/// The text without the characters between two places, and the cursor in it.
fn without(
    alloc: Global,
    text: &Text,
    cursor: usize,
    first: usize,
    last: usize,
) -> Result<Entry, TextFault>
    ensures ok { IfOk result (λ entry. entry ≡ deleted first last text.now (min cursor (size text.now))) }
    ensures short { IfOk result (λ entry. length entry.text ≤ most_bytes) }
    ensures too_long { IfErr result (λ fault. fault ≢ TextFault.NoMemory
        → most_bytes < length (deleted first last text.now (min cursor (size text.now))).text) }
{
    let cursor = cursor.min(characters::count(text.as_str()));
    Ok(Entry {
        text: text.without(alloc, first, last)?,
        cursor: cursor - cursor.min(last).saturating_sub(first),
    })
}

/// By hand: a proof sees one call where it is dropped, and not its parts.
impl Drop for Entry {
    fn drop(self) {
        let Entry { text: _, cursor: _ } = self;
    }
}
