//! What keys and the pointer do to an entry.
ghost use Rattle.std.specs.Prelude.{◌≡◌, ◌≢◌, ◌<◌, ◌≤◌, length, IfOk, IfErr, IfSome, IsSomeAnd};
ghost use Rattle.std.specs.Option.{option_copied};
ghost use Rattle.std.specs.Str.{chars};
ghost use Rattle.tk_widgets.specs.Columns.{characters_within};
ghost use Rattle.tk_widgets.specs.Entries.{shown, is_typed, by_text, by_backspace, by_delete, moved, move_named};
ghost use Rattle.tcl_text.specs.Characters.{size};
ghost use Rattle.tcl_text.specs.Limits.{most_bytes};

use crate::columns::characters_within;
use crate::entry::Entry;
use std::alloc::Global;
use tcl_text::characters::{self, split_first_char};
use tcl_text::{Text, TextFault};

/// How the cursor goes by keys.
#[derive(Clone, Copy, Debug, PartialEq, Eq)]
pub enum Move {
    Left,
    Right,
    Home,
    End,
}

impl Move {
    /// The way that a word names: `left`, `right`, `home` or `end`. It takes no memory.
    #[tactic(auto, unfolding(crate::specs::Entries::move_named))]
    pub fn named(word: &str) -> Option<Move>
        ensures { result ≡ move_named word.now }
    {
        match word {
            "left" => Some(Move::Left),
            "right" => Some(Move::Right),
            "home" => Some(Move::Home),
            "end" => Some(Move::End),
            _ => None,
        }
    }
}

impl Entry {
    /// The entry with the text of a key inserted at the cursor; none where the text is empty or begins with a control character. `TooLong` (4)
    /// where its text would pass 65,536 bytes.
    pub fn with_typed(
        &self,
        alloc: Global,
        variable: Option<&Text>,
        new: &Text,
    ) -> Result<Option<Entry>, TextFault>
        ensures ok { IfOk result (λ entry. entry ≡ by_text new.now (option_copied variable.entry) self.now) }
        ensures short { IfOk result (λ entry. IfSome entry (λ edited. length edited.text ≤ most_bytes)) }
        ensures too_long { IfErr result (λ fault. fault ≢ TextFault.NoMemory
            → IsSomeAnd (by_text new.now (option_copied variable.entry) self.now) (λ entry. most_bytes < length entry.text)) }
    {
        if !is_typed(new) {
            return Ok(None);
        }
        let at = self.cursor(variable);
        Ok(Some(self.with_inserted(alloc, variable, at, new)?))
    }

    /// The entry without the character before the cursor; none where there is none. It is refused only where memory is.
    pub fn without_before(
        &self,
        alloc: Global,
        variable: Option<&Text>,
    ) -> Result<Option<Entry>, TextFault>
        ensures ok { IfOk result (λ entry. entry ≡ by_backspace (option_copied variable.entry) self.now) }
        ensures short { IfOk result (λ entry. IfSome entry (λ edited. length edited.text ≤ most_bytes)) }
        ensures too_long { IfErr result (λ fault. fault ≢ TextFault.NoMemory
            → IsSomeAnd (by_backspace (option_copied variable.entry) self.now) (λ entry. most_bytes < length entry.text)) }
    {
        let cursor = self.cursor(variable);
        if cursor == 0 {
            return Ok(None);
        }
        Ok(Some(self.without(alloc, variable, cursor - 1, cursor)?))
    }

    /// The entry without the character behind the cursor; none where there is none. It is refused only where memory is.
    pub fn without_behind(
        &self,
        alloc: Global,
        variable: Option<&Text>,
    ) -> Result<Option<Entry>, TextFault>
        ensures ok { IfOk result (λ entry. entry ≡ by_delete (option_copied variable.entry) self.now) }
        ensures short { IfOk result (λ entry. IfSome entry (λ edited. length edited.text ≤ most_bytes)) }
        ensures too_long { IfErr result (λ fault. fault ≢ TextFault.NoMemory
            → IsSomeAnd (by_delete (option_copied variable.entry) self.now) (λ entry. most_bytes < length entry.text)) }
    {
        let cursor = self.cursor(variable);
        if cursor >= self.size(variable) {
            return Ok(None);
        }
        Ok(Some(self.without(alloc, variable, cursor, cursor + 1)?))
    }

    /// Moves the cursor by a character, where there is one, or to an end of the text. Where there is no character, the cursor is kept as it
    /// was, past the end of the text too. It takes no memory.
    pub fn move_cursor(&mut self, variable: Option<&Text>, way: Move)
        ensures { self.new ≡ moved way (shown (option_copied variable.entry) self.old) self.old }
    {
        let cursor = self.cursor(variable);
        let size = self.size(variable);
        match way {
            Move::Left => {
                if cursor > 0 {
                    self.put_cursor(cursor - 1);
                }
            }
            Move::Right => {
                if cursor < size {
                    self.put_cursor(cursor + 1);
                }
            }
            Move::Home => self.put_cursor(0),
            Move::End => self.put_cursor(size),
        }
    }

    /// Puts the cursor behind as many characters as so many columns have room for. It takes no memory.
    pub fn point(&mut self, variable: Option<&Text>, room: usize)
        ensures { self.new ≡ record self.old { cursor = characters_within room (chars (shown (option_copied variable.entry) self.old)) } }
    {
        let at = characters_within(self.shown(variable).as_str(), room);
        self.put_cursor(at);
    }

    /// How many characters are shown.
    fn size(&self, variable: Option<&Text>) -> usize
        ensures { result ≡ size (shown (option_copied variable.entry) self.now) }
    {
        characters::count(self.shown(variable).as_str())
    }
}

/// Whether a key puts the text in: it begins with a character that is no control character.
fn is_typed(new: &Text) -> bool
    ensures { result ≡ is_typed (chars new.now) }
{
    match split_first_char(new.as_str()) {
        Some((first, _)) => first >= ' ' && first != '\u{7f}',
        None => false,
    }
}
