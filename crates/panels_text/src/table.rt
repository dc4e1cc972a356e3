//! The values of a table of a bench.

ghost use Rattle.std.specs.Prelude.{◌≡◌, ◌≤◌, IfSome, Some};
ghost use Rattle.toml.specs.View.{view};
ghost use Rattle.panels_text.specs.Tables.{number_in};

use crate::failure::{Failure, fault};
use crate::nearest::{is_known, serving};
use crate::place::line_of;
use std::alloc::Global;
use toml::{Table, Value};

/// A table of a bench, and where it stands.
#[derive(Clone, Copy)]
pub struct Part<'a> {
    /// The bench's file.
    pub file: &'a str,
    /// The text of the bench.
    pub bench: &'a str,
    /// The array of tables that it is of; empty for the bench itself.
    pub array: &'static str,
    /// Its number in the array, from 0 on.
    pub index: usize,
    /// The key of the array's table that it is the value of; empty for that table itself.
    pub key: &'static str,
    pub table: &'a Table,
}

impl<'a> Part<'a> {
    ghost use Rattle.std.specs.Prelude.{◌≡◌, ◌≤◌, ◌∷◌, [], map, length, codes, slice_get, ℕ, false, true, Some, None, is_some, option_map, IfErr, IfOk, IfSome, OnErr, OnOk, MatchOption};
    ghost use Rattle.toml.specs.Data.{boolean, string};
    ghost use Rattle.toml.specs.View.{items_view, table_view, view};
    ghost use Rattle.panels_text.specs.Places.{IsFault};
    ghost use Rattle.panels_text.specs.Tables.{IsEntry, IsRefused, IsSaid, IsUnknown, fault_words, line, may_be_boolean, may_be_text, number_in, tables_of, unknown_key, unknown_words, value_of, values_of};
    ghost use Rattle.panels_text.specs.Words.{words_of};

    /// The line that has a key.
    pub fn line(&self, key: &str) -> usize
        ensures { result ≡ line self.now key.now }
    {
        let key = if self.key.is_empty() { key } else { self.key };
        line_of(self.bench, self.array, self.index, key)
    }

    /// What is wrong with a key.
    pub fn fault(&self, alloc: Global, key: &str, words: &str) -> Failure
        ensures { IsFault (fault_words self.now key.now words.now) result }
    {
        fault(alloc, self.file, self.line(key), words)
    }

    /// That a key's value is missing, or isn't what is wanted.
    pub fn refused(&self, alloc: Global, key: &str, wanted: &str) -> Failure
        ensures { IsRefused self.now key.now wanted.now result }
    {
        let words = if self.has(key) {
            format!(in alloc; "{key} wants {wanted}")
        } else {
            format!(in alloc; "{key} is missing: it wants {wanted}")
        };
        match words {
            Ok(words) => self.fault(alloc, key, words.as_str()),
            Err(_) => Failure::NoMemory,
        }
    }

    /// That there is no such key, and which one would serve.
    fn unknown(&self, alloc: Global, key: &str, known: &[&str]) -> Failure
        ensures { IsFault (fault_words self.now key.now (unknown_words key.now (words_of known.now))) result }
    {
        let Ok(serves) = serving(alloc, key, known) else {
            return Failure::NoMemory;
        };
        match format!(in alloc; "there is no key {key} here: {serves}") {
            Ok(words) => self.fault(alloc, key, words.as_str()),
            Err(_) => Failure::NoMemory,
        }
    }

    /// Refuses a key that isn't in the list: the first of them.
    pub fn check_keys(&self, alloc: Global, known: &[&str]) -> Result<(), Failure>
        ensures known { OnOk result (unknown_key self.now (words_of known.now) ≡ None) }
        ensures unknown { IfErr result (λ failure. IsUnknown self.now (words_of known.now) (unknown_key self.now (words_of known.now)) failure) }
    {
        for (key, _) in self.table.iter() {
            let word = key.as_str();
            if !is_known(word, known) {
                return Err(self.unknown(alloc, word, known));
            }
        }
        Ok(())
    }

    /// The value of a key.
    pub fn value(&self, key: &str) -> Option<&'a Value>
        ensures { option_map (λ value. view value.now) result ≡ value_of self.now key.now }
    {
        self.table.get(key)
    }

    pub fn has(&self, key: &str) -> bool
        ensures { result ≡ is_some (value_of self.now key.now) }
    {
        self.value(key).is_some()
    }

    pub fn text(&self, alloc: Global, key: &str) -> Result<Option<&'a str>, Failure>
        ensures ok { IfOk result (λ text. option_map (λ text. string text.now) text ≡ value_of self.now key.now) }
        ensures other { OnErr result (may_be_text (value_of self.now key.now) ≡ false) }
        ensures refused { IfErr result (λ failure. IsRefused self.now key.now (codes "a text between quotes") failure) }
    {
        match self.value(key) {
            None => Ok(None),
            Some(Value::String(text)) => Ok(Some(text.as_str())),
            Some(_) => Err(self.refused(alloc, key, "a text between quotes")),
        }
    }

    pub fn boolean(&self, alloc: Global, key: &str) -> Result<Option<bool>, Failure>
        ensures ok { IfOk result (λ found. option_map boolean found ≡ value_of self.now key.now) }
        ensures other { OnErr result (may_be_boolean (value_of self.now key.now) ≡ false) }
        ensures refused { IfErr result (λ failure. IsRefused self.now key.now (codes "true or false") failure) }
    {
        match self.value(key) {
            None => Ok(None),
            Some(Value::Boolean(value)) => Ok(Some(*value)),
            Some(_) => Err(self.refused(alloc, key, "true or false")),
        }
    }

    /// A number from 0 to `most`.
    pub fn number(&self, alloc: Global, key: &str, most: u64) -> Result<Option<u64>, Failure>
        ensures most { IfOk result (λ number. IfSome number (λ number. number ≤ most)) }
        ensures ok { IfOk result (λ number. MatchOption number (value_of self.now key.now ≡ None) (λ number. number_in most (value_of self.now key.now) ≡ Some number)) }
        ensures other { OnErr result (number_in most (value_of self.now key.now) ≡ None) }
        ensures there { OnErr result (is_some (value_of self.now key.now) ≡ true) }
    {
        let Some(value) = self.value(key) else {
            return Ok(None);
        };
        match in_range(value, most) {
            Some(number) => Ok(Some(number)),
            None => {
                let wanted = format!(in alloc; "a whole number from 0 to {most}")?;
                Err(self.refused(alloc, key, wanted.as_str()))
            }
        }
    }

    /// The values of an array; none where there is no such key.
    pub fn array(&self, alloc: Global, key: &str, wanted: &str) -> Result<&'a [Value], Failure>
        ensures ok { IfOk result (λ values. values_of (value_of self.now key.now) ≡ Some (items_view values.now)) }
        ensures other { OnErr result (values_of (value_of self.now key.now) ≡ None) }
        ensures refused { IfErr result (λ failure. IsRefused self.now key.now wanted.now failure) }
    {
        match self.value(key) {
            None => Ok(&[]),
            Some(Value::Array(values)) => Ok(values.as_slice()),
            Some(_) => Err(self.refused(alloc, key, wanted)),
        }
    }

    /// A table that is a key's value, or one of its values.
    pub fn inner(&self, key: &'static str, table: &'a Table) -> Part<'a>
        ensures { result ≡ record self.now { key = key.entry; table = table.entry } }
    {
        Part {
            file: self.file,
            bench: self.bench,
            array: self.array,
            index: self.index,
            key,
            table,
        }
    }

    /// The tables of an array of tables of the bench.
    pub fn entries(&self, alloc: Global, array: &'static str) -> Result<Vec<Part<'a>>, Failure>
        ensures tables { IfOk result (λ parts. tables_of (values_of (value_of self.now array.now)) ≡ Some (map (λ part. table_view part.table.now) parts.items)) }
        ensures places { IfOk result (λ parts. (index : ℕ) → IfSome (slice_get parts.items index) (IsEntry self.now array.now index)) }
        ensures other { IfErr result (λ failure. IsSaid failure → tables_of (values_of (value_of self.now array.now)) ≡ None) }
        ensures refused { IfErr result (λ failure. IsRefused self.now array.now (codes "entries, each behind a line with its name in double brackets") failure) }
    {
        let wanted = "entries, each behind a line with its name in double brackets";
        let mut parts = Vec::new(alloc);
        let values = self.array(alloc, array, wanted)?;
        for (index, value) in values.iter().enumerate() {
            let Value::Table(table) = value else {
                return Err(self.refused(alloc, array, wanted));
            };
            parts.push(Part {
                file: self.file,
                bench: self.bench,
                array,
                index,
                key: "",
                table,
            })?;
        }
        Ok(parts)
    }
}

/// The number of a value, where it is whole and not larger than `most`.
pub fn in_range(value: &Value, most: u64) -> Option<u64>
    ensures most { IfSome result (λ number. number ≤ most) }
    ensures number { result ≡ number_in most (Some (view value.now)) }
{
    let number = u64::try_from(value.as_integer()?).ok()?;
    if number <= most { Some(number) } else { None }
}
