ghost use Rattle.std.specs.Prelude.{◌≡◌, ◌≢◌, ◌≤◌, Any, [], ◌∷◌, IfOk, IfErr, OnOk, OnErr, Ok, Err, Some, None, find, filter, position, map};
ghost use Rattle.std.specs.Option.{option_copied};
ghost use Rattle.tk_options.specs.Rows.{options_of, row as option_of};
ghost use Rattle.tk_options.specs.Names.{long_name};
ghost use Rattle.tk_options.specs.Options.{is_named, is_begun, only, meant, tested, settings, with_value, with_settings, configured, value_meant, value_of, amount_of, description, IsTooLong};
ghost use Rattle.tk_options.specs.Entries.{with_option};
ghost use Rattle.tk_options.specs.Forms.{most_amount};

use crate::amounts::Amounts;
use crate::fault::OptionFault;
use crate::form::amount_in;
use crate::option::{OptionEntry, OptionName};
use crate::rows::{OptionRow, row_of};
use crate::settings::{Setting, Settings};
use indexmap::IndexMap;
use std::alloc::{AllocError, Global};
use std::marker::Model;
use tcl_text::message::short_text;
use tcl_text::{Text, TextFault, TextList};
use tk_base::Kind;

/// The options of one widget, with their values (options(n)).
pub struct OptionTable {
    /// By name, in the order in which they are told.
    entries: IndexMap<&'static str, OptionEntry>,
    /// What the amounts among them spell.
    amounts: Amounts,
}

impl Model for OptionTable {
    ghost use Rattle.std.specs.Prelude.{List};
    ghost use Rattle.tk_options.specs.declared.option.OptionEntry.{OptionEntry};
    ghost use Rattle.tk_options.specs.Amounts.{AreKept};
    ghost use Rattle.tk_options.specs.Entries.{options_in};

    ghost Value = { List OptionEntry };

    ghost view = { λ t. options_in t.entries.entries };

    ghost invariant = { λ t. AreKept t.entries.entries t.amounts };
}

impl OptionTable {
    /// The options of a new widget.
    pub fn new(alloc: Global, kind: Kind) -> Result<OptionTable, AllocError>
        ensures { IfOk result (λ table. table ≡ options_of kind) }
    {
        let rows = row_of(kind).options;
        let mut table = OptionTable::with_capacity(alloc, rows.len())?;
        for row in rows {
            table.add(new_entry(alloc, *row)?)?;
        }
        Ok(table)
    }

    /// No options, with room for so many.
    fn with_capacity(alloc: Global, count: usize) -> Result<OptionTable, AllocError>
        ensures { IfOk result (λ table. table ≡ []) }
    {
        Ok(OptionTable {
            entries: IndexMap::with_capacity(alloc, count)?,
            amounts: Amounts::none(),
        })
    }

    /// Puts an option last, or in the place of the one of its name.
    fn add(&mut self, entry: OptionEntry) -> Result<(), AllocError>
        ensures { OnOk result (self.new ≡ with_option entry self.old) }
    {
        let amounts = self.amounts.with(entry.option, &entry.value);
        match self.entries.insert(entry.option.name(), entry) {
            Ok(_) => {
                self.amounts = amounts;
                Ok(())
            }
            Err(_) => Err(AllocError),
        }
    }

    /// The option that a word means: by its name, by one of the short names `-bd`, `-bg` and `-fg`, or by the beginning of its name
    /// alone. `UnknownOption` (20) where none is meant, `Ambiguous` (21) where the word is the beginning of several.
    #[tactic(auto, unfolding(crate::specs::Options::meant))]
    pub fn entry(&self, word: &Text) -> Result<&OptionEntry, OptionFault>
        ensures ok { IfOk result (λ entry. meant word.now self.now ≡ Ok entry.now) }
        ensures refused { IfErr result (λ fault. fault ≢ OptionFault.NoMemory → meant word.now self.now ≡ Err fault) }
    {
        match self.named(long_name(word.as_str())) {
            Some(entry) => Ok(entry),
            None => only_begun(self.all(), word),
        }
    }

    /// The option of this very name, looked up by hashing.
    fn named(&self, name: &str) -> Option<&OptionEntry>
        ensures { option_copied result ≡ find (is_named name.now) self.now }
    {
        self.entries.get(name)
    }

    /// All options in their order.
    fn all(&self) -> &[OptionEntry]
        ensures { result.now ≡ self.now }
    {
        self.entries.values().as_slice()
    }

    /// The value of an option (`cget` of options(n)), which is not copied. `UnknownOption` (20) or `Ambiguous` (21) where the
    /// word means no option.
    pub fn cget(&self, word: &Text) -> Result<&Text, OptionFault>
        ensures ok { IfOk result (λ value. value_meant word.now self.now ≡ Ok value.now) }
        ensures refused { IfErr result (λ fault. fault ≢ OptionFault.NoMemory → value_meant word.now self.now ≡ Err fault) }
    {
        let entry = self.entry(word)?;
        Ok(&entry.value)
    }

    /// Sets options, by words in pairs (`configure` of options(n)). All are tested from the left before one is set: `UnknownOption`
    /// (20), `Ambiguous` (21), `NoValue` (23) where the last has no value, `BadValue` (22). Refused, it sets nothing.
    #[tactic(auto, unfolding(crate::specs::Options::configured))]
    pub fn configure(&mut self, alloc: Global, words: &[Text]) -> Result<(), OptionFault>
        ensures ok { OnOk result (configured words.now self.old ≡ Ok self.new) }
        ensures refused { IfErr result (λ fault. fault ≢ OptionFault.NoMemory → configured words.now self.old ≡ Err fault) }
        ensures err { OnErr result (self.new ≡ self.old) }
    {
        let settings = self.settings(alloc, words)?;
        self.set_all(settings);
        Ok(())
    }

    /// What words in pairs set, tested as by `configure`; nothing is set yet.
    pub fn settings(&self, alloc: Global, words: &[Text]) -> Result<Settings, OptionFault>
        ensures ok { IfOk result (λ all. settings words.now self.now ≡ Ok all) }
        ensures refused { IfErr result (λ fault. fault ≢ OptionFault.NoMemory → settings words.now self.now ≡ Err fault) }
    {
        let all = settings_in(alloc, self, words)?;
        Ok(Settings::of(all))
    }

    /// The options as `configure` tells them (options(n)): for each the list of its name, its default and its value. `TooLong` (4)
    /// where such a list would pass 65,536 bytes.
    pub fn describe(&self, alloc: Global) -> Result<TextList, TextFault>
        ensures ok { IfOk result (λ list. list ≡ map description self.now) }
        ensures too_long { IfErr result (λ fault. fault ≢ TextFault.NoMemory → Any IsTooLong self.now) }
    {
        let mut list = TextList::with_capacity(alloc, self.entries.len())?;
        for entry in self.all() {
            list.push(entry.description(alloc)?)?;
        }
        Ok(list)
    }

    /// The value of an option; none where the widget has no such option. It takes no memory.
    pub fn value(&self, option: OptionName) -> Option<&Text>
        ensures { option_copied result ≡ value_of option self.now }
    {
        let entry = self.named(option.name())?;
        Some(&entry.value)
    }

    /// The pixels, columns or lines of an option; 0 where the widget has no such option. No value of an option that takes an amount is
    /// read again. It takes no memory.
    pub fn amount(&self, option: OptionName) -> u32
        ensures value { result ≡ amount_of option self.now }
        ensures bound { result ≤ most_amount }
    {
        match self.amounts.of(option) {
            Some(amount) => amount,
            None => self.amount_read(option),
        }
    }

    /// The amount that an option's value spells; 0 where it spells none, and where the widget has no such option.
    #[tactic(auto, unfolding(crate::specs::Options::amount_of))]
    fn amount_read(&self, option: OptionName) -> u32
        ensures { result ≡ amount_of option self.now }
    {
        match self.value(option) {
            Some(value) => amount_in(value).unwrap_or(0),
            None => 0,
        }
    }

    /// Sets an option to a value that was tested. Nothing is set where the widget has no such option.
    fn put(&mut self, option: OptionName, value: Text)
        ensures { self.new ≡ with_value option value self.old }
    {
        let Some(entry) = self.entries.get_mut(option.name()) else {
            return;
        };
        self.amounts = self.amounts.with(option, &value);
        set_value(entry, value);
    }

    /// Sets options in their turn. It takes no memory.
    pub fn set_all(&mut self, settings: Settings)
        ensures { self.new ≡ with_settings settings self.old }
    {
        for Setting { option, value } in settings.into_vec() {
            self.put(option, value);
        }
    }
}

/// The option of a row, with its default.
fn new_entry(alloc: Global, row: OptionRow) -> Result<OptionEntry, AllocError>
    ensures { IfOk result (λ entry. entry ≡ option_of row.0 row.1 row.2.now) }
{
    let OptionRow(option, form, default) = row;
    Ok(OptionEntry {
        option,
        form,
        default: short_text(alloc, default)?,
        value: short_text(alloc, default)?,
    })
}

/// The name that a short name stands for, or the word itself.
fn long_name(word: &str) -> &str
    ensures { result.now ≡ long_name word.now }
{
    match word {
        "-bd" => "-borderwidth",
        "-bg" => "-background",
        "-fg" => "-foreground",
        _ => word,
    }
}

/// The only option whose name begins with these characters.
fn only_begun<'a>(entries: &'a [OptionEntry], word: &Text) -> Result<&'a OptionEntry, OptionFault>
    ensures ok { IfOk result (λ entry. only word.now (filter (is_begun word.now) entries.now) ≡ Ok entry.now) }
    ensures refused { IfErr result (λ fault. fault ≢ OptionFault.NoMemory → only word.now (filter (is_begun word.now) entries.now) ≡ Err fault) }
{
    let Some(place) = place_begun(entries, word.as_str()) else {
        return Err(OptionFault::UnknownOption(word.copy()?));
    };
    let (_, others) = entries.split_at(place + 1);
    if place_begun(others, word.as_str()).is_some() {
        return Err(OptionFault::Ambiguous(word.copy()?));
    }
    Ok(&entries[place])
}

/// The place of the first option whose name begins with these characters.
fn place_begun(entries: &[OptionEntry], word: &str) -> Option<usize>
    ensures { result ≡ position (is_begun word.now) entries.now }
{
    entries.iter().position(|entry| entry.option.name().as_bytes().starts_with(word.as_bytes()))
}

/// Sets an option to a value.
fn set_value(entry: &mut OptionEntry, value: Text)
    ensures { entry.new ≡ record entry.old { value = value } }
{
    entry.value = value;
}

/// What words in pairs set, tested from the left.
fn settings_in(
    alloc: Global,
    table: &OptionTable,
    words: &[Text],
) -> Result<Vec<Setting>, OptionFault>
    ensures ok { IfOk result (λ all. settings words.now table.now ≡ Ok all.items) }
    ensures refused { IfErr result (λ fault. fault ≢ OptionFault.NoMemory → settings words.now table.now ≡ Err fault) }
{
    let mut all = Vec::with_capacity(alloc, words.len() / 2)?;
    let mut rest = words;
    while let Some((word, others)) = rest.split_first() {
        let Some((value, others)) = others.split_first() else {
            return Err(without_value(table, word)?);
        };
        all.push(tested(alloc, table, word, value)?)?;
        rest = others;
    }
    Ok(all)
}

/// The fault of an option without a value, unless its name is at fault.
fn without_value(table: &OptionTable, word: &Text) -> Result<OptionFault, OptionFault>
    ensures ok { IfOk result (λ fault. settings (word.now ∷ []) table.now ≡ Err fault) }
    ensures refused { IfErr result (λ fault. fault ≢ OptionFault.NoMemory → settings (word.now ∷ []) table.now ≡ Err fault) }
{
    let _entry = table.entry(word)?;
    Ok(OptionFault::NoValue(word.copy()?))
}

/// A word and a value, tested.
#[tactic(auto, unfolding(crate::specs::Options::tested))]
fn tested(
    alloc: Global,
    table: &OptionTable,
    word: &Text,
    value: &Text,
) -> Result<Setting, OptionFault>
    ensures ok { IfOk result (λ setting. tested word.now value.now table.now ≡ Ok setting) }
    ensures refused { IfErr result (λ fault. fault ≢ OptionFault.NoMemory → tested word.now value.now table.now ≡ Err fault) }
{
    let entry = table.entry(word)?;
    match entry.form.value_in(alloc, value)? {
        Some(kept) => Ok(Setting {
            option: entry.option,
            value: kept,
        }),
        None => Err(OptionFault::BadValue {
            value: value.copy()?,
            option: word.copy()?,
        }),
    }
}

/// By hand: a proof sees one call where it is dropped, and not its parts.
impl Drop for OptionTable {
    fn drop(self) {
        let OptionTable {
            entries: _,
            amounts: _,
        } = self;
    }
}
