ghost use Rattle.std.specs.Prelude.{◌≡◌, ◌≢◌, ◌<◌, ◌≤◌, ◌↔◌, [], ◌++◌, length, Ok, Err, IfOk, IfErr, IfSome, OnOk, OnErr, IsErrOf, IsUtf8, MatchBool, string_bytes, string_len};
ghost use Rattle.std.specs.Fmt.{signed_decimal};
ghost use Rattle.tcl_text.specs.Answers.{bounded};
ghost use Rattle.tcl_text.specs.AsciiMarks.{MarksAscii};
ghost use Rattle.tcl_text.specs.Edit.{with_more, written_anew};
ghost use Rattle.tcl_text.specs.Readings.{list_form, list_of};
ghost use Rattle.tcl_text.specs.Limits.{most_bytes};
ghost use Rattle.tcl_text.specs.Searching.{has_item};

use crate::fault::{EditFault, TextFault};
use crate::list_string::ListString;
use crate::message::limit;
use crate::number::NumberText;
use crate::shared::SharedText;
use crate::short::{SHORT_BYTES, ShortText};
use std::alloc::{AllocError, Global};
use std::marker::Model;
use std::rc::Rc;

/// How many bytes a text has at most.
pub const MAX_BYTES: usize = 65_536;

/// How a text keeps its characters.
#[derive(Drop)]
enum TextForm {
    /// In place, where they are few.
    Short(ShortText),
    /// In place with the number that they spell, where they are those of an integer and fewer.
    Number(NumberText),
    /// In memory that copies share.
    Shared(Rc<SharedText>),
    /// In memory that copies share, as the list that it was made as.
    Listed(Rc<ListString>),
}

/// A value of a Tcl script: at most 65,536 bytes of UTF-8. Short ones are kept in place, and others are shared by their copies.
pub struct Text {
    form: TextForm,
}

impl Model for Text {
    ghost use Rattle.std.specs.Prelude.{ℕ, List, ◌≤◌, length};

    ghost Value = { List ℕ };

    ghost use Rattle.tcl_text.specs.TextForm.{form_bytes};
    ghost use Rattle.tcl_text.specs.Limits.{most_bytes};

    ghost view = { λ t. form_bytes t.form };

    ghost invariant = { λ t. length (form_bytes t.form) ≤ most_bytes };
}

impl TextForm {
    ghost use Rattle.tcl_text.specs.AsciiMarks.{MarksAscii};
    ghost use Rattle.tcl_text.specs.Edit.{with_more, written_anew};
    ghost use Rattle.tcl_text.specs.Readings.{list_form, list_of};
    ghost use Rattle.tcl_text.specs.TextForm.{form_bytes};
    ghost use Rattle.tcl_text.specs.Limits.{most_bytes};
    ghost use Rattle.tcl_text.specs.Searching.{has_item};

    /// These characters, which it takes over.
    fn of(alloc: Global, string: String) -> Result<TextForm, AllocError>
        ensures { IfOk result (λ form. form_bytes form ≡ string_bytes string) }
    {
        if string.len() <= SHORT_BYTES {
            return Ok(TextForm::Short(ShortText::new(string.as_str())));
        }
        Ok(TextForm::Shared(Rc::new(alloc, SharedText::new(string))?))
    }

    /// The form of this list, which it takes over.
    fn of_list(alloc: Global, list: ListString) -> Result<TextForm, AllocError>
        ensures form { IfOk result (λ form. form_bytes form ≡ list_form list) }
        ensures short { length (list_form list) ≤ most_bytes }
    {
        let form = list.as_str();
        if form.len() <= SHORT_BYTES {
            return Ok(TextForm::Short(ShortText::new(form)));
        }
        Ok(TextForm::Listed(Rc::new(alloc, list)?))
    }

    /// The characters.
    fn as_str(&self) -> &str
        ensures { result.now ≡ form_bytes self.now }
    {
        match self {
            TextForm::Short(short) => short.as_str(),
            TextForm::Number(number) => number.as_str(),
            TextForm::Shared(text) => text.as_ref().as_str(),
            TextForm::Listed(list) => list.as_ref().as_str(),
        }
    }

    /// Whether the characters are all ASCII.
    fn is_ascii(&self) -> bool
        ensures { MarksAscii result (form_bytes self.now) }
    {
        match self {
            TextForm::Short(short) => short.as_str().is_ascii(),
            TextForm::Number(number) => number.as_str().is_ascii(),
            TextForm::Shared(text) => text.as_ref().is_ascii(),
            TextForm::Listed(list) => list.as_ref().is_ascii(),
        }
    }

    /// The list that the text is, where it is kept.
    fn as_kept(&self, alloc: Global) -> Option<&Rc<ListString>>
        ensures { IfSome result (λ list. list_of (form_bytes self.now) ≡ Ok list.now.value) }
    {
        match self {
            TextForm::Short(_) => None,
            TextForm::Number(_) => None,
            TextForm::Shared(text) => text.as_ref().as_kept(alloc),
            TextForm::Listed(list) => Some(list),
        }
    }

    /// Whether an item of the list that the text is equals another text, where the list is kept.
    fn found(&self, alloc: Global, item: &str) -> Option<bool>
        ensures { IfSome result (λ found. has_item item.now (list_of (form_bytes self.now)) ≡ Ok found) }
    {
        match self {
            TextForm::Short(_) => None,
            TextForm::Number(_) => None,
            TextForm::Shared(text) => text.as_ref().found(alloc, item),
            TextForm::Listed(list) => list.as_ref().has(alloc, item).ok(),
        }
    }

    /// Adds characters at the end; in place, where no copy shares the form and it wasn't made as a list.
    fn push_str(&mut self, alloc: Global, characters: &str) -> Result<(), AllocError>
        ensures ok { OnOk result (form_bytes self.new ≡ form_bytes self.old ++ characters.now) }
        ensures err { OnErr result (form_bytes self.new ≡ form_bytes self.old) }
    {
        if let TextForm::Shared(text) = self
            && SharedText::push_alone(text, characters)?
        {
            return Ok(());
        }
        *self = self.longer(alloc, characters)?;
        Ok(())
    }

    /// Adds items to a text that was made as a list; in place, where no copy shares it. False, and nothing is done, for another text.
    #[tactic(auto, using(crate::proofs::EditLemmas::kept_lists))]
    fn push_items(&mut self, alloc: Global, items: &[Text]) -> Result<bool, TextFault>
        requires { length (form_bytes self.old) ≤ most_bytes }
        ensures ok { IfOk result (λ done. MatchBool done
            (written_anew (with_more items.now (list_of (form_bytes self.old))) ≡ Ok (form_bytes self.new))
            (form_bytes self.new ≡ form_bytes self.old)) }
        ensures too_long { IfErr result (λ fault. fault ≢ TextFault.NoMemory
            → written_anew (with_more items.now (list_of (form_bytes self.old))) ≡ Err EditFault.TooLong) }
        ensures err { OnErr result (form_bytes self.new ≡ form_bytes self.old) }
        ensures short { length (form_bytes self.new) ≤ most_bytes }
    {
        match self {
            TextForm::Listed(list) => {
                ListString::push_items(list, alloc, items)?;
                let _form = Rc::as_ref(list).as_str();
                Ok(true)
            }
            TextForm::Short(_) => Ok(false),
            TextForm::Number(_) => Ok(false),
            TextForm::Shared(_) => Ok(false),
        }
    }

    /// A form of these characters with more at the end.
    fn longer(&self, alloc: Global, characters: &str) -> Result<TextForm, AllocError>
        ensures { IfOk result (λ longer. form_bytes longer ≡ form_bytes self.now ++ characters.now) }
    {
        let held = self.as_str();
        if held.len() <= SHORT_BYTES && characters.len() <= SHORT_BYTES - held.len() {
            return Ok(TextForm::Short(ShortText::joined(held, characters)));
        }
        let mut string = String::from_str(alloc, held)?;
        string.push_str(characters)?;
        TextForm::of(alloc, string)
    }
}

impl Text {
    /// A text of these characters. `TooLong` (4) where they are more than 65,536 bytes.
    pub fn new(alloc: Global, characters: &str) -> Result<Text, TextFault>
        ensures ok { IfOk result (λ text. text ≡ characters.now) }
        ensures too_long { IsErrOf result TextFault.TooLong ↔ (most_bytes < length characters.now) }
    {
        if characters.len() > MAX_BYTES {
            return Err(TextFault::TooLong);
        }
        Ok(Text::of_short(alloc, characters)?)
    }

    /// The empty text. It takes no memory.
    pub fn empty() -> Text
        ensures { result ≡ [] }
    {
        Text {
            form: TextForm::Short(ShortText::new("")),
        }
    }

    /// A text of characters that are known to be 65,536 bytes at most.
    pub fn of_short(alloc: Global, characters: &str) -> Result<Text, AllocError>
        requires { length characters.now ≤ most_bytes }
        ensures { IfOk result (λ text. text ≡ characters.now) }
    {
        if characters.len() <= SHORT_BYTES {
            return Ok(Text {
                form: TextForm::Short(ShortText::new(characters)),
            });
        }
        let string = String::from_str(alloc, characters)?;
        Ok(Text {
            form: TextForm::Shared(Rc::new(alloc, SharedText::new(string))?),
        })
    }

    /// The message of an error with these characters, or with those of the limit (4) where they are more than 65,536 bytes.
    #[tactic(auto, using(crate::proofs::AnswerLemmas::bounds))]
    pub fn of_message(alloc: Global, characters: &str) -> Result<Text, AllocError>
        ensures { IfOk result (λ text. text ≡ bounded characters.now) }
    {
        if characters.len() > MAX_BYTES {
            return limit(alloc);
        }
        Text::of_short(alloc, characters)
    }

    /// A text of the characters of a string, which it takes over. `TooLong` (4) where they are more than 65,536 bytes.
    pub fn from_string(alloc: Global, string: String) -> Result<Text, TextFault>
        ensures ok { IfOk result (λ text. text ≡ string_bytes string) }
        ensures too_long { IsErrOf result TextFault.TooLong ↔ (most_bytes < length (string_bytes string)) }
    {
        if string.len() > MAX_BYTES {
            return Err(TextFault::TooLong);
        }
        Ok(Text::of_string(alloc, string)?)
    }

    /// A text of bytes that are known to be one, and few enough.
    pub(crate) fn of_bytes(alloc: Global, bytes: Vec<u8>) -> Result<Text, AllocError>
        requires utf8 { IsUtf8 bytes.items }
        requires short { length bytes.items ≤ most_bytes }
        ensures { IfOk result (λ text. text ≡ bytes.items) }
    {
        Text::of_string(alloc, String::from_utf8(bytes).unwrap())
    }

    /// A text of the characters of a string, which are known to be few enough.
    pub(crate) fn of_string(alloc: Global, string: String) -> Result<Text, AllocError>
        requires { string_len string ≤ most_bytes }
        ensures { IfOk result (λ text. text ≡ string_bytes string) }
    {
        Ok(Text {
            form: TextForm::of(alloc, string)?,
        })
    }

    /// The text that is the form of a list, which it takes over.
    pub(crate) fn of_list(alloc: Global, list: ListString) -> Result<Text, AllocError>
        ensures form { IfOk result (λ text. text ≡ list_form list) }
        ensures short { length (list_form list) ≤ most_bytes }
    {
        Ok(Text {
            form: TextForm::of_list(alloc, list)?,
        })
    }

    /// The decimal text of an integer, whose digits are few.
    pub(crate) fn of_number(number: NumberText) -> Text
        ensures { result ≡ signed_decimal number.number }
    {
        Text {
            form: TextForm::Number(number),
        }
    }

    /// The integer of which the text is known to be the decimal text, if it is known to be one.
    pub(crate) fn number(&self) -> Option<i64>
        ensures { IfSome result (λ number. self.now ≡ signed_decimal number) }
    {
        match &self.form {
            TextForm::Number(number) => Some(number.number()),
            _ => None,
        }
    }

    /// Whether the characters are all ASCII, so that each is one byte. It looks at none of a text past 22 bytes.
    pub(crate) fn is_ascii(&self) -> bool
        ensures { MarksAscii result self.now }
    {
        self.form.is_ascii()
    }

    /// The list that the text is, where it is kept: of a text past 22 bytes that was made as a list, or is read as one a second time. So
    /// none says nothing.
    pub(crate) fn as_kept(&self, alloc: Global) -> Option<&Rc<ListString>>
        ensures { IfSome result (λ list. list_of self.now ≡ Ok list.now.value) }
    {
        self.form.as_kept(alloc)
    }

    /// Whether an item of the list that the text is equals another text, where that can be told by a list that is kept: of a text past
    /// 22 bytes that was made as a list, was read as one twice, or was searched 64 times. So none says nothing.
    pub(crate) fn found(&self, alloc: Global, item: &str) -> Option<bool>
        ensures { IfSome result (λ found. has_item item.now (list_of self.now) ≡ Ok found) }
    {
        self.form.found(alloc, item)
    }

    /// The list that is kept, to look at.
    pub fn as_list(&self, alloc: Global) -> Option<&ListString>
        ensures { IfSome result (λ list. list_of self.now ≡ Ok list.now) }
    {
        match self.as_kept(alloc) {
            Some(list) => Some(list.as_ref()),
            None => None,
        }
    }

    /// The characters. It takes no memory.
    pub fn as_str(&self) -> &str
        ensures bytes { result.now ≡ self.now }
        ensures short { length self.now ≤ most_bytes }
    {
        self.form.as_str()
    }

    /// Adds characters at the end; in place, where no copy shares the text and it wasn't made as a list. `TooLong` (4), and
    /// nothing is added, where the text would pass 65,536 bytes.
    pub fn push_str(&mut self, alloc: Global, characters: &str) -> Result<(), TextFault>
        ensures ok { OnOk result (self.new ≡ self.old ++ characters.now) }
        ensures short { OnOk result (length (self.old ++ characters.now) ≤ most_bytes) }
        ensures too_long { IfErr result (λ fault. fault ≢ TextFault.NoMemory → most_bytes < length (self.old ++ characters.now)) }
        ensures err { OnErr result (self.new ≡ self.old) }
    {
        let length = self.as_str().len();
        if MAX_BYTES - length < characters.len() {
            return Err(TextFault::TooLong);
        }
        self.form.push_str(alloc, characters)?;
        Ok(())
    }

    /// Adds items to a text that was made as a list past 22 bytes; in place, where no copy shares it. False, and nothing is done, for
    /// another text; `TooLong` (4), and nothing is added, where the text would pass 65,536 bytes.
    pub(crate) fn push_items(&mut self, alloc: Global, items: &[Text]) -> Result<bool, TextFault>
        ensures ok { IfOk result (λ done. MatchBool done
            (written_anew (with_more items.now (list_of self.old)) ≡ Ok self.new)
            (self.new ≡ self.old)) }
        ensures too_long { IfErr result (λ fault. fault ≢ TextFault.NoMemory
            → written_anew (with_more items.now (list_of self.old)) ≡ Err EditFault.TooLong) }
        ensures err { OnErr result (self.new ≡ self.old) }
    {
        self.form.push_items(alloc, items)
    }

    /// An equal text, which shares the characters. It takes no memory; it is refused only where the count of a shared text is full.
    pub fn copy(&self) -> Result<Text, AllocError>
        ensures ok { IfOk result (λ text. text ≡ self.now) }
    {
        let form = match &self.form {
            TextForm::Short(short) => TextForm::Short(*short),
            TextForm::Number(number) => TextForm::Number(*number),
            TextForm::Shared(text) => TextForm::Shared(text.clone()?),
            TextForm::Listed(list) => TextForm::Listed(list.clone()?),
        };
        Ok(Text { form })
    }
}

/// By hand: a proof sees one call where it is dropped, and not its forms.
impl Drop for Text {
    fn drop(self) {
        let Text { form: _ } = self;
    }
}
