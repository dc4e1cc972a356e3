ghost use Rattle.std.specs.Prelude.{◌≡◌, ◌==◌, [], ◌∷◌, ◌++◌, length, IfOk, OnOk, OnErr};

use crate::text::Text;
use std::alloc::{AllocError, Global};
use std::marker::Model;

/// Texts in order, as the words of a command or the elements of a list.
pub struct TextList {
    texts: Vec<Text>,
}

impl Model for TextList {
    ghost use Rattle.std.specs.Prelude.{ℕ, List};

    ghost Value = { List (List ℕ) };

    ghost view = { λ l. l.texts.items };
}

impl TextList {
    /// No texts. It takes no memory.
    pub fn new(alloc: Global) -> TextList
        ensures { result ≡ [] }
    {
        TextList {
            texts: Vec::new(alloc),
        }
    }

    /// No texts, with room for so many.
    pub fn with_capacity(alloc: Global, count: usize) -> Result<TextList, AllocError>
        ensures { IfOk result (λ list. list ≡ []) }
    {
        Ok(TextList {
            texts: Vec::with_capacity(alloc, count)?,
        })
    }

    /// These texts. It takes no memory.
    pub fn from_vec(texts: Vec<Text>) -> TextList
        ensures { result ≡ texts.items }
    {
        TextList { texts }
    }

    /// The texts, given back without taking memory.
    pub fn into_vec(self) -> Vec<Text>
        ensures { result.items ≡ self }
    {
        let TextList { texts } = self;
        texts
    }

    /// The texts, to look at.
    pub fn as_slice(&self) -> &[Text]
        ensures { result.now ≡ self.now }
    {
        self.texts.as_slice()
    }

    /// How many texts there are.
    pub fn len(&self) -> usize
        ensures { result ≡ length self.now }
    {
        self.texts.len()
    }

    /// Whether there are none.
    pub fn is_empty(&self) -> bool
        ensures { result ≡ (length self.now == 0) }
    {
        self.texts.is_empty()
    }

    /// Adds a text at the end.
    pub fn push(&mut self, text: Text) -> Result<(), AllocError>
        ensures ok { OnOk result (self.new ≡ self.old ++ text ∷ []) }
        ensures err { OnErr result (self.new ≡ self.old) }
    {
        self.texts.push(text)?;
        Ok(())
    }
}

/// By hand: a proof sees one call where it is dropped, and not its parts.
impl Drop for TextList {
    fn drop(self) {
        let TextList { texts: _ } = self;
    }
}
