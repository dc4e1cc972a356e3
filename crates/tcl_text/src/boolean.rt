ghost use Rattle.std.specs.Prelude.{◌≡◌, ◌∷◌, ◌↔◌, Bool, IsErr};
ghost use Rattle.std.specs.Result.{result_ok};
ghost use Rattle.tcl_text.specs.Bytes.{letter_o};
ghost use Rattle.tcl_text.specs.Readings as readings;

use crate::fault::NotBoolean;
use crate::integer::integer_of_text;
use crate::text::Text;

impl Text {
    /// The boolean that the text is, as Tcl_GetBoolean(3) reads one: an integer, of which 0 is false, or in any case of its
    /// letters the beginning of exactly one of `yes`, `no`, `true`, `false`, `on` and `off`. `NotBoolean` (2) for any other text.
    /// It takes no memory.
    #[tactic(auto, unfolding(crate::specs::Readings::boolean_of))]
    pub fn boolean(&self) -> Result<bool, NotBoolean>
        ensures read { (b : Bool) → (result ≡ Ok b) ↔ readings.IsBoolean self.now b }
        ensures refused { IsErr result ↔ ((b : Bool) → ¬ (readings.IsBoolean self.now b)) }
        ensures exact { result_ok result ≡ readings.boolean_of self.now }
    {
        if let Some(number) = integer_of_text(self) {
            return Ok(number != 0);
        }
        boolean_word(self.as_str().as_bytes()).ok_or(NotBoolean)
    }
}

/// The value of the only word that begins with the text.
#[tactic(auto, using(crate::proofs::BooleanLemmas::first_letters))]
fn boolean_word(text: &[u8]) -> Option<bool>
    ensures { result ≡ readings.only_word (readings.words_begun text.now) }
{
    let (first, others) = text.split_first()?;
    match first.to_ascii_lowercase() {
        b'y' => begins_word(others, b"es").then_some(true),
        b'n' => begins_word(others, b"o").then_some(false),
        b't' => begins_word(others, b"rue").then_some(true),
        b'f' => begins_word(others, b"alse").then_some(false),
        b'o' => on_or_off(others),
        _ => None,
    }
}

/// The value of the only word that begins with `o` and the text: `on` or `off`.
#[tactic(auto, using(crate::proofs::BooleanLemmas::second_letters))]
fn on_or_off(text: &[u8]) -> Option<bool>
    ensures { result ≡ readings.only_word (readings.words_begun (letter_o ∷ text.now)) }
{
    let (first, others) = text.split_first()?;
    match first.to_ascii_lowercase() {
        b'n' => begins_word(others, b"").then_some(true),
        b'f' => begins_word(others, b"f").then_some(false),
        _ => None,
    }
}

/// Whether the word begins with the text, ignoring the case of ASCII letters.
fn begins_word(mut text: &[u8], mut word: &[u8]) -> bool
    ensures { result ≡ readings.begins_word text.entry.now word.entry.now }
{
    while let Some((first, others)) = text.split_first() {
        let Some((letter, letters)) = word.split_first() else {
            return false;
        };
        if first.to_ascii_lowercase() != *letter {
            return false;
        }
        text = others;
        word = letters;
    }
    true
}
