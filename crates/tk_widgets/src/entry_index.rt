//! Places in the text of an entry.
ghost use Rattle.std.specs.Prelude.{◌≡◌, ◌≤◌, Some, None, IfSome, min};
ghost use Rattle.tcl_text.specs.Indices.{from_zero};
ghost use Rattle.tk_widgets.specs.Entries.{index_in, number_in};

use tcl_text::Text;

/// How many characters stand before an index of entry(n): `end`, `insert`, or a number, which is cut to what there is. `size` is the
/// number of all characters, `cursor` that of those before the insertion cursor. None where the word is no index.
#[tactic(auto, unfolding(crate::specs::Entries::index_in))]
pub fn index_in(word: &Text, size: usize, cursor: usize) -> Option<usize>
    requires { cursor ≤ size }
    ensures value { result ≡ index_in word.now size cursor }
    ensures bound { IfSome result (λ at. at ≤ size) }
{
    match word.as_str() {
        "end" => Some(size),
        "insert" => Some(cursor),
        _ => number_in(word, size),
    }
}

/// The number that a word spells, cut to so many.
fn number_in(word: &Text, most: usize) -> Option<usize>
    ensures value { result ≡ number_in word.now most }
    ensures bound { IfSome result (λ at. at ≤ most) }
{
    match word.integer() {
        Ok(number) => Some(cut(number, most)),
        Err(_) => None,
    }
}

/// A number, not below 0 and not above the most.
fn cut(number: i64, most: usize) -> usize
    ensures { result ≡ min (from_zero number) most }
{
    usize::try_from(number).unwrap_or(0).min(most)
}
