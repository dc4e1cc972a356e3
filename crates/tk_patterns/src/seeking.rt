//! The binding of a tag for a sequence, sought by the number of its whole sequence.
ghost use Rattle.std.specs.Prelude.{◌≡◌, Bool, Some, find, map, option_map, position, slice_get};
ghost use Rattle.std.specs.Option.{option_copied};
ghost use Rattle.tk_patterns.specs.declared.binding.Binding.{Binding};
ghost use Rattle.tk_patterns.specs.Filed.{numbers_of, stamps_of, has_whole, IsRising};
ghost use Rattle.tk_patterns.specs.Filing.{filed_under, filing_number, sequence_number};
ghost use Rattle.tk_patterns.specs.Own.{is_of};
ghost use Rattle.tk_patterns.specs.Same.{same_sequence};
ghost use Rattle.tk_patterns.specs.Wanted.{sequence_of};

use crate::Buckets;
use crate::binding::{Binding, has_tag};
use crate::filing::{stamps_of_name, stamps_of_sequence};
use crate::same::same_sequence;
use tcl_text::Text;
use tk_sequences::{Sequence, VirtualName};

/// What a binding is sought for: a sequence, or a virtual event by its name.
#[derive(Clone, Copy)]
pub(crate) enum Wanted<'a> {
    Sequence(&'a Sequence),
    Name(&'a VirtualName),
}

/// Where the binding of a tag for a sequence stands.
pub(crate) fn place_of(
    bindings: &[Binding],
    filed: &Buckets,
    tag: &str,
    wanted: Wanted<'_>,
) -> Option<usize>
    requires { numbers_of filed.now ≡ map filed_under bindings.now }
    ensures { result ≡ position (is_of tag.now (sequence_of wanted.entry)) bindings.now }
{
    let mut rest = stamps_of_wanted(filed, tag, wanted);
    while let Some((stamp, behind)) = rest.split_first() {
        let Some(place) = filed.place(*stamp) else {
            return None;
        };
        if is_at(bindings, place, tag, wanted) {
            return Some(place);
        }
        rest = behind;
    }
    None
}

/// The stamps of a tag's binding of one sequence, and of others that have its number by chance.
fn stamps_of_wanted<'a>(filed: &'a Buckets, tag: &str, wanted: Wanted<'_>) -> &'a [u64]
    ensures stamps { result.now ≡ stamps_of (has_whole (filing_number tag.now (sequence_number (sequence_of wanted.entry)))) filed.now }
    ensures rising { IsRising filed.now }
{
    match wanted {
        Wanted::Sequence(sequence) => stamps_of_sequence(filed, tag, sequence),
        Wanted::Name(name) => stamps_of_name(filed, tag, name),
    }
}

/// Whether the binding at a place is the one of a tag for a sequence.
fn is_at(bindings: &[Binding], place: usize, tag: &str, wanted: Wanted<'_>) -> bool
    ensures { (binding : Binding) → slice_get bindings.now place ≡ Some binding → result ≡ is_of tag.now (sequence_of wanted.entry) binding }
{
    match bindings.get(place) {
        Some(binding) => has_tag(binding, tag) && is_wanted(&binding.sequence, wanted),
        None => false,
    }
}

fn is_wanted(sequence: &Sequence, wanted: Wanted<'_>) -> bool
    ensures { result ≡ same_sequence sequence.now (sequence_of wanted.entry) }
{
    match wanted {
        Wanted::Sequence(other) => same_sequence(sequence, other),
        Wanted::Name(name) => is_name(sequence, name),
    }
}

fn is_name(sequence: &Sequence, name: &VirtualName) -> bool
    ensures { result ≡ same_sequence sequence.now (Sequence.Virtual name.now) }
{
    match sequence {
        Sequence::Virtual(other) => other.as_str() == name.as_str(),
        Sequence::Physical(_) => false,
    }
}

/// The script of the binding at a place.
pub(crate) fn script_at<'a>(bindings: &'a [Binding], place: Option<usize>) -> Option<&'a Text>
    ensures { (test : Binding → Bool) → place ≡ position test bindings.now → option_copied result ≡ option_map (λ binding. binding.script) (find test bindings.now) }
{
    let Some(place) = place else {
        return None;
    };
    let Some(binding) = binding_in(bindings, place) else {
        return None;
    };
    Some(&binding.script)
}

fn binding_in<'a>(bindings: &'a [Binding], place: usize) -> Option<&'a Binding>
    ensures { option_copied result ≡ slice_get bindings.now place }
{
    bindings.get(place)
}
