ghost use Rattle.std.specs.Prelude.{◌≡◌};
ghost use Rattle.tk_patterns.specs.Own.{has_tag, is_of};

use crate::same::same_sequence;
use tcl_text::Text;
use tk_sequences::Sequence;

/// A script that is bound to a sequence, for the windows with a tag (bind(n), bindtags(n)).
#[derive(Drop)]
pub struct Binding {
    pub tag: Text,
    pub sequence: Sequence,
    pub script: Text,
}

/// Whether it is for the windows with this tag.
pub(crate) fn has_tag(binding: &Binding, tag: &str) -> bool
    ensures { result ≡ has_tag tag.now binding.now }
{
    binding.tag.as_str() == tag
}

/// Whether it is the one of a tag for a sequence.
pub(crate) fn is_of(binding: &Binding, tag: &str, sequence: &Sequence) -> bool
    ensures { result ≡ is_of tag.now sequence.now binding.now }
{
    has_tag(binding, tag) && same_sequence(&binding.sequence, sequence)
}
