//! Lengths that are added up before a text is built, so that what is too long is refused before a byte is asked for.
ghost use Rattle.std.specs.Prelude.{◌≡◌, ◌+◌, ◌<◌, ◌≤◌, length, IfSome, IfNone};
ghost use Rattle.std.specs.List.{concat};
ghost use Rattle.tcl_text.specs.Limits.{most_bytes};

use crate::text::{MAX_BYTES, Text};

/// A size and what is added to it; none past 65,536 bytes.
pub fn longer(size: usize, by: usize) -> Option<usize>
    requires { size ≤ most_bytes }
    ensures exact { IfSome result (λ sum. sum ≡ size + by) }
    ensures within { IfSome result (λ sum. sum ≤ most_bytes) }
    ensures none { IfNone result (most_bytes < size + by) }
{
    if MAX_BYTES - size < by {
        return None;
    }
    Some(size + by)
}

/// How long the texts are, one behind another; none past 65,536 bytes.
pub fn total(texts: &[Text]) -> Option<usize>
    ensures exact { IfSome result (λ sum. sum ≡ length (concat texts.now)) }
    ensures none { IfNone result (most_bytes < length (concat texts.now)) }
{
    let mut sum = 0;
    for text in texts {
        sum = longer(sum, text.as_str().len())?;
    }
    Some(sum)
}
