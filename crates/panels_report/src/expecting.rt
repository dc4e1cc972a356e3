//! Whether a panel ends with the section that it has to.

ghost use Rattle.std.specs.Prelude.{◌≡◌, [], true, map, option_map, IfOk};
ghost use Rattle.std.specs.String.{string_bytes};
ghost use Rattle.panels.specs.Verdict.{compared};
ghost use Rattle.panels_report.specs.Expected.{differing, is_as_expected, unexpected};

use panels::{compared, is_same};
use panels_bench::Side;
use panels_text::differences;
use std::alloc::{AllocError, Global};

/// Whether what is compared of a section is what is expected: always where no file says that, and never where the file isn't there.
pub fn is_as_expected(side: &Side, wanted: Option<&[u8]>, got: &[u8]) -> bool
    ensures { result ≡ is_as_expected side.now (option_map (λ text. text.now) wanted.entry) got.now }
{
    match (&side.expect, wanted) {
        (None, _) => true,
        (Some(_), None) => false,
        (Some(_), Some(wanted)) => is_same(wanted, got),
    }
}

/// What differs from an expected file; that it isn't there, where it isn't.
fn differing(
    alloc: Global,
    side: &Side,
    wanted: Option<&[u8]>,
    got: &[u8],
) -> Result<Vec<String>, AllocError>
    ensures { IfOk result (λ problems. map string_bytes problems.items ≡ differing (option_map (λ text. text.now) wanted.entry) (option_map string_bytes side.now.expect) got.now) }
{
    if let Some(wanted) = wanted {
        return differences(alloc, wanted, got);
    }
    let Some(name) = &side.expect else {
        return Ok(Vec::new(alloc));
    };
    let mut problems = Vec::new(alloc);
    let words = format!(in alloc;
        "there is no file {}: panels accept writes it",
        name.as_str()
    )?;
    problems.push(words)?;
    Ok(problems)
}

/// What differs from a panel's expected file, of which this is the text, where it is there; nothing where the section is as it has to be.
pub(crate) fn unexpected(
    alloc: Global,
    side: &Side,
    wanted: Option<&[u8]>,
    section: &[u8],
) -> Result<Vec<String>, AllocError>
    ensures same { is_as_expected side.now (option_map (λ text. text.now) wanted.entry) (compared side.now.counts_steps section.now) ≡ true → IfOk result (λ problems. problems.items ≡ []) }
    ensures told { IfOk result (λ problems. map string_bytes problems.items ≡ unexpected side.now (option_map (λ text. text.now) wanted.entry) section.now) }
{
    let got = compared(alloc, section, side.counts_steps)?;
    if is_as_expected(side, wanted, got.as_slice()) {
        return Ok(Vec::new(alloc));
    }
    differing(alloc, side, wanted, got.as_slice())
}
