//! Errors of scripts, and steps that ran out.

ghost use Rattle.std.specs.Prelude.{◌≡◌, option_map, IfOk};
ghost use Rattle.std.specs.String.{string_bytes};
ghost use Rattle.panels_report.specs.Ends.{error_in, error_words, has_run_out, refilled_words, spent_words, steps_words, unwanted_error};

use panels_bench::Side;
use panels_film::is_spent;
use std::alloc::{AllocError, Global};
use tk_base::Budget;

/// The first error of a transcript.
fn error_in(section: &str) -> Option<&str>
    ensures { option_map (λ line. line.now) result ≡ error_in section.now }
{
    section.split('\n').find(|line| line.starts_with("err "))
}

/// The first error of a panel's transcript, where the bench doesn't say that there may be one.
pub(crate) fn unwanted_error<'a>(side: &Side, section: &'a str) -> Option<&'a str>
    ensures { option_map (λ line. line.now) result ≡ unwanted_error side.now section.now }
{
    if side.may_fail {
        return None;
    }
    error_in(section)
}

/// Whether a panel ran out of steps, where the bench doesn't say that it may.
pub(crate) fn has_run_out(side: &Side, section: &str) -> bool
    ensures { result ≡ has_run_out side.now section.now }
{
    !side.may_run_out && is_spent(section)
}

/// That an error came, in words.
pub(crate) fn error_words(alloc: Global, error: &str) -> Result<String, AllocError>
    ensures { IfOk result (λ text. string_bytes text ≡ error_words error.now) }
{
    format!(in alloc; "a script ended with an error: {error} (errors = true lets it)")
}

/// Steps, and those that come with each event, in words.
fn refilled_words(alloc: Global, total: u64, refill: u64) -> Result<String, AllocError>
    ensures { IfOk result (λ text. string_bytes text ≡ refilled_words total refill) }
{
    format!(in alloc; "{total}, and {refill} more with each event")
}

/// The steps that a panel with this budget had, in words.
fn steps_words(alloc: Global, budget: Budget) -> Result<String, AllocError>
    ensures { IfOk result (λ text. string_bytes text ≡ steps_words budget) }
{
    let total = budget.total;
    if budget.refill == 0 {
        format!(in alloc; "{total}")
    } else {
        refilled_words(alloc, total, budget.refill)
    }
}

/// That a panel with this budget ran out, in words.
pub(crate) fn spent_words(alloc: Global, budget: Budget) -> Result<String, AllocError>
    ensures { IfOk result (λ text. string_bytes text ≡ spent_words budget) }
{
    let had = steps_words(alloc, budget)?;
    format!(in alloc;
        "it ran out of steps, of which it had {}: a script never ended, or took more than that (exhausted = true lets it)",
        had.as_str()
    )
}
