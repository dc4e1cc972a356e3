//! What is told of panels, for a person.

ghost use Rattle.std.specs.Prelude.{◌≡◌, ◌++◌, flat_map, map, IfOk, OnOk};
ghost use Rattle.std.specs.String.{string_bytes};
ghost use Rattle.panels_text.specs.Reports.{case_lines, problem_line, report};
ghost use Rattle.panels_text.specs.Verdicts.{count_failed, title};

use std::alloc::{AllocError, Global};

/// A panel of a bench that was played, or what is of no panel.
#[derive(Drop)]
pub struct Case {
    /// The bench's file.
    pub bench: String,
    /// The panel's name; empty for what is of none.
    pub panel: String,
    /// What isn't as it has to be; nothing where all is.
    pub problems: Vec<String>,
}

/// What a case is of.
pub fn title(alloc: Global, case: &Case) -> Result<String, AllocError>
    ensures { IfOk result (λ text. string_bytes text ≡ title case.now) }
{
    if case.panel.is_empty() {
        String::from_str(alloc, case.bench.as_str())
    } else {
        format!(in alloc; "{}: {}", case.bench.as_str(), case.panel.as_str())
    }
}

/// Adds what isn't as it has to be, a line each.
fn push_problems(text: &mut String, problems: &[String]) -> Result<(), AllocError>
    ensures { OnOk result (string_bytes text.new ≡ string_bytes text.old ++ flat_map problem_line (map string_bytes problems.now)) }
{
    for problem in problems {
        text.push_str("    ")?;
        text.push_str(problem.as_str())?;
        text.push_str("\n")?;
    }
    Ok(())
}

#[tactic(auto, unfolding(crate::specs::Reports::case_lines))]
/// Adds the line of a case, and those of what isn't as it has to be.
fn push_case(alloc: Global, text: &mut String, case: &Case) -> Result<(), AllocError>
    ensures { OnOk result (string_bytes text.new ≡ string_bytes text.old ++ case_lines case.now) }
{
    let is_fine = case.problems.is_empty();
    text.push_str(if is_fine { "ok    " } else { "FAIL  " })?;
    text.push_str(title(alloc, case)?.as_str())?;
    text.push_str("\n")?;
    push_problems(text, case.problems.as_slice())
}

/// How many cases aren't as they have to be.
pub fn count_failed(cases: &[Case]) -> usize
    ensures { result ≡ count_failed cases.now }
{
    cases
        .iter()
        .filter(|case| !case.problems.is_empty())
        .count()
}

/// A line for each case, what isn't as it has to be, and how many there are.
pub fn report(alloc: Global, cases: &[Case]) -> Result<String, AllocError>
    ensures { IfOk result (λ text. string_bytes text ≡ report cases.now) }
{
    let mut text = String::new(alloc);
    for case in cases {
        push_case(alloc, &mut text, case)?;
    }
    let failed = count_failed(cases);
    let line = format!(in alloc; "{} panels, {failed} of them failed\n", cases.len())?;
    text.push_str(line.as_str())?;
    Ok(text)
}
