//! Verdicts for programs to read.

ghost use Rattle.std.specs.Prelude.{◌≡◌, ◌++◌, codes, encode_utf8, flat_map, map, IfOk, OnOk};
ghost use Rattle.std.specs.Option.{option_map_or};
ghost use Rattle.std.specs.String.{string_bytes};
ghost use Rattle.panels_text.specs.Reports.{attribute, case_element, case_name, comments, counts, described, failure_element, junit, junit_head, tap, tap_text, test_point, verdicts, xml_of, xml_text};
ghost use Rattle.serde_json.specs.Written.{compact_text};

use crate::cases::{Case, count_failed, title};
use crate::failure::Failure;
use crate::texts::first_line;
use crate::values::verdicts;
use std::alloc::{AllocError, Global};

#[tactic(auto, unfolding(crate::specs::Reports::comments))]
/// Adds a problem as comments, a line each.
fn push_comments(text: &mut String, problem: &str) -> Result<(), AllocError>
    ensures { OnOk result (string_bytes text.new ≡ string_bytes text.old ++ comments problem.now) }
{
    for line in problem.split('\n') {
        text.push_str("# ")?;
        text.push_str(line)?;
        text.push_str("\n")?;
    }
    Ok(())
}

/// Adds problems as comments.
fn push_problems(text: &mut String, problems: &[String]) -> Result<(), AllocError>
    ensures { OnOk result (string_bytes text.new ≡ string_bytes text.old ++ flat_map comments (map string_bytes problems.now)) }
{
    for problem in problems {
        push_comments(text, problem.as_str())?;
    }
    Ok(())
}

/// What stands for a character in a title, where that isn't the character: a `#` would begin a directive.
fn described(character: char) -> Option<&'static str>
    ensures { option_map_or (λ text. text.now) result (encode_utf8 character) ≡ described character }
{
    match character {
        '#' => Some("\\#"),
        '\\' => Some("\\\\"),
        _ => None,
    }
}

#[tactic(auto, unfolding(crate::specs::Reports::tap_text))]
/// Adds a title.
fn push_description(text: &mut String, title: &str) -> Result<(), AllocError>
    ensures { OnOk result (string_bytes text.new ≡ string_bytes text.old ++ tap_text title.now) }
{
    for character in title.chars() {
        match described(character) {
            Some(other) => text.push_str(other)?,
            None => text.push(character)?,
        }
    }
    Ok(())
}

#[tactic(auto, unfolding(crate::specs::Reports::test_point))]
/// Adds the test of a case.
fn push_test(alloc: Global, text: &mut String, number: usize, case: &Case) -> Result<(), AllocError>
    ensures { OnOk result (string_bytes text.new ≡ string_bytes text.old ++ test_point number case.now) }
{
    let verdict = if case.problems.is_empty() {
        "ok"
    } else {
        "not ok"
    };
    let head = format!(in alloc; "{verdict} {number} - ")?;
    text.push_str(head.as_str())?;
    push_description(text, title(alloc, case)?.as_str())?;
    text.push_str("\n")?;
    push_problems(text, case.problems.as_slice())
}

/// The cases in the Test Anything Protocol, version 13.
pub fn tap(alloc: Global, cases: &[Case]) -> Result<String, AllocError>
    ensures { IfOk result (λ text. string_bytes text ≡ tap cases.now) }
{
    let mut text = format!(in alloc; "TAP version 13\n1..{}\n", cases.len())?;
    for (index, case) in cases.iter().enumerate() {
        push_test(alloc, &mut text, index.saturating_add(1), case)?;
    }
    Ok(text)
}

/// What stands for a character in XML, where that isn't the character; for one that XML hasn't it is the replacement character.
fn entity(character: char) -> Option<&'static str>
    ensures { option_map_or (λ text. text.now) result (encode_utf8 character) ≡ xml_of character }
{
    match character {
        '&' => Some("&amp;"),
        '<' => Some("&lt;"),
        '>' => Some("&gt;"),
        '"' => Some("&quot;"),
        '\n' => Some("&#10;"),
        '\t' => Some("&#9;"),
        '\u{0}'..='\u{1f}' | '\u{fffe}' | '\u{ffff}' => Some("\u{fffd}"),
        _ => None,
    }
}

#[tactic(auto, unfolding(crate::specs::Reports::xml_text))]
/// Adds a text of an XML document; a character that XML hasn't becomes the replacement character.
pub fn push_escaped(text: &mut String, words: &str) -> Result<(), AllocError>
    ensures { OnOk result (string_bytes text.new ≡ string_bytes text.old ++ xml_text words.now) }
{
    for character in words.chars() {
        match entity(character) {
            Some(other) => text.push_str(other)?,
            None => text.push(character)?,
        }
    }
    Ok(())
}

#[tactic(auto, unfolding(crate::specs::Reports::attribute))]
/// Adds an attribute.
fn push_attribute(text: &mut String, name: &str, value: &str) -> Result<(), AllocError>
    ensures { OnOk result (string_bytes text.new ≡ string_bytes text.old ++ attribute name.now value.now) }
{
    text.push_str(" ")?;
    text.push_str(name)?;
    text.push_str("=\"")?;
    push_escaped(text, value)?;
    text.push_str("\"")?;
    Ok(())
}

/// Adds something that isn't as it has to be: its first line is the message.
fn push_failure(text: &mut String, problem: &str) -> Result<(), AllocError>
    ensures { OnOk result (string_bytes text.new ≡ string_bytes text.old ++ failure_element problem.now) }
{
    text.push_str("      <failure")?;
    push_attribute(text, "message", first_line(problem))?;
    text.push_str(">")?;
    push_escaped(text, problem)?;
    Ok(text.push_str("</failure>\n")?)
}

/// Adds what isn't as it has to be.
fn push_failures(text: &mut String, problems: &[String]) -> Result<(), AllocError>
    ensures { OnOk result (string_bytes text.new ≡ string_bytes text.old ++ flat_map failure_element (map string_bytes problems.now)) }
{
    for problem in problems {
        push_failure(text, problem.as_str())?;
    }
    Ok(())
}

/// The name of a case: that of its panel, or of what is of none the bench's file.
fn name_of(case: &Case) -> &str
    ensures { result.now ≡ case_name case.now }
{
    if case.panel.is_empty() {
        case.bench.as_str()
    } else {
        case.panel.as_str()
    }
}

/// Adds the test case of a case.
fn push_testcase(text: &mut String, case: &Case) -> Result<(), AllocError>
    ensures { OnOk result (string_bytes text.new ≡ string_bytes text.old ++ case_element case.now) }
{
    text.push_str("    <testcase")?;
    push_attribute(text, "classname", case.bench.as_str())?;
    push_attribute(text, "name", name_of(case))?;
    text.push_str(">\n")?;
    push_failures(text, case.problems.as_slice())?;
    Ok(text.push_str("    </testcase>\n")?)
}

/// How many cases there are, and how many of them failed.
fn counts_of(alloc: Global, cases: &[Case]) -> Result<String, AllocError>
    ensures { IfOk result (λ text. string_bytes text ≡ counts cases.now) }
{
    let failed = count_failed(cases);
    let counts = format!(in alloc;
        "tests=\"{}\" failures=\"{failed}\" errors=\"0\"",
        cases.len()
    )?;
    Ok(counts)
}

/// What stands before the cases in JUnit's XML.
fn junit_head(alloc: Global, cases: &[Case]) -> Result<String, AllocError>
    ensures { IfOk result (λ text. string_bytes text ≡ junit_head cases.now) }
{
    let counts = counts_of(alloc, cases)?;
    let counts = counts.as_str();
    format!(in alloc;
        "<?xml version=\"1.0\" encoding=\"UTF-8\"?>\n<testsuites {counts}>\n  <testsuite name=\"panels\" {counts}>\n"
    )
}

/// The cases as JUnit's XML.
pub fn junit(alloc: Global, cases: &[Case]) -> Result<String, AllocError>
    ensures { IfOk result (λ text. string_bytes text ≡ junit cases.now) }
{
    let mut text = junit_head(alloc, cases)?;
    for case in cases {
        push_testcase(&mut text, case)?;
    }
    text.push_str("  </testsuite>\n</testsuites>\n")?;
    Ok(text)
}

/// The cases as JSON.
pub fn json(alloc: Global, cases: &[Case]) -> Result<String, Failure>
    ensures { IfOk result (λ text. string_bytes text ≡ compact_text (verdicts cases.now) ++ codes "\n") }
{
    let mut text = verdicts(alloc, cases)?.to_string(alloc)?;
    text.push_str("\n")?;
    Ok(text)
}
