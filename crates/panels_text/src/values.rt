//! Verdicts as values of JSON.

ghost use Rattle.std.specs.Prelude.{◌≡◌, map, IfOk};
ghost use Rattle.std.specs.String.{string_bytes};
ghost use Rattle.panels_text.specs.Reports.{case_data, verdicts};
ghost use Rattle.serde_json.specs.Data.{string};
ghost use Rattle.serde_json.specs.View.{view};

use crate::cases::{Case, count_failed};
use serde_json::{Value, json};
use std::alloc::{AllocError, Global};

/// Texts as values of JSON.
fn texts_data(alloc: Global, texts: &[String]) -> Result<Vec<Value>, AllocError>
    ensures { IfOk result (λ values. map view values.items ≡ map string (map string_bytes texts.now)) }
{
    let mut values = Vec::new(alloc);
    for text in texts {
        values.push(Value::String(String::from_str(alloc, text.as_str())?))?;
    }
    Ok(values)
}

/// A case as a value of JSON.
fn case_data(alloc: Global, case: &Case) -> Result<Value, AllocError>
    ensures { IfOk result (λ value. view value ≡ case_data case.now) }
{
    let problems = texts_data(alloc, case.problems.as_slice())?;
    json!(in alloc; {
        "bench": case.bench.as_str(),
        "ok": case.problems.is_empty(),
        "panel": case.panel.as_str(),
        "problems": problems
    })
}

/// Cases as values of JSON.
fn cases_data(alloc: Global, cases: &[Case]) -> Result<Vec<Value>, AllocError>
    ensures { IfOk result (λ values. map view values.items ≡ map case_data cases.now) }
{
    let mut values = Vec::new(alloc);
    for case in cases {
        values.push(case_data(alloc, case)?)?;
    }
    Ok(values)
}

/// What JSON tells of all cases.
pub(crate) fn verdicts(alloc: Global, cases: &[Case]) -> Result<Value, AllocError>
    ensures { IfOk result (λ value. view value ≡ verdicts cases.now) }
{
    let values = cases_data(alloc, cases)?;
    json!(in alloc; {
        "cases": values,
        "failed": count_failed(cases),
        "panels": cases.len()
    })
}
