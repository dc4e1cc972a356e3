//! `if` whose words are written, with a condition that was read before and of which straight code knows whether it holds, also behind a script in
//! brackets in front of it that is plain; and `switch`, whose body was read before.
ghost use Rattle.std.specs.Prelude.{◌≡◌, ◌<◌, ◌≤◌, length, IfOk, IfSome};
ghost use Rattle.std.specs.Option.{option_copied};
ghost use Rattle.tcl_table.specs.Levels.{here};
ghost use Rattle.tcl_interp.specs.Whole.{Chooses, Decides, IfWords, Switches};

use crate::openings::holds;
use crate::seen::Seen;
use crate::simple::{DEPTH, script_value, written};
use crate::tasks::Tasks;
use std::alloc::{AllocError, Global};
use tcl_control::{Code, Context, Plan, integer_of, switch_plan};
use tcl_expr::Expr;
use tcl_text::Text;
use tcl_vars::Scopes;
use tcl_words::{Script, Word};

/// What `if` has chosen.
#[derive(Drop)]
pub enum Chosen {
    /// No body.
    Nothing,
    /// This one.
    Body(Script),
}

/// What `if` has chosen, and the steps that were taken for its condition.
#[derive(Drop)]
pub struct Choice {
    pub chosen: Chosen,
    pub steps: u64,
}

/// What `switch` does.
#[derive(Drop)]
pub enum Switched {
    /// It has ended, where no pattern takes the value, or with an error.
    Ends(Code, Text),
    /// It runs this body.
    Runs(Script),
    /// Something else, or its body wasn't read before.
    Other,
}

/// Whether a condition holds, and the steps that were taken for it.
#[derive(Drop)]
struct Decided {
    holds: bool,
    steps: u64,
}

/// The words of `if`: a condition, a body, and the body behind `else`, if there is one.
#[derive(Drop)]
struct Clauses<'a> {
    test: &'a Text,
    body: &'a Text,
    otherwise: Option<&'a Text>,
}

/// The words of `if` behind its name, where they are written, and are no more than a condition and a body, or two with `else` between them.
fn clauses_of(words: &[Word]) -> Option<Clauses<'_>>
    ensures { IfSome result (λ clauses. IfWords words.now clauses.test.now clauses.body.now (option_copied clauses.otherwise)) }
{
    let test = written(words, 1)?;
    let body = written(words, 2)?;
    if body.as_str() == "then" {
        return None;
    }
    if words.len() == 3 {
        return Some(Clauses {
            test,
            body,
            otherwise: None,
        });
    }
    let keyword = written(words, 3)?;
    let last = written(words, 4)?;
    if words.len() == 5 && keyword.as_str() == "else" {
        return Some(Clauses {
            test,
            body,
            otherwise: Some(last),
        });
    }
    None
}

/// Whether a condition holds, where straight code says so without a step. Variables are those of a level.
fn straight_condition<T: Tasks>(
    scopes: &Scopes,
    context: &Context,
    level: usize,
    expr: &Expr,
    room: u64,
) -> Option<Decided>
    requires level { level ≡ here context.now.levels scopes.now }
    requires there { level < length scopes.now }
    ensures decides { IfSome result (λ decided. Decides T.outside room scopes.now context.now expr.now decided.steps decided.holds) }
    ensures most { IfSome result (λ decided. decided.steps ≡ 0) }
{
    let _ = &context.levels;
    match integer_of(expr, &Seen { scopes, level }) {
        Some(number) => Some(Decided {
            holds: holds(number),
            steps: 0,
        }),
        None => None,
    }
}

/// Whether a condition holds, where its first part is a script in brackets that is plain and gives an integer, and straight code says so behind it.
/// Variables are those of a level.
fn condition_behind<T: Tasks>(
    alloc: Global,
    scopes: &Scopes,
    context: &Context,
    level: usize,
    expr: &Expr,
    room: u64,
    most: u64,
) -> Result<Option<Decided>, AllocError>
    requires level { level ≡ here context.now.levels scopes.now }
    requires there { level < length scopes.now }
    ensures decides { IfOk result (λ found. IfSome found (λ decided. Decides T.outside room scopes.now context.now expr.now decided.steps decided.holds)) }
    ensures most { IfOk result (λ found. IfSome found (λ decided. decided.steps ≤ most)) }
{
    if room == 0 || most == 0 {
        return Ok(None);
    }
    let Some(script) = expr.leading_script() else {
        return Ok(None);
    };
    let found = script_value::<T>(alloc, scopes, context, level, script, room, most, DEPTH)?;
    let Some(found) = found else {
        return Ok(None);
    };
    let Ok(first) = found.text.integer() else {
        return Ok(None);
    };
    match expr.integer_behind(&Seen { scopes, level }, first) {
        Some(number) => Ok(Some(Decided {
            holds: holds(number),
            steps: found.steps,
        })),
        None => Ok(None),
    }
}

/// Whether a condition holds, where it was read before and that is known at once, for so many steps at most. Variables are those of a level.
fn kept_condition<T: Tasks>(
    alloc: Global,
    scopes: &Scopes,
    context: &Context,
    level: usize,
    text: &Text,
    room: u64,
    most: u64,
) -> Result<Option<Decided>, AllocError>
    requires level { level ≡ here context.now.levels scopes.now }
    requires there { level < length scopes.now }
    ensures decides { IfOk result (λ found. IfSome found (λ decided. Decides T.outside room scopes.now context.now text.now decided.steps decided.holds)) }
    ensures most { IfOk result (λ found. IfSome found (λ decided. decided.steps ≤ most)) }
{
    let Some(expr) = context.commands.known_expression(text) else {
        return Ok(None);
    };
    match straight_condition::<T>(scopes, context, level, expr, room) {
        Some(decided) => Ok(Some(decided)),
        None => condition_behind::<T>(alloc, scopes, context, level, expr, room, most),
    }
}

/// The body that `if` runs, where that is known at once, for so many steps at most, and the body was read before.
pub fn choose_body<T: Tasks>(
    alloc: Global,
    scopes: &Scopes,
    context: &Context,
    level: usize,
    words: &[Word],
    room: u64,
    most: u64,
) -> Result<Option<Choice>, AllocError>
    requires level { level ≡ here context.now.levels scopes.now }
    requires there { level < length scopes.now }
    ensures chooses { IfOk result (λ found. IfSome found (λ choice. Chooses T.outside room scopes.now context.now words.now choice.steps choice.chosen)) }
    ensures most { IfOk result (λ found. IfSome found (λ choice. choice.steps ≤ most)) }
{
    let Some(found) = clauses_of(words) else {
        return Ok(None);
    };
    let Clauses {
        test,
        body,
        otherwise,
    } = found;
    let known = kept_condition::<T>(alloc, scopes, context, level, test, room, most)?;
    let Some(decided) = known else {
        return Ok(None);
    };
    let Decided { holds, steps } = decided;
    let taken = if holds { Some(body) } else { otherwise };
    let Some(taken) = taken else {
        let chosen = Chosen::Nothing;
        return Ok(Some(Choice { chosen, steps }));
    };
    match context.commands.kept_script(taken)? {
        Some(script) => {
            let chosen = Chosen::Body(script);
            Ok(Some(Choice { chosen, steps }))
        }
        None => Ok(None),
    }
}

/// What `switch` does with these words behind its name, where the body that it runs was read before.
pub fn choose_arm(alloc: Global, context: &Context, words: &[Text]) -> Result<Switched, AllocError>
    ensures { IfOk result (Switches words.now) }
{
    let plan = switch_plan(alloc, words)?;
    match plan {
        Plan::Ends(code, text) => Ok(Switched::Ends(code, text)),
        Plan::Runs(body) => {
            let text = body.text()?;
            let kept = context.commands.kept_script(&text)?;
            match kept {
                Some(script) => Ok(Switched::Runs(script)),
                None => Ok(Switched::Other),
            }
        }
        _ => Ok(Switched::Other),
    }
}
