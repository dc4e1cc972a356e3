ghost use Rattle.std.specs.Prelude.{◌≡◌, IfSome};
ghost use Rattle.tcl_expr.specs.declared.step.Step.TheVariants as step;

use crate::step::Step;
use crate::straight::{Numbers, integer_behind, integer_by, is_straight};
use std::alloc::{AllocError, Global};
use std::marker::Model;
use std::rc::Rc;
use tcl_text::Text;
use tcl_words::Script;

/// An expression, read and shared by its copies. Contracts see its source alone, of which the steps are those of its tree.
pub struct Expr {
    parsed: Rc<ParsedExpr>,
}

#[derive(Drop)]
struct ParsedExpr {
    text: Text,
    steps: Vec<Step>,
    is_straight: bool,
    /// Whether straight code has all the steps behind the first.
    goes_on_straight: bool,
}

impl Model for Expr {
    ghost use Rattle.std.specs.Prelude.{ℕ, List};

    ghost Value = { List ℕ };

    ghost use Rattle.std.specs.Prelude.{◌≡◌, Ok};
    ghost use Rattle.tcl_expr.specs.Reading.{compiled};

    ghost view = { λ e. e.parsed.value.text };

    ghost invariant = { λ e. compiled e.parsed.value.text ≡ Ok e.parsed.value.steps.items };
}

/// Whether straight code has all of these steps.
fn all_straight(steps: &[Step]) -> bool {
    steps.iter().all(is_straight)
}

/// The script whose result a step asks for, if it asks for one.
fn script_in(own: &Step) -> Option<&Script>
    ensures { IfSome result (λ script. own.now ≡ step.Command script.now) }
{
    match own {
        Step::Command(script) => Some(script),
        _ => None,
    }
}

impl Expr {
    ghost use Rattle.std.specs.Prelude.{◌≡◌, ◌∷◌, [], List, Ok, Some, IfOk, IfSome, IsOk};
    ghost use Rattle.tcl_expr.specs.declared.state.State.TheVariants.{Ready};
    ghost use Rattle.tcl_expr.specs.Grammar.{IsExpression};
    ghost use Rattle.tcl_expr.specs.Reading.{compiled, tree_of};
    ghost use Rattle.tcl_expr.specs.Resuming.{evaluation_at};
    ghost use Rattle.tcl_expr.specs.Straight.{ComesTo, straight};
    ghost use Rattle.tcl_expr.specs.declared.step.Step.{Step};
    ghost use Rattle.tcl_expr.specs.declared.step.Step.TheVariants as step;

    /// An expression of this text, of which these are the steps.
    pub(crate) fn new(alloc: Global, text: Text, steps: Vec<Step>) -> Result<Expr, AllocError>
        requires { compiled text ≡ Ok steps.items }
        ensures { IfOk result (λ expr. expr ≡ text) }
    {
        let is_straight = all_straight(steps.as_slice());
        let goes_on_straight = match steps.as_slice() {
            [_, behind @ ..] => all_straight(behind),
            [] => false,
        };
        let parsed = ParsedExpr {
            text,
            steps,
            is_straight,
            goes_on_straight,
        };
        Ok(Expr {
            parsed: Rc::new(alloc, parsed)?,
        })
    }

    /// The source, which has a tree.
    pub fn text(&self) -> &Text
        ensures text { result.now ≡ self.now }
        ensures expression { IsExpression self.now }
        ensures walk { IsOk (tree_of self.now) }
    {
        &self.parsed.text
    }

    /// The steps.
    pub(crate) fn steps(&self) -> &[Step]
        ensures { compiled self.now ≡ Ok result.now }
    {
        self.parsed.steps.as_slice()
    }

    /// Whether straight code has all the steps.
    pub(crate) fn is_straight(&self) -> bool {
        self.parsed.is_straight
    }

    /// The integer that its evaluation comes to, where that needs nothing but integers and variables that are some. It says nothing of a sum that 64
    /// bits don't hold, of a division by 0, or where many operands wait. It takes no memory, and no evaluation is begun.
    pub fn integer<N: Numbers>(&self, numbers: &N) -> Option<i64>
        ensures { IfSome result (ComesTo (N.number numbers.now) (evaluation_at 0 (compiled self.now) [] Ready)) }
    {
        if self.is_straight() {
            integer_by(numbers, self.steps())
        } else {
            None
        }
    }

    /// The script in brackets whose result its evaluation asks for first, where straight code has all that comes behind it. It takes no memory.
    pub fn leading_script(&self) -> Option<&Script>
        ensures { IfSome result (λ script. (behind : List Step) × (compiled self.now ≡ Ok (step.Command script.now ∷ behind))) }
    {
        if !self.parsed.goes_on_straight {
            return None;
        }
        match self.steps() {
            [first, ..] => script_in(first),
            [] => None,
        }
    }

    /// The integer that its evaluation comes to behind its first step, where that gives this one and all else is as `integer` needs it. It takes no
    /// memory.
    pub fn integer_behind<N: Numbers>(&self, numbers: &N, first: i64) -> Option<i64>
        ensures { IfSome result (λ n. (own : Step) (behind : List Step) → compiled self.now ≡ Ok (own ∷ behind)
            → straight (N.number numbers.now) 0 behind (first ∷ []) ≡ Some n) }
    {
        match self.steps() {
            [_, behind @ ..] => integer_behind(numbers, behind, first),
            [] => None,
        }
    }

    /// The same expression, shared. It takes no memory; it is refused only where the count of its copies is full.
    pub fn copy(&self) -> Result<Expr, AllocError>
        ensures { IfOk result (λ expr. expr ≡ self.now) }
    {
        Ok(Expr {
            parsed: self.parsed.clone()?,
        })
    }
}

/// By hand: a proof sees one call where it is dropped, and not its parts.
impl Drop for Expr {
    fn drop(self) {
        let Expr { parsed: _ } = self;
    }
}
