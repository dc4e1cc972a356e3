ghost use Rattle.std.specs.Prelude.{◌≡◌, IfOk, IfSome};
ghost use Rattle.tcl_control.specs.Expressions.{truth_of_text};
ghost use Rattle.tcl_control.specs.ExpressionForms.{IsIntegerBy, evaluation_begins};

use std::alloc::{AllocError, Global};
use std::marker::Model;
use tcl_expr::{Eval, Expr, ExprFault, Numbers, parse_expr};
use tcl_table::CommandTable;
use tcl_text::Text;
use tcl_words::ParseFault;

/// How an expression was read.
#[derive(Drop)]
pub enum ExpressionForm {
    /// Whole.
    Read(Expr),
    /// Up to a fault, of which this is told.
    Faulty(Text, Text),
}

/// An expression that a command was given, read once. Contracts see its text.
pub struct Expression {
    form: ExpressionForm,
}

impl Model for Expression {
    ghost use Rattle.std.specs.Prelude.{ℕ, List};
    ghost use Rattle.tcl_control.specs.ExpressionForms.{expression_text, HasToldFault};

    ghost Value = { List ℕ };

    ghost view = { λ e. expression_text e.form };

    ghost invariant = { λ e. HasToldFault e.form };
}

impl Expression {
    ghost use Rattle.tcl_expr.specs.declared.state.State.TheVariants.{Ready};

    /// The expression of a text, read whole (expr(n)). A fault is kept, and told by `begin`.
    #[tactic(auto, unfolding(crate::specs::ExpressionForms::evaluation_begins))]
    pub fn of(alloc: Global, text: &Text) -> Result<Expression, AllocError>
        ensures { IfOk result (λ expression. expression ≡ text.now) }
    {
        match parse_expr(alloc, text.as_str().as_bytes()) {
            Ok(expr) => Ok(Expression {
                form: ExpressionForm::Read(expr),
            }),
            Err(ExprFault::Script(ParseFault::NoMemory)) => Err(AllocError),
            Err(fault) => Ok(Expression {
                form: ExpressionForm::Faulty(text.copy()?, fault.text(alloc, text.as_str())?),
            }),
        }
    }

    /// The expression of a text, which a table keeps, so that it is read once as long as it is kept (expr(n)). One with a fault isn't kept.
    pub fn read_by(
        alloc: Global,
        table: &mut CommandTable,
        text: &Text,
    ) -> Result<Expression, AllocError>
        ensures table { table.new ≡ table.old }
        ensures expression { IfOk result (λ expression. expression ≡ text.now) }
    {
        if let Some(expr) = table.kept_expression(text)? {
            return Ok(Expression {
                form: ExpressionForm::Read(expr),
            });
        }
        let expression = Expression::of(alloc, text)?;
        if let ExpressionForm::Read(expr) = &expression.form {
            table.keep_expression(expr)?;
        }
        Ok(expression)
    }

    /// The same expression, shared.
    pub fn copy(&self) -> Result<Expression, AllocError>
        ensures { IfOk result (λ expression. expression ≡ self.now) }
    {
        match &self.form {
            ExpressionForm::Read(expr) => Ok(Expression {
                form: ExpressionForm::Read(expr.copy()?),
            }),
            ExpressionForm::Faulty(text, told) => Ok(Expression {
                form: ExpressionForm::Faulty(text.copy()?, told.copy()?),
            }),
        }
    }

    /// The integer that its value is, where straight code says so (`Expr::integer`). It takes no memory.
    pub fn integer<N: Numbers>(&self, numbers: &N) -> Option<i64>
        ensures { IfSome result (IsIntegerBy (N.number numbers.now) self.now) }
    {
        match &self.form {
            ExpressionForm::Read(expr) => integer_of(expr, numbers),
            ExpressionForm::Faulty(..) => None,
        }
    }

    /// Its evaluation from the beginning, or the text of its fault (4 to 11).
    #[tactic(auto, unfolding(crate::specs::ExpressionForms::evaluation_begins))]
    pub fn begin(&self, alloc: Global) -> Result<Result<Eval, Text>, AllocError>
        ensures begun { IfOk result (λ begun. begun ≡ evaluation_begins self.now) }
        ensures ready { IfOk result (λ begun. IfOk begun (λ eval. eval.state ≡ Ready)) }
    {
        match &self.form {
            ExpressionForm::Read(expr) => {
                let _read = expr.text();
                Ok(Ok(Eval::new(alloc, expr.copy()?)))
            }
            ExpressionForm::Faulty(_, told) => Ok(Err(told.copy()?)),
        }
    }
}

/// The integer that the value of an expression is, where straight code says so (`Expr::integer`). It takes no memory.
pub fn integer_of<N: Numbers>(expr: &Expr, numbers: &N) -> Option<i64>
    ensures { IfSome result (IsIntegerBy (N.number numbers.now) expr.now) }
{
    let _read = expr.text();
    expr.integer(numbers)
}

/// The value of a condition of `if`, `while` or `for` as a boolean (expr(n)), or the text of the error that it is none (2).
pub fn truth(alloc: Global, value: &Text) -> Result<Result<bool, Text>, AllocError>
    ensures { IfOk result (λ truth. truth ≡ truth_of_text value.now) }
{
    match value.boolean() {
        Ok(truth) => Ok(Ok(truth)),
        Err(fault) => Ok(Err(fault.text(alloc, value.as_str())?)),
    }
}

/// By hand: a proof sees one call where it is dropped, and not its parts.
impl Drop for Expression {
    fn drop(self) {
        let Expression { form: _ } = self;
    }
}
