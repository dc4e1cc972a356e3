use crate::fault::EvalFault;
use crate::operators::BinaryOperator;
use crate::searches::Searches;
use crate::value::{Value, binary_value};
use std::alloc::{AllocError, Global};
use std::marker::Model;

/// The values that wait for an operator, which contracts see with the topmost first.
#[derive(Drop)]
pub struct Operands {
    values: Vec<Value>,
    searches: Searches,
}

impl Model for Operands {
    ghost use Rattle.std.specs.Prelude.{List, reverse};
    ghost use Rattle.tcl_expr.specs.declared.value.Value.{Value as Operand};

    ghost Value = { List Operand };

    ghost view = { λ o. reverse o.values.items };
}

impl Operands {
    ghost use Rattle.std.specs.Prelude.{◌≡◌, true, [], ◌∷◌, OnOk};
    ghost use Rattle.tcl_expr.specs.Faults.{IsEvaluatedAs};
    ghost use Rattle.tcl_expr.specs.Steps.{top_of, without_top};
    ghost use Rattle.tcl_expr.specs.Values as values;

    /// No values. It takes no memory.
    pub fn new(alloc: Global) -> Operands
        ensures { result ≡ [] }
    {
        Operands {
            values: Vec::new(alloc),
            searches: Searches::new(),
        }
    }

    /// Whether there are no values.
    pub fn is_empty(&self) -> bool
        ensures { result ≡ true → self.now ≡ [] }
    {
        self.values.is_empty()
    }

    /// Adds a value.
    pub fn push(&mut self, value: Value) -> Result<(), AllocError>
        ensures { OnOk result (self.new ≡ value ∷ self.old) }
    {
        self.values.push(value)?;
        Ok(())
    }

    /// Takes the topmost value, or gives 0 where there is none.
    pub fn pop(&mut self) -> Value
        ensures top { result ≡ top_of self.old }
        ensures below { self.new ≡ without_top self.old }
    {
        self.values.pop().unwrap_or(Value::Number(0))
    }

    /// What an operator makes of the values at its sides.
    pub fn binary_value(
        &mut self,
        alloc: Global,
        operator: BinaryOperator,
        left: Value,
        right: Value,
    ) -> Result<Value, EvalFault>
        ensures value { IsEvaluatedAs result (values.binary_value operator left right) }
        ensures same { self.new ≡ self.old }
    {
        binary_value(alloc, &mut self.searches, operator, left, right)
    }

    /// Keeps nothing of the list that was searched last: a script may search others, and as deep as scripts nest.
    pub fn forget_searches(&mut self)
        ensures { self.new ≡ self.old }
    {
        self.searches = Searches::new();
    }
}
