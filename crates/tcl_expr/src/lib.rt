//! Tcl expressions, read once and evaluated step by step.
#![tactic(auto)]

mod arithmetic;
mod ask;
mod braces;
mod eval;
mod expr;
mod fault;
mod integers;
mod laws;
mod machine;
mod message;
mod open;
mod operands;
mod operators;
mod parse;
mod parser;
mod reader;
mod searches;
mod state;
mod step;
mod straight;
mod substitution;
mod tokens;
mod value;
mod variable;

pub use ask::Ask;
pub use eval::Eval;
pub use expr::Expr;
pub use fault::{EvalFault, ExprFault};
pub use laws::{
    braces_are_those_of_scripts, faults_are_told, one_tree_or_fault, questions_use_steps_up,
    quotients_round_down, straight_code_gives_values, trees_are_read,
};
pub use operators::{ArithmeticOperator, NumberOperator, UnaryOperator};
pub use parse::parse_expr;
pub use straight::Numbers;
pub use variable::VariableName;
