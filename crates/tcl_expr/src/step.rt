use crate::operators::{BinaryOperator, UnaryOperator};
use crate::variable::VariableName;
use tcl_text::Text;
use tcl_words::Script;

/// A step of an evaluation, which takes its operands from a stack and leaves its result there. The steps of a tree are those
/// of its parts, and then its own.
#[derive(Drop)]
pub enum Step {
    /// An integer that 64 bits don't hold.
    TooLarge,
    /// A text that is written in the expression.
    Plain(Text),
    /// The value of a variable is asked.
    Variable(VariableName),
    /// The value of an element is asked, whose index is on the stack.
    Element(Text),
    /// The result of a script is asked.
    Command(Script),
    /// Two texts become one.
    Join,
    Unary(UnaryOperator),
    Binary(BinaryOperator),
    /// Where the value is false, so many steps are left out, and false takes its place.
    And(usize),
    /// Where the value is true, so many steps are left out, and true takes its place.
    Or(usize),
    /// The value as a boolean.
    Truth,
    /// Where the value is false, so many steps are left out.
    Branch(usize),
    /// So many steps are left out.
    Jump(usize),
}
