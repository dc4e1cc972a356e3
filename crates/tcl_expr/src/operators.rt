//! The operators of an expression (expr(n)), by what they ask of their operands.

/// An operator before its operand.
#[derive(Clone, Copy, Debug, PartialEq, Eq, Drop)]
pub enum UnaryOperator {
    /// `-`
    Negate,
    /// `+`: the integer as it is.
    Keep,
    /// `~`: each bit the other way round.
    Complement,
    /// `!`, of a boolean.
    Not,
}

/// An operator whose operands are integers of 64 bits.
#[derive(Clone, Copy, Debug, PartialEq, Eq, Drop)]
pub enum ArithmeticOperator {
    Multiply,
    /// `/`: the quotient is rounded down.
    Divide,
    /// `%`: the remainder has the divisor's sign.
    Remainder,
    Add,
    Subtract,
    /// `<<`, by a number of bits: exact, or refused (13).
    ShiftLeft,
    /// `>>`, by a number of bits: rounded down; a negative number of them is refused (13).
    ShiftRight,
    BitAnd,
    BitXor,
    BitOr,
}

/// An operator that compares integers where both operands are, and else texts.
#[derive(Clone, Copy, Debug, PartialEq, Eq, Drop)]
pub enum Comparison {
    Less,
    LessOrEqual,
    Greater,
    GreaterOrEqual,
    /// `==`
    Same,
    /// `!=`
    Different,
}

/// An operator whose operands are texts.
#[derive(Clone, Copy, Debug, PartialEq, Eq, Drop)]
pub enum TextOperator {
    /// `eq`
    Same,
    /// `ne`
    Different,
    /// `in`: whether the left operand is an item of the list that the right one is.
    In,
    /// `ni`: whether it is none.
    NotIn,
}

/// An operator between two operands, both of which it needs.
#[derive(Clone, Copy, Debug, PartialEq, Eq, Drop)]
pub enum BinaryOperator {
    Arithmetic(ArithmeticOperator),
    Comparison(Comparison),
    Text(TextOperator),
}

/// An operator between two operands.
#[derive(Clone, Copy, Debug, PartialEq, Eq, Drop)]
pub enum Infix {
    /// `&&`, which needs its right operand only where the left one is true.
    And,
    /// `||`, which needs its right operand only where the left one is false.
    Or,
    Binary(BinaryOperator),
}

/// An operator that was given something that is no integer (14).
#[derive(Clone, Copy, Debug, PartialEq, Eq, Drop)]
pub enum NumberOperator {
    Unary(UnaryOperator),
    Arithmetic(ArithmeticOperator),
}
