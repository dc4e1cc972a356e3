ghost use Rattle.std.specs.Prelude.{◌≡◌, ◌⊎◌};
ghost use Rattle.tcl_expr.specs.Faults as faults;
ghost use Rattle.tcl_expr.specs.declared.fault.ExprFault.TheVariants as expr_fault;
ghost use Rattle.tcl_expr.specs.declared.fault.EvalFault.TheVariants as eval_fault;

use crate::operators::NumberOperator;
use std::alloc::{AllocError, AllocFailed};
use std::fmt::{self, Debug, Formatter, Write};
use tcl_text::{ListFault, SplitFault, Text, TextFault};
use tcl_words::ParseFault;
use thiserror::Error;

/// Why a text is no expression (expr(n)).
#[derive(Clone, Copy, Debug, PartialEq, Eq, Drop, Error)]
pub enum ExprFault {
    /// A fault that a script can have too (4 to 10): 4 also for more than 200 parentheses, brackets and indices in one another, 5 also for
    /// an operand in braces, 7 for one in quotes and 10 for a parenthesis that never ends; or memory was refused.
    #[error("{0}")]
    Script(ParseFault),
    /// Something stands where no operand or operator can (11).
    #[error("syntax error in expression")]
    Syntax,
}

/// Why an expression has no value (expr(n)).
#[derive(Drop, Error)]
pub enum EvalFault {
    /// This text is no boolean, as an operand of `!`, `&&` or `||` or the condition of `?:` has to be (2).
    #[error("not a boolean")]
    NotBoolean(Text),
    /// The right operand of `in` or `ni` is no list (3).
    #[error("not a list")]
    BadList(ListFault),
    /// A text that is put together would pass 65,536 bytes (4).
    #[error("limit reached: value")]
    TooLong,
    /// The divisor of `/` or `%` is 0 (12).
    #[error("divide by zero")]
    DivideByZero,
    /// An integer that is written or computed passes signed 64 bits, or a shift has a negative count (13).
    #[error("integer overflow")]
    Overflow,
    /// An operand of this operator is no integer (14).
    #[error("not an integer")]
    NotNumber(NumberOperator),
    /// Memory was refused.
    #[error("out of memory")]
    NoMemory,
}

impl Debug for EvalFault {
    fn fmt<W: Write>(&self, formatter: &mut Formatter<W>) -> Result<(), fmt::Error> {
        formatter.write_str("EvalFault")
    }
}

impl ExprFault {
    /// Its number; none where memory was refused.
    pub fn number(&self) -> Option<u32>
        ensures { result ≡ faults.expr_number self.now }
    {
        match self {
            ExprFault::Script(fault) => fault.number(),
            ExprFault::Syntax => Some(11),
        }
    }
}

impl From<AllocError> for ExprFault {
    ghost from_gives = { λ _ e. e ≡ faults.no_memory };

    fn from(_refused: AllocError) -> ExprFault {
        ExprFault::Script(ParseFault::NoMemory)
    }
}

impl<T: Drop> From<AllocFailed<T>> for ExprFault {
    ghost from_gives = { λ _ e. e ≡ faults.no_memory };

    fn from(_refused: AllocFailed<T>) -> ExprFault {
        ExprFault::Script(ParseFault::NoMemory)
    }
}

impl From<ParseFault> for ExprFault {
    ghost from_gives = { λ fault e. e ≡ expr_fault.Script fault };

    fn from(fault: ParseFault) -> ExprFault {
        ExprFault::Script(fault)
    }
}

impl From<AllocError> for EvalFault {
    ghost from_gives = { λ _ e. e ≡ eval_fault.NoMemory };

    fn from(_refused: AllocError) -> EvalFault {
        EvalFault::NoMemory
    }
}

impl From<SplitFault> for EvalFault {
    ghost from_gives = { λ fault e. e ≡ faults.split_fault fault };

    fn from(fault: SplitFault) -> EvalFault {
        match fault {
            SplitFault::BadList(fault) => EvalFault::BadList(fault),
            SplitFault::NoMemory => EvalFault::NoMemory,
        }
    }
}

impl From<TextFault> for EvalFault {
    ghost from_gives = { λ fault e. e ≡ faults.text_fault fault };

    fn from(fault: TextFault) -> EvalFault {
        match fault {
            TextFault::TooLong => EvalFault::TooLong,
            TextFault::NoMemory => EvalFault::NoMemory,
        }
    }
}

impl EvalFault {
    /// Its number; none where memory was refused.
    pub fn number(&self) -> Option<u32>
        ensures { result ≡ faults.eval_number self.now }
    {
        match self {
            EvalFault::NotBoolean(_) => Some(2),
            EvalFault::BadList(_) => Some(3),
            EvalFault::TooLong => Some(4),
            EvalFault::DivideByZero => Some(12),
            EvalFault::Overflow => Some(13),
            EvalFault::NotNumber(_) => Some(14),
            EvalFault::NoMemory => None,
        }
    }

    /// The same fault, or `NoMemory` where its text can't be shared.
    pub(crate) fn copied(&self) -> EvalFault
        ensures { (result ≡ self.now) ⊎ (result ≡ eval_fault.NoMemory) }
    {
        match self {
            EvalFault::NotBoolean(text) => match text.copy() {
                Ok(text) => EvalFault::NotBoolean(text),
                Err(_refused) => EvalFault::NoMemory,
            },
            EvalFault::BadList(fault) => EvalFault::BadList(*fault),
            EvalFault::TooLong => EvalFault::TooLong,
            EvalFault::DivideByZero => EvalFault::DivideByZero,
            EvalFault::Overflow => EvalFault::Overflow,
            EvalFault::NotNumber(operator) => EvalFault::NotNumber(*operator),
            EvalFault::NoMemory => EvalFault::NoMemory,
        }
    }
}
