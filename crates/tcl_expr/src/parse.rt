ghost use Rattle.std.specs.Prelude.{◌≡◌, ◌⊎◌, Err, IfOk, IfErr, IsOk};
ghost use Rattle.tcl_expr.specs.Faults.{no_memory};
ghost use Rattle.tcl_expr.specs.Grammar.{IsExpression, IsTreeOf, IsExprFault};
ghost use Rattle.tcl_expr.specs.Reading.{tree_of};
ghost use Rattle.tcl_expr.specs.Standing.{IsFaultOrMemory};
ghost use Rattle.tcl_expr.specs.Trees.{Tree};

use crate::expr::Expr;
use crate::fault::ExprFault;
use crate::reader::read_all;
use std::alloc::Global;
use tcl_text::MAX_BYTES;
use tcl_words::{ParseFault, SourceText};

/// Reads the steps of an expression.
fn read_expr(alloc: Global, source: &[u8]) -> Result<Expr, ExprFault>
    ensures text { IfOk result (λ expr. expr ≡ source.now) }
    ensures tree { IfOk result (λ _. IsOk (tree_of source.now)) }
    ensures fault { IfErr result (λ fault. IsFaultOrMemory (tree_of source.now) fault) }
{
    if source.len() > MAX_BYTES {
        return Err(ExprFault::Script(ParseFault::TooLong));
    }
    let Ok(characters) = str::from_utf8(source) else {
        return Err(ExprFault::Script(ParseFault::TooLong));
    };
    let whole = SourceText::new(alloc, characters)?;
    let steps = read_all(&whole, characters)?;
    let text = whole.to_text()?;
    Ok(Expr::new(alloc, text, steps)?)
}

/// Reads an expression whole, by the rules of expr(n). `TooLong` (4) for more than 65,536 bytes, or bytes that aren't UTF-8, comes before
/// all else. Then the first fault from the left is told (4 to 11): 4 where more than 200 parentheses, brackets and indices stand in one
/// another. What the clauses named after the walk say, by the function that reads byte by byte, the others say by the grammar: proofs cite
/// them.
pub fn parse_expr(alloc: Global, source: &[u8]) -> Result<Expr, ExprFault>
    ensures text { IfOk result (λ expr. expr ≡ source.now) }
    ensures expression { IfOk result (λ _. IsExpression source.now) }
    ensures fault { IfErr result (λ fault. IsExprFault source.now fault ⊎ (fault ≡ no_memory)) }
    ensures read { (tree : Tree) → IsTreeOf source.now tree → IfErr result (λ fault. fault ≡ no_memory) }
    ensures told { (fault : ExprFault) → IsExprFault source.now fault → (result ≡ Err fault) ⊎ (result ≡ Err no_memory) }
    ensures walk { IfOk result (λ _. IsOk (tree_of source.now)) }
    ensures walk_fault { IfErr result (λ fault. IsFaultOrMemory (tree_of source.now) fault) }
{
    read_expr(alloc, source)
}
