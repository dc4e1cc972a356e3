//! Laws of the definitions, as contracts of functions that do nothing.
ghost use Rattle.std.specs.Prelude.{◌≡◌, ◌≢◌, ◌↔◌, ℕ, ℤ, pos, List, ◌∷◌, ◌++◌, length, Ok, Err};
ghost use Rattle.tcl_text.specs.Bytes.{close_brace};
ghost use Rattle.tcl_words.specs.Grammar.{IsBraced, IsUnclosed};
ghost use Rattle.tcl_expr.specs.Arithmetic.{floor_quotient, floor_remainder, IsFloorDivision};
ghost use Rattle.tcl_expr.specs.Braces.{braced};
ghost use Rattle.tcl_expr.specs.Faults.{missing_brace};
ghost use Rattle.tcl_expr.specs.Grammar.{IsTreeOf, IsExprFault, OneTreeOrFault};
ghost use Rattle.tcl_expr.specs.Machine.{WeighsLess};
ghost use Rattle.tcl_expr.specs.Reading.{tree_of};
ghost use Rattle.tcl_expr.specs.Straight.{StraightGives};
ghost use Rattle.tcl_expr.specs.Trees.{Tree};
ghost use Rattle.tcl_expr.specs.declared.braces.BracePlace.TheVariants.{Plain};
ghost use Rattle.tcl_expr.specs.declared.fault.ExprFault.{ExprFault as Fault};

use tcl_words::braces_are_cut;

/// The quotient that is rounded down and the remainder with the divisor's sign are those of a division.
#[tactic(auto, using(crate::proofs::FloorLemmas::floor_division))]
pub fn quotients_round_down()
    ensures { (a b : ℤ) → b ≢ pos 0 → IsFloorDivision a b (floor_quotient a b) (floor_remainder a b) }
{}

/// An evaluation that is resumed uses its steps up: however an interpreter weighs them, as by what a script in brackets may cost it,
/// what is asked and what is left weigh no more than what was left before.
#[tactic(auto, using(crate::proofs::StepLemmas::weighs_less))]
pub fn questions_use_steps_up()
    ensures { WeighsLess }
{}

/// Where straight code says an integer, the value of the evaluation is that, in decimal.
pub fn straight_code_gives_values()
    ensures { StraightGives }
{}

/// `tree_of` gives a tree exactly where the grammar relates it to the text.
pub fn trees_are_read()
    ensures { (text : List ℕ) (tree : Tree) → IsTreeOf text tree ↔ (tree_of text ≡ Ok tree) }
{}

/// `tree_of` gives a fault exactly where the grammar relates it to the text.
pub fn faults_are_told()
    ensures { (text : List ℕ) (fault : Fault) → IsExprFault text fault ↔ (tree_of text ≡ Err fault) }
{}

/// A text is an expression with one tree, or has one fault.
#[tactic(auto, using(crate::proofs::GrammarLaws::one_tree_or_fault))]
pub fn one_tree_or_fault()
    ensures { OneTreeOrFault }
{}

/// Braces in an expression give what they give in a script, and are at fault exactly where those have no match.
pub fn braces_are_those_of_scripts()
    ensures braced { (own value rest : List ℕ) → IsBraced own value → braced Plain 0 (own ++ close_brace ∷ rest) ≡ Ok (value, length own) }
    ensures unclosed { (text : List ℕ) → IsUnclosed text → braced Plain 0 text ≡ Err missing_brace }
    ensures only_braced { (text value : List ℕ) (n : ℕ) → braced Plain 0 text ≡ Ok (value, n) → (own : List ℕ) × (rest : List ℕ)
        × (text ≡ own ++ close_brace ∷ rest) × IsBraced own value × (n ≡ length own) }
    ensures only_unclosed { (text : List ℕ) (fault : Fault) → braced Plain 0 text ≡ Err fault → IsUnclosed text × (fault ≡ missing_brace) }
{
    braces_are_cut();
}
