//! Laws of the grammar, as contracts of functions that do nothing.

ghost use Rattle.std.specs.Prelude.{◌≡◌, ◌↔◌, ◌⊎◌, ℕ, Bool, List, [], ◌∷◌, ◌++◌, Option, Result, Ok, Err};
ghost use Rattle.tcl_text.specs.Bytes.{close_brace, dollar_sign};
ghost use Rattle.tcl_words.specs.Reading.{commands_of, index_pieces_of};
ghost use Rattle.tcl_words.specs.Grammar.{IsScriptOf, IsScriptFault, IsIndexOf, IsIndexFault, CommandsAreSlices, IsBraced, IsUnclosed, TextEnding, fails, ArePieces, IsInnerOf};
ghost use Rattle.tcl_words.specs.Operands.{bracket_of, substitution_of, quoted_of};
ghost use Rattle.tcl_words.specs.OperandGrammar.{IsBehindBracket, IsSubstitution, IsFaultySubstitution, IsBehindDollar, IsBehindQuote};
ghost use Rattle.tcl_words.specs.Joining.{lines_of, CommandsAlike};
ghost use Rattle.tcl_words.specs.declared.kind.Mode.{Mode};
ghost use Rattle.tcl_words.specs.declared.script.Piece.{Piece};
ghost use Rattle.tcl_words.specs.declared.script.Command.{Command};
ghost use Rattle.tcl_text.specs.declared.fault.ParseFault.{ParseFault};

/// The function that reads a text's commands is the grammar, both ways.
pub fn commands_are_read()
    ensures script { (text : List ℕ) (commands : List Command) → IsScriptOf text commands → commands_of text ≡ Ok commands }
    ensures only { (text : List ℕ) (commands : List Command) → commands_of text ≡ Ok commands → IsScriptOf text commands }
{}

/// The faults of the function that reads a text's commands are those of the grammar, both ways.
pub fn faults_are_told()
    ensures fault { (text : List ℕ) (fault : ParseFault) → IsScriptFault text fault → commands_of text ≡ Err fault }
    ensures only { (text : List ℕ) (fault : ParseFault) → commands_of text ≡ Err fault → IsScriptFault text fault }
{}

/// The function that reads an index by itself is the grammar too, both ways.
pub fn indices_are_read()
    ensures index { (text : List ℕ) (pieces : List Piece) → IsIndexOf text pieces → index_pieces_of text ≡ Ok pieces }
    ensures only_index { (text : List ℕ) (pieces : List Piece) → index_pieces_of text ≡ Ok pieces → IsIndexOf text pieces }
    ensures fault { (text : List ℕ) (fault : ParseFault) → IsIndexFault text fault → index_pieces_of text ≡ Err fault }
    ensures only_fault { (text : List ℕ) (fault : ParseFault) → index_pieces_of text ≡ Err fault → IsIndexFault text fault }
{}

/// At most one script belongs to a text, or one fault, and never both.
pub fn one_script_or_fault()
    ensures one_script { (text : List ℕ) (commands others : List Command) → IsScriptOf text commands → IsScriptOf text others → commands ≡ others }
    ensures one_fault { (text : List ℕ) (fault other : ParseFault) → IsScriptFault text fault → IsScriptFault text other → fault ≡ other }
    ensures not_both { (text : List ℕ) (commands : List Command) (fault : ParseFault) → IsScriptOf text commands → ¬ IsScriptFault text fault }
{}

/// Each command and each word of a script stands in the text where its span says.
pub fn spans_are_slices()
    ensures { (text : List ℕ) (commands : List Command) → IsScriptOf text commands → CommandsAreSlices text commands }
{}

/// The sources of a script's commands, joined by newlines, are a script of the same commands.
pub fn lines_are_a_script()
    ensures { (text : List ℕ) (commands : List Command) → IsScriptOf text commands → (others : List Command) × IsScriptOf (lines_of text commands) others
        × CommandsAlike commands others }
{}

/// The text behind an opening brace is cut at the brace that closes it, or has none.
pub fn braces_are_cut()
    ensures { (text : List ℕ) → ((own : List ℕ) × (value : List ℕ) × (rest : List ℕ) × (text ≡ own ++ close_brace ∷ rest) × IsBraced own value)
        ⊎ IsUnclosed text }
{}

/// What is read behind a bracket, a `$` or a quote in an expression is exactly what the grammar of scripts relates, and what a `$` begins there
/// it begins in the pieces of a body too.
pub fn operands_are_read()
    ensures bracket { (room : ℕ) (text : List ℕ) (result : Result (Piece × ℕ) ParseFault) → IsBehindBracket room text result ↔ (bracket_of room text ≡ result) }
    ensures substitution { (room : ℕ) (text : List ℕ) (result : Result (Option (Piece × ℕ)) ParseFault) → IsBehindDollar room text result
        ↔ (substitution_of room text ≡ result) }
    ensures quotes { (room : ℕ) (text : List ℕ) (result : Result (List Piece × ℕ) ParseFault) → IsBehindQuote room text result
        ↔ (quoted_of room text ≡ result) }
    ensures begun { (room : ℕ) (inside : Bool) (mode : Mode) (text rest : List ℕ) (piece : Piece) (pieces : List Piece) (ending : TextEnding) →
        IsSubstitution room text piece rest
        → ArePieces (IsInnerOf room) inside mode rest pieces ending → ArePieces (IsInnerOf room) inside mode (dollar_sign ∷ text) (piece ∷ pieces) ending }
    ensures faulty { (room : ℕ) (inside : Bool) (mode : Mode) (text : List ℕ) (fault : ParseFault) → IsFaultySubstitution room text fault →
        ArePieces (IsInnerOf room) inside mode (dollar_sign ∷ text) [] (fails fault) }
{}
