//! Tcl scripts, read whole into commands, words and pieces.
#![tactic(auto)]

mod kind;
mod laws;
mod look;
mod nesting;
mod open;
mod operands;
mod parser;
mod read;
mod reader;
mod script;
mod source;
mod span;
mod taking;

pub use laws::{
    braces_are_cut, commands_are_read, faults_are_told, indices_are_read, lines_are_a_script,
    one_script_or_fault, operands_are_read, spans_are_slices,
};
pub use operands::{Found, bracket_behind, quotes_behind, substitution_behind};
pub use parser::parse;
pub use reader::MAX_DEPTH;
pub use script::{Command, Index, Piece, Pieces, Script, Word, WordForm};
pub use source::{Excerpt, SourceText};
pub use span::Span;
pub use tcl_text::ParseFault;
