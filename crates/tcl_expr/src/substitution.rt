//! The steps of a text with substitution: of what stands in quotes, and of the index of an element. What is still to be written waits
//! on a stack, so that indices in one another are no recursion.
ghost use Rattle.std.specs.Prelude.{[], ◌+◌, ◌<◌, OnOk};
ghost use Rattle.tcl_expr.specs.Substitution.{piece_tree, text_tree, Writes};
ghost use Rattle.tcl_expr.specs.Dues.{written_before, due_steps, dues_steps, piece_steps, text_steps, due_weight, dues_weight, piece_weight, text_weight, GoesOn};

use crate::fault::ExprFault;
use crate::step::Step;
use crate::variable::VariableName;
use std::alloc::Global;
use tcl_text::Text;
use tcl_words::{Excerpt, ParseFault, Piece};

/// Whether steps were written.
pub type Written = Result<(), ExprFault>;

/// What is still to be written, where so many indices may stand in one another.
#[derive(Drop)]
enum Due<'a> {
    /// A piece.
    Piece(&'a Piece, usize),
    /// Pieces, each of them joined to what stands before it.
    Others(&'a [Piece], usize),
    /// The join of two texts.
    Join,
    /// The element of this array, whose index is written.
    Element(&'a Excerpt),
}

/// The steps of a text begin: what it has is due.
fn begin_text<'a>(
    alloc: Global,
    steps: &mut Vec<Step>,
    dues: &mut Vec<Due<'a>>,
    pieces: &'a [Piece],
    room: usize,
) -> Written
    ensures goes { GoesOn steps.old.items (written_before (text_steps room pieces.now) (dues_steps dues.old.items)) result steps.new.items
        (dues_steps dues.new.items) }
    ensures less { OnOk result (dues_weight dues.new.items < text_weight room pieces.now + dues_weight dues.old.items) }
{
    match pieces.split_first() {
        Some((own, others)) => {
            dues.push(Due::Others(others, room))?;
            dues.push(Due::Piece(own, room))?;
        }
        None => steps.push(Step::Plain(Text::empty()))?,
    }
    Ok(())
}

/// The steps of a piece.
fn write_piece<'a>(
    alloc: Global,
    steps: &mut Vec<Step>,
    dues: &mut Vec<Due<'a>>,
    piece: &'a Piece,
    room: usize,
) -> Written
    ensures goes { GoesOn steps.old.items (written_before (piece_steps room piece.now) (dues_steps dues.old.items)) result steps.new.items
        (dues_steps dues.new.items) }
    ensures less { OnOk result (dues_weight dues.new.items < piece_weight room piece.now + dues_weight dues.old.items) }
{
    match piece {
        Piece::Literal(text) => steps.push(Step::Plain(text.copy()?))?,
        Piece::Variable(name) => steps.push(Step::Variable(VariableName::new(name.copy()?)))?,
        Piece::Bracket(script) => steps.push(Step::Command(script.copy()?))?,
        Piece::Element(array, index) => {
            if room == 0 {
                return Err(ExprFault::Script(ParseFault::TooLong));
            }
            dues.push(Due::Element(array))?;
            begin_text(alloc, steps, dues, index.pieces(), room - 1)?;
        }
    }
    Ok(())
}

/// The steps of what is due.
fn write_due<'a>(
    alloc: Global,
    steps: &mut Vec<Step>,
    dues: &mut Vec<Due<'a>>,
    due: Due<'a>,
) -> Written
    ensures goes { GoesOn steps.old.items (written_before (due_steps due.entry) (dues_steps dues.old.items)) result steps.new.items
        (dues_steps dues.new.items) }
    ensures less { OnOk result (dues_weight dues.new.items < due_weight due.entry + dues_weight dues.old.items) }
{
    match due {
        Due::Piece(piece, room) => write_piece(alloc, steps, dues, piece, room)?,
        Due::Others(pieces, room) => {
            if let Some((own, others)) = pieces.split_first() {
                dues.push(Due::Others(others, room))?;
                dues.push(Due::Join)?;
                dues.push(Due::Piece(own, room))?;
            }
        }
        Due::Join => steps.push(Step::Join)?,
        Due::Element(array) => steps.push(Step::Element(array.to_text()?))?,
    }
    Ok(())
}

/// The steps of all that is due.
fn write_dues(alloc: Global, steps: &mut Vec<Step>, mut dues: Vec<Due<'_>>) -> Written
    ensures { GoesOn steps.old.items (dues_steps dues.entry.items) result steps.new.items (dues_steps []) }
{
    while let Some(due) = dues.pop() {
        write_due(alloc, steps, &mut dues, due)?;
    }
    Ok(())
}

/// The steps of a piece, where so many indices may stand in one another.
pub fn push_piece(alloc: Global, steps: &mut Vec<Step>, piece: &Piece, room: usize) -> Written
    ensures { Writes steps.old.items result steps.new.items (piece_tree room piece.now) }
{
    let mut dues = Vec::new(alloc);
    write_piece(alloc, steps, &mut dues, piece, room)?;
    write_dues(alloc, steps, dues)
}

/// The steps of a text of these pieces.
pub fn push_text(alloc: Global, steps: &mut Vec<Step>, pieces: &[Piece], room: usize) -> Written
    ensures { Writes steps.old.items result steps.new.items (text_tree room pieces.now) }
{
    let mut dues = Vec::new(alloc);
    begin_text(alloc, steps, &mut dues, pieces, room)?;
    write_dues(alloc, steps, dues)
}
