//! Tables of questions and their answers, and asking them.
//!
//! A table is a file `NAME.table`. The first character of a line says what it is:
//!
//! - `?` and a blank: behind them stands a question, which is asked. `?*N` and a blank: it is asked N times, with the number of the time, from 1 on,
//!   where it has the sign `№`; the last answer counts.
//! - `#`: the line says something to its reader.
//! - An empty line begins anew, without what the questions above it have left.
//! - Any other line is what the question right above it is answered: mostly `=` and a result, or `!` and an error.
//!
//! A question that no answer stands behind is asked too, for what it leaves to those below it. A control character (U+0000 to U+001F) stands as
//! its picture (U+2400 to U+241F), in questions and in answers: `␊` is a newline.
//!
//! A program of tables implements [`Fixture`], and calls [`ask_tables`] in its `main` with its [`arguments`]. [`result_of`], [`error_of`],
//! [`refused`] and [`shown`] give answers their marks, and [`push_barred`] puts bars between texts.
#![tactic(auto)]

mod answers;
mod asking;
mod pictures;
mod words;

pub use answers::{error_of, push_barred, refused, result_of, shown};
pub use asking::{Fixture, arguments, ask_tables, text_in};
pub use words::{first_word, number, repeated, words_of};
