//! Texts around benches of panels: how their files are read, what is wrong in sessions and scripts, and how verdicts are written.
#![tactic(auto)]

mod brackets;
mod calls;
mod cases;
mod difference;
mod explaining;
mod failure;
mod fault_place;
mod files;
mod formats;
mod indents;
mod keys;
mod lines;
mod meant;
mod nearest;
mod options;
mod place;
mod questions;
mod refusals;
mod roles;
mod rows;
mod runner;
mod shards;
mod table;
mod texts;
mod values;

pub use calls::Unread;
pub use cases::{Case, count_failed, report, title};
pub use difference::differences;
pub use explaining::explained;
pub use failure::{Failure, fault};
pub use files::{expected, file_beside, plain_script, write};
pub use formats::{json, junit, push_escaped, tap};
pub use keys::serving_key;
pub use lines::{line_words, name_at};
pub use meant::{likely, otherwise};
pub use nearest::serving;
pub use options::{Command, Format, Options, options_of};
pub use place::line_at;
pub use questions::{ANY, Question, Questions, copied, questions_of};
pub use refusals::{Refusal, begins, has_part, refusal_in};
pub use rows::{rows_of, unescaped};
pub use runner::{Runner, runner_of};
pub use shards::{Shard, shard_named, shard_of};
pub use table::{Part, in_range};
pub use texts::{as_text, behind, first_line, first_word, lines_of, without};
