//! The commands on texts and lists alone: list(n), llength(n), lindex(n), lrange(n), linsert(n),
//! lreplace(n), lsearch(n), lsort(n), join(n), split(n), concat(n) and string(n).
ghost use Rattle.std.specs.Prelude.{◌≡◌, IfOk};
ghost use Rattle.tcl_text.specs.Answers.{Gives};
ghost use Rattle.tcl_text.specs.Commands as spec;

pub mod answers;
mod indices;
pub mod integers;
pub mod items;
pub mod laws;
mod lists;
mod sorting;
mod splits;
mod strings;

use crate::text::Text;
use answers::{Reply, answered};
use lists::{
    join_words, lindex_words, linsert_words, list_words, llength_words, lrange_words,
    lreplace_words, lsearch_words,
};
use sorting::lsort_words;
use splits::split_words;
use std::alloc::{AllocError, Global};
use strings::{concat_words, string_words};

/// A command on texts and lists, which the manual page of its name describes, as list(n).
#[derive(Clone, Copy)]
pub enum TextCommand {
    List,
    Llength,
    Lindex,
    Lrange,
    Linsert,
    Lreplace,
    Lsearch,
    Lsort,
    Join,
    Split,
    Concat,
    String,
}

impl Text {
    /// What a command on texts and lists (list(n) to string(n)) answers to its words, of which the
    /// first is its name: its result, or the text of its error. None where the first word names no
    /// such command, or there is no word. A word may be no integer (1) or no list (3); a result or
    /// an error's text past 65,536 bytes is the error `limit reached: value` (4).
    pub fn text_command(
        alloc: Global,
        words: &[Text],
    ) -> Result<Option<Result<Text, Text>>, AllocError>
        ensures { IfOk result (λ answer. answer ≡ spec.text_command_of words.now) }
    {
        let Some((name, arguments)) = words.split_first() else {
            return Ok(None);
        };
        let Some(command) = TextCommand::named(name.as_str()) else {
            return Ok(None);
        };
        let answer = command.answer(alloc, arguments)?;
        Ok(Some(answer))
    }
}

impl TextCommand {
    /// The command of this name.
    #[tactic(auto, unfolding(crate::specs::Commands::text_command_named))]
    pub fn named(name: &str) -> Option<TextCommand>
        ensures { result ≡ spec.text_command_named name.now }
    {
        match name {
            "list" => Some(TextCommand::List),
            "llength" => Some(TextCommand::Llength),
            "lindex" => Some(TextCommand::Lindex),
            "lrange" => Some(TextCommand::Lrange),
            "linsert" => Some(TextCommand::Linsert),
            "lreplace" => Some(TextCommand::Lreplace),
            "lsearch" => Some(TextCommand::Lsearch),
            "lsort" => Some(TextCommand::Lsort),
            "join" => Some(TextCommand::Join),
            "split" => Some(TextCommand::Split),
            "concat" => Some(TextCommand::Concat),
            "string" => Some(TextCommand::String),
            _ => None,
        }
    }

    /// What the command answers to the words behind its name: its result, or the text of its error. A word may be no integer (1)
    /// or no list (3). A result or an error's text past 65,536 bytes is the error `limit reached: value` (4). A wrong number of words,
    /// a bad option and a bad index are errors without a number.
    pub fn answer(self, alloc: Global, words: &[Text]) -> Result<Result<Text, Text>, AllocError>
        ensures { IfOk result (λ answer. answer ≡ spec.command_answer self words.now) }
    {
        answered(answer_of(alloc, self, words))
    }
}

/// What a command answers to the words after its name.
fn answer_of(alloc: Global, command: TextCommand, words: &[Text]) -> Reply
    ensures { Gives result (spec.command_answer command words.now) }
{
    match command {
        TextCommand::List => list_words(alloc, words),
        TextCommand::Llength => llength_words(alloc, words),
        TextCommand::Lindex => lindex_words(alloc, words),
        TextCommand::Lrange => lrange_words(alloc, words),
        TextCommand::Linsert => linsert_words(alloc, words),
        TextCommand::Lreplace => lreplace_words(alloc, words),
        TextCommand::Lsearch => lsearch_words(alloc, words),
        TextCommand::Lsort => lsort_words(alloc, words),
        TextCommand::Join => join_words(alloc, words),
        TextCommand::Split => split_words(alloc, words),
        TextCommand::Concat => concat_words(alloc, words),
        TextCommand::String => string_words(alloc, words),
    }
}
