//! Commands tried in an application of their own, and what it answers.

ghost use Rattle.std.specs.Prelude.{◌≡◌, ◌∷◌, ◌++◌, [], map, option_map, replicate, slice_set, IfOk, OnOk};
ghost use Rattle.std.specs.String.{string_bytes};
ghost use Rattle.tcl_text.specs.Readings.{list_form};
ghost use Rattle.tkhost.specs.Sections.{program_sections};
ghost use Rattle.panels.specs.Verdict.{sections_in};
ghost use Rattle.panels_report.specs.Trials.{answer_in, answers_of, asked, asked_plan, element_of, if_short, line_or_none, listed, rest_of, texts_in, trial, waiting, with_answer, with_commands, with_lines, with_script, with_sections, with_waiting};
ghost use Rattle.panels_text.specs.Texts.{lines_of};

use panels::{Bench, sections_with};
use panels_film::number_in;
use panels_text::{as_text, behind, first_word};
use std::alloc::{AllocError, Global};
use tcl_text::{Text, TextFault};
use tk_base::{Budget, Rect};
use tk_session::{AppBlock, Listing};

/// How many bytes of commands are tried in one application.
const MOST_BYTES: usize = 60_000;

/// The windows that are there: one of each kind.
const WINDOWS: &str = "\
frame .frame; label .label; button .button; entry .entry; listbox .listbox; pack .frame
proc lint-try {number command} {catch $command answer; puts \"lint $number $answer\"; destroy .fresh}
";

/// A text; nothing where it is too long.
fn text_of(alloc: Global, text: &str) -> Result<Option<Text>, AllocError>
    ensures { IfOk result (λ found. found ≡ if_short text.now) }
{
    match Text::new(alloc, text) {
        Ok(text) => Ok(Some(text)),
        Err(TextFault::TooLong) => Ok(None),
        Err(TextFault::NoMemory) => Err(AllocError),
    }
}

/// Words as texts; nothing where one of them is too long.
fn texts_of(alloc: Global, words: &[String]) -> Result<Option<Vec<Text>>, AllocError>
    ensures { IfOk result (λ found. option_map (λ texts. texts.items) found ≡ texts_in (map string_bytes words.now)) }
{
    let mut texts = Vec::new(alloc);
    for word in words {
        let Some(text) = text_of(alloc, word.as_str())? else {
            return Ok(None);
        };
        texts.push(text)?;
    }
    Ok(Some(texts))
}

/// A list of texts; nothing where it is too long.
fn list_of(alloc: Global, texts: &[Text]) -> Result<Option<Text>, AllocError>
    ensures { IfOk result (λ list. list ≡ if_short (list_form texts.now)) }
{
    match Text::join_list(alloc, texts) {
        Ok(list) => Ok(Some(list)),
        Err(TextFault::TooLong) => Ok(None),
        Err(TextFault::NoMemory) => Err(AllocError),
    }
}

/// A text as a word; nothing where that is too long.
fn word_of(alloc: Global, text: &Text) -> Result<Option<Text>, AllocError>
    ensures { IfOk result (λ word. word ≡ if_short (list_form (text.now ∷ []))) }
{
    match text.list_element(alloc) {
        Ok(word) => {
            // (a text is short, and `as_str` says so)
            let _short = word.as_str();
            Ok(Some(word))
        }
        Err(TextFault::TooLong) => Ok(None),
        Err(TextFault::NoMemory) => Err(AllocError),
    }
}

/// A list as a word, where there is one.
fn element_of(alloc: Global, list: Option<Text>) -> Result<Option<Text>, AllocError>
    ensures { IfOk result (λ word. word ≡ element_of list) }
{
    match list {
        Some(list) => word_of(alloc, &list),
        None => Ok(None),
    }
}

/// Words as a list, and that as a word; nothing where a text on the way is too long.
fn listed(alloc: Global, words: &[String]) -> Result<Option<Text>, AllocError>
    ensures { IfOk result (λ word. word ≡ listed (map string_bytes words.now)) }
{
    match texts_of(alloc, words)? {
        Some(texts) => {
            let list = list_of(alloc, texts.as_slice())?;
            element_of(alloc, list)
        }
        None => Ok(None),
    }
}

/// Adds the command that tries a word, where there is one.
fn push_word(
    alloc: Global,
    commands: &mut String,
    number: usize,
    word: Option<Text>,
) -> Result<(), AllocError>
    ensures { OnOk result (string_bytes commands.new ≡ string_bytes commands.old ++ line_or_none number word) }
{
    let Some(word) = word else {
        return Ok(());
    };
    let line = format!(in alloc; "lint-try {number} {}\n", word.as_str())?;
    Ok(commands.push_str(line.as_str())?)
}

/// Adds the command that tries words; none where it is too long.
fn push_trial(
    alloc: Global,
    commands: &mut String,
    number: usize,
    words: &[String],
) -> Result<(), AllocError>
    ensures { OnOk result (string_bytes commands.new ≡ string_bytes commands.old ++ trial number (map string_bytes words.now)) }
{
    let word = listed(alloc, words)?;
    push_word(alloc, commands, number, word)
}

/// What stands behind the first blank of a text.
fn rest_of(text: &str) -> &str
    ensures { result.now ≡ rest_of text.now }
{
    match text.split_once(' ') {
        Some((_, rest)) => rest,
        None => "",
    }
}

/// The number and the answer of a line that answers.
fn answer_in(line: &str) -> Option<(u64, &str)>
    ensures { option_map (λ answer. (answer.0, answer.1.now)) result ≡ answer_in line.now }
{
    let rest = behind(line, "out 0 lint ")?;
    match number_in(first_word(rest)) {
        Some(number) => Some((number, rest_of(rest))),
        None => None,
    }
}

/// Puts a text in the place of this number, where there is such.
pub(crate) fn put(texts: &mut Vec<String>, number: usize, text: String)
    ensures { texts.new.items ≡ slice_set texts.old.items number text }
{
    if number < texts.len() {
        texts[number] = text;
    }
}

/// Takes an answer, where there is one.
fn take_answer(
    alloc: Global,
    answers: &mut Vec<String>,
    answer: Option<(u64, &str)>,
) -> Result<(), AllocError>
    ensures { OnOk result (map string_bytes answers.new.items ≡ with_answer (option_map (λ own. (own.0, own.1.now)) answer.entry) (map string_bytes answers.old.items)) }
{
    let Some((number, text)) = answer else {
        return Ok(());
    };
    let text = String::from_str(alloc, text)?;
    put(answers, number as usize, text);
    Ok(())
}

/// Takes the answers of a section.
fn take(alloc: Global, answers: &mut Vec<String>, section: &str) -> Result<(), AllocError>
    ensures { OnOk result (map string_bytes answers.new.items ≡ with_lines (lines_of section.now) (map string_bytes answers.old.items)) }
{
    for line in section.split('\n') {
        take_answer(alloc, answers, answer_in(line))?;
    }
    Ok(())
}

/// Takes the answers of sections.
fn take_all(
    alloc: Global,
    answers: &mut Vec<String>,
    sections: &[Vec<u8>],
) -> Result<(), AllocError>
    ensures { OnOk result (map string_bytes answers.new.items ≡ with_sections (map (λ section. section.items) sections.now) (map string_bytes answers.old.items)) }
{
    for section in sections {
        take(alloc, answers, as_text(section.as_slice()))?;
    }
    Ok(())
}

/// The application that is asked.
fn asked(alloc: Global, script: Text) -> Result<AppBlock, AllocError>
    ensures { IfOk result (λ panel. panel ≡ asked script) }
{
    Ok(AppBlock {
        name: Text::of_short(alloc, "lint")?,
        rect: Rect {
            x: 0,
            y: 0,
            width: 200,
            height: 200,
        },
        budget: Budget {
            total: 10_000_000,
            refill: 0,
        },
        aliases: Listing::new(alloc),
        script,
    })
}

/// The bench of the application that runs a script.
fn bench(alloc: Global, script: Text) -> Result<Bench, AllocError>
    ensures panels { IfOk result (λ bench. bench.panels.items ≡ asked script ∷ []) }
    ensures end { IfOk result (λ bench. bench.end ≡ 0) }
{
    let mut panels = Vec::new(alloc);
    panels.push(asked(alloc, script)?)?;
    Ok(Bench {
        panels,
        entries: Vec::new(alloc),
        end: 0,
    })
}

/// The sections of the application that runs a script.
fn sections_of(alloc: Global, script: Text) -> Result<Vec<Vec<u8>>, AllocError>
    ensures { IfOk result (λ sections. map (λ section. section.items) sections.items ≡ sections_in (program_sections (asked_plan script))) }
{
    let bench = bench(alloc, script)?;
    match sections_with(alloc, &bench, &[], 64) {
        Ok(sections) => Ok(sections),
        Err(_) => Err(AllocError),
    }
}

/// Takes what a script answers, where there is one.
fn run_script(
    alloc: Global,
    answers: &mut Vec<String>,
    script: Option<Text>,
) -> Result<(), AllocError>
    ensures { OnOk result (map string_bytes answers.new.items ≡ with_script script (map string_bytes answers.old.items)) }
{
    let Some(script) = script else {
        return Ok(());
    };
    let sections = sections_of(alloc, script)?;
    take_all(alloc, answers, sections.as_slice())
}

/// Runs commands, and takes what they answer; nothing where they are too long.
fn run(alloc: Global, answers: &mut Vec<String>, commands: &str) -> Result<(), AllocError>
    ensures { OnOk result (map string_bytes answers.new.items ≡ with_commands commands.now (map string_bytes answers.old.items)) }
{
    let script = format!(in alloc; "{WINDOWS}{commands}")?;
    let script = text_of(alloc, script.as_str())?;
    run_script(alloc, answers, script)
}

/// Runs the commands that wait, where they are many.
fn run_waiting(
    alloc: Global,
    answers: &mut Vec<String>,
    commands: &mut String,
) -> Result<(), AllocError>
    ensures commands { OnOk result (string_bytes commands.new ≡ waiting (string_bytes commands.old)) }
    ensures answers { OnOk result (map string_bytes answers.new.items ≡ with_waiting (string_bytes commands.old) (map string_bytes answers.old.items)) }
{
    if commands.len() <= MOST_BYTES {
        return Ok(());
    }
    run(alloc, answers, commands.as_str())?;
    commands.clear();
    Ok(())
}

/// So many empty texts.
fn no_answers(alloc: Global, count: usize) -> Result<Vec<String>, AllocError>
    ensures { IfOk result (λ answers. map string_bytes answers.items ≡ replicate count []) }
{
    let mut answers = Vec::new(alloc);
    'answers: for _number in 0..count {
        answers.push(String::new(alloc))?;
    }
    Ok(answers)
}

/// What each of these commands answers, its words as they are: its result or the text of its error; an empty text where it answers nothing.
pub(crate) fn answers_of(alloc: Global, asks: &[&[String]]) -> Result<Vec<String>, AllocError>
    ensures { IfOk result (λ answers. map string_bytes answers.items ≡ answers_of (map (λ words. map string_bytes words.now) asks.now)) }
{
    let mut answers = no_answers(alloc, asks.len())?;
    let mut commands = String::new(alloc);
    for (number, words) in asks.iter().enumerate() {
        run_waiting(alloc, &mut answers, &mut commands)?;
        push_trial(alloc, &mut commands, number, *words)?;
    }
    run(alloc, &mut answers, commands.as_str())?;
    Ok(answers)
}
