//! What isn't as it has to be, in words.

ghost use Rattle.std.specs.Prelude.{◌≡◌, ◌≤◌, ◌++◌, ◌∷◌, [], codes, flat_map, length, map, option_map, IfOk, OnOk};
ghost use Rattle.std.specs.Fmt.{decimal};
ghost use Rattle.std.specs.Option.{option_to_list};
ghost use Rattle.std.specs.String.{string_bytes};
ghost use Rattle.panels_bench.specs.Messages.{answer_words, answered, fact_words, got_words, is_there, lacking, missed_words, no_keyboard, or_none, path_above, path_in, paths_among, paths_behind, rect_words, question_words, row_words, rows_among, rows_with, told, unseen_words, wanted_words, window_of, window_rows, with_windows, words_of, words_of_gesture, words_of_sight};
ghost use Rattle.panels_bench.specs.Slots.{line_count, slot_at, slot_of_act, slot_of_finding};
ghost use Rattle.panels_text.specs.Places.{count_breaks};
ghost use Rattle.panels_text.specs.Texts.{behind_each};

use panels::{Act, Answer, Bench, Entry, Fact, Finding, Found, Gesture, Look, Miss, Question};
use panels_text::{as_text, begins, behind, first_word, lines_of};
use std::alloc::{AllocError, Global};
use tk_base::Rect;
use tk_session::AppBlock;

/// Adds a line of a section in a row of its own, where it begins with one of two words.
fn push_row(text: &mut String, line: &str, first: &str, second: &str) -> Result<(), AllocError>
    ensures { OnOk result (string_bytes text.new ≡ string_bytes text.old ++ rows_among first.now second.now (line.now ∷ [])) }
{
    if begins(line, first) || begins(line, second) {
        text.push_str("\n      ")?;
        text.push_str(line)?;
    }
    Ok(())
}

/// Adds those lines that begin with one of two words.
fn push_rows(text: &mut String, lines: &[&str], first: &str, second: &str) -> Result<(), AllocError>
    ensures { OnOk result (string_bytes text.new ≡ string_bytes text.old ++ rows_among first.now second.now (map (λ line. line.now) lines.now)) }
{
    for line in lines {
        push_row(text, *line, first, second)?;
    }
    Ok(())
}

/// The lines of a section that begin with one of two words.
fn rows_with(alloc: Global, section: &[u8], first: &str, second: &str) -> Result<String, AllocError>
    ensures { IfOk result (λ rows. string_bytes rows ≡ rows_with first.now second.now section.now) }
{
    let lines = lines_of(alloc, as_text(section))?;
    let mut rows = String::new(alloc);
    push_rows(&mut rows, lines.as_slice(), first, second)?;
    Ok(rows)
}

/// Whether a line begins so.
fn is_there(lines: &[&str], front: &str) -> bool
    ensures { result ≡ is_there front.now (map (λ line. line.now) lines.now) }
{
    for line in lines {
        if begins(*line, front) {
            return true;
        }
    }
    false
}

/// The line of a window, or those of all where it isn't there.
fn window_rows(alloc: Global, path: &str, section: &[u8]) -> Result<String, AllocError>
    ensures { IfOk result (λ rows. string_bytes rows ≡ window_rows path.now section.now) }
{
    let front = format!(in alloc; "win {path} ")?;
    let lines = lines_of(alloc, as_text(section))?;
    if is_there(lines.as_slice(), front.as_str()) {
        return rows_with(alloc, section, front.as_str(), front.as_str());
    }
    rows_with(alloc, section, "win ", "win ")
}

/// Adds the path of a window, by its line.
fn push_path<'a>(paths: &mut Vec<&'a str>, line: &'a str) -> Result<(), AllocError>
    ensures { OnOk result (map (λ path. path.now) paths.new.items ≡ map (λ path. path.now) paths.old.items ++ option_to_list (path_in line.now)) }
{
    match behind(line, "win ") {
        Some(rest) => Ok(paths.push(first_word(rest))?),
        None => Ok(()),
    }
}

/// The paths of the windows that lines tell of.
fn paths_among<'a>(alloc: Global, lines: &[&'a str]) -> Result<Vec<&'a str>, AllocError>
    ensures { IfOk result (λ paths. map (λ path. path.now) paths.items ≡ paths_among (map (λ line. line.now) lines.now)) }
{
    let mut paths = Vec::new(alloc);
    for line in lines {
        push_path(&mut paths, *line)?;
    }
    Ok(paths)
}

/// The paths behind one of them.
fn paths_behind<'a, 'b>(paths: &'a [&'b str], path: &str) -> &'a [&'b str]
    ensures { map (λ path. path.now) result.now ≡ paths_behind path.now (map (λ path. path.now) paths.now) }
{
    let mut rest = paths;
    while let [own, others @ ..] = rest {
        if *own == path {
            return others;
        }
        rest = others;
    }
    rest
}

/// The path of the window of this number among those behind another in a section.
fn path_above(alloc: Global, section: &[u8], path: &str, place: usize) -> Result<String, AllocError>
    ensures { IfOk result (λ above. string_bytes above ≡ path_above section.now path.now place) }
{
    let lines = lines_of(alloc, as_text(section))?;
    let paths = paths_among(alloc, lines.as_slice())?;
    match paths_behind(paths.as_slice(), path).get(place) {
        Some(above) => String::from_str(alloc, *above),
        None => String::from_str(alloc, "another window"),
    }
}

/// Words, and the windows of a section.
fn with_windows(alloc: Global, words: &str, section: &[u8]) -> Result<String, AllocError>
    ensures { IfOk result (λ text. string_bytes text ≡ with_windows words.now section.now) }
{
    let rows = rows_with(alloc, section, "win ", "win ")?;
    format!(in alloc; "{words}. The windows:{rows}")
}

/// That a window is covered.
fn covered(alloc: Global, path: &str, place: usize, section: &[u8]) -> Result<String, AllocError>
    ensures { IfOk result (λ text. string_bytes text ≡ codes "window " ++ (path.now ++ (codes " isn't hit: there " ++ (path_above section.now path.now place ++ codes " lies above it")))) }
{
    let above = path_above(alloc, section, path, place)?;
    format!(in alloc; "window {path} isn't hit: there {above} lies above it")
}

fn no_keyboard(alloc: Global) -> Result<String, AllocError>
    ensures { IfOk result (λ text. string_bytes text ≡ no_keyboard) }
{
    String::from_str(
        alloc,
        "no panel has the keyboard: click a window of it before, or do focus = \"NAME\"",
    )
}

/// Why a gesture at a window hits nothing.
fn missed(alloc: Global, path: &str, miss: Miss, section: &[u8]) -> Result<String, AllocError>
    ensures { IfOk result (λ text. string_bytes text ≡ missed_words path.now miss section.now) }
{
    let words = match miss {
        Miss::NoWindow => format!(in alloc; "there is no window {path}")?,
        Miss::Hidden => format!(in alloc; "window {path} isn't hit: it isn't shown there")?,
        Miss::Covered(place) => covered(alloc, path, place, section)?,
        Miss::NoKeyboard => return no_keyboard(alloc),
    };
    with_windows(alloc, words.as_str(), section)
}

/// A place of a window in its parent.
fn rect_words(alloc: Global, place: &Rect) -> Result<String, AllocError>
    ensures { IfOk result (λ text. string_bytes text ≡ rect_words place.now) }
{
    let (x, y) = (place.x, place.y);
    let (width, height) = (place.width, place.height);
    format!(in alloc; "place [{x}, {y}, {width}, {height}]")
}

/// What a window was to show.
fn fact_words(alloc: Global, fact: &Fact) -> Result<String, AllocError>
    ensures { IfOk result (λ text. string_bytes text ≡ fact_words fact.now) }
{
    match fact {
        Fact::There(true) => String::from_str(alloc, "to be there"),
        Fact::There(false) => String::from_str(alloc, "not to be there"),
        Fact::Text(text) => format!(in alloc; "text \"{}\"", text.as_str()),
        Fact::Class(class) => format!(in alloc; "class {}", class.as_str()),
        Fact::Place(place) => rect_words(alloc, place),
        Fact::Mapped(true) => String::from_str(alloc, "to be mapped"),
        Fact::Mapped(false) => String::from_str(alloc, "not to be mapped"),
    }
}

/// What was asked, in words.
fn question_words(alloc: Global, question: &Question) -> Result<String, AllocError>
    ensures { IfOk result (λ text. string_bytes text ≡ question_words question.now) }
{
    match question {
        Question::Option { window, name } => {
            format!(in alloc; "option {} of window {}", name.as_str(), window.as_str())
        }
        Question::Value(window) => format!(in alloc; "the value of window {}", window.as_str()),
        Question::Selection(window) => {
            format!(in alloc; "the selected rows of window {}", window.as_str())
        }
        Question::Active(window) => {
            format!(in alloc; "the active row of window {}", window.as_str())
        }
        Question::Cursor(window) => format!(in alloc; "the cursor of window {}", window.as_str()),
        Question::Focus => String::from_str(alloc, "the focus window"),
        Question::Title => String::from_str(alloc, "the title"),
        Question::Variable(name) => format!(in alloc; "variable {}", name.as_str()),
    }
}

/// Adds rows of a listbox, each behind a comma.
fn push_numbers(alloc: Global, words: &mut String, rows: &[usize]) -> Result<(), AllocError>
    ensures { OnOk result (string_bytes words.new ≡ string_bytes words.old ++ behind_each (codes ", ") (map decimal rows.now)) }
{
    for row in rows {
        let number = *row;
        words.push_str(", ")?;
        words.push_str(format!(in alloc; "{number}")?.as_str())?;
    }
    Ok(())
}

/// Rows of a listbox.
fn row_words(alloc: Global, rows: &[usize]) -> Result<String, AllocError>
    ensures { IfOk result (λ text. string_bytes text ≡ row_words rows.now) }
{
    let [first, others @ ..] = rows else {
        return String::from_str(alloc, "[]");
    };
    let number = *first;
    let mut words = format!(in alloc; "[{number}")?;
    push_numbers(alloc, &mut words, others)?;
    words.push_str("]")?;
    Ok(words)
}

/// An answer in words.
fn answer_words(alloc: Global, answer: &Answer) -> Result<String, AllocError>
    ensures { IfOk result (λ text. string_bytes text ≡ answer_words answer.now) }
{
    match answer {
        Answer::Nothing => String::from_str(alloc, "none, there is no such thing"),
        Answer::Text(text) => format!(in alloc; "\"{}\"", text.as_str()),
        Answer::Number(number) => format!(in alloc; "{number}"),
        Answer::Rows(rows) => row_words(alloc, rows.as_slice()),
    }
}

/// The window of which something is asked, if it is of one.
fn window_of(question: &Question) -> Option<&str>
    ensures { option_map (λ path. path.now) result ≡ window_of question.now }
{
    match question {
        Question::Option { window, name: _ } => Some(window.as_str()),
        Question::Value(window)
        | Question::Selection(window)
        | Question::Active(window)
        | Question::Cursor(window) => Some(window.as_str()),
        Question::Focus | Question::Title | Question::Variable(_) => None,
    }
}

/// What is told of a window that has no such thing: its line, or where it isn't there those of all.
fn lacking(
    alloc: Global,
    answer: &Answer,
    path: Option<&str>,
    section: &[u8],
) -> Result<String, AllocError>
    ensures { IfOk result (λ text. string_bytes text ≡ lacking answer.now (option_map (λ path. path.now) path.entry) section.now) }
{
    match (answer, path) {
        (Answer::Nothing, Some(path)) => {
            let rows = window_rows(alloc, path, section)?;
            format!(in alloc; ". The windows:{rows}")
        }
        _ => Ok(String::new(alloc)),
    }
}

/// What was to be answered, and what was.
fn answered(
    alloc: Global,
    question: &Question,
    wanted: &Answer,
    finding: &Finding,
) -> Result<String, AllocError>
    ensures { IfOk result (λ text. string_bytes text ≡ answered question.now wanted.now finding.now) }
{
    let wanted = answer_words(alloc, wanted)?;
    let got = answer_words(alloc, &finding.answer)?;
    let section = finding.section.as_slice();
    let windows = lacking(alloc, &finding.answer, window_of(question), section)?;
    format!(in alloc; ": wanted {wanted}, got {got}{windows}")
}

/// What was wanted, and the words in front of what there is.
fn wanted_words(alloc: Global, look: &Look) -> Result<String, AllocError>
    ensures { IfOk result (λ text. string_bytes text ≡ wanted_words look.now) }
{
    match look {
        Look::Asked {
            question,
            wanted: _,
        } => question_words(alloc, question),
        Look::Window { path, fact } => {
            let wanted = fact_words(alloc, fact)?;
            format!(in alloc; "window {}: wanted {wanted}, got:", path.as_str())
        }
        Look::Says(text) => {
            format!(in alloc; "its transcript has no line \"{}\". It has:", text.as_str())
        }
        Look::HasError(true) => {
            String::from_str(alloc, "an error is wanted in its transcript, and there is")
        }
        Look::HasError(false) => String::from_str(alloc, "there is an error in its transcript:"),
        Look::State(state) => format!(in alloc; "state: wanted {}, got", state.as_str()),
        Look::LeastSteps(least) => {
            format!(in alloc; "steps left: wanted {least} or more, got (the last number)")
        }
        Look::Waiting(count) => {
            format!(in alloc; "timers and idle scripts: wanted {count}, got:")
        }
    }
}

/// Those lines of a section that begin with one of two words; that there are none, where there are none.
fn rows_or_none(
    alloc: Global,
    section: &[u8],
    first: &str,
    second: &str,
) -> Result<String, AllocError>
    ensures { IfOk result (λ text. string_bytes text ≡ or_none (rows_with first.now second.now section.now)) }
{
    let rows = rows_with(alloc, section, first, second)?;
    if rows.is_empty() {
        return String::from_str(alloc, " none");
    }
    Ok(rows)
}

/// What there is where a look isn't told.
fn got_words(alloc: Global, look: &Look, finding: &Finding) -> Result<String, AllocError>
    ensures { IfOk result (λ text. string_bytes text ≡ got_words look.now finding.now) }
{
    let section = finding.section.as_slice();
    match look {
        Look::Asked { question, wanted } => answered(alloc, question, wanted, finding),
        Look::Window { path, fact: _ } => window_rows(alloc, path.as_str(), section),
        Look::Says(_) => rows_or_none(alloc, section, "out ", "err "),
        Look::HasError(_) => rows_or_none(alloc, section, "err ", "err "),
        Look::State(_) | Look::LeastSteps(_) => rows_or_none(alloc, section, "app ", "app "),
        Look::Waiting(_) => rows_or_none(alloc, section, "timer ", "idle "),
    }
}

/// What wasn't seen.
fn unseen(alloc: Global, look: &Look, finding: &Finding) -> Result<String, AllocError>
    ensures { IfOk result (λ text. string_bytes text ≡ unseen_words look.now finding.now) }
{
    let wanted = wanted_words(alloc, look)?;
    let got = got_words(alloc, look, finding)?;
    format!(in alloc; "{wanted}{got}")
}

/// The slot of the panel that an entry is for, if it is for one.
fn slot_of(entry: &Entry) -> Option<usize>
    ensures { result ≡ slot_of_act entry.now.act }
{
    match &entry.act {
        Act::Do(Gesture::Pointer(pointing)) => Some(pointing.target.slot),
        Act::Do(Gesture::Keys(_)) | Act::Do(Gesture::Lines(_)) => None,
        Act::See { slot, looks: _ } => Some(*slot),
    }
}

/// The slot of the panel that a finding is of, if it is of one.
pub fn slot_of_finding(bench: &Bench, finding: &Finding) -> Option<usize>
    ensures { result ≡ slot_of_finding bench.now finding.now }
{
    slot_of(bench.entries.as_slice().get(finding.entry)?)
}

/// What a gesture missed, in words.
fn words_of_gesture(
    alloc: Global,
    gesture: &Gesture,
    finding: &Finding,
) -> Result<String, AllocError>
    ensures { IfOk result (λ text. string_bytes text ≡ words_of_gesture gesture.now finding.now.found finding.now) }
{
    match (gesture, finding.found) {
        (Gesture::Pointer(pointing), Found::Missed(miss)) => {
            let path = pointing.target.window.as_str();
            missed(alloc, path, miss, finding.section.as_slice())
        }
        _ => no_keyboard(alloc),
    }
}

/// What wasn't seen of looks, in words.
fn words_of_sight(alloc: Global, looks: &[Look], finding: &Finding) -> Result<String, AllocError>
    ensures { IfOk result (λ text. string_bytes text ≡ words_of_sight looks.now finding.now.found finding.now) }
{
    match finding.found {
        Found::Missed(_) => no_keyboard(alloc),
        Found::Unseen(number) => match looks.get(number) {
            Some(look) => unseen(alloc, look, finding),
            None => Ok(String::new(alloc)),
        },
    }
}

/// A finding in words.
fn words_of(alloc: Global, entry: &Entry, finding: &Finding) -> Result<String, AllocError>
    ensures { IfOk result (λ text. string_bytes text ≡ words_of entry.now.act finding.now.found finding.now) }
{
    match &entry.act {
        Act::Do(gesture) => words_of_gesture(alloc, gesture, finding),
        Act::See { slot: _, looks } => words_of_sight(alloc, looks.as_slice(), finding),
    }
}

/// A finding in words, with its moment and the line of the bench that asks for it.
pub fn told(
    alloc: Global,
    bench: &Bench,
    lines: &[usize],
    finding: &Finding,
) -> Result<String, AllocError>
    ensures { IfOk result (λ text. string_bytes text ≡ told bench.now lines.now finding.now) }
{
    let line = lines.get(finding.entry).copied().unwrap_or(0);
    match bench.entries.as_slice().get(finding.entry) {
        None => Ok(String::new(alloc)),
        Some(entry) => {
            let words = words_of(alloc, entry, finding)?;
            format!(in alloc; "line {line}, at {} ms: {}", entry.moment, words.as_str())
        }
    }
}

/// How many bytes are line feeds.
fn count_breaks(bytes: &[u8]) -> usize
    ensures breaks { result ≡ count_breaks bytes.now }
    ensures most { result ≤ length bytes.now }
{
    bytes.iter().filter(|byte| **byte == b'\n').count()
}

/// How many lines of a session a panel takes.
fn line_count(panel: &AppBlock) -> usize
    ensures { result ≡ line_count panel.now }
{
    let script = panel.script.as_str().as_bytes();
    let _short = script.len();
    let aliases = panel.aliases.as_slice().len();
    aliases
        .saturating_add(3)
        .saturating_add(count_breaks(script))
}

/// The slot of the panel that has a line of the session, counted from 1; as many as there are panels where none has it.
pub fn slot_at(panels: &[AppBlock], line: usize) -> usize
    ensures { result ≡ slot_at panels.now line }
{
    let mut left = line.saturating_sub(1);
    for (slot, panel) in panels.iter().enumerate() {
        let count = line_count(panel);
        if left <= count {
            return slot;
        }
        left = left.saturating_sub(count);
    }
    panels.len()
}
