use crate::pictures::{with_number, with_pictures, without_pictures};
use crate::words::number;
use anyhow::{Context, Result, bail};
use std::alloc::Global;
use std::rt::{Env, Files};
use std::{env, fs};

/// What the questions of a table are put to.
pub trait Fixture: Drop {
    /// What they are put to at the head of a table of this name, and anew at each of its empty lines; an error where no table of the program has
    /// the name.
    fn new(alloc: Global, table: &str) -> Result<Self>;

    /// What a question is answered, with its mark; an error where it is no question.
    fn answer(&mut self, alloc: Global, question: &str) -> Result<String>;
}

/// A question, and what it was answered.
#[derive(Drop)]
struct Asked {
    question: String,
    answer: String,
}

/// A table under way.
#[derive(Drop)]
struct Asking<'a, F: Fixture> {
    /// The table's name.
    name: &'a str,
    fixture: F,
    /// The question of the line above, where that was one.
    last: Option<Asked>,
    answers: u32,
    /// How many questions failed and were asked again.
    again: u32,
}

impl<'a, F: Fixture> Asking<'a, F> {
    fn new(alloc: Global, name: &'a str) -> Result<Asking<'a, F>> {
        Ok(Asking {
            name,
            fixture: F::new(alloc, name)?,
            last: None,
            answers: 0,
            again: 0,
        })
    }

    /// What the fixture answers. Where it fails it is asked once more: what a call that was refused memory was put to is as it was before, so that
    /// the answer, and all behind it, are those of the table.
    fn answer(&mut self, alloc: Global, question: &str) -> Result<String> {
        if let Ok(answer) = self.fixture.answer(alloc, question) {
            return Ok(answer);
        }
        self.again = self.again.saturating_add(1);
        self.fixture.answer(alloc, question)
    }

    fn ask(&mut self, alloc: Global, question: &str) -> Result<Asked> {
        let plain = without_pictures(alloc, question)?;
        let answer = self.answer(alloc, plain.as_str())?;
        Ok(Asked {
            question: String::from_str(alloc, question)?,
            answer: with_pictures(alloc, answer.as_str())?,
        })
    }

    /// Asks what stands behind the mark of a question: once, or where `*N` and a blank stand first, N times; the last answer counts then.
    fn ask_marked(&mut self, alloc: Global, marked: &str) -> Result<Option<Asked>> {
        let Some((count, question)) = marked
            .strip_prefix('*')
            .and_then(|rest| rest.split_once(' '))
        else {
            return Ok(Some(self.ask(alloc, marked.strip_prefix(' ').unwrap_or(marked))?));
        };
        let count: u32 = number(count)?;
        let mut last = None;
        for time in 0..count {
            let numbered = with_number(alloc, question, time.saturating_add(1))?;
            last = Some(self.ask(alloc, numbered.as_str())?);
        }
        Ok(last)
    }

    /// Reads a line of the table: the question that it answers otherwise than the fixture did, if it does.
    fn read(&mut self, alloc: Global, line: &str) -> Result<Option<Asked>> {
        let last = self.last.take();
        if line.is_empty() {
            self.fixture = F::new(alloc, self.name)?;
        } else if let Some(question) = line.strip_prefix('?') {
            self.last = self.ask_marked(alloc, question)?;
        } else if !line.starts_with('#') {
            let Some(asked) = last else {
                bail!("an answer with no question above it");
            };
            self.answers = self.answers.saturating_add(1);
            if asked.answer.as_str() != line {
                return Ok(Some(asked));
            }
        }
        Ok(None)
    }
}

/// Asks a table's questions, and prints each answer that isn't the one in the table, and how many there are. Whether none differs.
fn ask_table<F: Fixture, R: Print + AllocGlobal>(rt: &R, name: &str, table: &str) -> Result<bool> {
    let alloc = rt.alloc();
    let mut asking = Asking::<F>::new(alloc, name)?;
    let mut wrong = 0u32;
    for (above, line) in table.lines().enumerate() {
        let number = above.saturating_add(1);
        let read = asking
            .read(alloc, line)
            .context(format_args!("line {number}"))?;
        if let Some(Asked { question, answer }) = read {
            wrong = wrong.saturating_add(1);
            println!(rt; "{name}:{number}: {question}: {answer} and not {line}")?;
        }
    }
    let (answers, again) = (asking.answers, asking.again);
    if again == 0 {
        println!(rt; "{name}: {answers} answers, {wrong} wrong")?;
    } else {
        println!(rt; "{name}: {answers} answers, {wrong} wrong, {again} asked again")?;
    }
    Ok(wrong == 0)
}

/// The program's arguments.
pub fn arguments<R: Env + AllocGlobal>(rt: &R) -> Result<Vec<String>> {
    Ok(env::args(rt)?.skip(1).collect(rt.alloc())?)
}

/// The text of a file.
pub fn text_in<R: Files + AllocGlobal>(rt: &R, path: &str) -> Result<String> {
    fs::read_to_string(rt, path).context(format_args!("file {path}"))
}

/// Asks the tables of these names: of each it prints what the fixture answers otherwise, and a line that counts. It fails where an answer differs.
pub fn ask_tables<F: Fixture, R: Files + Print + AllocGlobal>(
    rt: &R,
    names: &[String],
) -> Result<()> {
    let mut differs = false;
    for name in names {
        let path = format!(in rt.alloc(); "{name}.table")?;
        let table = text_in(rt, path.as_str())?;
        let agrees = ask_table::<F, R>(rt, name.as_str(), table.as_str()).context(format_args!(
            "table {name}"
        ))?;
        differs = differs || !agrees;
    }
    if differs {
        bail!("some answers differ");
    }
    Ok(())
}
