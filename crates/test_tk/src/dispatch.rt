//! The questions of `dispatch`: which scripts an event runs at a window, what the fields of an event are, and which events wait.
//!
//! `window PATH` makes a window, a frame, and is answered its number; `gone NUMBER` takes it out; `tags NUMBER TAG|TAG|..` sets its binding tags.
//! `bind TAG|SEQUENCE|SCRIPT` binds, `virtual NAME SEQUENCE` adds a sequence to a virtual event, and `push EVENT` is an event that came before. An
//! event is one of `bindings`, at the window of its number.
//!
//! `scripts EVENT` is answered the scripts that it runs, with a bar between two, and `fields EVENT|TEXT` the text with its fields put in; or `!` and
//! an error. `tail OWNER EVENT` and `head OWNER EVENT` let an event wait, `pop OWNER` takes out the next one and is answered its moment or `-`, and
//! `count OWNER` is answered how many wait. A script and a text `*N*TEXT` are TEXT N times.
use crate::bindings::bind;
use crate::bindings::read::event_of;
use crate::windows::remove;
use crate::words::{barred_texts, word_of};
use anyhow::{Result, bail};
use asking::{error_of, first_word, number, push_barred, result_of, words_of};
use std::alloc::Global;
use tcl_text::{Text, TextFault};
use tk_base::{Kind, Win};
use tk_dispatch::{EventQueue, Histories, scripts_for, substitute};
use tk_patterns::{BindTable, Event};
use tk_tree::Windows;
use tk_virtual::VirtualTable;

/// The application whose windows there are.
const OWNER: usize = 0;

/// Windows, bindings, the events that came, and those that wait.
pub struct Dispatch {
    windows: Windows,
    bindings: BindTable,
    virtuals: VirtualTable,
    histories: Histories,
    queue: EventQueue,
}

fn win_of(word: &str) -> Result<Win> {
    Ok(Win {
        owner: OWNER,
        number: number(word)?,
    })
}

/// Scripts with a bar between two.
fn told(alloc: Global, scripts: &[Text]) -> Result<String> {
    let mut told = String::from_str(alloc, "=")?;
    for (place, script) in scripts.iter().enumerate() {
        push_barred(&mut told, place, script.as_str())?;
    }
    Ok(told)
}

impl Dispatch {
    pub fn new(alloc: Global) -> Result<Dispatch> {
        Ok(Dispatch {
            windows: Windows::new(alloc),
            bindings: BindTable::new(alloc),
            virtuals: VirtualTable::new(alloc),
            histories: Histories::new(alloc)?,
            queue: EventQueue::new(alloc),
        })
    }

    /// The event that these words are, with the path of its window where that is there.
    fn event(&self, alloc: Global, words: &str) -> Result<Event> {
        let mut event = event_of(alloc, words_of(alloc, words, ' ')?.as_slice())?;
        let win = Win {
            owner: OWNER,
            number: event.number,
        };
        if self.windows.holds(win) {
            event.path = self.windows.path(win).copy()?;
        }
        Ok(event)
    }

    fn create(&mut self, alloc: Global, path: &str) -> Result<String> {
        let path = Text::new(alloc, path)?;
        match self.windows.create(OWNER, &path, Kind::Frame) {
            Ok(win) => Ok(format!(in alloc; "={}", win.number)?),
            Err(_) => bail!("a window that was refused"),
        }
    }

    fn set_tags(&mut self, alloc: Global, words: &str) -> Result<()> {
        let (window, tags) = first_word(words);
        let win = win_of(window)?;
        if !self.windows.holds(win) {
            bail!("no such window");
        }
        self.windows
            .set_tags(win, barred_texts(alloc, tags)?.as_slice())?;
        Ok(())
    }

    fn remove(&mut self, window: &str) -> Result<()> {
        if !remove(&mut self.windows, win_of(window)?) {
            bail!("no window without children");
        }
        Ok(())
    }

    fn bind(&mut self, alloc: Global, words: &str) -> Result<String> {
        let words = words_of(alloc, words, '|')?;
        let [tag, sequence, script] = words.as_slice() else {
            bail!("a binding that lacks a word");
        };
        bind(alloc, &mut self.bindings, OWNER, tag, sequence, script)
    }

    fn add_virtual(&mut self, alloc: Global, words: &str) -> Result<()> {
        let (name, sequence) = first_word(words);
        let name = Text::new(alloc, name)?;
        let sequence = Text::new(alloc, sequence)?;
        match self.virtuals.add(alloc, OWNER, &name, &sequence) {
            Ok(()) => Ok(()),
            Err(_) => bail!("a pair that was refused"),
        }
    }

    /// The scripts that an event runs.
    fn scripts(&self, alloc: Global, event: &Event) -> Result<String> {
        let win = Win {
            owner: OWNER,
            number: event.number,
        };
        let chosen = scripts_for(
            alloc,
            &self.windows,
            &self.bindings,
            &self.virtuals,
            win,
            event,
            self.histories.of(OWNER),
        )?;
        match chosen {
            Ok(scripts) => told(alloc, scripts.as_slice()),
            Err(text) => error_of(alloc, text.as_str()),
        }
    }

    /// A text with an event's fields.
    fn fields(&self, alloc: Global, words: &str) -> Result<String> {
        let Some((event, text)) = words.split_once('|') else {
            bail!("an event with no text");
        };
        let event = self.event(alloc, event)?;
        match substitute(alloc, &word_of(alloc, text)?, &event) {
            Ok(text) => result_of(alloc, text.as_str()),
            Err(TextFault::NoMemory) => bail!("out of memory"),
            Err(fault) => Ok(format!(in alloc; "!{fault}")?),
        }
    }

    /// Lets an event wait, as the last or as the first.
    fn wait(&mut self, alloc: Global, is_first: bool, words: &str) -> Result<()> {
        let (owner, event) = first_word(words);
        let owner = number(owner)?;
        let event = self.event(alloc, event)?;
        if is_first {
            self.queue.push_head(owner, event)?;
        } else {
            self.queue.push_tail(owner, event)?;
        }
        Ok(())
    }

    fn pop(&mut self, alloc: Global, owner: &str) -> Result<String> {
        match self.queue.pop(number(owner)?)? {
            Some(event) => Ok(format!(in alloc; "={}", event.moment)?),
            None => result_of(alloc, "-"),
        }
    }

    /// Does what a question says that tells nothing.
    fn change(&mut self, alloc: Global, what: &str, words: &str) -> Result<()> {
        match what {
            "gone" => self.remove(words),
            "tags" => self.set_tags(alloc, words),
            "virtual" => self.add_virtual(alloc, words),
            "push" => {
                let event = self.event(alloc, words)?;
                Ok(self.histories.push(OWNER, event)?)
            }
            "tail" => self.wait(alloc, false, words),
            "head" => self.wait(alloc, true, words),
            _ => bail!("no such question"),
        }
    }

    /// What a question is answered.
    pub fn answer(&mut self, alloc: Global, question: &str) -> Result<String> {
        let (what, words) = first_word(question);
        match what {
            "window" => self.create(alloc, words),
            "bind" => self.bind(alloc, words),
            "scripts" => self.scripts(alloc, &self.event(alloc, words)?),
            "fields" => self.fields(alloc, words),
            "pop" => self.pop(alloc, words),
            "count" => Ok(format!(in alloc; "={}", self.queue.count(number(words)?))?),
            _ => {
                self.change(alloc, what, words)?;
                result_of(alloc, "")
            }
        }
    }
}

/// By hand: a proof sees one call where it is dropped, and not its parts.
impl Drop for Dispatch {
    fn drop(self) {
        let Dispatch {
            windows: _,
            bindings: _,
            virtuals: _,
            histories: _,
            queue: _,
        } = self;
    }
}
