//! Questions of windows: `begin`, `create OWNER PATH`, `find OWNER PATH`, and `holds`, `children`, `subtree`, `post`, `dying`, `remove` of
//! `OWNER NUMBER`. A window is told by its number.

use anyhow::{Result, bail};
use asking::number;
use std::alloc::Global;
use tcl_text::Text;
use tk_base::{Kind, Win};
use tk_tree::{WindowFault, Windows};

pub struct Trees {
    windows: Windows,
}

impl Trees {
    pub fn new(alloc: Global) -> Trees {
        Trees {
            windows: Windows::new(alloc),
        }
    }

    /// What a question is answered.
    pub fn answer(&mut self, alloc: Global, words: &[&str]) -> Result<String> {
        match words {
            ["begin"] => {
                self.windows = Windows::new(alloc);
                Ok(String::new(alloc))
            }
            [name, owner, window] => self.answer_at(alloc, name, number(owner)?, window),
            _ => bail!("no such question"),
        }
    }

    /// What a question about a window or a path of an application is answered.
    fn answer_at(
        &mut self,
        alloc: Global,
        name: &str,
        owner: usize,
        window: &str,
    ) -> Result<String> {
        match name {
            "create" => self.create(alloc, owner, window),
            "find" => self.find(alloc, owner, window),
            _ => {
                let number = number(window)?;
                self.answer_of(alloc, name, Win { owner, number })
            }
        }
    }

    fn create(&mut self, alloc: Global, owner: usize, path: &str) -> Result<String> {
        let path = Text::new(alloc, path)?;
        match self.windows.create(owner, &path, Kind::Frame) {
            Ok(win) => Ok(format!(in alloc; "{}", win.number)?),
            Err(WindowFault::NoMemory) => bail!("no memory"),
            Err(fault) => Ok(format!(in alloc; "{fault}")?),
        }
    }

    fn find(&self, alloc: Global, owner: usize, path: &str) -> Result<String> {
        match self.windows.find(owner, path) {
            Some(win) => Ok(format!(in alloc; "{}", win.number)?),
            None => Ok(String::from_str(alloc, "none")?),
        }
    }

    fn answer_of(&mut self, alloc: Global, name: &str, win: Win) -> Result<String> {
        if !self.windows.holds(win) {
            return Ok(String::from_str(alloc, "gone")?);
        }
        match name {
            "holds" => Ok(self.windows.path(win).as_str().to_string(alloc)?),
            "children" => numbers(alloc, self.windows.children(win)),
            "subtree" => numbers(alloc, self.windows.subtree(win)?.as_slice()),
            "post" => numbers(alloc, self.windows.post_order(win)?.as_slice()),
            "dying" => {
                self.windows.mark_dying(win);
                Ok(String::new(alloc))
            }
            "remove" => {
                if !remove(&mut self.windows, win) {
                    bail!("a window with children is taken out");
                }
                Ok(String::new(alloc))
            }
            _ => bail!("no such question"),
        }
    }
}

/// Takes a window out, unless it has children.
pub fn remove(windows: &mut Windows, win: Win) -> bool {
    if !windows.holds(win) {
        return false;
    }
    match windows.children(win) {
        [] => {}
        _ => return false,
    }
    windows.remove(win);
    true
}

fn numbers(alloc: Global, list: &[u64]) -> Result<String> {
    let mut text = String::new(alloc);
    for number in list {
        if !text.is_empty() {
            text.push_str(" ")?;
        }
        text.push_str(format!(in alloc; "{number}")?.as_str())?;
    }
    Ok(text)
}

/// By hand: a proof sees one call where it is dropped, and not its parts.
impl Drop for Trees {
    fn drop(self) {
        let Trees { windows: _ } = self;
    }
}
