//! The questions of `widgets`: one widget by its calls, an entry where a table begins anew.
//!
//! `new KIND` begins with a new `frame`, `label`, `button`, `entry` or `listbox`. `command WORD|WORD|..` calls its command: the result, or the script
//! that it runs behind a `>`, or the text of the error. `size` is answered the width and height that it requests, and `value` what it shows, or
//! `-` where it shows nothing. `shows TEXT` says that the variable of `-textvariable` has this text from now on, and `shows-own` that it can't be read.
use crate::options::kind_of;
use crate::words::{barred_texts, word_of};
use anyhow::{Result, bail};
use asking::{error_of, first_word, result_of};
use std::alloc::Global;
use tcl_text::Text;
use tk_base::Kind;
use tk_widgets::{Widget, WidgetAct};

/// The widget that the questions are put to, and the text of the variable that it shows, where there is one.
#[derive(Drop)]
pub struct Widgets {
    widget: Widget,
    variable: Option<Text>,
}

impl Widgets {
    pub fn new(alloc: Global) -> Result<Widgets> {
        Ok(Widgets {
            widget: Widget::new(alloc, Kind::Entry)?,
            variable: None,
        })
    }

    fn command(&mut self, alloc: Global, words: &str) -> Result<String> {
        let words = barred_texts(alloc, words)?;
        let variable = self.variable.as_ref();
        match self.widget.command(alloc, variable, words.as_slice())? {
            WidgetAct::Answer(text) => result_of(alloc, text.as_str()),
            WidgetAct::Script(text) => Ok(format!(in alloc; ">{}", text.as_str())?),
            WidgetAct::Fault(text) => error_of(alloc, text.as_str()),
        }
    }

    fn size(&self, alloc: Global) -> Result<String> {
        let (width, height) = self.widget.requested_size(self.variable.as_ref());
        Ok(format!(in alloc; "={width} {height}")?)
    }

    fn value(&self, alloc: Global) -> Result<String> {
        match self.widget.value(alloc, self.variable.as_ref())? {
            Some(text) => result_of(alloc, text.as_str()),
            None => Ok(String::from_str(alloc, "-")?),
        }
    }

    /// What a question is answered.
    pub fn answer(&mut self, alloc: Global, question: &str) -> Result<String> {
        let (what, words) = first_word(question);
        match what {
            "new" => {
                self.widget = Widget::new(alloc, kind_of(words)?)?;
                result_of(alloc, "")
            }
            "shows" => {
                self.variable = Some(word_of(alloc, words)?);
                result_of(alloc, "")
            }
            "shows-own" => {
                self.variable = None;
                result_of(alloc, "")
            }
            "command" => self.command(alloc, words),
            "size" => self.size(alloc),
            "value" => self.value(alloc),
            _ => bail!("no such question"),
        }
    }
}
