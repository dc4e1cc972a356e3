//! The questions of `routes`: who gets the lines of sessions.
//!
//! A question `new X Y W H X Y W H ..` begins with applications that have these rectangles, by slot from 0 on. A question `MOMENT LINE` is a line
//! of a session (`lines.rt`). It is answered `=` and the events, each as `SLOT MOMENT STATE KIND ..` with a comma between two; or `!` and the number of
//! the fault.
use crate::lines::{line_of, rect_of};
use anyhow::{Result, bail};
use asking::{number, result_of, words_of};
use std::alloc::{AllocError, Global};
use tk_route::{Delivery, LocalKind, Routed, Router};

/// An event and who gets it.
fn told(alloc: Global, delivery: &Delivery) -> Result<String, AllocError> {
    let kind = kind_told(alloc, delivery.event.kind)?;
    format!(in alloc;
        "{} {} {} {}",
        delivery.slot,
        delivery.event.moment,
        delivery.event.state,
        kind.as_str()
    )
}

fn kind_told(alloc: Global, kind: LocalKind) -> Result<String, AllocError> {
    match kind {
        LocalKind::Position { x, y } => format!(in alloc; "position {x} {y}"),
        LocalKind::Press { button, x, y } => format!(in alloc; "press {button} {x} {y}"),
        LocalKind::Release { button, x, y } => format!(in alloc; "release {button} {x} {y}"),
        LocalKind::Keydown(key) => format!(in alloc; "keydown {}", key.name()),
        LocalKind::Keyup(key) => format!(in alloc; "keyup {}", key.name()),
        LocalKind::FocusIn => String::from_str(alloc, "focusin"),
        LocalKind::FocusOut => String::from_str(alloc, "focusout"),
        LocalKind::Size { width, height } => format!(in alloc; "size {width} {height}"),
    }
}

fn all_told(alloc: Global, routed: &Routed) -> Result<String> {
    match routed {
        Routed::Nobody => result_of(alloc, ""),
        Routed::One(only) => {
            let only = told(alloc, only)?;
            result_of(alloc, only.as_str())
        }
        Routed::Two(first, second) => {
            let first = told(alloc, first)?;
            let second = told(alloc, second)?;
            Ok(format!(in alloc; "={}, {}", first.as_str(), second.as_str())?)
        }
    }
}

/// What a line of a session answers.
fn line_answer(alloc: Global, router: &mut Option<Router>, words: &[&str]) -> Result<String> {
    let Some((moment, words)) = words.split_first() else {
        bail!("a line with no words");
    };
    let moment = number(moment)?;
    let Some(router) = router.as_mut() else {
        bail!("a line with no applications");
    };
    match router.line(moment, line_of(words)?) {
        Ok(routed) => all_told(alloc, &routed),
        Err(fault) => Ok(format!(in alloc; "!{}", fault.number())?),
    }
}

/// What new applications answer.
fn new_answer(alloc: Global, router: &mut Option<Router>, words: &[&str]) -> Result<String> {
    let mut rects = Vec::new(alloc);
    for place in words.chunks(4) {
        let [x, y, width, height] = place else {
            bail!("a rectangle that lacks a number");
        };
        rects.push(rect_of(x, y, width, height)?)?;
    }
    match Router::new(rects.as_slice()) {
        Ok(made) => {
            *router = Some(made);
            result_of(alloc, "")
        }
        Err(fault) => Ok(format!(in alloc; "!{}", fault.number())?),
    }
}

/// Who gets the lines, once there are applications.
#[derive(Drop)]
pub struct Routes {
    router: Option<Router>,
}

impl Routes {
    pub fn new() -> Routes {
        Routes { router: None }
    }

    /// What a question is answered.
    pub fn answer(&mut self, alloc: Global, question: &str) -> Result<String> {
        let words = words_of(alloc, question, ' ')?;
        match words.as_slice() {
            ["new", rects @ ..] => new_answer(alloc, &mut self.router, rects),
            words => line_answer(alloc, &mut self.router, words),
        }
    }
}
