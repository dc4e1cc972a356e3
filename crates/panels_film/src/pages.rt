//! A page that shows a bench from moment to moment.

ghost use Rattle.std.specs.Prelude.{All, IfOk, OnOk};
ghost use Rattle.panels_film.specs.Pages.{Adds, IsPictured};

use crate::film::{Film, Frame};
use crate::heads::head;
use crate::scenes::{STYLE, scene};
use panels::picture;
use panels_text::{as_text, line_words, push_escaped};
use std::alloc::{AllocError, Global};
use tk_session::{AppBlock, EventLine};

/// How the page looks around the pictures.
const PAGE_STYLE: &str = "\
<style>
body { font: 15px/1.4 sans-serif; color: #1c1c1c; background: #ffffff; margin: 1em 2em }
h1 { font-size: 1.3em }
h2 { font-size: 1.1em }
h3 { font-size: 1em; margin: 0.6em 0 0.2em }
.bar { position: sticky; top: 0; background: #ffffff; padding: 0.4em 0; border-bottom: 1px solid #c0c0c0 }
.bar input { width: 50% }
.screen { overflow: auto; background: #f0f0f0; padding: 8px; border: 1px solid #c0c0c0 }
.panels { display: flex; flex-wrap: wrap; gap: 0 2em }
pre { font: 13px/1.3 monospace; background: #f6f6f6; padding: 0.4em; margin: 0; max-width: 70ch; white-space: pre-wrap; overflow-wrap: anywhere }
</style>
";

/// The slider, and what stands beside it.
const BAR: &str = "\
<div class=\"bar\"><label for=\"moment\">Moment</label>
<button id=\"back\" type=\"button\" aria-label=\"the moment before\">&#9664;</button>
<input id=\"moment\" type=\"range\" min=\"0\" step=\"1\" value=\"0\">
<button id=\"on\" type=\"button\" aria-label=\"the next moment\">&#9654;</button>
<output id=\"when\" for=\"moment\" aria-live=\"polite\"></output>
(the keys left and right step too)</div>
";

/// What the slider, the buttons and the keys do. A number behind `#` in the page's address is a moment in milliseconds: the page begins there.
const SCRIPT: &str = "\
<script>
\"use strict\";
const frames = [...document.querySelectorAll(\"section.frame\")];
const slider = document.getElementById(\"moment\");
const when = document.getElementById(\"when\");
let now = 0;
function show(number) {
  now = Math.max(0, Math.min(frames.length - 1, number));
  frames.forEach((frame, index) => { frame.hidden = index !== now; });
  when.textContent = `${frames[now].dataset.moment} ms, ${now + 1} of ${frames.length}`;
  slider.value = now;
  slider.setAttribute(\"aria-valuetext\", when.textContent);
}
slider.max = frames.length - 1;
slider.addEventListener(\"input\", () => show(Number(slider.value)));
document.getElementById(\"back\").addEventListener(\"click\", () => show(now - 1));
document.getElementById(\"on\").addEventListener(\"click\", () => show(now + 1));
document.addEventListener(\"keydown\", event => {
  const step = { ArrowLeft: -1, ArrowRight: 1 }[event.key];
  if (step && !event.ctrlKey && !event.altKey && !event.metaKey) {
    show(now + step);
    event.preventDefault();
  }
});
const wanted = Number(location.hash.slice(1));
show(frames.filter(frame => Number(frame.dataset.moment) <= wanted).length - 1);
</script>
";

/// Adds the lines of a section that begin with one of two words, under a title; that there is none, where there is none.
fn push_told(
    text: &mut String,
    title: &str,
    section: &str,
    first: &str,
    second: &str,
) -> Result<(), AllocError> {
    text.push_str("<h4>")?;
    text.push_str(title)?;
    text.push_str("</h4>\n<pre>")?;
    let mut is_empty = true;
    for line in section.split('\n') {
        if line.starts_with(first) || line.starts_with(second) {
            if !is_empty {
                text.push('\n')?;
            }
            is_empty = false;
            push_escaped(text, line)?;
        }
    }
    text.push_str(if is_empty { "none</pre>\n" } else { "</pre>\n" })?;
    Ok(())
}

/// Adds what a section tells beside its windows.
fn push_panel(text: &mut String, section: &str) -> Result<(), AllocError> {
    let (name, rest) = head(section).split_once(' ').unwrap_or(("", ""));
    let (state, steps) = rest.split_once(' ').unwrap_or((rest, ""));
    text.push_str("<article>\n<h3>")?;
    push_escaped(text, name)?;
    text.push_str(": ")?;
    push_escaped(text, state)?;
    text.push_str(", ")?;
    push_escaped(text, steps)?;
    text.push_str(" steps left</h3>\n")?;
    push_told(text, "Transcript", section, "out ", "err ")?;
    push_told(text, "Timers and idle scripts", section, "timer ", "idle ")?;
    Ok(text.push_str("</article>\n")?)
}

/// What sections tell beside their windows, and the end of a moment.
fn told_panels(alloc: Global, sections: &[Vec<u8>]) -> Result<String, AllocError> {
    let mut text = String::from_str(alloc, "</div>\n<div class=\"panels\">\n")?;
    for section in sections {
        push_panel(&mut text, as_text(section.as_slice()))?;
    }
    text.push_str("</div>\n</section>\n")?;
    Ok(text)
}

/// Adds the lines of gestures that came with a moment.
fn push_lines(
    alloc: Global,
    text: &mut String,
    panels: &[AppBlock],
    events: &[EventLine],
    moment: u64,
) -> Result<(), AllocError> {
    text.push_str("<p>Lines: ")?;
    let mut is_empty = true;
    for event in events {
        if event.moment == moment {
            if !is_empty {
                text.push_str(", ")?;
            }
            is_empty = false;
            let words = line_words(alloc, event.line, panels)?;
            push_escaped(text, words.as_str())?;
        }
    }
    Ok(text.push_str(if is_empty { "none</p>\n" } else { "</p>\n" })?)
}

/// The heading of a moment, the lines that came with it, and the beginning of its picture.
fn heading(
    alloc: Global,
    panels: &[AppBlock],
    events: &[EventLine],
    moment: u64,
) -> Result<String, AllocError> {
    let mut text = format!(in alloc;
        "<section class=\"frame\" data-moment=\"{moment}\">\n<h2>At {moment} ms</h2>\n"
    )?;
    push_lines(alloc, &mut text, panels, events, moment)?;
    text.push_str("<div class=\"screen\">\n")?;
    Ok(text)
}

/// Adds what stands at a moment.
fn push_frame(
    alloc: Global,
    page: &mut Vec<u8>,
    panels: &[AppBlock],
    events: &[EventLine],
    frame: &Frame,
) -> Result<(), AllocError>
    ensures { OnOk result (Adds panels.now events.now frame.now page.old.items page.new.items) }
{
    let heading = heading(alloc, panels, events, frame.moment)?;
    let scene = scene(alloc, panels, events, frame)?;
    let picture = picture(alloc, &scene, b"")?;
    let told = told_panels(alloc, frame.sections.as_slice())?;
    page.extend_from_slice(heading.as_str().as_bytes())?;
    page.extend_from_slice(picture.as_slice())?;
    page.extend_from_slice(told.as_str().as_bytes())?;
    Ok(())
}

/// Adds what stands at moments.
fn push_frames(
    alloc: Global,
    page: &mut Vec<u8>,
    panels: &[AppBlock],
    events: &[EventLine],
    frames: &[Frame],
) -> Result<(), AllocError>
    ensures { OnOk result (All (IsPictured panels.now events.now page.new.items) frames.now) }
{
    for frame in frames {
        push_frame(alloc, page, panels, events, frame)?;
    }
    Ok(())
}

/// What stands above the moments of a page.
fn front(alloc: Global, file: &str, film: &Film) -> Result<String, AllocError> {
    let mut text = String::from_str(
        alloc,
        "<!DOCTYPE html>\n<html lang=\"en\">\n<meta charset=\"utf-8\">\n<title>",
    )?;
    push_escaped(&mut text, file)?;
    text.push_str("</title>\n")?;
    text.push_str(STYLE)?;
    text.push_str(PAGE_STYLE)?;
    text.push_str("<h1>")?;
    push_escaped(&mut text, file)?;
    text.push_str("</h1>\n")?;
    text.push_str(BAR)?;
    if !film.is_whole {
        text.push_str(
            "<p>The bench goes on after the last of these moments: there are too many.</p>\n",
        )?;
    }
    Ok(text)
}

/// A page of a bench, which needs nothing beside itself: its file's name, a slider over moments, and for each of them a picture and what the sections tell.
/// An error where memory is refused.
pub fn page(
    alloc: Global,
    file: &str,
    panels: &[AppBlock],
    events: &[EventLine],
    film: &Film,
) -> Result<Vec<u8>, AllocError>
    ensures { IfOk result (λ page. All (IsPictured panels.now events.now page.items) film.now.frames.items) }
{
    let front = front(alloc, file, film)?;
    let mut page = Vec::from_slice(alloc, front.as_str().as_bytes())?;
    push_frames(alloc, &mut page, panels, events, film.frames.as_slice())?;
    page.extend_from_slice(SCRIPT.as_bytes())?;
    Ok(page)
}
