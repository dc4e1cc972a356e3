//! What happens on a bench, moment by moment.

ghost use Rattle.std.specs.Prelude.{◌≡◌, ◌++◌, slice_get, IfOk, OnOk};
ghost use Rattle.std.specs.Option.{option_copied};
ghost use Rattle.std.specs.String.{string_bytes};
ghost use Rattle.panels_film.specs.Traces.{bindings_text, count_of, frame_text, gesture_words, got_words, is_behind, is_in, line_text, lines_text, moment_line, new_lines, news_from, ran_words, told_at, trace};

use crate::bindings::Ran;
use crate::film::Frame;
use crate::heads::{is_spent, section_in};
use crate::notes::Note;
use crate::pointed::Getter;
use panels_text::{as_text, line_words, name_at, without};
use std::alloc::{AllocError, Global};
use tk_session::{AppBlock, EventLine, HostLine};

/// Adds words at a moment, as a line.
fn push_line(alloc: Global, text: &mut String, moment: u64, words: &str) -> Result<(), AllocError>
    ensures { OnOk result (string_bytes text.new ≡ string_bytes text.old ++ moment_line moment words.now) }
{
    let line = format!(in alloc; "{moment} {words}\n")?;
    Ok(text.push_str(line.as_str())?)
}

/// What is told beside sections.
#[derive(Clone, Copy)]
pub struct Story<'a> {
    pub panels: &'a [AppBlock],
    /// The lines that gestures became.
    pub events: &'a [EventLine],
    /// What came of each.
    pub notes: &'a [Note],
    /// The bindings that ran, in their order.
    pub ran: &'a [Ran],
}

/// What stands between a line and who got it.
fn ran_words(ran: bool) -> &'static str
    ensures { result.now ≡ ran_words ran }
{
    if ran { ": " } else { ": no script ran, " }
}

/// Who got a line of a gesture, as it stands behind the line.
fn got_words(
    alloc: Global,
    panels: &[AppBlock],
    ran: bool,
    getter: Option<&Getter>,
) -> Result<String, AllocError>
    ensures { IfOk result (λ text. string_bytes text ≡ got_words panels.now ran (option_copied getter.entry)) }
{
    match getter {
        Some(getter) => {
            let got = getter.words(alloc, panels)?;
            format!(in alloc; "{}{}", ran_words(ran), got.as_str())
        }
        None => Ok(String::new(alloc)),
    }
}

/// A line of a gesture in words, and who got it.
fn gesture_words(
    alloc: Global,
    story: Story<'_>,
    number: usize,
    line: HostLine,
) -> Result<String, AllocError>
    ensures { IfOk result (λ text. string_bytes text ≡ gesture_words story.entry number line) }
{
    let words = line_words(alloc, line, story.panels)?;
    match story.notes.get(number) {
        Some(note) => {
            let got = got_words(alloc, story.panels, note.ran, note.getter.as_ref())?;
            format!(in alloc; "{}{}", words.as_str(), got.as_str())
        }
        None => Ok(words),
    }
}

/// What a frame tells of the panel in a slot; before the first one the lines that every section has.
fn told_at(frame: Option<&Frame>, slot: usize) -> &str
    ensures { result.now ≡ told_at (option_copied frame.entry) slot }
{
    match frame {
        Some(frame) => as_text(section_in(frame.sections.as_slice(), slot)),
        None => "tree\ntimers\ndone\n",
    }
}

/// Moments behind one and up to another, and what the panels showed before them.
#[derive(Clone, Copy)]
struct Span<'a> {
    before: Option<&'a Frame>,
    last: u64,
}

/// Whether a moment is behind those of a frame.
fn is_behind(frame: Option<&Frame>, moment: u64) -> bool
    ensures { result ≡ is_behind (option_copied frame.entry) moment }
{
    match frame {
        Some(frame) => frame.moment < moment,
        None => true,
    }
}

/// Whether a binding ran between these moments, after so many lines, in a panel that had steps.
fn is_in(span: Span<'_>, count: usize, ran: &Ran) -> bool
    ensures { result ≡ is_in (option_copied span.entry.before) span.entry.last count ran.now }
{
    ran.count == count
        && is_behind(span.before, ran.moment)
        && ran.moment <= span.last
        && !is_spent(told_at(span.before, ran.slot))
}

/// Adds the bindings that ran between moments after so many lines.
fn push_bindings(
    alloc: Global,
    text: &mut String,
    story: Story<'_>,
    span: Span<'_>,
    count: usize,
) -> Result<(), AllocError>
    ensures { OnOk result (string_bytes text.new ≡ string_bytes text.old ++ bindings_text story.entry (option_copied span.entry.before) span.entry.last count) }
{
    for ran in story.ran {
        if is_in(span, count, ran) {
            let name = name_at(story.panels, ran.slot);
            let words = format!(in alloc; "{name}: binding {} ran", ran.words.as_str())?;
            push_line(alloc, text, ran.moment, words.as_str())?;
        }
    }
    Ok(())
}

/// Adds the line of a gesture of this number, if there is one.
fn push_gesture(
    alloc: Global,
    text: &mut String,
    story: Story<'_>,
    number: usize,
) -> Result<(), AllocError>
    ensures { OnOk result (string_bytes text.new ≡ string_bytes text.old ++ line_text story.entry number (slice_get story.entry.events.now number)) }
{
    match story.events.get(number) {
        Some(event) => {
            let words = gesture_words(alloc, story, number, event.line)?;
            push_line(alloc, text, event.moment, words.as_str())
        }
        None => Ok(()),
    }
}

/// Adds the lines of gestures between two of their numbers, and the bindings that ran before, between and behind them.
fn push_lines(
    alloc: Global,
    text: &mut String,
    story: Story<'_>,
    span: Span<'_>,
    first: usize,
    behind: usize,
) -> Result<(), AllocError>
    ensures { OnOk result (string_bytes text.new ≡ string_bytes text.old ++ lines_text story.entry (option_copied span.entry.before) span.entry.last first behind) }
{
    push_bindings(alloc, text, story, span, first)?;
    for number in first..behind {
        push_gesture(alloc, text, story, number)?;
        push_bindings(alloc, text, story, span, number + 1)?;
    }
    Ok(())
}

/// Adds the lines of a panel's section that it hadn't before.
fn push_new(
    alloc: Global,
    text: &mut String,
    moment: u64,
    name: &str,
    section: &str,
    before: &str,
) -> Result<(), AllocError>
    ensures { OnOk result (string_bytes text.new ≡ string_bytes text.old ++ new_lines moment name.now section.now before.now) }
{
    for line in &without(alloc, section, before)? {
        let words = format!(in alloc; "{name}: {line}")?;
        push_line(alloc, text, moment, words.as_str())?;
    }
    Ok(())
}

/// Adds what the sections of a frame tell that they didn't tell before.
fn push_news(
    alloc: Global,
    text: &mut String,
    panels: &[AppBlock],
    frame: &Frame,
    before: Option<&Frame>,
) -> Result<(), AllocError>
    ensures { OnOk result (string_bytes text.new ≡ string_bytes text.old ++ news_from panels.now frame.now.moment (option_copied before.entry) 0 frame.now.sections.items) }
{
    for (slot, section) in frame.sections.iter().enumerate() {
        let earlier = told_at(before, slot);
        let section = as_text(section.as_slice());
        push_new(
            alloc,
            text,
            frame.moment,
            name_at(panels, slot),
            section,
            earlier,
        )?;
    }
    Ok(())
}

/// How many lines had come up to a frame; before the first none.
fn count_of(frame: Option<&Frame>) -> usize
    ensures { result ≡ count_of (option_copied frame.entry) }
{
    match frame {
        Some(frame) => frame.count,
        None => 0,
    }
}

/// Adds what came of a moment: the lines of gestures, and what the panels' sections tell that they didn't tell before.
fn push_frame(
    alloc: Global,
    text: &mut String,
    story: Story<'_>,
    frame: &Frame,
    before: Option<&Frame>,
) -> Result<(), AllocError>
    ensures { OnOk result (string_bytes text.new ≡ string_bytes text.old ++ frame_text story.entry (option_copied before.entry) frame.now) }
{
    let span = Span {
        before,
        last: frame.moment,
    };
    push_lines(alloc, text, story, span, count_of(before), frame.count)?;
    push_news(alloc, text, story.panels, frame, before)
}

/// What happens on a bench, a line each: the lines that its gestures became, and what the panels' sections tell from then on.
pub fn trace(alloc: Global, story: Story<'_>, frames: &[Frame]) -> Result<String, AllocError>
    ensures { IfOk result (λ text. string_bytes text ≡ trace story.entry frames.now) }
{
    let mut text = String::new(alloc);
    let mut before = None;
    for frame in frames {
        push_frame(alloc, &mut text, story, frame, before)?;
        before = Some(frame);
    }
    Ok(text)
}
