ghost use Rattle.std.specs.Prelude.{◌≡◌, ◌≢◌, ◌+◌, ◌<◌, ◌≤◌, [], None, Ok, IfOk, IfErr, IfSome, MatchBool, MatchOption, OnErr};
ghost use Rattle.std.specs.Option.{option_copied};
ghost use Rattle.tcl_vars.specs.Add.{AddsText};
ghost use Rattle.tcl_vars.specs.Changing.{ChangesText, KeepsText};
ghost use Rattle.tcl_vars.specs.Put.{RefusesText, AfterPut, new_count};
ghost use Rattle.tcl_vars.specs.Short.{IsShort, IsShortPlace};
ghost use Rattle.tcl_vars.specs.Shown.{shown};
ghost use Rattle.tcl_vars.specs.Store.{content_count, content_with, frame_count, link_of};
ghost use Rattle.tcl_vars.specs.Unset.{UnsetsText, RefusesUnset, frame_but};
ghost use Rattle.tcl_vars.specs.Table.{value_at, with_value, weight_of};
ghost use Rattle.tcl_text.specs.Limits.{most_variables};

use crate::content::{Content, Outcome, Removal};
use crate::name::Place;
use crate::table::Table;
use std::alloc::{AllocError, Global};
use tcl_text::{ChangeFault, Edit, ReadFault, SetFault, Text, UnsetFault};

/// The names of one frame, in the order in which they came.
pub(crate) type Frame = Table<Content>;

/// How many names a frame that has ended may have memory for where that is kept: enough for most procedures.
const MOST_KEPT: usize = 64;

/// A frame without variables: in the memory of one that has ended, if one is kept.
pub(crate) fn empty_frame(alloc: Global, spare: &mut Vec<Frame>) -> Frame
    ensures { result ≡ [] }
{
    match spare.pop() {
        Some(mut frame) => {
            frame.clear();
            frame
        }
        None => Table::new(alloc),
    }
}

/// Keeps the memory of a frame that has ended for another one, where it isn't large and there is room in the list. It takes none.
pub(crate) fn keep_memory(spare: &mut Vec<Frame>, mut frame: Frame) {
    if spare.len() < spare.capacity() && frame.capacity() <= MOST_KEPT {
        frame.clear();
        let _kept = spare.push(frame);
    }
}

/// How many variables a frame has.
pub(crate) fn variable_count(frame: &Frame) -> usize
    requires { frame_count frame.now ≤ most_variables }
    ensures { result ≡ frame_count frame.now }
{
    let mut count = 0;
    for index in 0..frame.len() {
        let (_, content) = frame.at(index);
        count += content.count();
    }
    count
}

/// Sets the text of a place of the frame, with room for so many more variables.
pub(crate) fn put(
    alloc: Global,
    frame: &mut Frame,
    place: Place<'_>,
    value: Text,
    room: usize,
) -> Result<Outcome, SetFault>
    requires { IsShortPlace (shown place) }
    ensures ok { IfOk result (λ done. AfterPut frame.old (shown place.entry) value room done frame.new) }
    ensures refused { IfErr result (λ fault. fault ≢ SetFault.NoMemory → RefusesText frame.old (shown place.entry) value room fault) }
    ensures err { OnErr result (frame.new ≡ frame.old) }
{
    match frame.get_mut(place.variable) {
        None => {
            let added = new_count(place.element);
            if room < added {
                return Err(SetFault::Full);
            }
            let content = new_content(alloc, place.element, value)?;
            frame.insert(place.variable, content)?;
            Ok(Outcome::Added(added))
        }
        Some(content) => content.put(place.element, value, room),
    }
}

/// Adds an amount to the integer that a variable of the frame is, and gives the sum; none, and nothing is done, where it has no text, where that is no
/// integer, or where 64 bits don't hold the sum.
pub(crate) fn add(
    alloc: Global,
    frame: &mut Frame,
    variable: &str,
    amount: i64,
) -> Result<Option<Text>, AllocError>
    ensures ok { IfOk result (λ sum. MatchOption sum (frame.new ≡ frame.old) (λ text. AddsText frame.old variable.now amount text frame.new)) }
    ensures err { OnErr result (frame.new ≡ frame.old) }
{
    match frame.get_mut(variable) {
        None => Ok(None),
        Some(content) => content.add(alloc, amount),
    }
}

/// Changes the text of a place of the frame; false, and nothing is done, where the variable is a link.
pub(crate) fn change(
    alloc: Global,
    frame: &mut Frame,
    place: Place<'_>,
    edit: Edit<'_>,
) -> Result<bool, ChangeFault>
    ensures ok { IfOk result (λ done. MatchBool done
        (ChangesText frame.old (shown place.entry) edit.entry frame.new)
        ((link_of (value_at frame.old place.entry.variable.now) ≢ None) × (frame.new ≡ frame.old))) }
    ensures refused { IfErr result (λ fault. fault ≢ ChangeFault.NoMemory → KeepsText frame.old (shown place.entry) edit.entry fault) }
    ensures err { OnErr result (frame.new ≡ frame.old) }
{
    match frame.get_mut(place.variable) {
        None => Err(ChangeFault::Unread(ReadFault::NoVariable)),
        Some(content) => content.change(alloc, place.element, edit),
    }
}

/// Unsets the text of a place of the frame, and gives how many variables are gone; none where the variable is a link.
pub(crate) fn unset(frame: &mut Frame, place: Place<'_>) -> Result<Option<usize>, UnsetFault>
    ensures ok { IfOk result (λ removed. MatchOption removed
        ((link_of (value_at frame.old place.entry.variable.now) ≢ None) × (frame.new ≡ frame.old))
        (λ count. UnsetsText frame.old (shown place.entry) count frame.new)) }
    ensures refused { IfErr result (RefusesUnset frame.old (shown place.entry)) }
    ensures err { OnErr result (frame.new ≡ frame.old) }
{
    let Some(content) = frame.get_mut(place.variable) else {
        return Err(UnsetFault::NoVariable);
    };
    match content.unset(place.element)? {
        Removal::Whole(count) => {
            frame.remove(place.variable);
            Ok(Some(count))
        }
        Removal::Element => Ok(Some(1)),
        Removal::Linked => Ok(None),
    }
}

/// Takes out the elements of a variable whose indices match a pattern, and gives how many they were; none of what is no array.
pub(crate) fn leave_out(frame: &mut Frame, variable: &str, pattern: &Text) -> usize
    ensures frame { frame.new ≡ frame_but pattern.now variable.now (value_at frame.old variable.now) frame.old }
    ensures counted { frame_count frame.new + result ≡ frame_count frame.old }
{
    match frame.get_mut(variable) {
        None => 0,
        Some(content) => content.leave_out(pattern),
    }
}

/// Gives a variable, which isn't there or counts one, a content that counts one. Gives how many variables came; none, and nothing is
/// done, where there is no room for the one that would come.
pub(crate) fn give(
    frame: &mut Frame,
    variable: &str,
    content: Content,
    room: usize,
) -> Result<Option<usize>, AllocError>
    requires short { IsShort variable.now }
    requires light { content_count content ≡ 1 }
    requires replaceable { weight_of content_count (value_at frame.old variable.now) ≤ 1 }
    ensures ok { IfOk result (λ added. MatchOption added
        ((frame.new ≡ frame.old) × (frame_count frame.old + room < frame_count (with_value frame.old variable.now content)))
        (λ count. (frame.new ≡ with_value frame.old variable.now content) × (frame_count frame.new ≡ frame_count frame.old + count) × (count ≤ room))) }
    ensures err { OnErr result (frame.new ≡ frame.old) }
{
    if let Some(held) = frame.get_mut(variable) {
        *held = content;
        return Ok(Some(0));
    }
    if room == 0 {
        return Ok(None);
    }
    frame.insert(variable, content)?;
    Ok(Some(1))
}

// How many variables a new variable counts: an array comes with its first element.
fn new_count(element: Option<&str>) -> usize
    ensures { result ≡ new_count (option_copied element.entry) }
{
    match element {
        None => 1,
        Some(_) => 2,
    }
}

// A new variable of this text, or of an element of it.
fn new_content(alloc: Global, element: Option<&str>, value: Text) -> Result<Content, AllocError>
    requires { IfSome (option_copied element) IsShort }
    ensures { IfOk result (λ content. content_with None (option_copied element.entry) value ≡ Ok content) }
{
    match element {
        None => Ok(Content::Scalar(value)),
        Some(index) => {
            let mut elements = Table::new(alloc);
            elements.insert(index, value)?;
            Ok(Content::Array(elements))
        }
    }
}
