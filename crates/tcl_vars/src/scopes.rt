ghost use Rattle.std.specs.Prelude.{◌≡◌, ◌≢◌, ◌<◌, ◌≤◌, ◌-◌, [], ◌∷◌, ◌++◌, length, slice_set, take, IfOk, IfErr, OnOk, OnErr, map, unwrap_or, is_some, false, MatchResult, MatchOption, MatchBool, Ok, Err, Some, None};
ghost use Rattle.std.specs.Option.{option_copied};
ghost use Rattle.std.specs.Bool.{OnTrue};
ghost use Rattle.tcl_vars.specs.Add.{Adds};
ghost use Rattle.tcl_vars.specs.Change.{Changes, edited_by};
ghost use Rattle.tcl_vars.specs.Changing.{ChangesHere, ChangesThere, KeepsHere};
ghost use Rattle.tcl_vars.specs.Put.{Sets, SetsThere};
ghost use Rattle.tcl_vars.specs.Short.{IsShortPlace};
ghost use Rattle.tcl_vars.specs.Shown.{shown};
ghost use Rattle.tcl_vars.specs.Links.{IsBelow};
ghost use Rattle.tcl_vars.specs.Name.{place_of};
ghost use Rattle.tcl_vars.specs.Table.{weight_of};
ghost use Rattle.tcl_vars.specs.Unset.{IsGone, Unsets, UnsetsThere, frame_but};
ghost use Rattle.tcl_vars.specs.Store.{content_at, link_of, end_of, text_at, variable_in, number_in, element_in, with_variable, with_element, without_variable, without_elements, frame_at, content_count, variable_count, with_content, with_link, with_array, has_variable, is_element_in, elements_in, pairs_of, variable_place};
ghost use Rattle.tcl_text.specs.Limits.{most_variables};

use crate::arrays::{names_of, pairs_of};
use crate::content::{
    Content, Outcome, array_state, elements_of, holds_value, integer_in, is_there, link_of, text_of,
};
use crate::frame::{
    Frame, add, change, empty_frame, give, keep_memory, leave_out, put, unset, variable_count,
};
use crate::name::{
    OwnPlace, Place, element_place, has_no_marks, is_given, is_plain, place_of, place_of_text,
    variable_place,
};
use crate::table::Table;
use std::alloc::{AllocError, Global};
use std::cell::Cell;
use std::marker::Model;
use tcl_text::{ChangeFault, Edit, LinkFault, ReadFault, SetFault, Text, TextList, UnsetFault};

/// How many variables there are at most: every name of every frame counts, and every element of an array.
pub const MAX_VARIABLES: usize = 4096;

/// The variables of one application: the global frame, and one for each procedure that runs. A level counts the frames before its
/// own, so that 0 is that of the global one.
pub struct Scopes {
    frames: Vec<Frame>,
    count: usize,
    /// Frames of procedures that have ended, empty: the next ones take their memory.
    spare: Vec<Frame>,
    alloc: Global,
}

impl Model for Scopes {
    ghost use Rattle.std.specs.Prelude.{ℕ, List};
    ghost use Rattle.tcl_vars.specs.declared.content.Content.{Content};

    ghost Value = { List (List (List ℕ × Content)) };

    ghost use Rattle.tcl_vars.specs.Sound.{IsSound};

    ghost view = { λ s. s.frames.items };

    ghost invariant = { λ s. IsSound s.frames.items s.count };
}

/// Where links end, with what the variable there stands for.
#[derive(Clone, Copy)]
struct Found<'s, 'n> {
    place: Place<'n>,
    content: Option<&'s Content>,
}

impl Scopes {
    /// The global frame, without variables.
    pub fn new(alloc: Global) -> Result<Scopes, AllocError>
        ensures { IfOk result (λ scopes. scopes ≡ [] ∷ []) }
    {
        let mut frames = Vec::new(alloc);
        frames.push(Table::new(alloc))?;
        Ok(Scopes {
            frames,
            count: 0,
            spare: Vec::new(alloc),
            alloc,
        })
    }

    /// How many frames there are: the global one at least. The levels are those below this number.
    pub fn levels(&self) -> usize
        ensures value { result ≡ length self.now }
        ensures rooted { 0 < length self.now }
    {
        self.frames.len()
    }

    /// Adds a frame without variables, for a procedure that begins (proc(n)).
    pub fn push_frame(&mut self) -> Result<(), AllocError>
        ensures ok { OnOk result (self.new ≡ self.old ++ [] ∷ []) }
        ensures err { OnErr result (self.new ≡ self.old) }
    {
        let all = self.frames.len();
        self.spare.reserve(all)?;
        let frame = empty_frame(self.alloc, &mut self.spare);
        self.frames.push(frame)?;
        Ok(())
    }

    /// Drops the last frame with its variables, where a procedure ends (proc(n)). It takes no memory.
    pub fn pop_frame(&mut self)
        requires { 1 < length self.old }
        ensures { self.new ≡ take (length self.old - 1) self.old }
    {
        let frame = self.frames.pop().unwrap();
        self.count -= variable_count(&frame);
        keep_memory(&mut self.spare, frame);
    }

    /// The text of the variable or element that a name means in a frame (Tcl(n), set(n)). `NoVariable` (15), `NoElement`
    /// (16), `IsArray` (17) where it means a whole array, `NotArray` (18) for an element of what is no array. It takes no memory.
    pub fn get(&self, frame: usize, name: &Text) -> Result<&Text, ReadFault>
        requires { frame < length self.now }
        ensures { MatchResult result
            (λ text. variable_in self.now frame name.now ≡ Ok text.now)
            (λ fault. variable_in self.now frame name.now ≡ Err fault) }
    {
        self.read(place_of_text(frame, name))
    }

    /// The integer that the text of the variable or element is which a name means in a frame (Tcl(n), expr(n)); none where it
    /// can't be read or is none. The hint is where in its frame the name stood when it was last read by this hint: a wrong one costs a
    /// look-up. It takes no memory.
    pub fn number_at(&self, frame: usize, name: &Text, hint: &Cell<u32>) -> Option<i64>
        requires { frame < length self.now }
        ensures { result ≡ number_in self.now frame name.now }
    {
        match self.read_near(place_of_text(frame, name), hint) {
            Ok(text) => integer_in(text),
            Err(_) => None,
        }
    }

    /// The text of the element that an index gives of the array that a name means in a frame (Tcl(n), set(n)).
    /// `NoVariable` (15), `NoElement` (16), `NotArray` (18). It takes no memory.
    pub fn get_element(&self, frame: usize, name: &Text, index: &Text) -> Result<&Text, ReadFault>
        requires { frame < length self.now }
        ensures { MatchResult result
            (λ text. element_in self.now frame name.now index.now ≡ Ok text.now)
            (λ fault. element_in self.now frame name.now index.now ≡ Err fault) }
    {
        match element_place(frame, name, index) {
            Some(place) => self.read(place),
            None => Err(ReadFault::NotArray),
        }
    }

    /// Sets the variable or element that a name means in a frame (set(n)). `IsArray` (17) where it means a whole array,
    /// `NotArray` (18) for an element of what is no array, `Full` (19) where there would be more than 4,096 variables.
    pub fn set(&mut self, frame: usize, name: &Text, value: Text) -> Result<(), SetFault>
        requires { frame < length self.old }
        ensures ok { OnOk result (with_variable self.old frame name.now value ≡ Ok self.new) }
        ensures refused { IfErr result (λ fault. fault ≢ SetFault.NoMemory → with_variable self.old frame name.now value ≡ Err fault) }
        ensures err { OnErr result (self.new ≡ self.old) }
        ensures read { OnOk result (variable_in self.new frame name.now ≡ Ok value) }
        ensures levels { length self.new ≡ length self.old }
    {
        self.write(place_of_text(frame, name), value)?;
        Ok(())
    }

    /// Sets the element that an index gives of the array that a name means in a frame (array(n), `array set`).
    /// `NotArray` (18) where the name means a scalar or an element, `Full` (19) where there would be more than 4,096 variables.
    pub fn set_element(
        &mut self,
        frame: usize,
        name: &Text,
        index: &Text,
        value: Text,
    ) -> Result<(), SetFault>
        requires { frame < length self.old }
        ensures ok { OnOk result (with_element self.old frame name.now index.now value ≡ Ok self.new) }
        ensures refused { IfErr result (λ fault. fault ≢ SetFault.NoMemory → with_element self.old frame name.now index.now value ≡ Err fault) }
        ensures err { OnErr result (self.new ≡ self.old) }
        ensures read { OnOk result (element_in self.new frame name.now index.now ≡ Ok value) }
        ensures levels { length self.new ≡ length self.old }
    {
        match element_place(frame, name, index) {
            Some(place) => {
                self.write(place, value)?;
                Ok(())
            }
            None => Err(SetFault::NotArray),
        }
    }

    /// Adds an amount to the integer that a variable is which a name without marks means in a frame, and gives the sum (incr(n)). None, and nothing
    /// is done, where the name has marks or the variable is a link, where it has no integer, or where 64 bits don't hold the sum.
    pub fn add(
        &mut self,
        frame: usize,
        name: &Text,
        amount: i64,
    ) -> Result<Option<Text>, AllocError>
        requires { frame < length self.old }
        ensures ok { IfOk result (λ sum. MatchOption sum (self.new ≡ self.old) (λ text. Adds self.old frame name.now amount text self.new)) }
        ensures err { OnErr result (self.new ≡ self.old) }
        ensures levels { length self.new ≡ length self.old }
    {
        let _ = &self.frames;
        if has_no_marks(name) {
            self.add_unmarked(frame, name, amount)
        } else {
            Ok(None)
        }
    }

    /// Changes the text of the variable or element that a name means in a frame, which has to be there. Characters
    /// that are added to a text which nobody else holds cost what they are long (append(n), lappend(n)). `Unread` where it can't be read
    /// (15 to 18), `BadList` (3) where items are added to what is no list, `TooLong` (4) where the text would pass 65,536 bytes.
    pub fn change(&mut self, frame: usize, name: &Text, edit: Edit<'_>) -> Result<(), ChangeFault>
        requires { frame < length self.old }
        ensures ok { OnOk result (Changes self.old frame name.now edit.entry self.new) }
        ensures refused { IfErr result (λ fault. fault ≢ ChangeFault.NoMemory → edited_by edit.entry (variable_in self.old frame name.now) ≡ Err fault) }
        ensures err { OnErr result (self.new ≡ self.old) }
        ensures levels { length self.new ≡ length self.old }
    {
        let _ = &self.frames;
        self.change_at(place_of_text(frame, name), edit)?;
        Ok(())
    }

    /// Unsets the variable or element that a name means in a frame; an array with its elements (unset(n)). A link stays.
    /// `NoVariable` (15), `NoElement` (16), `NotArray` (18) for an element of what is no array.
    pub fn unset(&mut self, frame: usize, name: &Text) -> Result<(), UnsetFault>
        requires { frame < length self.old }
        ensures ok { OnOk result (without_variable self.old frame name.now ≡ Ok self.new) }
        ensures refused { IfErr result (λ fault. fault ≢ UnsetFault.NoMemory → without_variable self.old frame name.now ≡ Err fault) }
        ensures err { OnErr result (self.new ≡ self.old) }
        ensures gone { OnOk result (has_variable self.new frame name.now ≡ false) }
        ensures levels { length self.new ≡ length self.old }
    {
        self.erase(place_of_text(frame, name))?;
        Ok(())
    }

    /// Unsets the elements whose indices match a pattern, of the array that a name means in a frame (array(n), `array unset`). What is no array
    /// stays.
    pub fn unset_elements(
        &mut self,
        frame: usize,
        name: &Text,
        pattern: &Text,
    ) -> Result<(), AllocError>
        requires { frame < length self.old }
        ensures ok { OnOk result (self.new ≡ without_elements self.old frame name.now pattern.now) }
        ensures err { OnErr result (self.new ≡ self.old) }
        ensures levels { length self.new ≡ length self.old }
    {
        let Some(found) = self.lead(place_of_text(frame, name)) else {
            return Ok(());
        };
        let Some(_elements) = elements_of(found.content, found.place.element) else {
            return Ok(());
        };
        let end = OwnPlace::of(self.alloc, found.place)?;
        self.leave_out(end.place(), pattern);
        Ok(())
    }

    /// Whether there is the variable or element that a name means in a frame (info(n), `info exists`). It takes no memory.
    pub fn exists(&self, frame: usize, name: &Text) -> bool
        requires { frame < length self.now }
        ensures { result ≡ has_variable self.now frame name.now }
    {
        match self.lead(place_of_text(frame, name)) {
            Some(found) => is_there(found.content, found.place.element),
            None => false,
        }
    }

    /// Whether a name means an element in a frame, or an element of an element, and so no variable. It takes no memory.
    pub fn is_element(&self, frame: usize, name: &Text) -> bool
        requires { frame < length self.now }
        ensures { result ≡ is_element_in self.now frame name.now }
    {
        match self.lead(place_of_text(frame, name)) {
            Some(found) => is_given(found.place.element),
            None => true,
        }
    }

    /// Makes a name of a frame a link to a name in an earlier frame (upvar(n), global(n)). A link is replaced. `BadName` for
    /// an element's name or one with a leading `::`, `Exists` where a variable that is no link has the name, both without a number; `Full`
    /// (19) where there would be more than 4,096 variables.
    pub fn link(
        &mut self,
        frame: usize,
        name: &Text,
        to_frame: usize,
        to_name: &Text,
    ) -> Result<(), LinkFault>
        requires level { frame < length self.old }
        requires earlier { to_frame < frame }
        ensures ok { OnOk result (with_link self.old frame name.now to_frame to_name.now ≡ Ok self.new) }
        ensures refused { IfErr result (λ fault. fault ≢ LinkFault.NoMemory → with_link self.old frame name.now to_frame to_name.now ≡ Err fault) }
        ensures err { OnErr result (self.new ≡ self.old) }
        ensures leads { OnOk result (variable_in self.new frame name.now ≡ variable_in self.old to_frame to_name.now) }
        ensures levels { length self.new ≡ length self.old }
    {
        let _ = &self.frames;
        if !is_plain(name.as_str()) {
            return Err(LinkFault::BadName);
        }
        let place = variable_place(frame, name.as_str());
        if holds_value(self.content(place)) {
            return Err(LinkFault::Exists);
        }
        let link = Content::Link(to_frame, to_name.copy()?);
        if self.give(place, link)? {
            Ok(())
        } else {
            Err(LinkFault::Full)
        }
    }

    /// Makes the variable that a name means in a frame an array without elements, if it isn't there; an array stays (array(n),
    /// `array set`). `NotArray` (18) for a scalar or an element, `Full` (19) where there would be more than 4,096 variables.
    pub fn make_array(&mut self, frame: usize, name: &Text) -> Result<(), SetFault>
        requires { frame < length self.old }
        ensures ok { OnOk result (with_array self.old frame name.now ≡ Ok self.new) }
        ensures refused { IfErr result (λ fault. fault ≢ SetFault.NoMemory → with_array self.old frame name.now ≡ Err fault) }
        ensures err { OnErr result (self.new ≡ self.old) }
        ensures levels { length self.new ≡ length self.old }
    {
        let Some(found) = self.lead(place_of_text(frame, name)) else {
            return Err(SetFault::NotArray);
        };
        match array_state(found.content, found.place.element) {
            None => return Err(SetFault::NotArray),
            Some(true) => return Ok(()),
            Some(false) => {}
        }
        let end = OwnPlace::of(self.alloc, found.place)?;
        if self.give(end.place(), Content::Array(Table::new(self.alloc)))? {
            Ok(())
        } else {
            Err(SetFault::Full)
        }
    }

    /// Whether a name means an array in a frame (array(n), `array exists`). It takes no memory.
    pub fn has_array(&self, frame: usize, name: &Text) -> bool
        requires { frame < length self.now }
        ensures { result ≡ is_some (elements_in self.now frame name.now) }
    {
        self.elements(frame, name).is_some()
    }

    /// How many elements the array has that a name means in a frame; 0 if there is none (array(n), `array size`). It takes no
    /// memory.
    pub fn array_size(&self, frame: usize, name: &Text) -> usize
        requires { frame < length self.now }
        ensures { result ≡ length (unwrap_or (elements_in self.now frame name.now) []) }
    {
        match self.elements(frame, name) {
            Some(elements) => elements.len(),
            None => 0,
        }
    }

    /// The indices of the array that a name means in a frame, in the order in which the elements were made; none if there is no
    /// array (array(n), `array names`).
    pub fn array_names(&self, frame: usize, name: &Text) -> Result<TextList, AllocError>
        requires { frame < length self.now }
        ensures { IfOk result (λ names. names ≡ map (λ e. e.0) (unwrap_or (elements_in self.now frame name.now) [])) }
    {
        match self.elements(frame, name) {
            Some(elements) => names_of(self.alloc, elements),
            None => Ok(TextList::new(self.alloc)),
        }
    }

    /// The indices and values of the array that a name means in a frame, in turn, in the order in which the elements were made;
    /// none if there is no array (array(n), `array get`).
    pub fn array_pairs(&self, frame: usize, name: &Text) -> Result<TextList, AllocError>
        requires { frame < length self.now }
        ensures { IfOk result (λ pairs. pairs ≡ pairs_of (unwrap_or (elements_in self.now frame name.now) [])) }
    {
        match self.elements(frame, name) {
            Some(elements) => pairs_of(self.alloc, elements),
            None => Ok(TextList::new(self.alloc)),
        }
    }

    // The elements of the array that a name means.
    fn elements(&self, frame: usize, name: &Text) -> Option<&Table<Text>>
        requires { frame < length self.now }
        ensures { option_copied result ≡ elements_in self.now frame name.now }
    {
        match self.lead(place_of_text(frame, name)) {
            Some(found) => elements_of(found.content, found.place.element),
            None => None,
        }
    }

    // Gives the variable of a place, which isn't there or counts one, a content that counts one; false, and nothing is done, where there
    // is no room.
    fn give(&mut self, place: Place<'_>, content: Content) -> Result<bool, AllocError>
        requires level { place.frame < length self.old }
        requires short { IsShortPlace (shown place) }
        requires light { content_count content ≡ 1 }
        requires replaceable { weight_of content_count (content_at self.old (shown place)) ≤ 1 }
        requires below { IsBelow place.frame content }
        ensures ok { IfOk result (λ given. MatchBool given
            ((self.new ≡ with_content self.old (shown place.entry) content) × (variable_count self.new ≤ most_variables))
            ((self.new ≡ self.old) × (most_variables < variable_count (with_content self.old (shown place.entry) content)))) }
        ensures err { OnErr result (self.new ≡ self.old) }
    {
        let room = MAX_VARIABLES - self.count;
        let frame = &mut self.frames[place.frame];
        match give(frame, place.variable, content, room)? {
            Some(added) => {
                self.count += added;
                Ok(true)
            }
            None => Ok(false),
        }
    }

    // What the variable of a place stands for.
    fn content(&self, place: Place<'_>) -> Option<&Content>
        requires { place.frame < length self.now }
        ensures { option_copied result ≡ content_at self.now (shown place.entry) }
    {
        self.frames[place.frame].get(place.variable)
    }

    // The same, where its place in the frame is hinted.
    fn content_near(&self, place: Place<'_>, hint: &Cell<u32>) -> Option<&Content>
        requires { place.frame < length self.now }
        ensures { option_copied result ≡ content_at self.now (shown place.entry) }
    {
        self.frames[place.frame].near(hint, place.variable)
    }

    // Follows links, each to an earlier frame, and gives where they end; none where an element is used as an array.
    fn lead<'s: 'n, 'n>(&'s self, mut place: Place<'n>) -> Option<Found<'s, 'n>>
        requires level { place.frame < length self.now }
        requires short { IsShortPlace (shown place) }
        ensures { MatchOption result
            (end_of self.now (shown place.entry) ≡ None)
            (λ found. (found.place.frame < length self.now) × (end_of self.now (shown place.entry) ≡ Some (shown found.place))
            × (option_copied found.content ≡ content_at self.now (shown found.place)) × IsShortPlace (shown found.place)) }
    {
        let _ = &self.frames;
        loop {
            let content = self.content(place);
            let Some((frame, name)) = link_of(content) else {
                return Some(Found { place, content });
            };
            place = place_of(frame, name).indexed(place.element)?;
        }
    }

    // The text to which a place leads, most often its own.
    fn read(&self, place: Place<'_>) -> Result<&Text, ReadFault>
        requires level { place.frame < length self.now }
        requires short { IsShortPlace (shown place) }
        ensures { MatchResult result
            (λ text. text_at self.now (end_of self.now (shown place.entry)) ≡ Ok text.now)
            (λ fault. text_at self.now (end_of self.now (shown place.entry)) ≡ Err fault) }
    {
        let held = self.content(place);
        match link_of(held) {
            None => text_of(held, place.element),
            Some(_) => self.read_linked(place),
        }
    }

    // The text to which the link of a place leads.
    fn read_linked(&self, place: Place<'_>) -> Result<&Text, ReadFault>
        requires level { place.frame < length self.now }
        requires short { IsShortPlace (shown place) }
        ensures { MatchResult result
            (λ text. text_at self.now (end_of self.now (shown place.entry)) ≡ Ok text.now)
            (λ fault. text_at self.now (end_of self.now (shown place.entry)) ≡ Err fault) }
    {
        let Some(found) = self.lead(place) else {
            return Err(ReadFault::NotArray);
        };
        text_of(found.content, found.place.element)
    }

    // The same, where the place of its variable in the frame is hinted.
    fn read_near(&self, place: Place<'_>, hint: &Cell<u32>) -> Result<&Text, ReadFault>
        requires level { place.frame < length self.now }
        requires short { IsShortPlace (shown place) }
        ensures { MatchResult result
            (λ text. text_at self.now (end_of self.now (shown place.entry)) ≡ Ok text.now)
            (λ fault. text_at self.now (end_of self.now (shown place.entry)) ≡ Err fault) }
    {
        let content = self.content_near(place, hint);
        match link_of(content) {
            None => text_of(content, place.element),
            Some(_) => self.read_linked(place),
        }
    }

    // Sets the text to which a place leads.
    fn write(&mut self, place: Place<'_>, value: Text) -> Result<(), SetFault>
        requires level { place.frame < length self.old }
        requires short { IsShortPlace (shown place) }
        ensures { SetsThere self.old (shown place.entry) value result self.new }
    {
        let _ = &self.frames;
        match self.put(place, value)? {
            None => Ok(()),
            Some(value) => {
                self.write_linked(place, value)?;
                Ok(())
            }
        }
    }

    // Sets the text to which the link of a place leads.
    fn write_linked(&mut self, place: Place<'_>, value: Text) -> Result<(), SetFault>
        requires level { place.frame < length self.old }
        requires short { IsShortPlace (shown place) }
        ensures { SetsThere self.old (shown place.entry) value result self.new }
    {
        let _ = &self.frames;
        let end = match self.lead(place) {
            Some(found) => OwnPlace::of(self.alloc, found.place)?,
            None => return Err(SetFault::NotArray),
        };
        self.put(end.place(), value)?;
        Ok(())
    }

    // Sets the text of a place, or gives it back where the variable is a link.
    fn put(&mut self, place: Place<'_>, value: Text) -> Result<Option<Text>, SetFault>
        requires level { place.frame < length self.old }
        requires short { IsShortPlace (shown place) }
        ensures ok { IfOk result (λ back. MatchOption back
            (Sets self.old (shown place.entry) value (Ok self.new))
            (λ text. (link_of (content_at self.old (shown place.entry)) ≢ None) × (text ≡ value) × (self.new ≡ self.old))) }
        ensures refused { IfErr result (λ fault. fault ≢ SetFault.NoMemory → Sets self.old (shown place.entry) value (Err fault)) }
        ensures err { OnErr result (self.new ≡ self.old) }
    {
        let alloc = self.alloc;
        let room = MAX_VARIABLES - self.count;
        let frame = &mut self.frames[place.frame];
        match put(alloc, frame, place, value, room)? {
            Outcome::Added(added) => {
                self.count += added;
                Ok(None)
            }
            Outcome::Linked(value) => Ok(Some(value)),
        }
    }

    // Adds an amount to the integer that a variable is which a name without marks means in a frame.
    fn add_unmarked(
        &mut self,
        frame: usize,
        name: &Text,
        amount: i64,
    ) -> Result<Option<Text>, AllocError>
        requires level { frame < length self.old }
        requires unmarked { place_of frame name.now ≡ variable_place frame name.now }
        ensures ok { IfOk result (λ sum. MatchOption sum (self.new ≡ self.old) (λ text. Adds self.old frame name.now amount text self.new)) }
        ensures err { OnErr result (self.new ≡ self.old) }
        ensures levels { length self.new ≡ length self.old }
    {
        let alloc = self.alloc;
        let variables = &mut self.frames[frame];
        let sum = add(alloc, variables, name.as_str(), amount)?;
        Ok(sum)
    }

    // Changes the text to which a place leads.
    fn change_at(&mut self, place: Place<'_>, edit: Edit<'_>) -> Result<(), ChangeFault>
        requires level { place.frame < length self.old }
        requires short { IsShortPlace (shown place) }
        ensures { ChangesThere self.old (shown place.entry) edit.entry result self.new }
    {
        let _ = &self.frames;
        let done = self.change_here(place, edit)?;
        if done {
            return Ok(());
        }
        self.change_linked(place, edit)?;
        Ok(())
    }

    // Changes the text to which the link of a place leads.
    fn change_linked(&mut self, place: Place<'_>, edit: Edit<'_>) -> Result<(), ChangeFault>
        requires level { place.frame < length self.old }
        requires short { IsShortPlace (shown place) }
        ensures { ChangesThere self.old (shown place.entry) edit.entry result self.new }
    {
        let _ = &self.frames;
        let end = match self.lead(place) {
            Some(found) => OwnPlace::of(self.alloc, found.place)?,
            None => return Err(ChangeFault::Unread(ReadFault::NotArray)),
        };
        self.change_here(end.place(), edit)?;
        Ok(())
    }

    // Changes the text of a place; false, and nothing is done, where the variable is a link.
    fn change_here(&mut self, place: Place<'_>, edit: Edit<'_>) -> Result<bool, ChangeFault>
        requires { place.frame < length self.old }
        ensures ok { IfOk result (λ done. MatchBool done
            (ChangesHere self.old (shown place.entry) edit.entry self.new)
            ((link_of (content_at self.old (shown place.entry)) ≢ None) × (self.new ≡ self.old))) }
        ensures refused { IfErr result (λ fault. fault ≢ ChangeFault.NoMemory → KeepsHere self.old (shown place.entry) edit.entry fault) }
        ensures err { OnErr result (self.new ≡ self.old) }
    {
        let alloc = self.alloc;
        let frame = &mut self.frames[place.frame];
        let done = change(alloc, frame, place, edit)?;
        Ok(done)
    }

    // Unsets the text to which a place leads.
    fn erase(&mut self, place: Place<'_>) -> Result<(), UnsetFault>
        requires level { place.frame < length self.old }
        requires short { IsShortPlace (shown place) }
        ensures { UnsetsThere self.old (shown place.entry) result self.new }
    {
        let _ = &self.frames;
        if self.take(place)? {
            return Ok(());
        }
        self.erase_linked(place)?;
        Ok(())
    }

    // Unsets the text to which the link of a place leads.
    fn erase_linked(&mut self, place: Place<'_>) -> Result<(), UnsetFault>
        requires level { place.frame < length self.old }
        requires short { IsShortPlace (shown place) }
        ensures { UnsetsThere self.old (shown place.entry) result self.new }
    {
        let _ = &self.frames;
        let end = match self.lead(place) {
            Some(found) => OwnPlace::of(self.alloc, found.place)?,
            None => return Err(UnsetFault::NotArray),
        };
        self.take(end.place())?;
        Ok(())
    }

    // Unsets the text of a place; false, and nothing is done, where the variable is a link.
    fn take(&mut self, place: Place<'_>) -> Result<bool, UnsetFault>
        requires { place.frame < length self.old }
        ensures ok { IfOk result (λ done. MatchBool done
            (Unsets self.old (shown place.entry) (Ok self.new))
            ((link_of (content_at self.old (shown place.entry)) ≢ None) × (self.new ≡ self.old))) }
        ensures gone { IfOk result (λ done. OnTrue done (IsGone self.old self.new (shown place.entry))) }
        ensures refused { IfErr result (λ fault. Unsets self.old (shown place.entry) (Err fault)) }
        ensures err { OnErr result (self.new ≡ self.old) }
    {
        let frame = &mut self.frames[place.frame];
        match unset(frame, place)? {
            Some(removed) => {
                self.count -= removed;
                Ok(true)
            }
            None => Ok(false),
        }
    }

    // Takes out the elements of the variable of a place whose indices match a pattern.
    fn leave_out(&mut self, place: Place<'_>, pattern: &Text)
        requires { place.frame < length self.old }
        ensures { self.new ≡ slice_set self.old place.entry.frame
            (frame_but pattern.now place.entry.variable.now (content_at self.old (shown place.entry)) (frame_at self.old place.entry.frame)) }
    {
        let frame = &mut self.frames[place.frame];
        self.count -= leave_out(frame, place.variable, pattern);
    }
}

/// By hand: a proof sees one call where it is dropped, and not its parts.
impl Drop for Scopes {
    fn drop(self) {
        let Scopes {
            frames: _,
            count: _,
            spare: _,
            alloc: _,
        } = self;
    }
}
