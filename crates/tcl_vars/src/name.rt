ghost use Rattle.std.specs.Prelude.{◌≡◌, ◌≤◌, ℕ, true, Some, is_some, option_map, IfOk, IfSome};
ghost use Rattle.std.specs.Option.{option_copied};
ghost use Rattle.tcl_vars.specs.Name.{element_of, place_in_frame, place_of};
ghost use Rattle.tcl_vars.specs.Short.{IsShort, IsShortPlace};
ghost use Rattle.tcl_vars.specs.Shown.{shown};
ghost use Rattle.tcl_vars.specs.Store.{indexed, is_plain_name, variable_place};

use std::alloc::{AllocError, Global};
use tcl_text::Text;

/// A variable of a frame, or an element of it where an index is given.
#[derive(Clone, Copy)]
pub(crate) struct Place<'a> {
    pub frame: usize,
    pub variable: &'a str,
    pub element: Option<&'a str>,
}

impl<'a> Place<'a> {
    /// An element of a place, or the place itself; an element has no elements.
    pub(crate) fn indexed(self, index: Option<&'a str>) -> Option<Place<'a>>
        requires place { IsShortPlace (shown self) }
        requires index { IfSome (option_copied index) IsShort }
        ensures place { option_map shown result ≡ indexed (shown self.entry) (option_copied index.entry) }
        ensures short { IfSome result (λ place. IsShortPlace (shown place)) }
    {
        match (index, self.element) {
            (None, _) => Some(self),
            (Some(_), Some(_)) => None,
            (Some(_), None) => Some(Place {
                frame: self.frame,
                variable: self.variable,
                element: index,
            }),
        }
    }
}

/// The array and the index of a name `array(index)`, none where the name means a variable (Tcl(n), "Variable substitution").
pub fn element_of<'a>(name: &'a str) -> Option<(&'a str, &'a str)>
    ensures { option_map (λ p. (p.0.now, p.1.now)) result ≡ element_of name.now }
{
    name.strip_suffix(')')?.split_once('(')
}

/// Where a name without a leading `::` points in a frame.
fn place_in_frame<'a>(frame: usize, name: &'a str) -> Place<'a>
    requires { IsShort name.now }
    ensures place { shown result ≡ place_in_frame frame name.now }
    ensures short { IsShortPlace (shown result) }
{
    match element_of(name) {
        Some((variable, index)) => Place {
            frame,
            variable,
            element: Some(index),
        },
        None => Place {
            frame,
            variable: name,
            element: None,
        },
    }
}

/// Whether a name begins with no colon and ends with no bracket, as most do: it means a variable of the frame that it is used in.
#[inline(always)]
fn is_bare(name: &[u8]) -> bool
    ensures { result ≡ true → (frame : ℕ) → place_of frame name.now ≡ variable_place frame name.now }
{
    if name.is_empty() {
        return false;
    }
    let first = name[0];
    let last = name[name.len() - 1];
    first != b':' && last != b')'
}

/// Whether a name means a variable of the frame that it is used in, which can be seen at its ends.
#[inline(always)]
pub(crate) fn has_no_marks(name: &Text) -> bool
    ensures { result ≡ true → (frame : ℕ) → place_of frame name.now ≡ variable_place frame name.now }
{
    is_bare(name.as_str().as_bytes())
}

/// Where a name points that is used in a frame: a leading `::` means the global frame.
#[inline(always)]
pub(crate) fn place_of<'a>(frame: usize, name: &'a str) -> Place<'a>
    requires { IsShort name.now }
    ensures place { shown result ≡ place_of frame name.now }
    ensures short { IsShortPlace (shown result) }
{
    if is_bare(name.as_bytes()) {
        variable_place(frame, name)
    } else {
        marked_place(frame, name)
    }
}

/// The same, where the name may have marks.
fn marked_place<'a>(frame: usize, name: &'a str) -> Place<'a>
    requires { IsShort name.now }
    ensures place { shown result ≡ place_of frame name.now }
    ensures short { IsShortPlace (shown result) }
{
    match name.strip_prefix("::") {
        Some(rest) => place_in_frame(0, rest),
        None => place_in_frame(frame, name),
    }
}

/// A variable of a frame.
pub(crate) fn variable_place<'a>(frame: usize, variable: &'a str) -> Place<'a>
    ensures { shown result ≡ variable_place frame variable.now }
{
    Place {
        frame,
        variable,
        element: None,
    }
}

/// Whether an index is given.
pub(crate) fn is_given(element: Option<&str>) -> bool
    ensures { result ≡ is_some (option_copied element.entry) }
{
    match element {
        Some(_) => true,
        None => false,
    }
}

/// Whether a name means a variable of the frame that it is used in.
pub(crate) fn is_plain(name: &str) -> bool
    ensures { result ≡ is_plain_name name.now }
{
    !name.starts_with("::") && element_of(name).is_none()
}

/// Where a name points that is used in a frame.
#[inline(always)]
pub(crate) fn place_of_text<'a>(frame: usize, name: &'a Text) -> Place<'a>
    ensures place { shown result ≡ place_of frame name.now }
    ensures short { IsShortPlace (shown result) }
    ensures level { result.frame ≤ frame }
{
    place_of(frame, name.as_str())
}

/// Where the element points that an index gives of the array of a name; none where the name means an element.
pub(crate) fn element_place<'a>(frame: usize, name: &'a Text, index: &'a Text) -> Option<Place<'a>>
    ensures place { option_map shown result ≡ indexed (place_of frame name.now) (Some index.now) }
    ensures short { IfSome result (λ place. IsShortPlace (shown place)) }
    ensures level { IfSome result (λ place. place.frame ≤ frame) }
{
    place_of_text(frame, name).indexed(Some(index.as_str()))
}

/// A place whose names are kept apart from the store, which changes there.
#[derive(Drop)]
pub(crate) struct OwnPlace {
    frame: usize,
    variable: String,
    element: Option<String>,
}

impl OwnPlace {
    ghost use Rattle.tcl_vars.specs.Owned.{owned};

    pub(crate) fn of(alloc: Global, place: Place<'_>) -> Result<OwnPlace, AllocError>
        ensures { IfOk result (λ own. owned own ≡ shown place.entry) }
    {
        let variable = String::from_str(alloc, place.variable)?;
        let element = match place.element {
            Some(index) => Some(String::from_str(alloc, index)?),
            None => None,
        };
        Ok(OwnPlace {
            frame: place.frame,
            variable,
            element,
        })
    }

    pub(crate) fn place(&self) -> Place<'_>
        ensures { shown result ≡ owned self.now }
    {
        let element = match &self.element {
            Some(index) => Some(index.as_str()),
            None => None,
        };
        Place {
            frame: self.frame,
            variable: self.variable.as_str(),
            element,
        }
    }
}
