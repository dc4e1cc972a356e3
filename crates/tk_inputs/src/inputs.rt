ghost use Rattle.std.specs.Prelude.{◌≡◌, [], Some, None, IfOk, OnOk, OnErr};
ghost use Rattle.std.specs.Option.{option_copied};
ghost use Rattle.tk_inputs.specs.Inputs.{fresh, left_by, put_away, without_window};
ghost use Rattle.tk_inputs.specs.Shared.{own_of, LeavesAll, LeavesOthers};

use crate::Pointer;
use std::alloc::{AllocError, Global};
use std::collections::HashMap;
use std::marker::Model;
use tcl_text::Text;

/// The number of the main window `.`, which is the first of its application.
const MAIN: u64 = 0;

/// What an application keeps of its input. Windows are told by their numbers, so that one that is made again under an old path gets nothing
/// that was the old one's.
#[derive(Drop)]
pub struct Input {
    /// The window that gets the events of keys (focus(n)).
    pub focus: u64,
    /// Whether the application has the host's focus.
    pub has_focus: bool,
    pub pointer: Pointer,
    /// The button that the pointer is over, as the bindings of the class Button have it (button(n)).
    pub over: Option<u64>,
    /// The button that is pressed, as they have it.
    pub pressed: Option<u64>,
    /// The relief that the button had which was pressed last.
    pub relief: Option<Text>,
}

/// What all applications keep of their input, each application's apart from the others'. `owner` is an application's number everywhere; one
/// that hasn't been named yet keeps what *fresh* says: the main window has the keys, the host's focus is elsewhere, and the pointer too.
pub struct Inputs {
    rows: HashMap<usize, Input>,
}

impl Model for Inputs {
    ghost use Rattle.tk_inputs.specs.Shared.{Held};

    ghost Value = { Held };

    ghost view = { λ i. i.rows.entries };
}

/// What an application keeps at first.
fn fresh() -> Input
    ensures { result ≡ fresh }
{
    Input {
        focus: MAIN,
        has_focus: false,
        pointer: Pointer::new(),
        over: None,
        pressed: None,
        relief: None,
    }
}

impl Inputs {
    /// What no application has changed yet. It takes no memory.
    pub fn new(alloc: Global) -> Inputs
        ensures { result ≡ [] }
    {
        Inputs {
            rows: HashMap::new(alloc),
        }
    }

    /// The number of the window that gets the events of keys. It takes no memory.
    pub fn focus(&self, owner: usize) -> u64
        ensures { result ≡ (own_of owner self.now).focus }
    {
        match self.rows.get(&owner) {
            Some(input) => input.focus,
            None => MAIN,
        }
    }

    /// Whether the application has the host's focus. It takes no memory.
    pub fn has_focus(&self, owner: usize) -> bool
        ensures { result ≡ (own_of owner self.now).has_focus }
    {
        match self.rows.get(&owner) {
            Some(input) => input.has_focus,
            None => false,
        }
    }

    /// Where the pointer is in the application. It takes no memory.
    pub fn pointer(&self, owner: usize) -> Pointer
        ensures { result ≡ (own_of owner self.now).pointer }
    {
        match self.rows.get(&owner) {
            Some(input) => input.pointer,
            None => Pointer::new(),
        }
    }

    /// The button that the pointer is over. It takes no memory.
    pub fn over(&self, owner: usize) -> Option<u64>
        ensures { result ≡ (own_of owner self.now).over }
    {
        self.rows.get(&owner)?.over
    }

    /// The button that is pressed. It takes no memory.
    pub fn pressed(&self, owner: usize) -> Option<u64>
        ensures { result ≡ (own_of owner self.now).pressed }
    {
        self.rows.get(&owner)?.pressed
    }

    /// The relief that the button had which was pressed last. It takes no memory.
    pub fn relief(&self, owner: usize) -> Option<&Text>
        ensures { option_copied result ≡ (own_of owner self.now).relief }
    {
        self.rows.get(&owner)?.relief.as_ref()
    }

    /// What the application keeps.
    fn copy_of(&self, owner: usize) -> Result<Input, AllocError>
        ensures { IfOk result (λ input. input ≡ own_of owner self.now) }
    {
        match self.rows.get(&owner) {
            Some(input) => copy(input),
            None => Ok(fresh()),
        }
    }

    /// Puts this in the place of what the application keeps.
    fn put(&mut self, owner: usize, input: Input) -> Result<(), AllocError>
        ensures ok { OnOk result (own_of owner self.new ≡ input) }
        ensures others { LeavesOthers owner self.old self.new }
        ensures err { OnErr result (LeavesAll self.old self.new) }
    {
        match self.rows.insert(owner, input) {
            Ok(_) => Ok(()),
            Err(_) => Err(AllocError),
        }
    }

    /// The window of this number gets the events of keys from now on.
    pub fn set_focus(&mut self, owner: usize, number: u64) -> Result<(), AllocError>
        ensures ok { OnOk result (own_of owner self.new ≡ record (own_of owner self.old) { focus = number }) }
        ensures others { LeavesOthers owner self.old self.new }
        ensures err { OnErr result (LeavesAll self.old self.new) }
    {
        let mut input = self.copy_of(owner)?;
        input.focus = number;
        self.put(owner, input)
    }

    /// Whether the application has the host's focus from now on.
    pub fn set_has_focus(&mut self, owner: usize, has_focus: bool) -> Result<(), AllocError>
        ensures ok { OnOk result (own_of owner self.new ≡ record (own_of owner self.old) { has_focus = has_focus }) }
        ensures others { LeavesOthers owner self.old self.new }
        ensures err { OnErr result (LeavesAll self.old self.new) }
    {
        let mut input = self.copy_of(owner)?;
        input.has_focus = has_focus;
        self.put(owner, input)
    }

    /// The pointer is here from now on.
    pub fn set_pointer(&mut self, owner: usize, pointer: Pointer) -> Result<(), AllocError>
        ensures ok { OnOk result (own_of owner self.new ≡ record (own_of owner self.old) { pointer = pointer }) }
        ensures others { LeavesOthers owner self.old self.new }
        ensures err { OnErr result (LeavesAll self.old self.new) }
    {
        let mut input = self.copy_of(owner)?;
        input.pointer = pointer;
        self.put(owner, input)
    }

    /// The pointer has come into a button.
    pub fn enter(&mut self, owner: usize, number: u64) -> Result<(), AllocError>
        ensures ok { OnOk result (own_of owner self.new ≡ record (own_of owner self.old) { over = Some number }) }
        ensures others { LeavesOthers owner self.old self.new }
        ensures err { OnErr result (LeavesAll self.old self.new) }
    {
        let mut input = self.copy_of(owner)?;
        input.over = Some(number);
        self.put(owner, input)
    }

    /// The pointer has gone out of a button: it is over none from now on, if it was over this one.
    pub fn leave(&mut self, owner: usize, number: u64) -> Result<(), AllocError>
        ensures ok { OnOk result (own_of owner self.new ≡ left_by number (own_of owner self.old)) }
        ensures others { LeavesOthers owner self.old self.new }
        ensures err { OnErr result (LeavesAll self.old self.new) }
    {
        let mut input = self.copy_of(owner)?;
        input.over = put_away(number, input.over);
        self.put(owner, input)
    }

    /// A button is pressed, which had this relief.
    pub fn press(&mut self, owner: usize, number: u64, relief: Text) -> Result<(), AllocError>
        ensures ok { OnOk result (own_of owner self.new
            ≡ record (own_of owner self.old) { pressed = Some number; relief = Some relief }) }
        ensures others { LeavesOthers owner self.old self.new }
        ensures err { OnErr result (LeavesAll self.old self.new) }
    {
        let mut input = self.copy_of(owner)?;
        input.pressed = Some(number);
        input.relief = Some(relief);
        self.put(owner, input)
    }

    /// No button is pressed from now on.
    pub fn release(&mut self, owner: usize) -> Result<(), AllocError>
        ensures ok { OnOk result (own_of owner self.new ≡ record (own_of owner self.old) { pressed = None }) }
        ensures others { LeavesOthers owner self.old self.new }
        ensures err { OnErr result (LeavesAll self.old self.new) }
    {
        let mut input = self.copy_of(owner)?;
        input.pressed = None;
        self.put(owner, input)
    }

    /// A window is gone: the main window has the keys if it had them, and the pointer is over it and it is pressed no longer. It takes no memory.
    #[tactic(auto, unfolding(crate::specs::Inputs::without_window))]
    pub fn forget(&mut self, owner: usize, number: u64)
        ensures own { own_of owner self.new ≡ without_window number (own_of owner self.old) }
        ensures others { LeavesOthers owner self.old self.new }
    {
        if let Some(input) = self.rows.get_mut(&owner) {
            forget_in(input, number);
        }
    }
}

/// The same.
fn copy(input: &Input) -> Result<Input, AllocError>
    ensures { IfOk result (λ copy. copy ≡ input.now) }
{
    let relief = match &input.relief {
        Some(relief) => Some(relief.copy()?),
        None => None,
    };
    Ok(Input {
        focus: input.focus,
        has_focus: input.has_focus,
        pointer: input.pointer,
        over: input.over,
        pressed: input.pressed,
        relief,
    })
}

/// The window kept, unless it is the one of this number.
fn put_away(number: u64, kept: Option<u64>) -> Option<u64>
    ensures { result ≡ put_away number kept }
{
    match kept {
        Some(other) if other != number => Some(other),
        _ => None,
    }
}

/// Takes a window out of what is kept.
#[tactic(auto, unfolding(crate::specs::Inputs::without_window))]
fn forget_in(input: &mut Input, number: u64)
    ensures { input.new ≡ without_window number input.old }
{
    if input.focus == number {
        input.focus = MAIN;
    }
    input.over = put_away(number, input.over);
    input.pressed = put_away(number, input.pressed);
}

/// By hand: a proof sees one call where it is dropped, and not its parts.
impl Drop for Inputs {
    fn drop(self) {
        let Inputs { rows: _ } = self;
    }
}
