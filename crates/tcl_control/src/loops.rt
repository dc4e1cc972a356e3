ghost use Rattle.std.specs.Prelude.{◌≡◌, ◌<◌, length, map, IfOk};
ghost use Rattle.tcl_control.specs.Loops.{items_tested};
ghost use Rattle.tcl_control.specs.Verdicts.{tested_as};

use crate::assign::assign_groups;
use crate::expression::Expression;
use std::alloc::{AllocError, Global};
use std::marker::Model;
use tcl_commands::Groups;
use tcl_table::Source;
use tcl_text::Text;
use tcl_vars::Scopes;

/// What a loop tests before each iteration.
#[derive(Drop)]
pub enum Test {
    /// Whether a condition holds.
    Holds(Expression),
    /// Whether there are items left, which are then given to their names.
    Items(Groups),
}

/// A loop: what it tests, its body, and what `for` runs after the body (while(n), for(n), foreach(n)).
#[derive(Drop)]
pub struct Loop {
    pub test: Test,
    pub body: Source,
    pub next: Option<Source>,
}

/// A loop that is handed on without being moved. Contracts see the loop.
pub struct Looping {
    looping: Box<Loop>,
}

impl Model for Looping {
    ghost use Rattle.tcl_control.specs.declared.loops.Loop.{Loop};

    ghost Value = { Loop };

    ghost view = { λ l. l.looping.value };
}

impl Looping {
    /// This loop.
    pub fn new(alloc: Global, looping: Loop) -> Result<Looping, AllocError>
        ensures { IfOk result (λ made. made ≡ looping) }
    {
        Ok(Looping {
            looping: Box::new(alloc, looping)?,
        })
    }

    /// The loop. It takes no memory.
    pub fn get(&self) -> &Loop
        ensures { result.now ≡ self.now }
    {
        &self.looping
    }

    /// The loop, taken out. It takes no memory.
    pub fn into_inner(self) -> Loop
        ensures { result ≡ self }
    {
        let Looping { looping } = self;
        Box::into_inner(looping)
    }
}

/// What a test for items came to.
#[derive(Drop)]
pub enum Verdict {
    /// There is another iteration, behind which these are left.
    More(Groups),
    /// There is none.
    NoMore,
    /// The error's text.
    Fails(Text),
}

/// The test of `foreach` before an iteration: where items are left, the variables in a frame are given theirs, the empty text where
/// a list has none left (foreach(n)). Where one can't be set, it is that error (17 to 19), and those before it stay set.
pub fn items_tested(
    alloc: Global,
    scopes: &mut Scopes,
    frame: usize,
    groups: Groups,
) -> Result<Verdict, AllocError>
    requires { frame < length scopes.old }
    ensures { IfOk result (λ verdict. tested_as verdict scopes.new ≡ items_tested frame groups scopes.old) }
{
    if !groups.has_more() {
        return Ok(Verdict::NoMore);
    }
    let mut groups = groups.into_vec();
    match assign_groups(alloc, scopes, frame, groups.as_mut_slice())? {
        Some(text) => Ok(Verdict::Fails(text)),
        None => Ok(Verdict::More(Groups::of_vec(groups))),
    }
}

/// By hand: a proof sees one call where it is dropped, and not its parts.
impl Drop for Looping {
    fn drop(self) {
        let Looping { looping: _ } = self;
    }
}
