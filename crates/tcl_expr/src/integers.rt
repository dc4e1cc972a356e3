use arrayvec::ArrayVec;
use std::marker::Model;

/// How many integers wait for an operator at most.
const ROOM: usize = 8;

/// The integers that wait for an operator, which contracts see with the topmost first.
#[derive(Drop)]
pub struct Integers {
    held: ArrayVec<i64, ROOM>,
}

impl Model for Integers {
    ghost use Rattle.std.specs.Prelude.{ℤ, List, reverse};

    ghost Value = { List ℤ };

    ghost view = { λ i. reverse i.held.items };
}

impl Integers {
    ghost use Rattle.std.specs.Prelude.{◌≡◌, [], ◌∷◌, OnSome};
    ghost use Rattle.tcl_expr.specs.Straight.{top_integer, without_integer};

    /// No integers.
    pub fn new() -> Integers
        ensures { result ≡ [] }
    {
        Integers {
            held: ArrayVec::new(),
        }
    }

    /// Adds an integer, if there is room.
    pub fn push(&mut self, number: i64) -> Option<()>
        ensures { OnSome result (self.new ≡ number ∷ self.old) }
    {
        self.held.try_push(number).ok()
    }

    /// Takes the topmost integer, or gives 0 where there is none.
    pub fn pop(&mut self) -> i64
        ensures top { result ≡ top_integer self.old }
        ensures below { self.new ≡ without_integer self.old }
    {
        self.held.pop().unwrap_or(0)
    }
}
