use std::cell::Cell;
use std::marker::Model;
use tcl_text::Text;

/// The name of a variable in an expression, with a hint where the variable stands. Contracts see the name.
#[derive(Drop)]
pub struct VariableName {
    name: Text,
    hint: Cell<u32>,
}

impl Model for VariableName {
    ghost use Rattle.std.specs.Prelude.{ℕ, List};

    ghost Value = { List ℕ };

    ghost view = { λ v. v.name };
}

impl VariableName {
    ghost use Rattle.std.specs.Prelude.{◌≡◌};

    /// This name.
    pub fn new(name: Text) -> VariableName
        ensures { result ≡ name }
    {
        VariableName {
            name,
            hint: Cell::new(0),
        }
    }

    /// The name.
    pub fn text(&self) -> &Text
        ensures { result.now ≡ self.now }
    {
        &self.name
    }

    /// A number that whoever looks the variable up may keep with its name: no contract sees it, and it is 0 at first.
    pub fn hint(&self) -> &Cell<u32> {
        &self.hint
    }
}
